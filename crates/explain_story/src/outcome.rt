//! What becomes of a message at a slave.

use exchange_check::TraceOut;
use network_model::Heard;
use std::fmt;
use std::fmt::{Display, Formatter};

/// What becomes of a message at a slave, whatever a report has.
#[derive(Clone, Copy, Debug, PartialEq, Eq)]
pub(crate) enum SlaveOutcome {
    /// The slave holds it.
    Held,
    /// It completes a half of a report.
    Completed,
    /// It completes one, and there is a report.
    Report,
    /// It is ignored, for this reason.
    Ignored(u16),
    /// None of these is said.
    Otherwise,
}

impl SlaveOutcome {
    /// What a transcript says of it.
    pub(crate) fn said(out: &TraceOut) -> SlaveOutcome {
        match out {
            TraceOut::Held => SlaveOutcome::Held,
            TraceOut::Completed => SlaveOutcome::Completed,
            TraceOut::Report(_) => SlaveOutcome::Report,
            TraceOut::Ignored(code) => SlaveOutcome::Ignored(*code),
            _ => SlaveOutcome::Otherwise,
        }
    }

    /// What a port answers.
    pub(crate) fn answered(heard: &Heard) -> SlaveOutcome {
        match heard {
            Heard::Held => SlaveOutcome::Held,
            Heard::Completed => SlaveOutcome::Completed,
            Heard::Report(_) => SlaveOutcome::Report,
            Heard::Ignored(reason) => SlaveOutcome::Ignored(reason.code()),
        }
    }
}

impl Display for SlaveOutcome {
    fn fmt<W: fmt::Write>(&self, f: &mut Formatter<W>) -> fmt::Result {
        match self {
            SlaveOutcome::Held => f.write_str("held"),
            SlaveOutcome::Completed => f.write_str("completed"),
            SlaveOutcome::Report => f.write_str("report"),
            SlaveOutcome::Ignored(code) => write!(f, "ignored {code}"),
            SlaveOutcome::Otherwise => f.write_str("something else"),
        }
    }
}
