//! What the messages of a recording say against the numbers.
ghost use Rattle.std.specs.Prelude.{Some};
ghost use Rattle.recording_words.specs.Bewares.{next_text, end_text, silence_text, lags_text, repeated_text, falls_text};
ghost use Rattle.recording_words.specs.Bewares.{missing_text, corrected_text, cut_text};

use crate::beware_parts::{First, NANOSECOND};
use crate::times::{Place, Tenths};
use crate::unit::InputUnit;
use datagram_text::Identity;
use recording_summary::{Lost, Newcomer};
use statistics::Cases;
use std::fmt;
use std::fmt::{Display, Formatter};

/// The master whose Syncs begin where those of another one end.
#[derive(Clone, Copy)]
struct Next {
    unit: InputUnit,
    newcomer: Option<Newcomer>,
}

#[tactic(auto, unfolding(crate::specs::Bewares::next_text))]
impl Display for Next {
    ghost output = { λ x. Some (next_text x.unit x.newcomer) };

    fn fmt<W: fmt::Write>(&self, f: &mut Formatter<W>) -> fmt::Result {
        match self.newcomer {
            Some(Newcomer { port, line, .. }) => {
                let place = Place {
                    unit: self.unit,
                    number: line,
                };
                let port = Identity(&port);
                write!(
                    f,
                    ", and those of {port} begin {place}; --master {port} measures by them"
                )
            }
            None => f.write_str(": it went away"),
        }
    }
}

/// Syncs that end before the recording does.
#[derive(Clone, Copy)]
pub(crate) struct SyncsEnd {
    pub(crate) unit: InputUnit,
    pub(crate) tenths: u128,
    pub(crate) newcomer: Option<Newcomer>,
}

#[tactic(auto, unfolding(crate::specs::Bewares::end_text))]
impl Display for SyncsEnd {
    ghost output = { λ x. Some (end_text x.unit x.tenths x.newcomer) };

    fn fmt<W: fmt::Write>(&self, f: &mut Formatter<W>) -> fmt::Result {
        let next = Next {
            unit: self.unit,
            newcomer: self.newcomer,
        };
        write!(
            f,
            "the Syncs of the master end {} s before the recording does{next}",
            Tenths(self.tenths)
        )
    }
}

/// Reports that end before the recording does.
#[derive(Clone, Copy)]
pub(crate) struct ReportsEnd(pub(crate) u128);

#[tactic(auto, unfolding(crate::specs::Bewares::silence_text))]
impl Display for ReportsEnd {
    ghost output = { λ tenths. Some (silence_text tenths.0) };

    fn fmt<W: fmt::Write>(&self, f: &mut Formatter<W>) -> fmt::Result {
        write!(
            f,
            "no report is of the last {} s: the slave went away, or it follows another master, whom --master picks, or nobody answers it",
            Tenths(self.0)
        )
    }
}

/// How much later messages came that repeat others, where that is known, in units of 2^-16 ns.
#[derive(Clone, Copy)]
struct Lags {
    least: Option<u128>,
    greatest: Option<u128>,
}

#[tactic(auto, unfolding(crate::specs::Bewares::lags_text))]
impl Display for Lags {
    ghost output = { λ lags. Some (lags_text lags.least lags.greatest) };

    fn fmt<W: fmt::Write>(&self, f: &mut Formatter<W>) -> fmt::Result {
        match (self.least, self.greatest) {
            (Some(least), Some(greatest)) => write!(
                f,
                ", from {} to {} ns after the first",
                least / NANOSECOND,
                greatest / NANOSECOND
            ),
            _ => Ok(()),
        }
    }
}

/// Messages with a number that came before.
#[derive(Clone, Copy)]
pub(crate) struct Repeated {
    pub(crate) count: u64,
    pub(crate) least: Option<u128>,
    pub(crate) greatest: Option<u128>,
}

#[tactic(auto, unfolding(crate::specs::Bewares::repeated_text))]
impl Display for Repeated {
    ghost output = { λ x. Some (repeated_text x.count x.least x.greatest) };

    fn fmt<W: fmt::Write>(&self, f: &mut Formatter<W>) -> fmt::Result {
        let lags = Lags {
            least: self.least,
            greatest: self.greatest,
        };
        write!(
            f,
            "messages with a number that came before: {}{lags}; a mirror of both directions writes each twice, and the first of each was \
             used",
            self.count
        )
    }
}

/// Times that are before the one before.
#[derive(Clone, Copy)]
pub(crate) struct OutOfOrder {
    pub(crate) unit: InputUnit,
    pub(crate) falls: u64,
}

#[tactic(auto, unfolding(crate::specs::Bewares::falls_text))]
impl Display for OutOfOrder {
    ghost output = { λ x. Some (falls_text x.unit x.falls) };

    fn fmt<W: fmt::Write>(&self, f: &mut Formatter<W>) -> fmt::Result {
        let Self { unit, falls } = *self;
        write!(
            f,
            "times that are before that of the {unit} before: {falls}; a clock was set, or the {unit}s aren't in order, and what is told of \
             missing messages may come of that: reordercap sorts a capture"
        )
    }
}

/// Messages that are missing, of so many.
#[derive(Clone, Copy)]
pub(crate) struct Missing {
    pub(crate) lost: Lost,
    pub(crate) what: &'static str,
}

#[tactic(auto, unfolding(crate::specs::Bewares::missing_text))]
impl Display for Missing {
    ghost output = { λ x. Some (missing_text x.lost x.what.now) };

    fn fmt<W: fmt::Write>(&self, f: &mut Formatter<W>) -> fmt::Result {
        write!(f, "{} of {} {}", self.lost.missing, self.lost.of, self.what)
    }
}

/// Delay_Reqs that have a correction where they were recorded.
#[derive(Clone, Copy)]
pub(crate) struct Corrected {
    pub(crate) unit: InputUnit,
    pub(crate) cases: Cases,
}

#[tactic(auto, unfolding(crate::specs::Bewares::corrected_text))]
impl Display for Corrected {
    ghost output = { λ x. Some (corrected_text x.unit x.cases) };

    fn fmt<W: fmt::Write>(&self, f: &mut Formatter<W>) -> fmt::Result {
        let Cases { count, first } = self.cases;
        let first = First {
            unit: self.unit,
            point: first,
        };
        write!(
            f,
            "Delay_Reqs that have a correction where they were recorded: {count}, {first}; a transparent clock stands between the slave \
             and this place, and both results are off by half of the time in it, unless the slave itself corrects an asymmetry: record in \
             front of it"
        )
    }
}

/// Datagrams that are cut short.
#[derive(Clone, Copy)]
pub(crate) struct CutShort(pub(crate) u64);

#[tactic(auto, unfolding(crate::specs::Bewares::cut_text))]
impl Display for CutShort {
    ghost output = { λ cut. Some (cut_text cut.0) };

    fn fmt<W: fmt::Write>(&self, f: &mut Formatter<W>) -> fmt::Result {
        write!(
            f,
            "datagrams that are cut short (201, 205): {}; a snap length does that, so record whole packets",
            self.0
        )
    }
}
