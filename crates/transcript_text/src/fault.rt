ghost use Rattle.std.specs.Prelude.{◌≡◌};

use network_model::WorldRefusal;
use schedule_reading::TaskFault;
use std::fmt;
use std::fmt::{Display, Formatter};
use text_lines::{Cause, LineFault, Numbered, ReadingFault, Stopped};
use thiserror::Error;

/// A fault that ended the reading of lines, and where. The display text says both in words.
#[derive(Clone, Copy, Debug, PartialEq, Eq, Error)]
#[error("fault {what} at line {line}: {}", InWords(*.what))]
pub struct Fault {
    /// The line that was being read or answered, counted from 1. After the last line this is the
    /// number that the next one would have.
    pub line: u64,
    /// What went wrong.
    pub what: FaultKind,
}

/// The kinds of faults. Their display text is their number.
#[derive(Clone, Copy, Debug, PartialEq, Eq, Error)]
pub enum FaultKind {
    /// The reader failed.
    #[error("801")]
    Read,
    /// The writer failed.
    #[error("802")]
    Write,
    /// A line has more than 4,096 octets before its LF.
    #[error("803")]
    LineTooLong,
    /// There is an octet after the last line that is allowed, the 1,048,576th.
    #[error("804")]
    TooManyLines,
    /// A line isn't UTF-8 or isn't JSON.
    #[error("805")]
    Json,
    /// A line isn't what is asked for.
    #[error("806")]
    Field,
    /// The nodes are no network, or an event can't happen in it, for this reason.
    #[error("807")]
    World(WorldRefusal),
    /// Memory was refused.
    #[error("808")]
    Memory,
}

impl FaultKind {
    ghost use Rattle.transcript_text.specs.Fault.{code_of};

    /// The number of the fault.
    pub fn code(&self) -> u16
        ensures { result ≡ code_of self.now }
    {
        match self {
            FaultKind::Read => 801,
            FaultKind::Write => 802,
            FaultKind::LineTooLong => 803,
            FaultKind::TooManyLines => 804,
            FaultKind::Json => 805,
            FaultKind::Field => 806,
            FaultKind::World(_) => 807,
            FaultKind::Memory => 808,
        }
    }
}

impl Numbered for FaultKind {
    ghost use Rattle.transcript_text.specs.Fault.{code_of, refusal_of};

    ghost number_of = { code_of };

    ghost refusal_of = { refusal_of };

    fn number(&self) -> u16 {
        self.code()
    }

    fn refusal(&self) -> Option<u16> {
        match self {
            FaultKind::World(why) => Some(why.code()),
            _ => None,
        }
    }
}

/// A kind of fault, as words say it.
#[derive(Clone, Copy)]
struct InWords(FaultKind);

impl Display for InWords {
    fn fmt<W: fmt::Write>(&self, f: &mut Formatter<W>) -> fmt::Result {
        match self.0 {
            FaultKind::Read => f.write_str("the input can't be read"),
            FaultKind::Write => f.write_str("the output can't be written"),
            FaultKind::LineTooLong => f.write_str("the line has more than 4096 octets"),
            FaultKind::TooManyLines => {
                f.write_str("an octet comes after the last of 1048576 lines")
            }
            FaultKind::Json => f.write_str("the line isn't UTF-8, or isn't JSON"),
            FaultKind::Field => f.write_str("the line isn't what is asked for"),
            FaultKind::World(why) => write!(f, "{why} ({})", why.code()),
            FaultKind::Memory => f.write_str("memory was refused"),
        }
    }
}

impl From<ReadingFault> for FaultKind {
    ghost use Rattle.transcript_text.specs.Fault.{of_reading};

    ghost from_gives = { λ what kind. kind ≡ of_reading what };

    fn from(what: ReadingFault) -> FaultKind {
        match what {
            ReadingFault::Read => FaultKind::Read,
            ReadingFault::LineTooLong => FaultKind::LineTooLong,
            ReadingFault::TooManyLines => FaultKind::TooManyLines,
        }
    }
}

impl From<TaskFault> for FaultKind {
    ghost use Rattle.transcript_text.specs.Fault.{of_task};

    ghost from_gives = { λ fault kind. kind ≡ of_task fault };

    fn from(fault: TaskFault) -> FaultKind {
        match fault {
            TaskFault::Write => FaultKind::Write,
            TaskFault::Json => FaultKind::Json,
            TaskFault::Field => FaultKind::Field,
            TaskFault::World(why) => FaultKind::World(why),
            TaskFault::Memory => FaultKind::Memory,
        }
    }
}

impl From<LineFault> for FaultKind {
    ghost use Rattle.transcript_text.specs.Fault.{of_line};

    ghost from_gives = { λ fault kind. kind ≡ of_line fault };

    fn from(fault: LineFault) -> FaultKind {
        match fault {
            LineFault::Write => FaultKind::Write,
            LineFault::Field => FaultKind::Field,
            LineFault::Memory => FaultKind::Memory,
        }
    }
}

impl From<Stopped<Cause<TaskFault>>> for Fault {
    ghost use Rattle.transcript_text.specs.Fault.{kind_by, of_task};

    ghost from_gives = { λ stop fault. (fault.line ≡ stop.line) × (fault.what ≡ kind_by of_task stop.what) };

    fn from(stop: Stopped<Cause<TaskFault>>) -> Fault {
        let what = match stop.what {
            Cause::Reading(fault) => fault.into(),
            Cause::Task(fault) => fault.into(),
        };
        Fault {
            line: stop.line,
            what,
        }
    }
}

impl From<Stopped<Cause<LineFault>>> for Fault {
    ghost use Rattle.transcript_text.specs.Fault.{kind_by, of_line};

    ghost from_gives = { λ stop fault. (fault.line ≡ stop.line) × (fault.what ≡ kind_by of_line stop.what) };

    fn from(stop: Stopped<Cause<LineFault>>) -> Fault {
        let what = match stop.what {
            Cause::Reading(fault) => fault.into(),
            Cause::Task(fault) => fault.into(),
        };
        Fault {
            line: stop.line,
            what,
        }
    }
}
