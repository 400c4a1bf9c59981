//! Faults that are told by their numbers.
ghost use Rattle.std.specs.Prelude.{◌≡◌, ℕ, Option};
ghost use Rattle.text_lines.specs.Fault.{reading_number, no_refusal, number_by, refusal_by};

use crate::fault::{Cause, ReadingFault};

/// A fault that is told by its number, whoever answers it.
pub trait Numbered {
    ghost number_of: { Self → ℕ };

    ghost refusal_of: { Self → Option ℕ };

    /// The number of the fault.
    fn number(&self) -> u16
        ensures { result ≡ number_of self.now };

    /// The number of the refusal that the fault is about, where it is about one.
    fn refusal(&self) -> Option<u16>
        ensures { result ≡ refusal_of self.now };
}

impl Numbered for ReadingFault {
    ghost number_of = { reading_number };

    ghost refusal_of = { no_refusal };

    fn number(&self) -> u16 {
        match self {
            ReadingFault::Read => 801,
            ReadingFault::LineTooLong => 803,
            ReadingFault::TooManyLines => 804,
        }
    }

    fn refusal(&self) -> Option<u16> {
        None
    }
}

impl<F: Numbered> Numbered for Cause<F> {
    ghost number_of = { number_by F.number_of };

    ghost refusal_of = { refusal_by F.refusal_of };

    fn number(&self) -> u16 {
        match self {
            Cause::Reading(fault) => fault.number(),
            Cause::Task(fault) => fault.number(),
        }
    }

    fn refusal(&self) -> Option<u16> {
        match self {
            Cause::Reading(fault) => fault.refusal(),
            Cause::Task(fault) => fault.refusal(),
        }
    }
}
