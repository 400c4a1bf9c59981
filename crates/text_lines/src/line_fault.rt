//! Why a line is answered no further, where it is no JSON.
ghost use Rattle.std.specs.Prelude.{◌≡◌};
ghost use Rattle.text_lines.specs.Fault.{line_number, no_refusal};
ghost use Rattle.text_lines.specs.declared.line_fault.LineFault.TheVariants.{Memory, Write};

use crate::numbered::Numbered;
use crate::writing::WriteFailed;
use std::alloc::{AllocError, AllocFailed};

/// Why a line isn't answered.
#[derive(Clone, Copy, Debug, PartialEq, Eq)]
pub enum LineFault {
    /// The writer failed.
    Write,
    /// The line isn't what is asked for.
    Field,
    /// Memory was refused.
    Memory,
}

impl Numbered for LineFault {
    ghost number_of = { line_number };

    ghost refusal_of = { no_refusal };

    fn number(&self) -> u16 {
        match self {
            LineFault::Write => 802,
            LineFault::Field => 806,
            LineFault::Memory => 808,
        }
    }

    fn refusal(&self) -> Option<u16> {
        None
    }
}

impl From<WriteFailed> for LineFault {
    ghost from_gives = { λ _ fault. fault ≡ Write };

    fn from(_failed: WriteFailed) -> LineFault {
        LineFault::Write
    }
}

impl From<AllocError> for LineFault {
    ghost from_gives = { λ _ fault. fault ≡ Memory };

    fn from(_refused: AllocError) -> LineFault {
        LineFault::Memory
    }
}

impl<T: Drop> From<AllocFailed<T>> for LineFault {
    ghost from_gives = { λ _ fault. fault ≡ Memory };

    fn from(_refused: AllocFailed<T>) -> LineFault {
        LineFault::Memory
    }
}
