ghost use Rattle.std.specs.Prelude.{◌≡◌};

use std::alloc::AllocError;
use thiserror::Error;

/// Why there is no verdict.
#[derive(Clone, Copy, Debug, PartialEq, Eq, Error)]
pub enum CheckFault {
    /// Memory for a growth was refused, or a message was in clocks for 2^125 units of 2^-16 ns or longer,
    /// which takes more than 2^31 stays.
    #[error("memory was refused")]
    Memory,
}

impl CheckFault {
    ghost use Rattle.exchange_check.specs.Refusal.{code_of};

    /// The number of the fault.
    pub fn code(&self) -> u16
        ensures { result ≡ code_of self.now }
    {
        match self {
            CheckFault::Memory => 709,
        }
    }
}

impl From<AllocError> for CheckFault {
    ghost use Rattle.exchange_check.specs.declared.refusal.CheckFault.TheVariants.{Memory};

    ghost from_gives = { λ _ fault. fault ≡ Memory };

    fn from(_refused: AllocError) -> CheckFault {
        CheckFault::Memory
    }
}
