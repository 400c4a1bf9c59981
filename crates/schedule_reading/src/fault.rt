//! Why lines are taken no further.
ghost use Rattle.std.specs.Prelude.{◌≡◌};
ghost use Rattle.schedule_reading.specs.Fault.{fault_of, number_of, refusal_of};
ghost use Rattle.schedule_reading.specs.declared.fault.TaskFault.TheVariants.{Memory, Write};

use exchange_check::CheckFault;
use network_model::WorldRefusal;
use std::alloc::{AllocError, AllocFailed};
use text_lines::{Numbered, WriteFailed};

/// Why a line isn't taken, or the end has no answer.
#[derive(Clone, Copy, Debug, PartialEq, Eq)]
pub enum TaskFault {
    /// The writer failed.
    Write,
    /// A line isn't UTF-8 or isn't JSON.
    Json,
    /// A line isn't what is asked for.
    Field,
    /// The nodes are no network, or an event can't happen in it, for this reason.
    World(WorldRefusal),
    /// Memory was refused.
    Memory,
}

impl Numbered for TaskFault {
    ghost number_of = { number_of };

    ghost refusal_of = { refusal_of };

    fn number(&self) -> u16 {
        match self {
            TaskFault::Write => 802,
            TaskFault::Json => 805,
            TaskFault::Field => 806,
            TaskFault::World(_) => 807,
            TaskFault::Memory => 808,
        }
    }

    fn refusal(&self) -> Option<u16> {
        match self {
            TaskFault::World(why) => Some(why.code()),
            _ => None,
        }
    }
}

impl From<AllocError> for TaskFault {
    ghost from_gives = { λ _ fault. fault ≡ Memory };

    fn from(_refused: AllocError) -> TaskFault {
        TaskFault::Memory
    }
}

impl<T: Drop> From<AllocFailed<T>> for TaskFault {
    ghost from_gives = { λ _ fault. fault ≡ Memory };

    fn from(_refused: AllocFailed<T>) -> TaskFault {
        TaskFault::Memory
    }
}

impl From<WriteFailed> for TaskFault {
    ghost from_gives = { λ _ fault. fault ≡ Write };

    fn from(_failed: WriteFailed) -> TaskFault {
        TaskFault::Write
    }
}

impl From<CheckFault> for TaskFault {
    ghost from_gives = { λ _ fault. fault ≡ Memory };

    fn from(_refused: CheckFault) -> TaskFault {
        TaskFault::Memory
    }
}

impl From<WorldRefusal> for TaskFault {
    ghost from_gives = { λ why fault. fault ≡ fault_of why };

    fn from(why: WorldRefusal) -> TaskFault {
        match why {
            WorldRefusal::Memory => TaskFault::Memory,
            why => TaskFault::World(why),
        }
    }
}
