ghost use Rattle.std.specs.Prelude.{◌≡◌};

use std::alloc::AllocFailed;
use thiserror::Error;

/// Why there is no such network, or why an event can't happen in it.
#[derive(Clone, Copy, Debug, PartialEq, Eq, Error)]
pub enum WorldRefusal {
    /// Two nodes have one name.
    #[error("two nodes have one name")]
    SameName,
    /// Two ports have one identity.
    #[error("two ports have one identity")]
    SameIdentity,
    /// No node has this name.
    #[error("no node has this name")]
    NoNode,
    /// The event doesn't happen at nodes of this kind.
    #[error("the event doesn't happen at nodes of this kind")]
    WrongKind,
    /// No event of this tag sent a message.
    #[error("no event of this tag sent a message")]
    NoCopy,
    /// No message that entered by the event with this tag is still in this node.
    #[error("no message that entered by the event of this tag is still in this clock")]
    NoTransit,
    /// The node's clock would read no moment.
    #[error("the clock of the node would read no moment")]
    ReadingOutOfRange,
    /// No Sync waits for its Follow_Up, or no Delay_Req for its departure time.
    #[error("no Sync waits for its Follow_Up, or no Delay_Req for its departure time")]
    NothingWaiting,
    /// Memory for a growth was refused.
    #[error("memory was refused")]
    Memory,
}

/// Where a run of events ended early.
#[derive(Clone, Copy, Debug, PartialEq, Eq, Error)]
#[error("the run ended after {done} events: {why}")]
pub struct RunStop {
    /// How many events happened before.
    pub done: u64,
    /// Why the next one didn't.
    pub why: WorldRefusal,
}

impl WorldRefusal {
    ghost use Rattle.network_model.specs.Refusal.{code_of};

    /// The number of the refusal.
    pub fn code(&self) -> u16
        ensures { result ≡ code_of self.now }
    {
        match self {
            WorldRefusal::SameName => 601,
            WorldRefusal::SameIdentity => 602,
            WorldRefusal::NoNode => 603,
            WorldRefusal::WrongKind => 604,
            WorldRefusal::NoCopy => 605,
            WorldRefusal::NoTransit => 606,
            WorldRefusal::ReadingOutOfRange => 607,
            WorldRefusal::NothingWaiting => 608,
            WorldRefusal::Memory => 609,
        }
    }
}

impl<T: Drop> From<AllocFailed<T>> for WorldRefusal {
    ghost use Rattle.std.specs.Prelude.{◌≡◌};
    ghost use Rattle.network_model.specs.declared.refusal.WorldRefusal.TheVariants.{Memory};

    ghost from_gives = { λ _ why. why ≡ Memory };

    fn from(_refused: AllocFailed<T>) -> WorldRefusal {
        WorldRefusal::Memory
    }
}
