ghost use Rattle.std.specs.Prelude.{◌≡◌};
ghost use Rattle.network_model.specs.Run.{site_of, true_moment};
ghost use Rattle.network_model.specs.Kinds.{is_one_step_sync, draws_sync, is_follow, is_request, is_arrival};
ghost use Rattle.network_model.specs.Kinds.{is_hearing, named_copy, entered_copy, heard_copy};
ghost use Rattle.network_model.specs.Kinds.{named_transit, named_master, named_difference};

use crate::name::Name;
use ptp_units::ScaledTime;

/// What happens at a node. A moment is in units of 2^-16 ns and is the true one, from which the
/// node's own reading differs by what its last [`Event::StepClock`] set.
///
/// Events are counted from 0 as they are accepted, and an event's count is its tag. What an event
/// sends goes by that tag too: any number of later events may take it in or hear it.
#[derive(Clone, Copy, Debug, PartialEq, Eq)]
pub enum Event {
    /// A master sends a two-step Sync, which then waits for its Follow_Up.
    Sync {
        /// The master.
        node: Name,
        /// When the Sync departs.
        at: ScaledTime,
    },
    /// A master sends a one-step Sync, which tells by itself when it departs.
    SyncOne {
        /// The master.
        node: Name,
        /// When the Sync departs.
        at: ScaledTime,
    },
    /// A master sends the Follow_Up of the two-step Sync that waits.
    Follow {
        /// The master.
        node: Name,
    },
    /// A copy of a message enters a transparent clock.
    Enter {
        /// The transparent clock.
        node: Name,
        /// The copy, named by the tag under which it was made.
        copy: u64,
        /// When the copy enters.
        at: ScaledTime,
    },
    /// A message leaves the transparent clock that it entered, with its residence time added.
    Leave {
        /// The transparent clock.
        node: Name,
        /// The tag of the event by which the message entered.
        transit: u64,
        /// When the message leaves.
        at: ScaledTime,
    },
    /// A copy of an event message arrives at a master or at a slave, which stamps its arrival.
    Arrive {
        /// The master or the slave.
        node: Name,
        /// The copy, named by the tag under which it was made.
        copy: u64,
        /// When the copy arrives.
        at: ScaledTime,
    },
    /// A slave is handed a copy of a general message.
    Hear {
        /// The slave.
        node: Name,
        /// The copy, named by the tag under which it was made.
        copy: u64,
    },
    /// A slave sends a Delay_Req.
    Request {
        /// The slave.
        node: Name,
        /// When the Delay_Req departs.
        at: ScaledTime,
    },
    /// A slave learns when its last Delay_Req departed.
    Stamped {
        /// The slave.
        node: Name,
    },
    /// A slave's hold timer runs out once.
    Tick {
        /// The slave.
        node: Name,
    },
    /// A slave is told its present master.
    SetMaster {
        /// The slave.
        node: Name,
        /// The master that it follows from now on.
        master: Name,
    },
    /// The clock of a node is set.
    StepClock {
        /// The node, of any kind.
        node: Name,
        /// Its readings less the true moments from now on, in units of 2^-16 ns.
        diff: i128,
    },
}

impl Event {
    /// The node at which it happens.
    pub fn node(&self) -> Name
        ensures { result ≡ site_of self.now }
    {
        match self {
            Event::Sync { node, .. }
            | Event::SyncOne { node, .. }
            | Event::Follow { node }
            | Event::Enter { node, .. }
            | Event::Leave { node, .. }
            | Event::Arrive { node, .. }
            | Event::Hear { node, .. }
            | Event::Request { node, .. }
            | Event::Stamped { node }
            | Event::Tick { node }
            | Event::SetMaster { node, .. }
            | Event::StepClock { node, .. } => *node,
        }
    }

    /// Its true moment, in units of 2^-16 ns, or None for an event that has none.
    pub fn true_moment(&self) -> Option<ScaledTime>
        ensures { result ≡ true_moment self.now }
    {
        match self {
            Event::Sync { at, .. }
            | Event::SyncOne { at, .. }
            | Event::Enter { at, .. }
            | Event::Leave { at, .. }
            | Event::Arrive { at, .. }
            | Event::Request { at, .. } => Some(*at),
            _ => None,
        }
    }

    /// The copy that it takes, by its tag: one that enters a clock, arrives at a port or is heard.
    pub fn named_copy(&self) -> Option<u64>
        ensures { result ≡ named_copy self.now }
    {
        match self {
            Event::Enter { copy, .. } | Event::Arrive { copy, .. } | Event::Hear { copy, .. } => {
                Some(*copy)
            }
            _ => None,
        }
    }

    /// The copy that enters a clock, by its tag.
    pub fn entered_copy(&self) -> Option<u64>
        ensures { result ≡ entered_copy self.now }
    {
        match self {
            Event::Enter { copy, .. } => Some(*copy),
            _ => None,
        }
    }

    /// The copy that a port hears, by its tag: of an event message that arrives, or of a general one.
    pub fn heard_copy(&self) -> Option<u64>
        ensures { result ≡ heard_copy self.now }
    {
        match self {
            Event::Arrive { copy, .. } | Event::Hear { copy, .. } => Some(*copy),
            _ => None,
        }
    }

    /// The stay in a clock that it leaves, by the tag of the event by which the message entered.
    pub fn named_transit(&self) -> Option<u64>
        ensures { result ≡ named_transit self.now }
    {
        match self {
            Event::Leave { transit, .. } => Some(*transit),
            _ => None,
        }
    }

    /// The master that a slave is told.
    pub fn named_master(&self) -> Option<Name>
        ensures { result ≡ named_master self.now }
    {
        match self {
            Event::SetMaster { master, .. } => Some(*master),
            _ => None,
        }
    }

    /// The difference that it sets, in units of 2^-16 ns.
    pub fn named_difference(&self) -> Option<i128>
        ensures { result ≡ named_difference self.now }
    {
        match self {
            Event::StepClock { diff, .. } => Some(*diff),
            _ => None,
        }
    }

    /// Whether it is a master's one-step Sync.
    pub fn is_one_step_sync(&self) -> bool
        ensures { result ≡ is_one_step_sync self.now }
    {
        matches!(self, Event::SyncOne { .. })
    }

    /// Whether it draws a number for a Sync, two-step or one-step.
    pub fn draws_sync(&self) -> bool
        ensures { result ≡ draws_sync self.now }
    {
        matches!(self, Event::Sync { .. } | Event::SyncOne { .. })
    }

    /// Whether it is a master's Follow_Up.
    pub fn is_follow(&self) -> bool
        ensures { result ≡ is_follow self.now }
    {
        matches!(self, Event::Follow { .. })
    }

    /// Whether it is a slave's Delay_Req.
    pub fn is_request(&self) -> bool
        ensures { result ≡ is_request self.now }
    {
        matches!(self, Event::Request { .. })
    }

    /// Whether it is an arrival of an event message at a master or a slave.
    pub fn is_arrival(&self) -> bool
        ensures { result ≡ is_arrival self.now }
    {
        matches!(self, Event::Arrive { .. })
    }

    /// Whether it is the hearing of a general message by a slave.
    pub fn is_hearing(&self) -> bool
        ensures { result ≡ is_hearing self.now }
    {
        matches!(self, Event::Hear { .. })
    }
}
