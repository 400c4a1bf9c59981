use ptp_units::ScaledTime;
use slave_port::Heard;

/// What an event that happened brought about.
#[derive(Clone, Copy, Debug, PartialEq, Eq)]
pub enum Outcome {
    /// It is done, and there is nothing else to say of it.
    Done,
    /// It made a message, whose copies are called by the event's tag.
    Made,
    /// A message entered a transparent clock, and its stay is called by the event's tag.
    Entered,
    /// A slave heard a message.
    Heard(Heard),
    /// A port or a clock refused it, with the number of that refusal.
    Refused(u16),
}

/// What became of an event that happened.
#[derive(Clone, Copy, Debug, PartialEq, Eq)]
pub struct Stepped {
    /// The event's tag: how many events happened before it.
    pub tag: u64,
    /// What the node's clock read, where the event has a moment, in units of 2^-16 ns.
    pub reading: Option<ScaledTime>,
    /// What the event brought about.
    pub outcome: Outcome,
}
