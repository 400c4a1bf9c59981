//! What is told of one line of a transcript.

use network_model::Event;
use ptp_units::{ScaledTime, Seq};

/// A line that counts: its node is of the kind that its event is for, and the event was neither refused nor ignored.
#[derive(Clone, Copy, Debug, PartialEq, Eq)]
pub struct KeptLine {
    /// The event's place among the events, from 0.
    pub number: u64,
    /// The event.
    pub event: Event,
    /// What the node's clock is said to have read, in units of 2^-16 ns; 0 where nothing is said.
    pub reading: ScaledTime,
    /// The sequenceId that the event drew; 0 where it draws none.
    pub sequence: Seq,
    /// Whether it made a message.
    pub made: bool,
    /// Whether a message completed a pair.
    pub completes: bool,
    /// Whether its reading is there and is what its clock showed; of an event without a true moment it never is.
    pub reads_right: bool,
    /// Whether it made a message, with the octets that its port or its clock writes.
    pub writes_right: bool,
    /// The last two-step Sync that its node sent before it, by its place among the events.
    pub last_sync: Option<u64>,
}

/// What came of an event that doesn't count.
#[derive(Clone, Copy, Debug, PartialEq, Eq)]
pub enum Came {
    /// It was refused, with this number.
    Refused(u16),
    /// It was ignored, with the number of the reason.
    Ignored(u16),
    /// It can't have come out so, at a node of this kind, or there is no such node.
    Otherwise,
}

/// A line that doesn't count.
#[derive(Clone, Copy, Debug, PartialEq, Eq)]
pub struct Uncounted {
    /// The event.
    pub event: Event,
    /// What is said to have come of it.
    pub came: Came,
}

/// A reading that isn't that of its clock, at an event that has a true moment.
#[derive(Clone, Copy, Debug, PartialEq, Eq)]
pub struct WrongReading {
    /// What the clock is said to have read, in units of 2^-16 ns; none where nothing is said.
    pub reading: Option<ScaledTime>,
    /// The last event before it that set this clock, by its place among the events; none where none did.
    pub set: Option<u64>,
}
