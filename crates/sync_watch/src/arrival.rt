use ptp_units::{ScaledTime, Seq};

/// A Sync or a Follow_Up of a master as it came: what its header says, and when that was.
#[derive(Clone, Copy, Debug, PartialEq, Eq)]
pub struct Arrival {
    /// sequenceId (IEEE 1588-2019, 7.3.7).
    pub number: Seq,
    /// unicastFlag (13.3.2.8).
    pub is_unicast: bool,
    /// logMessageInterval (13.3.2.14): the binary logarithm of the seconds between two such messages, where it is from -7 to 6;
    /// any other says nothing of it.
    pub log: i8,
    /// When it came, by one clock.
    pub time: ScaledTime,
}
