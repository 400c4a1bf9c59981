//! Whose readings are taken of an input.

/// Whose readings are taken of an input, for when messages left a slave and came to it.
#[derive(Clone, Copy, Debug, PartialEq, Eq)]
pub enum Readings {
    /// Those of what was captured: the times of its lines or packets, by the clock that stamped them.
    Captured,
    /// The slave's own, which it tells in Signaling messages (IEEE 1588-2019, 16.11).
    Own,
}
