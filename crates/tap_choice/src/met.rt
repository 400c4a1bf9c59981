use event_codec::{Body, Header};
use ptp_units::ScaledTime;

/// One of two taps.
#[derive(Clone, Copy, Debug, PartialEq, Eq)]
pub enum Side {
    /// The one that is asked for as `from`, or else the first that was met.
    First,
    /// The other.
    Second,
}

/// A message that was met at one of two taps, without what stands behind its fields.
#[derive(Clone, Copy, Debug, PartialEq, Eq)]
pub struct Met {
    /// At which tap.
    pub side: Side,
    /// Its line, or its packet.
    pub line: u64,
    /// When it was met, by the tap.
    pub time: ScaledTime,
    /// The fields that all messages have.
    pub header: Header,
    /// The fields of its own type.
    pub body: Body,
}

impl Side {
    ghost use Rattle.std.specs.Prelude.{◌≡◌};
    ghost use Rattle.tap_choice.specs.Known.{other_side};

    /// The other one of the two taps.
    pub fn other(self) -> Side
        ensures { result ≡ other_side self }
    {
        match self {
            Side::First => Side::Second,
            Side::Second => Side::First,
        }
    }
}
