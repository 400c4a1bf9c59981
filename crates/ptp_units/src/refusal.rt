ghost use Rattle.std.specs.Prelude.{◌≡◌};

use thiserror::Error;

/// Why a value is no moment, no timestamp or no correction.
#[derive(Clone, Copy, Debug, PartialEq, Eq, Error)]
pub enum UnitRefusal {
    /// The number of units is 2^48 s or more, or below 0.
    #[error("no moment: it is below 0, or 2^48 s or more")]
    OutOfRange,
    /// The seconds don't fit 48 bits.
    #[error("no timestamp: the seconds are 2^48 or more")]
    Seconds,
    /// The nanoseconds are a second or more.
    #[error("no timestamp: the nanoseconds are 10^9 or more")]
    Nanoseconds,
    /// The difference is below the least correctionField, -2^63.
    #[error("no correction: it is below -2^63 units of 2^-16 ns")]
    TooLow,
}

impl UnitRefusal {
    ghost use Rattle.ptp_units.specs.Refusal.{code_of};

    /// The number of the refusal.
    pub fn code(&self) -> u16
        ensures { result ≡ code_of self.now }
    {
        match self {
            UnitRefusal::OutOfRange => 101,
            UnitRefusal::Seconds => 102,
            UnitRefusal::Nanoseconds => 103,
            UnitRefusal::TooLow => 104,
        }
    }
}
