ghost use Rattle.std.specs.Prelude.{◌≡◌, ◌<◌, ◌≤◌, ℕ, pos, ◌+ℤ◌, MatchResult, ok_or};
ghost use Rattle.ptp_units.specs.Moment.{bound, moment, moment_of, stamp_of, fraction_of};

use crate::refusal::UnitRefusal;
use crate::timestamp::Timestamp;
use std::marker::Model;

/// The number of moments: 2^48 s in units of 2^-16 ns.
pub const BOUND: u128 = 18_446_744_073_709_551_616_000_000_000;

/// A moment: a whole number of 2^-16 ns since the beginning of the timescale, below [`BOUND`].
#[derive(Clone, Copy, Debug, PartialEq, Eq, PartialOrd, Ord, Hash)]
pub struct ScaledTime {
    units: u128,
}

impl Model for ScaledTime {
    ghost Value = { ℕ };

    ghost view = { λ t. t.units };

    ghost invariant = { λ t. t.units < bound };

    ghost inverse = { λ units. record { units = units } };
}

impl ScaledTime {
    /// The moment of this many units. Refused with 101 from [`BOUND`] on.
    pub fn new(units: u128) -> Result<ScaledTime, UnitRefusal>
        ensures { MatchResult result
            (λ t. (t ≡ units) × (units < bound))
            (λ e. (e ≡ UnitRefusal.OutOfRange) × (bound ≤ units)) }
    {
        if units >= BOUND {
            return Err(UnitRefusal::OutOfRange);
        }
        Ok(ScaledTime { units })
    }

    /// The number of units, below [`BOUND`].
    pub fn value(self) -> u128
        ensures value { result ≡ self }
        ensures within { result < bound }
    {
        self.units
    }

    /// The number of units, from 0 to below [`BOUND`], as a signed number.
    pub fn signed_units(self) -> i128
        ensures value { result ≡ pos self }
        ensures within { self < bound }
    {
        self.value() as i128
    }

    /// The moment that is later by this many units, or earlier where the number is negative. Refused
    /// with 101 where that is no moment.
    pub fn shifted(self, units: i128) -> Result<ScaledTime, UnitRefusal>
        ensures { result ≡ ok_or (moment_of (pos self +ℤ units)) UnitRefusal.OutOfRange }
    {
        let size = units.unsigned_abs();
        let sum = if units < 0 {
            self.value().checked_sub(size)
        } else {
            self.value().checked_add(size)
        };
        match sum {
            Some(units) => ScaledTime::new(units),
            None => Err(UnitRefusal::OutOfRange),
        }
    }

    /// The timestamp without its fraction of a nanosecond, and that fraction in units.
    pub fn split(self) -> (Timestamp, u16)
        ensures names { moment result.0 result.1 ≡ self }
        ensures exact { result ≡ (stamp_of self, fraction_of self) }
    {
        let fraction = (self.units % 65_536) as u16;
        (Timestamp::of_nanoseconds(self.units / 65_536), fraction)
    }

    /// The one moment that a timestamp and a fraction of a nanosecond name.
    pub fn join(timestamp: Timestamp, fraction: u16) -> ScaledTime
        ensures { result ≡ moment timestamp fraction }
    {
        let nanoseconds = u128::from(timestamp.seconds()) * 1_000_000_000
            + u128::from(timestamp.nanos());
        ScaledTime {
            units: nanoseconds * 65_536 + u128::from(fraction),
        }
    }
}

impl Default for ScaledTime {
    ghost is_default = { λ t. t ≡ 0 };

    /// The beginning of the timescale.
    fn default() -> Self {
        ScaledTime { units: 0 }
    }
}
