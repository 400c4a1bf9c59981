ghost use Rattle.std.specs.Prelude.{◌≡◌, ◌<ℤ◌, ◌≤ℤ◌, MatchResult};

use crate::refusal::UnitRefusal;

/// A correctionField: a signed number of 2^-16 ns (IEEE 1588-2019, 13.3.2.9).
#[derive(Clone, Copy, Debug, PartialEq, Eq, Hash)]
pub struct Interval(pub i64);

/// The correctionField that says 'too big to be represented'.
pub const TOO_BIG: Interval = Interval(i64::MAX);

impl Interval {
    ghost use Rattle.ptp_units.specs.Interval.{exact, less_fraction, least, with_residence};

    /// The number of units, or None for too big.
    pub fn exact(self) -> Option<i64>
        ensures { result ≡ exact self.0 }
    {
        if self == TOO_BIG { None } else { Some(self.0) }
    }

    /// The sum with a residence time in units: too big from 2^63 - 1 on, and too big stays.
    pub fn plus_residence(self, residence: u128) -> Interval
        ensures { result.0 ≡ with_residence self.0 residence }
    {
        let room = (i128::from(i64::MAX) - i128::from(self.0)) as u128;
        if residence >= room {
            return TOO_BIG;
        }
        Interval((i128::from(self.0) + residence as i128) as i64)
    }

    /// The difference with a fraction of a nanosecond in units; too big stays. Refused with 104
    /// where the difference falls below -2^63.
    pub fn minus_fraction(self, fraction: u16) -> Result<Interval, UnitRefusal>
        ensures { MatchResult result
            (λ c. (c.0 ≡ less_fraction self.0 fraction) × (least ≤ℤ less_fraction self.0 fraction))
            (λ e. (e ≡ UnitRefusal.TooLow) × (less_fraction self.0 fraction <ℤ least)) }
    {
        if self == TOO_BIG {
            return Ok(self);
        }
        match self.0.checked_sub(i64::from(fraction)) {
            Some(units) => Ok(Interval(units)),
            None => Err(UnitRefusal::TooLow),
        }
    }
}
