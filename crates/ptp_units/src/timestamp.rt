ghost use Rattle.std.specs.Prelude.{◌≡◌, ◌<◌, ◌^◌, ◌*◌, ◌/◌, ◌%◌, MatchResult};
ghost use Rattle.ptp_units.specs.Moment.{Stamp, IsStamp, stamp};
ghost use Rattle.ptp_units.specs.Refusal.{timestamp_refusal};

use crate::refusal::UnitRefusal;
use std::marker::Model;

/// A second, in nanoseconds.
const SECOND: u64 = 1_000_000_000;

/// The base in which nanoseconds are divided, 2^32: two digits of it hold them.
const BASE: u64 = 4_294_967_296;

/// A time of the protocol's timescale, in seconds below 2^48 and nanoseconds below 10^9
/// (IEEE 1588-2019, 5.3.3).
#[derive(Clone, Copy, Debug, PartialEq, Eq, PartialOrd, Ord, Hash)]
pub struct Timestamp {
    seconds: u64,
    nanos: u32,
}

impl Model for Timestamp {
    ghost Value = { Stamp };

    ghost view = { λ t. record { seconds = t.seconds; nanos = t.nanos } };

    ghost invariant = { λ t. IsStamp (record { seconds = t.seconds; nanos = t.nanos }) };

    ghost inverse = { λ s. record { seconds = s.seconds; nanos = s.nanos } };
}

impl Timestamp {
    /// The timestamp of these seconds and nanoseconds. Refused with 102 where the seconds don't
    /// fit 48 bits, else with 103 where the nanoseconds are 10^9 or more.
    pub fn new(seconds: u64, nanos: u32) -> Result<Timestamp, UnitRefusal>
        ensures { MatchResult result
            (λ t. (t ≡ stamp seconds nanos) × (timestamp_refusal seconds nanos ≡ None))
            (λ e. timestamp_refusal seconds nanos ≡ Some e) }
    {
        if seconds >= 1 << 48 {
            return Err(UnitRefusal::Seconds);
        }
        if nanos >= 1_000_000_000 {
            return Err(UnitRefusal::Nanoseconds);
        }
        Ok(Timestamp { seconds, nanos })
    }

    /// The timestamp of a number of whole nanoseconds.
    pub(crate) fn of_nanoseconds(nanoseconds: u128) -> Timestamp
        requires { nanoseconds < 2 ^ 48 * 10 ^ 9 }
        ensures { result ≡ stamp (nanoseconds / 1000000000) (nanoseconds % 1000000000) }
    {
        let high = (nanoseconds / u128::from(BASE)) as u64;
        let low = (nanoseconds % u128::from(BASE)) as u64;
        let rest = high % SECOND * BASE + low;
        Timestamp {
            seconds: high / SECOND * BASE + rest / SECOND,
            nanos: (rest % SECOND) as u32,
        }
    }

    /// Whole seconds, below 2^48.
    pub fn seconds(self) -> u64
        ensures value { result ≡ self.seconds }
        ensures within { result < 2 ^ 48 }
    {
        self.seconds
    }

    /// Nanoseconds past the second, below 10^9.
    pub fn nanos(self) -> u32
        ensures value { result ≡ self.nanos }
        ensures within { result < 10 ^ 9 }
    {
        self.nanos
    }
}

impl Default for Timestamp {
    ghost is_default = { λ t. t ≡ stamp 0 0 };

    /// The beginning of the timescale.
    fn default() -> Self {
        Timestamp {
            seconds: 0,
            nanos: 0,
        }
    }
}
