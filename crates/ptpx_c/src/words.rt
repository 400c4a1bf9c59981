ghost use Rattle.std.specs.Prelude.{◌≡◌, ◌<◌, ◌≤◌, MatchResult, pos};
ghost use Rattle.std.specs.Int.{int_div_euclid};
ghost use Rattle.ptp_units.specs.Moment.{bound};
ghost use Rattle.ptpx_c.specs.Words.{units_of, signed_of, IsNarrowed};

use crate::refusal::InputRefusal;
use ptp_units::{ScaledTime, UnitRefusal};

/// 2^64.
const WORD: u128 = 18_446_744_073_709_551_616;

/// 2^64, signed.
const SIGNED_WORD: i128 = 18_446_744_073_709_551_616;

/// What twice a nanosecond is in units of 2^-16 ns.
const TWICE_NANOSECOND: i128 = 131_072;

/// A number of 2^-16 ns, `high * 2^64 + low`: a moment where it is below 2^48 s, which is
/// [`BOUND`](ptp_units::BOUND).
#[repr(C)]
#[derive(Clone, Copy)]
pub struct RawTime {
    /// The upper 64 bits.
    pub high: u64,
    /// The lower 64 bits.
    pub low: u64,
}

impl RawTime {
    /// The words of a moment.
    pub(crate) fn of(time: ScaledTime) -> RawTime
        ensures { units_of result ≡ time }
    {
        let units = time.value();
        RawTime {
            high: (units / WORD) as u64,
            low: (units % WORD) as u64,
        }
    }

    /// The moment. Refused with 101 from 2^48 s on.
    pub(crate) fn moment(self) -> Result<ScaledTime, UnitRefusal>
        ensures { MatchResult result
            (λ time. (time ≡ units_of self) × (units_of self < bound))
            (λ refusal. (refusal ≡ UnitRefusal.OutOfRange) × (bound ≤ units_of self)) }
    {
        ScaledTime::new(u128::from(self.high) * WORD + u128::from(self.low))
    }
}

/// A signed number, `high * 2^64 + low`.
#[repr(C)]
#[derive(Clone, Copy)]
pub struct RawSigned {
    /// The upper 64 bits, with the sign.
    pub high: i64,
    /// The lower 64 bits.
    pub low: u64,
}

impl RawSigned {
    /// The words of a number.
    pub(crate) fn of(value: i128) -> RawSigned
        ensures { signed_of result ≡ value }
    {
        RawSigned {
            high: value.div_euclid(SIGNED_WORD) as i64,
            low: value.rem_euclid(SIGNED_WORD) as u64,
        }
    }

    /// The number.
    pub(crate) fn value(self) -> i128
        ensures { result ≡ signed_of self }
    {
        i128::from(self.high) * SIGNED_WORD + i128::from(self.low)
    }
}

/// The number in 64 bits. Refused with 909 where it doesn't fit, and `narrow` stays then.
#[unsafe(no_mangle)]
pub extern "C" fn ptpx_raw_signed_to_int64(value: RawSigned, narrow: &mut i64) -> u16
    ensures { IsNarrowed (signed_of value) result narrow.old narrow.new }
{
    narrowed(value.value(), narrow)
}

/// Half of the number in whole nanoseconds, rounded down: offsetFromMaster of twice it, or meanPathDelay. Refused
/// with 909 where that doesn't fit 64 bits, and `nanoseconds` stays then.
#[unsafe(no_mangle)]
pub extern "C" fn ptpx_raw_nanoseconds_of_twice(twice: RawSigned, nanoseconds: &mut i64) -> u16
    ensures { IsNarrowed (int_div_euclid (signed_of twice) (pos 131072)) result nanoseconds.old nanoseconds.new }
{
    narrowed(twice.value().div_euclid(TWICE_NANOSECOND), nanoseconds)
}

/// Puts a number there, if it fits.
pub(crate) fn narrowed(value: i128, narrow: &mut i64) -> u16
    ensures { IsNarrowed value result narrow.old narrow.new }
{
    match i64::try_from(value) {
        Ok(fits) => {
            *narrow = fits;
            0
        }
        Err(_) => InputRefusal::Wide.code(),
    }
}
