//! Times and results in whole nanoseconds, and as the seconds and nanoseconds of a `struct timespec`.

ghost use Rattle.std.specs.Prelude.{◌≡◌, ◌<◌, ◌≤◌, ◌/◌, ◌%◌, ◌-◌, ◌*◌, ◌^◌, ◌<ℤ◌, ◌*ℤ◌, pos, negsuc};
ghost use Rattle.ptp_units.specs.Moment.{bound};
ghost use Rattle.ptpx_c.specs.Words.{units_of, signed_of, IsNarrowed};
ghost use Rattle.ptpx_c.specs.Nanoseconds.{nanoseconds_of_moment, nanoseconds_of_result, nanoseconds_said};
ghost use Rattle.ptpx_c.specs.Nanoseconds.{parted, IsMoment, IsMomentSaid, IsResultSaid, IsParted};

use crate::refusal::InputRefusal;
use crate::words::{RawSigned, RawTime, narrowed};
use ptp_units::{ScaledTime, UnitRefusal};

/// A second in nanoseconds.
const SECOND: i128 = 1_000_000_000;

/// The base in which nanoseconds are divided, 2^32: three digits of it hold them, and no division is of more than two.
const BASE: u64 = 4_294_967_296;

/// 2^63 seconds in nanoseconds.
const SECONDS_MOST: i128 = 9_223_372_036_854_775_808_000_000_000;

/// A nanosecond in 2^-16 ns.
const NANOSECOND: i128 = 65_536;

/// Twice a nanosecond in 2^-16 ns.
const TWICE_NANOSECOND: i128 = 131_072;

/// The whole nanosecond next to a moment, of two that are as near the later one.
fn nanoseconds_of_moment(moment: ScaledTime) -> u128
    ensures { result ≡ nanoseconds_of_moment moment }
{
    (moment.value() + 32_768) / 65_536
}

/// The whole nanosecond next to half of a number of 2^-16 ns, of two that are as near the greater one.
fn nanoseconds_of_result(twice: i128) -> i128
    ensures { result ≡ nanoseconds_of_result twice }
{
    if twice.rem_euclid(TWICE_NANOSECOND) < NANOSECOND {
        twice.div_euclid(TWICE_NANOSECOND)
    } else {
        twice.div_euclid(TWICE_NANOSECOND) + 1
    }
}

/// The nanoseconds that these are, or None where those past the second are below 0, or 10^9 or more.
fn nanoseconds_said(seconds: i64, nanoseconds: i64) -> Option<i128>
    ensures { result ≡ nanoseconds_said seconds nanoseconds }
{
    if 0 <= nanoseconds && nanoseconds < 1_000_000_000 {
        Some(i128::from(seconds) * SECOND + i128::from(nanoseconds))
    } else {
        None
    }
}

/// Whole seconds, and nanoseconds past the second.
fn divided(nanoseconds: u128) -> (u64, u64)
    requires { nanoseconds < 2 ^ 63 * 10 ^ 9 }
    ensures { result ≡ (nanoseconds / 1000000000, nanoseconds % 1000000000) }
{
    let high = (nanoseconds / u128::from(BASE)) as u64;
    let low = (nanoseconds % u128::from(BASE)) as u64;
    let rest = high % 1_000_000_000 * BASE + low;
    (
        high / 1_000_000_000 * BASE + rest / 1_000_000_000,
        rest % 1_000_000_000,
    )
}

/// The same of the number below 0 that is so far below -1, with the seconds rounded down.
fn divided_below(nanoseconds: u128) -> (i64, i64)
    requires { nanoseconds < 2 ^ 63 * 10 ^ 9 }
    ensures { result ≡ (negsuc (nanoseconds / 1000000000), pos (999999999 - nanoseconds % 1000000000)) }
{
    let (seconds, rest) = divided(nanoseconds);
    (-1 - seconds as i64, 999_999_999 - rest as i64)
}

/// Whole seconds, rounded down, and nanoseconds past the second, or None where the seconds don't fit 64 bits.
#[tactic(auto, using(crate::proofs::Parts::parted_below))]
fn parted(nanoseconds: i128) -> Option<(i64, i64)>
    ensures { result ≡ parted nanoseconds }
{
    if nanoseconds < -SECONDS_MOST || SECONDS_MOST <= nanoseconds {
        return None;
    }
    if nanoseconds < 0 {
        Some(divided_below(nanoseconds.unsigned_abs() - 1))
    } else {
        let (seconds, rest) = divided(nanoseconds as u128);
        Some((seconds as i64, rest as i64))
    }
}

/// Puts the moment of a number of nanoseconds there, if it is one.
fn put_moment(nanoseconds: i128, time: &mut RawTime) -> u16
    requires above { negsuc (2 ^ 100) <ℤ nanoseconds }
    requires below { nanoseconds <ℤ pos (2 ^ 100) }
    ensures { IsMoment nanoseconds result time.old time.new }
{
    let Ok(units) = u128::try_from(nanoseconds * NANOSECOND) else {
        return UnitRefusal::OutOfRange.code();
    };
    match ScaledTime::new(units) {
        Ok(moment) => {
            *time = RawTime::of(moment);
            0
        }
        Err(refusal) => refusal.code(),
    }
}

/// The moment of a number of nanoseconds since the beginning of the timescale. Refused with 101 where it is below 0;
/// `time` stays then.
#[unsafe(no_mangle)]
pub extern "C" fn ptpx_raw_time_of_nanoseconds(nanoseconds: i64, time: &mut RawTime) -> u16
    ensures { IsMoment nanoseconds result time.old time.new }
{
    put_moment(i128::from(nanoseconds), time)
}

/// The whole nanosecond next to a moment, of two that are as near the later one. Refused with 101 where the time is no
/// moment, else with 909 where that doesn't fit 64 bits; `nanoseconds` stays then.
#[unsafe(no_mangle)]
pub extern "C" fn ptpx_raw_time_to_nanoseconds(time: RawTime, nanoseconds: &mut i64) -> u16
    ensures told { units_of time < bound
        → IsNarrowed (pos (nanoseconds_of_moment (units_of time))) result nanoseconds.old nanoseconds.new }
    ensures refused { bound ≤ units_of time → (result ≡ 101) × (nanoseconds.new ≡ nanoseconds.old) }
{
    match time.moment() {
        Ok(moment) => narrowed(nanoseconds_of_moment(moment) as i128, nanoseconds),
        Err(refusal) => refusal.code(),
    }
}

/// The moment of seconds, and nanoseconds past the second. Refused with 911 where the nanoseconds are below 0, or 10^9
/// or more, else with 101 where it is no moment; `time` stays then.
#[unsafe(no_mangle)]
pub extern "C" fn ptpx_raw_time_of_timespec(
    seconds: i64,
    nanoseconds: i64,
    time: &mut RawTime,
) -> u16
    ensures { IsMomentSaid (nanoseconds_said seconds nanoseconds) result time.old time.new }
{
    match nanoseconds_said(seconds, nanoseconds) {
        Some(nanoseconds) => put_moment(nanoseconds, time),
        None => InputRefusal::NoTimespec.code(),
    }
}

/// The whole nanosecond next to a moment, of two that are as near the later one, in seconds and nanoseconds past the
/// second. Refused with 101 where the time is no moment; nothing is written then.
#[unsafe(no_mangle)]
pub extern "C" fn ptpx_raw_time_to_timespec(
    time: RawTime,
    seconds: &mut i64,
    nanoseconds: &mut i64,
) -> u16
    ensures told { units_of time < bound → (result ≡ 0)
        × (seconds.new ≡ pos (nanoseconds_of_moment (units_of time) / 1000000000))
        × (nanoseconds.new ≡ pos (nanoseconds_of_moment (units_of time) % 1000000000)) }
    ensures refused { bound ≤ units_of time
        → (result ≡ 101) × (seconds.new ≡ seconds.old) × (nanoseconds.new ≡ nanoseconds.old) }
{
    match time.moment() {
        Ok(moment) => {
            let (whole, rest) = divided(nanoseconds_of_moment(moment));
            *seconds = whole as i64;
            *nanoseconds = rest as i64;
            0
        }
        Err(refusal) => refusal.code(),
    }
}

/// Twice a number of nanoseconds in 2^-16 ns, as `offset2` and `path2` are.
#[unsafe(no_mangle)]
pub extern "C" fn ptpx_raw_result_of_nanoseconds(nanoseconds: i64, twice: &mut RawSigned)
    ensures { signed_of twice.new ≡ nanoseconds *ℤ pos 131072 }
{
    *twice = RawSigned::of(i128::from(nanoseconds) * TWICE_NANOSECOND);
}

/// The whole nanosecond next to half of the number, of two that are as near the greater one: offsetFromMaster of twice
/// it, or meanPathDelay. Refused with 909 where that doesn't fit 64 bits; `nanoseconds` stays then.
#[unsafe(no_mangle)]
pub extern "C" fn ptpx_raw_result_to_nanoseconds(twice: RawSigned, nanoseconds: &mut i64) -> u16
    ensures { IsNarrowed (nanoseconds_of_result (signed_of twice)) result nanoseconds.old nanoseconds.new }
{
    narrowed(nanoseconds_of_result(twice.value()), nanoseconds)
}

/// Twice the nanoseconds that seconds, and nanoseconds past the second, are, in 2^-16 ns. Refused with 911 where the
/// nanoseconds are below 0, or 10^9 or more; `twice` stays then.
#[unsafe(no_mangle)]
pub extern "C" fn ptpx_raw_result_of_timespec(
    seconds: i64,
    nanoseconds: i64,
    twice: &mut RawSigned,
) -> u16
    ensures { IsResultSaid (nanoseconds_said seconds nanoseconds) result twice.old twice.new }
{
    match nanoseconds_said(seconds, nanoseconds) {
        Some(nanoseconds) => {
            *twice = RawSigned::of(nanoseconds * TWICE_NANOSECOND);
            0
        }
        None => InputRefusal::NoTimespec.code(),
    }
}

/// The whole nanosecond next to half of the number, of two that are as near the greater one, in seconds, and
/// nanoseconds past the second, which are 0 or more. Refused with 909 where the seconds don't fit 64 bits; nothing is
/// written then.
#[unsafe(no_mangle)]
pub extern "C" fn ptpx_raw_result_to_timespec(
    twice: RawSigned,
    seconds: &mut i64,
    nanoseconds: &mut i64,
) -> u16
    ensures { IsParted (parted (nanoseconds_of_result (signed_of twice))) result seconds.old seconds.new
        nanoseconds.old nanoseconds.new }
{
    match parted(nanoseconds_of_result(twice.value())) {
        Some((whole, rest)) => {
            *seconds = whole;
            *nanoseconds = rest;
            0
        }
        None => InputRefusal::Wide.code(),
    }
}
