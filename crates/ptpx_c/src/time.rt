ghost use Rattle.std.specs.Prelude.{◌≡◌, ◌<◌, ◌≤◌, MatchOption, MatchResult};
ghost use Rattle.ptp_units.specs.Moment.{bound, moment, stamp, stamp_of, fraction_of};
ghost use Rattle.ptp_units.specs.Refusal.{code_of, timestamp_refusal};
ghost use Rattle.ptp_units.specs.Exchange.{sync_bracket, delay_bracket, offset2, path2, IsBracket};
ghost use Rattle.ptpx_c.specs.Words.{units_of, signed_of};
ghost use Rattle.ptpx_c.specs.Times.{stamp_said, is_bracket, IsTwice};

use crate::refusal::InputRefusal;
use crate::words::{RawSigned, RawTime};
use ptp_units::{ScaledTime, Timestamp, UnitRefusal};

/// A timestamp: seconds below 2^48, and nanoseconds below 10^9 (IEEE 1588-2019, 5.3.3).
#[repr(C)]
#[derive(Clone, Copy)]
pub struct RawTimestamp {
    /// Whole seconds.
    pub seconds: u64,
    /// Nanoseconds past the second.
    pub nanos: u32,
}

impl RawTimestamp {
    /// The fields of a timestamp.
    pub(crate) fn of(timestamp: Timestamp) -> RawTimestamp
        ensures { stamp_said result ≡ timestamp }
    {
        RawTimestamp {
            seconds: timestamp.seconds(),
            nanos: timestamp.nanos(),
        }
    }

    /// The timestamp. Refused with 102, else with 103.
    pub(crate) fn timestamp(self) -> Result<Timestamp, UnitRefusal>
        ensures { MatchResult result
            (λ t. (t ≡ stamp_said self) × (timestamp_refusal self.seconds self.nanos ≡ None))
            (λ e. timestamp_refusal self.seconds self.nanos ≡ Some e) }
    {
        Timestamp::new(self.seconds, self.nanos)
    }
}

/// The one moment that a timestamp and a fraction of a nanosecond, in 2^-16 ns, name. Refused with 102 where the
/// seconds don't fit 48 bits, else with 103 where the nanoseconds are 10^9 or more; `time` stays then.
#[unsafe(no_mangle)]
pub extern "C" fn ptpx_raw_time_join(
    timestamp: RawTimestamp,
    fraction: u16,
    time: &mut RawTime,
) -> u16
    ensures { MatchOption (timestamp_refusal timestamp.seconds timestamp.nanos)
        ((result ≡ 0) × (units_of time.new ≡ moment (stamp_said timestamp) fraction))
        (λ refusal. (result ≡ code_of refusal) × (time.new ≡ time.old)) }
{
    match timestamp.timestamp() {
        Ok(timestamp) => {
            *time = RawTime::of(ScaledTime::join(timestamp, fraction));
            0
        }
        Err(refusal) => refusal.code(),
    }
}

/// The timestamp of a moment without its fraction of a nanosecond, and that fraction in 2^-16 ns. Refused with 101
/// where it is no moment; nothing is written then.
#[unsafe(no_mangle)]
pub extern "C" fn ptpx_raw_time_split(
    time: RawTime,
    timestamp: &mut RawTimestamp,
    fraction: &mut u16,
) -> u16
    ensures split { units_of time < bound → (result ≡ 0) × (stamp_said timestamp.new ≡ stamp_of (units_of time))
        × (fraction.new ≡ fraction_of (units_of time)) }
    ensures refused { bound ≤ units_of time → (result ≡ 101) × (timestamp.new ≡ timestamp.old)
        × (fraction.new ≡ fraction.old) }
{
    match time.moment() {
        Ok(moment) => {
            let (whole, rest) = moment.split();
            *timestamp = RawTimestamp::of(whole);
            *fraction = rest;
            0
        }
        Err(refusal) => refusal.code(),
    }
}

/// The Sync's arrival at the slave, less its corrected departure and its own correction: `a`, in 2^-16 ns, strictly
/// between -2^96 and 2^96. Refused with 101 where `t2` is no moment, else with 102 or 103 where `precise` is no
/// timestamp; `bracket` stays then.
#[unsafe(no_mangle)]
pub extern "C" fn ptpx_raw_sync_bracket(
    t2: RawTime,
    precise: RawTimestamp,
    c_follow: i64,
    c_sync: i64,
    bracket: &mut RawSigned,
) -> u16
    ensures refused { bound ≤ units_of t2 → (result ≡ 101) × (bracket.new ≡ bracket.old) }
    ensures bracket { units_of t2 < bound → MatchOption (timestamp_refusal precise.seconds precise.nanos)
        ((result ≡ 0) × (signed_of bracket.new ≡ sync_bracket (units_of t2) (stamp_said precise) c_follow c_sync))
        (λ refusal. (result ≡ code_of refusal) × (bracket.new ≡ bracket.old)) }
{
    match (t2.moment(), precise.timestamp()) {
        (Ok(t2), Ok(precise)) => {
            *bracket = RawSigned::of(ptp_units::sync_bracket(t2, precise, c_follow, c_sync));
            0
        }
        (Err(refusal), _) | (_, Err(refusal)) => refusal.code(),
    }
}

/// The Delay_Req's corrected arrival at the master, less its departure from the slave: `b`, in 2^-16 ns, strictly
/// between -2^96 and 2^96. Refused with 101 where `t3` is no moment, else with 102 or 103 where `receive` is no
/// timestamp; `bracket` stays then.
#[unsafe(no_mangle)]
pub extern "C" fn ptpx_raw_delay_bracket(
    receive: RawTimestamp,
    c_resp: i64,
    t3: RawTime,
    bracket: &mut RawSigned,
) -> u16
    ensures refused { bound ≤ units_of t3 → (result ≡ 101) × (bracket.new ≡ bracket.old) }
    ensures bracket { units_of t3 < bound → MatchOption (timestamp_refusal receive.seconds receive.nanos)
        ((result ≡ 0) × (signed_of bracket.new ≡ delay_bracket (stamp_said receive) c_resp (units_of t3)))
        (λ refusal. (result ≡ code_of refusal) × (bracket.new ≡ bracket.old)) }
{
    match (t3.moment(), receive.timestamp()) {
        (Ok(t3), Ok(receive)) => {
            *bracket = RawSigned::of(ptp_units::delay_bracket(receive, c_resp, t3));
            0
        }
        (Err(refusal), _) | (_, Err(refusal)) => refusal.code(),
    }
}

/// Whether a number is strictly between -2^96 and 2^96, as every bracket is.
fn is_bracket(value: i128) -> bool
    ensures { result ≡ is_bracket value }
{
    -79_228_162_514_264_337_593_543_950_336 < value
        && value < 79_228_162_514_264_337_593_543_950_336
}

/// Twice offsetFromMaster, in 2^-16 ns, of the two brackets. Refused with 908 where one isn't strictly between -2^96
/// and 2^96; `twice` stays then.
#[unsafe(no_mangle)]
pub extern "C" fn ptpx_raw_offset2(a: RawSigned, b: RawSigned, twice: &mut RawSigned) -> u16
    ensures { IsTwice (offset2 (signed_of a) (signed_of b)) a b result twice.old twice.new }
{
    let (a, b) = (a.value(), b.value());
    if !is_bracket(a) || !is_bracket(b) {
        return InputRefusal::NoBracket.code();
    }
    *twice = RawSigned::of(ptp_units::offset2(a, b));
    0
}

/// Twice meanPathDelay, in 2^-16 ns, of the two brackets. Refused with 908 where one isn't strictly between -2^96 and
/// 2^96; `twice` stays then.
#[unsafe(no_mangle)]
pub extern "C" fn ptpx_raw_path2(a: RawSigned, b: RawSigned, twice: &mut RawSigned) -> u16
    ensures { IsTwice (path2 (signed_of a) (signed_of b)) a b result twice.old twice.new }
{
    let (a, b) = (a.value(), b.value());
    if !is_bracket(a) || !is_bracket(b) {
        return InputRefusal::NoBracket.code();
    }
    *twice = RawSigned::of(ptp_units::path2(a, b));
    0
}
