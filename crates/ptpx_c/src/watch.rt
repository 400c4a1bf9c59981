//! Watches that find a master which began its numbers anew.

ghost use Rattle.std.specs.Prelude.{◌≡◌, ◌≤◌, ◌<◌, IsSome, None, if◌then◌else◌};
ghost use Rattle.ptp_units.specs.Moment.{bound};
ghost use Rattle.sync_watch.specs.Told.{arrival};
ghost use Rattle.sync_watch.specs.Judged.{judged_sync, judged_follow_up, after_sync, after_follow_up};
ghost use Rattle.ptpx_c.specs.Words.{units_of};
ghost use Rattle.ptpx_c.specs.Watches.{IsMadeWatch, IsJudged, code_of_judgement};

use crate::ring_watch::RingWatch;
use crate::watch_handle::RawWatch;
use crate::words::RawTime;
use ptp_units::{ScaledTime, Seq};
use sync_watch::{Arrival, Judgement};

/// The number of a judgement.
fn code_of(judgement: Judgement) -> u16
    ensures { result ≡ code_of_judgement judgement }
{
    match judgement {
        Judgement::Newer => 0,
        Judgement::Repeated => 1,
        Judgement::BeganAnew => 2,
    }
}

/// A message with this sequenceId, unicastFlag and logMessageInterval, that came at this time.
fn arrival_of(number: u16, is_unicast: bool, log: i8, time: ScaledTime) -> Arrival
    ensures { result ≡ arrival number is_unicast log time }
{
    Arrival {
        number: Seq(number),
        is_unicast,
        log,
        time,
    }
}

/// Makes a watch in the memory of the handle, which knows of nothing.
#[unsafe(no_mangle)]
pub extern "C" fn ptpx_raw_watch_init(watch: &mut RawWatch)
    requires { watch.old.port ≡ None }
    ensures { IsMadeWatch watch.old watch.new }
{
    watch.put(RingWatch::new());
}

/// A Sync of the master came at this time, before the slave hears it. Refused with 101 where that is no moment; nothing
/// changes then.
#[unsafe(no_mangle)]
pub extern "C" fn ptpx_raw_watch_sync(
    watch: &mut RawWatch,
    number: u16,
    is_unicast: bool,
    log: i8,
    time: RawTime,
    judgement: &mut u16,
) -> u16
    requires { IsSome watch.old.port }
    ensures judged { units_of time < bound → let a = arrival number is_unicast log (units_of time) in
        IsJudged (judged_sync a) (after_sync a) watch.old watch.new judgement.new }
    ensures done { units_of time < bound → result ≡ 0 }
    ensures refused { bound ≤ units_of time
        → (result ≡ 101) × (watch.new ≡ watch.old) × (judgement.new ≡ judgement.old) }
{
    let moment = match time.moment() {
        Ok(moment) => moment,
        Err(refusal) => return refusal.code(),
    };
    let arrival = arrival_of(number, is_unicast, log, moment);
    let ring = watch.port();
    *judgement = code_of(ring.watch.sync(&arrival));
    0
}

/// A Follow_Up of the master came at this time, before the slave hears it. Refused with 101 where that is no moment;
/// nothing changes then.
#[unsafe(no_mangle)]
pub extern "C" fn ptpx_raw_watch_follow_up(
    watch: &mut RawWatch,
    number: u16,
    is_unicast: bool,
    log: i8,
    time: RawTime,
    judgement: &mut u16,
) -> u16
    requires { IsSome watch.old.port }
    ensures judged { units_of time < bound → let a = arrival number is_unicast log (units_of time) in
        IsJudged (judged_follow_up a) (after_follow_up a) watch.old watch.new judgement.new }
    ensures done { units_of time < bound → result ≡ 0 }
    ensures refused { bound ≤ units_of time
        → (result ≡ 101) × (watch.new ≡ watch.old) × (judgement.new ≡ judgement.old) }
{
    let moment = match time.moment() {
        Ok(moment) => moment,
        Err(refusal) => return refusal.code(),
    };
    let arrival = arrival_of(number, is_unicast, log, moment);
    let ring = watch.port();
    *judgement = code_of(ring.watch.follow_up(&arrival));
    0
}
