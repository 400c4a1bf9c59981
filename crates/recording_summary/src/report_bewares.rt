//! What speaks against the offsets and path delays of reports.

ghost use Rattle.std.specs.Prelude.{◌≡◌};
ghost use Rattle.recording_summary.specs.Bewares.{are_requests_at_once, are_syncs_at_once, at_once, paths_below, paths_zero, zeros_by};
ghost use Rattle.recording_summary.specs.Bewares.{seconds_next, is_sign_alike, are_seconds_alike, whole_seconds};
ghost use Rattle.recording_summary.specs.Bewares.{is_step, jump, is_running, runs_away, are_most, alike, is_set_back, set_back};
ghost use Rattle.recording_summary.specs.Bewares.{offsets_change, paths_change};
ghost use Rattle.recording_summary.specs.Bewares.{if_any, old_delay, is_far, offset_apart};

use crate::beware::{Beware, Jump, Rounded, SetBack};
use crate::quality::Statistics;
use statistics::{Cases, Change, Growth, Series, Shift, Spike, Spikes, Step};

/// A second, in units of 2^-17 ns.
const SECOND: u128 = 131_072_000_000_000;

/// From how many values on it is told that they step, run away or lie apart.
const VALUES: u64 = 16;

/// From how many values on it is told that they are set back.
const TEETH_VALUES: u64 = 32;

/// From how many thousandths of a nanosecond on a step is told: a microsecond.
const STEP: u128 = 1_000_000;

/// From how many thousand-millionths on it is told that offsets run away.
const SLOPE: u128 = 1000;

/// From how far on a value that lies apart, or is set back, is told, in units of 2^-17 ns: a microsecond.
const APART: u128 = 131_072_000;

/// Whether all requests arrive at the time at which they leave.
fn are_requests_at_once(statistics: &Statistics) -> bool
    ensures { result ≡ are_requests_at_once statistics.now }
{
    let count = statistics.paths.all.count;
    count > 1 && statistics.requests_at_once == count
}

/// Whether all Syncs arrive at the time at which they leave.
fn are_syncs_at_once(statistics: &Statistics) -> bool
    ensures { result ≡ are_syncs_at_once statistics.now }
{
    let count = statistics.offsets.all.count;
    count > 1 && statistics.syncs_at_once == count
}

/// Whether all reports look as those at a master's own port.
pub(crate) fn at_once(statistics: &Statistics) -> Option<Beware>
    ensures { result ≡ at_once statistics.now }
{
    if are_requests_at_once(statistics) {
        Some(Beware::RequestsAtOnce(statistics.paths.all.count))
    } else if are_syncs_at_once(statistics) {
        Some(Beware::SyncsAtOnce(statistics.offsets.all.count))
    } else {
        None
    }
}

/// Path delays below 0.
pub(crate) fn paths_below(paths: &Series) -> Option<Beware>
    ensures { result ≡ paths_below paths.now }
{
    let least = paths.least?;
    match paths.negatives {
        0 => None,
        below => Some(Beware::PathsBelow {
            below,
            of: paths.count,
            least,
        }),
    }
}

/// Path delays of 0, where more than half are.
fn paths_zero(paths: &Series) -> Option<Beware>
    ensures { result ≡ paths_zero paths.now }
{
    if paths.zeros > paths.count / 2 {
        Some(Beware::PathsZero {
            zeros: paths.zeros,
            of: paths.count,
        })
    } else {
        None
    }
}

/// The same, where no master's own port explains them.
pub(crate) fn zeros_by(statistics: &Statistics) -> Option<Beware>
    ensures { result ≡ zeros_by statistics.now }
{
    if at_once(statistics).is_some() {
        None
    } else {
        paths_zero(&statistics.paths.all)
    }
}

/// How many whole seconds are next to a value in 2^-17 ns, without its sign.
fn seconds_next(value: i128) -> u128
    ensures { result ≡ seconds_next value }
{
    let size = value.unsigned_abs();
    size / SECOND + size % SECOND / (SECOND / 2)
}

/// Whether both are below 0, or neither is.
fn is_sign_alike(one: i128, other: i128) -> bool
    ensures { result ≡ is_sign_alike one other }
{
    if one < 0 { other < 0 } else { !(other < 0) }
}

/// Whether one number of seconds, and not 0, is next to both.
fn are_seconds_alike(one: i128, other: i128) -> bool
    ensures { result ≡ are_seconds_alike one other }
{
    let seconds = seconds_next(one);
    is_sign_alike(one, other) && seconds == seconds_next(other) && seconds > 0
}

/// Offsets of a whole number of seconds.
pub(crate) fn whole_seconds(offsets: &Series) -> Option<Beware>
    ensures { result ≡ whole_seconds offsets.now }
{
    let (least, greatest) = (offsets.least?.value, offsets.greatest?.value);
    if are_seconds_alike(least, greatest) {
        Some(Beware::WholeSeconds {
            is_negative: least < 0,
            seconds: seconds_next(least),
        })
    } else {
        None
    }
}

/// Whether a step in so many values is told.
fn is_step(count: u64, shift: &Shift) -> bool
    ensures { result ≡ is_step count shift.now }
{
    !(count < VALUES) && shift.explains_most && !(shift.by.size < STEP)
}

/// The step in values, by what it comes to, where it is told.
fn jump(step: &Step, shift: Option<Shift>) -> Option<Jump>
    ensures { result ≡ jump step.now shift }
{
    let change = step.greatest?;
    let shift = shift?;
    if is_step(step.all.count, &shift) {
        Some(Jump {
            by: shift.by,
            line: change.to.line,
        })
    } else {
        None
    }
}

/// Whether it is told that so many values run away.
fn is_running(count: u64, growth: &Growth) -> bool
    ensures { result ≡ is_running count growth.now }
{
    !(count < VALUES) && growth.explains_half && !(growth.rate.size < SLOPE)
}

/// That so many offsets run away.
fn runs_away(count: u64, growth: Option<Growth>) -> Option<Beware>
    ensures { result ≡ runs_away count growth }
{
    let growth = growth?;
    if is_running(count, &growth) {
        Some(Beware::OffsetRunsAway(growth.rate))
    } else {
        None
    }
}

/// Whether so many are more than three quarters of all.
fn are_most(count: u64, all: u64) -> bool
    ensures { result ≡ are_most count all }
{
    u128::from(count) * 4 > u128::from(all) * 3
}

/// How many values change against this change.
fn alike(spikes: &Spikes, against: &Change) -> u64
    ensures { result ≡ alike spikes.now against.now }
{
    if against.is_fall() {
        spikes.rises
    } else {
        spikes.falls
    }
}

/// Whether this change sets values back of which most change the other way, and isn't most of how they are set back.
fn is_set_back(spikes: &Spikes, change: &Change) -> bool
    ensures { result ≡ is_set_back spikes.now change.now }
{
    !(spikes.count < TEETH_VALUES)
        && !(change.size() < APART)
        && !(spikes.changes / 4 < change.size())
        && are_most(alike(spikes, change), spikes.count - 1)
}

/// That offsets are set back again and again.
fn set_back(statistics: &Statistics) -> Option<Beware>
    ensures { result ≡ set_back statistics.now }
{
    let change = statistics.offsets.greatest?;
    if is_set_back(&statistics.spikes, &change) {
        Some(Beware::OffsetIsSetBack(SetBack {
            is_up: change.is_fall(),
            count: alike(&statistics.spikes, &change),
            of: statistics.spikes.count - 1,
            size: change.size(),
            line: change.to.line,
        }))
    } else {
        None
    }
}

/// A step of the offsets, or else that they run away, or else that they are set back.
pub(crate) fn offsets_change(rounded: &Rounded, statistics: &Statistics) -> Option<Beware>
    ensures { result ≡ offsets_change rounded.now statistics.now }
{
    match jump(&statistics.offsets, rounded.offset_shift) {
        Some(jump) => Some(Beware::OffsetSteps(jump)),
        None => match runs_away(statistics.offsets.all.count, rounded.offset_growth) {
            Some(running) => Some(running),
            None => set_back(statistics),
        },
    }
}

/// A step of the path delays.
pub(crate) fn paths_change(rounded: &Rounded, statistics: &Statistics) -> Option<Beware>
    ensures { result ≡ paths_change rounded.now statistics.now }
{
    Some(Beware::PathSteps(jump(&statistics.paths, rounded.path_shift)?))
}

/// Cases, where there are any.
pub(crate) fn if_any(cases: Cases) -> Option<Cases>
    ensures { result ≡ if_any cases }
{
    if cases.count > 0 { Some(cases) } else { None }
}

/// Offsets that rest on an old delay, where Delay_Reqs are so far apart in the mean, in units of 2^-16 ns.
pub(crate) fn old_delay(statistics: &Statistics, interval: u128) -> Option<Beware>
    ensures { result ≡ old_delay statistics.now interval }
{
    let offsets = if_any(statistics.stale)?;
    let oldest = statistics.ages.greatest?;
    if oldest.value.unsigned_abs() / 8 < interval {
        None
    } else {
        Some(Beware::OldDelay { offsets, oldest })
    }
}

/// Whether a value lies far from its neighbours, by how the others change.
fn is_far(spikes: &Spikes, spike: &Spike) -> bool
    ensures { result ≡ is_far spikes.now spike.now }
{
    if spikes.count < VALUES || spike.size < APART {
        return false;
    }
    let others = spikes.changes.saturating_sub(spike.both) / u128::from(spikes.count - 3);
    spike.size / 100 > others
}

/// An offset that lies apart.
pub(crate) fn offset_apart(spikes: &Spikes) -> Option<Beware>
    ensures { result ≡ offset_apart spikes.now }
{
    let spike = spikes.greatest?;
    if is_far(spikes, &spike) {
        Some(Beware::OffsetApart(spike))
    } else {
        None
    }
}
