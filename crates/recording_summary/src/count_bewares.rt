//! What counts and times speak against the numbers: ends long before that of the recording, copies, order, and datagrams that are cut.

ghost use Rattle.std.specs.Prelude.{◌≡◌};
ghost use Rattle.recording_summary.specs.Bewares.{silence_from, silence, together, syncs_for, unreported_syncs, master_syncs};
ghost use Rattle.recording_summary.specs.Bewares.{syncs_end, reports_end, ends, copies, repeated};
ghost use Rattle.recording_summary.specs.Bewares.{out_of_order, cut_short, whole_microseconds};

use crate::beware::Beware;
use crate::counts::Counts;
use crate::kind::Kind;
use crate::no_report::NoReport;
use crate::quality::Times;
use ptp_units::ScaledTime;

/// A tenth of a second, in units of 2^-16 ns.
const TENTH: u128 = 6_553_600_000_000;

/// From how long on it is told that nothing comes any more, in units of 2^-16 ns: 10 s.
const SILENCE: u128 = 100 * TENTH;

/// For how many tenths of a second a recording goes on behind the last of so many, where that is long.
fn silence_from(first: u128, end: u128, last: u128, count: u64) -> Option<u128>
    ensures { result ≡ silence_from first end last count }
{
    let silence = end.saturating_sub(last);
    let often = last.saturating_sub(first) / u128::from(count.max(1));
    if silence < SILENCE || silence / 10 < often {
        None
    } else {
        Some(silence / TENTH)
    }
}

/// The same, where there is a last one.
fn silence(times: &Times, last: Option<ScaledTime>, count: u64) -> Option<u128>
    ensures { result ≡ silence times.now last count }
{
    let first = times.first?;
    let end = times.last?;
    let last = last?;
    silence_from(first.value(), end.value(), last.value(), count)
}

/// One number and another one, up to 2^64 - 1.
fn together(one: u64, other: u64) -> u64
    ensures { result ≡ together one other }
{
    one.saturating_add(other)
}

/// How many Syncs gave no report for this reason.
fn syncs_for(counts: &Counts, why: NoReport) -> u64
    ensures { result ≡ syncs_for counts.now why }
{
    counts.at(Kind::Sync, why)
}

/// How many Syncs of the master gave no report.
fn unreported_syncs(counts: &Counts) -> u64
    ensures { result ≡ unreported_syncs counts.now }
{
    let held = together(
        syncs_for(counts, NoReport::Held),
        syncs_for(counts, NoReport::Alone),
    );
    let heard = together(held, syncs_for(counts, NoReport::Before));
    let small = together(heard, syncs_for(counts, NoReport::TooBig));
    together(small, syncs_for(counts, NoReport::NotNewer))
}

/// How many Syncs of the master came: at least so many.
fn master_syncs(counts: &Counts) -> u64
    ensures { result ≡ master_syncs counts.now }
{
    unreported_syncs(counts).max(counts.quality.statistics.offsets.all.count)
}

/// That the Syncs of the master end early.
fn syncs_end(counts: &Counts) -> Option<Beware>
    ensures { result ≡ syncs_end counts.now }
{
    let turn = &counts.others.turn;
    let tenths = silence(&counts.quality.times, turn.last, master_syncs(counts))?;
    Some(Beware::SyncsEnd {
        tenths,
        newcomer: turn.newcomer,
    })
}

/// That the reports end early.
fn reports_end(counts: &Counts) -> Option<Beware>
    ensures { result ≡ reports_end counts.now }
{
    let quality = &counts.quality;
    let tenths = silence(&quality.times, quality.statistics.last, counts.reports)?;
    Some(Beware::ReportsEnd { tenths })
}

/// That the Syncs of the master end early, or else the reports.
pub(crate) fn ends(counts: &Counts) -> Option<Beware>
    ensures { result ≡ ends counts.now }
{
    match syncs_end(counts) {
        Some(beware) => Some(beware),
        None => reports_end(counts),
    }
}

/// How many messages have a number that came before.
fn copies(counts: &Counts) -> u64
    ensures { result ≡ copies counts.now }
{
    let requests = counts.at(Kind::DelayReq, NoReport::Again);
    let events = together(requests, counts.at(Kind::Sync, NoReport::Before));
    let followed = together(events, counts.at(Kind::FollowUp, NoReport::Before));
    together(followed, counts.at(Kind::DelayResp, NoReport::Before))
}

/// Messages with a number that came before.
pub(crate) fn repeated(counts: &Counts) -> Option<Beware>
    ensures { result ≡ repeated counts.now }
{
    let repeats = &counts.others.repeats;
    match copies(counts) {
        0 => None,
        count => Some(Beware::Repeated {
            count,
            least: repeats.least,
            greatest: repeats.greatest,
        }),
    }
}

/// Times that are before the last one.
pub(crate) fn out_of_order(times: &Times) -> Option<Beware>
    ensures { result ≡ out_of_order times.now }
{
    match times.falls {
        0 => None,
        falls => Some(Beware::OutOfOrder(falls)),
    }
}

/// Datagrams that are cut short.
pub(crate) fn cut_short(cut: u64) -> Option<Beware>
    ensures { result ≡ cut_short cut }
{
    match cut {
        0 => None,
        cut => Some(Beware::CutShort(cut)),
    }
}

/// Times of whole microseconds.
pub(crate) fn whole_microseconds(times: &Times) -> Option<Beware>
    ensures { result ≡ whole_microseconds times.now }
{
    if times.finer == 0 && times.last.is_some() {
        Some(Beware::WholeMicroseconds)
    } else {
        None
    }
}
