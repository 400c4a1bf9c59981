ghost use Rattle.std.specs.Prelude.{◌≡◌, max, unsigned_abs, pos, ◌+ℤ◌, List, [], ◌∷◌, Option, Some, None, option_map};
ghost use Rattle.std.specs.Ordering.{int_eq};
ghost use Rattle.recording_summary.specs.Noted.{Noted};
ghost use Rattle.slave_port.specs.Exchange.{age};
ghost use Rattle.recording_summary.specs.Quality.{is_finer, is_cut, is_fall, if_stale, AreStatistics, AreTimes, IsQuality};

use event_codec::DecodeRefusal;
use ptp_units::ScaledTime;
use recording_lines::Half;
use slave_port::{LastExchange, Report};
use statistics::{Cases, Point, Spikes, Spread, Step, Trend, count_if};

/// A microsecond, in units of 2^-16 ns.
const MICROSECOND: u128 = 65_536_000;

/// From which age on the delay of an offset is too old, in units of 2^-16 ns: 10 s.
const STALE: i128 = 655_360_000_000_000;

/// What is told of the reports of a recording. Offsets and path delays are in 2^-17 ns, as reports have them, and times in
/// 2^-16 ns. Each count stays
/// at 2^64 - 1.
#[derive(Clone, Copy)]
pub struct Statistics {
    /// The offsets of the reports that a Sync completed, at the time of the line that did.
    pub offsets: Step,
    /// What a line through these offsets is drawn by.
    pub trend: Trend,
    /// Which of these offsets lie apart from both of their neighbours.
    pub spikes: Spikes,
    /// The path delays of the reports that a Delay_Resp completed.
    pub paths: Step,
    /// What a line through these path delays is drawn by.
    pub path_trend: Trend,
    /// What Sync and Follow_Up were corrected by together, of the reports that a Sync completed, in 2^-16 ns.
    pub sync_corrections: Spread,
    /// What the Delay_Resp was corrected by, of the reports that it completed, in 2^-16 ns.
    pub delay_corrections: Spread,
    /// How old the delay was of each offset, in 2^-16 ns: the time between t2 and t3 of the report that a Sync completed.
    pub ages: Spread,
    /// The offsets whose delay was older than 10 s, with its age.
    pub stale: Cases,
    /// How many reports that a Delay_Resp completed have offset and path delay equal: the corrected arrival of the request is when it
    /// left.
    pub requests_at_once: u64,
    /// How many reports that a Sync completed have an offset that is the path delay below 0: the Sync arrived when it left, corrected.
    pub syncs_at_once: u64,
    /// The greatest offset of all reports, without its sign.
    pub farthest: u128,
    /// The time of the last line that completed a report.
    pub last: Option<ScaledTime>,
}

/// What is told of the times of a recording. Each count stays at 2^64 - 1.
#[derive(Clone, Copy)]
pub struct Times {
    /// How many aren't of whole microseconds.
    pub finer: u64,
    /// How many are before the time of the datagram before.
    pub falls: u64,
    /// That of the first datagram.
    pub first: Option<ScaledTime>,
    /// That of the last datagram.
    pub last: Option<ScaledTime>,
}

/// What the numbers of a recording are worth.
#[derive(Clone, Copy)]
pub struct Quality {
    /// What is told of its reports.
    pub statistics: Statistics,
    /// What is told of its times.
    pub times: Times,
    /// How many datagrams are cut short: they have fewer octets than a header (201), or than messageLength (205). It stays at 2^64 - 1.
    pub cut: u64,
}

/// Whether a time isn't of whole microseconds.
fn is_finer(time: ScaledTime) -> bool
    ensures { result ≡ is_finer time }
{
    time.value() % MICROSECOND != 0
}

/// Whether a datagram is cut short.
fn is_cut(refusal: Option<DecodeRefusal>) -> bool
    ensures { result ≡ is_cut refusal }
{
    matches!(
        refusal,
        Some(DecodeRefusal::Short | DecodeRefusal::Truncated)
    )
}

/// Whether a time is before another one.
fn is_fall(time: ScaledTime, last: Option<ScaledTime>) -> bool
    ensures { result ≡ is_fall time last }
{
    last.is_some_and(|last| time.value() < last.value())
}

/// The offset of a report that a line of this time completed.
fn offset_at(line: u64, time: ScaledTime, report: &Report) -> Point
    ensures { result ≡ record { line = line; time = time; value = report.now.offset2 } }
{
    Point {
        line,
        time: time.value(),
        value: report.offset2,
    }
}

/// The path delay of a report that a line of this time completed.
fn path_at(line: u64, time: ScaledTime, report: &Report) -> Point
    ensures { result ≡ record { line = line; time = time; value = report.now.path2 } }
{
    Point {
        line,
        time: time.value(),
        value: report.path2,
    }
}

/// What Sync and Follow_Up of an exchange were corrected by, whose report a line of this time completed.
fn sync_correction_at(line: u64, time: ScaledTime, exchange: &Option<LastExchange>) -> Option<Point>
    ensures { result ≡ option_map (λ x. record { line = line; time = time; value = x.sync_correction +ℤ x.follow_correction }) exchange.now }
{
    let Some(exchange) = exchange else {
        return None;
    };
    Some(Point {
        line,
        time: time.value(),
        value: i128::from(exchange.sync_correction) + i128::from(exchange.follow_correction),
    })
}

/// What the Delay_Resp of an exchange was corrected by, whose report a line of this time completed.
fn delay_correction_at(line: u64, time: ScaledTime, exchange: Option<LastExchange>) -> Option<Point>
    ensures { result ≡ option_map (λ x. record { line = line; time = time; value = x.response_correction }) exchange }
{
    let exchange = exchange?;
    Some(Point {
        line,
        time: time.value(),
        value: i128::from(exchange.response_correction),
    })
}

/// How old the delay of an exchange is, whose report a line of this time completed.
fn age_at(line: u64, time: ScaledTime, exchange: &Option<LastExchange>) -> Option<Point>
    ensures { result ≡ option_map (λ x. record { line = line; time = time; value = pos (age x) }) exchange.now }
{
    let Some(exchange) = exchange else {
        return None;
    };
    Some(Point {
        line,
        time: time.value(),
        value: exchange.age() as i128,
    })
}

/// The same, where it is more than 10 s.
fn stale_at(line: u64, time: ScaledTime, exchange: &Option<LastExchange>) -> Option<Point>
    ensures { result ≡ if_stale (option_map (λ x. record { line = line; time = time; value = pos (age x) }) exchange.now) }
{
    let age = age_at(line, time, exchange)?;
    if age.value > STALE { Some(age) } else { None }
}

/// The greatest offset, without its sign, once there is one more report.
fn farther(farthest: u128, report: &Report) -> u128
    ensures { result ≡ max farthest (unsigned_abs report.now.offset2) }
{
    farthest.max(report.offset2.unsigned_abs())
}

/// Whether the Sync of a report arrived, corrected, when it left.
fn is_sync_at_once(report: &Report) -> bool
    ensures { result ≡ int_eq (report.now.offset2 +ℤ report.now.path2) (pos 0) }
{
    match report.offset2.checked_add(report.path2) {
        Some(sum) => sum == 0,
        None => false,
    }
}

/// Whether the request of a report arrived, corrected, when it left.
fn is_request_at_once(report: &Report) -> bool
    ensures { result ≡ int_eq report.now.offset2 report.now.path2 }
{
    report.offset2 == report.path2
}

impl Statistics {
    /// Of no reports.
    fn new() -> Statistics
        ensures { AreStatistics [] result }
    {
        Statistics {
            offsets: Step::new(),
            trend: Trend::new(),
            spikes: Spikes::new(),
            paths: Step::new(),
            path_trend: Trend::new(),
            sync_corrections: Spread::new(),
            delay_corrections: Spread::new(),
            ages: Spread::new(),
            stale: Cases::new(),
            requests_at_once: 0,
            syncs_at_once: 0,
            farthest: 0,
            last: None,
        }
    }

    /// Takes the report that the datagram of this line and time completed.
    fn take(
        &mut self,
        line: u64,
        time: ScaledTime,
        by: Half,
        report: &Report,
        exchange: Option<LastExchange>,
    )
        ensures { (refusal : Option DecodeRefusal) (earlier : List Noted)
            → AreStatistics (record { line = line; time = time; refusal = refusal; reported = None } ∷ earlier) self.old
            → AreStatistics (record {
              line = line;
              time = time;
              refusal = refusal;
              reported = Some (record { by = by; report = report.now; exchange = exchange });
            } ∷ earlier) self.new }
    {
        self.last = Some(time);
        self.farthest = farther(self.farthest, report);
        match by {
            Half::Sync => {
                let offset = offset_at(line, time, report);
                self.offsets.take(offset);
                self.trend.take(offset);
                self.spikes.take(offset);
                self.sync_corrections
                    .take_some(sync_correction_at(line, time, &exchange));
                self.ages.take_some(age_at(line, time, &exchange));
                self.stale.take_some(stale_at(line, time, &exchange));
                self.syncs_at_once = count_if(self.syncs_at_once, is_sync_at_once(report));
            }
            Half::Response => {
                let path = path_at(line, time, report);
                self.paths.take(path);
                self.path_trend.take(path);
                self.delay_corrections
                    .take_some(delay_correction_at(line, time, exchange));
                self.requests_at_once = count_if(self.requests_at_once, is_request_at_once(report));
            }
        }
    }
}

impl Times {
    /// Of no datagrams.
    fn new() -> Times
        ensures { AreTimes [] result }
    {
        Times {
            finer: 0,
            falls: 0,
            first: None,
            last: None,
        }
    }

    /// Takes the time of a datagram.
    fn take(&mut self, time: ScaledTime)
        ensures { (noted : Noted) (earlier : List Noted) → noted.time ≡ time → AreTimes earlier self.old
            → AreTimes (noted ∷ earlier) self.new }
    {
        self.finer = count_if(self.finer, is_finer(time));
        self.falls = count_if(self.falls, is_fall(time, self.last));
        self.first = self.first.or(Some(time));
        self.last = Some(time);
    }
}

impl Quality {
    /// No datagram was noted yet.
    pub fn new() -> Quality
        ensures { IsQuality [] result }
    {
        Quality {
            statistics: Statistics::new(),
            times: Times::new(),
            cut: 0,
        }
    }

    /// Takes a datagram, by its time and by why it is no message of the four, if it isn't.
    pub fn note(&mut self, time: ScaledTime, refusal: Option<DecodeRefusal>)
        ensures { (noted : Noted) (earlier : List Noted) → noted.time ≡ time → noted.refusal ≡ refusal → noted.reported ≡ None
            → IsQuality earlier self.old → IsQuality (noted ∷ earlier) self.new }
    {
        self.times.take(time);
        self.cut = count_if(self.cut, is_cut(refusal));
    }

    /// Takes the report that the last datagram completed, which is of this line and time.
    pub fn report(
        &mut self,
        line: u64,
        time: ScaledTime,
        by: Half,
        report: &Report,
        exchange: Option<LastExchange>,
    )
        ensures { (refusal : Option DecodeRefusal) (earlier : List Noted)
            → IsQuality (record { line = line; time = time; refusal = refusal; reported = None } ∷ earlier) self.old
            → IsQuality (record {
              line = line;
              time = time;
              refusal = refusal;
              reported = Some (record { by = by; report = report.now; exchange = exchange });
            } ∷ earlier) self.new }
    {
        self.statistics.take(line, time, by, report, exchange);
    }
}
