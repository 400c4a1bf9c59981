//! What came, what is missing, and the time from one message to the next.
ghost use Rattle.std.specs.Prelude.{◌≡◌, Some, option_and_then};
ghost use Rattle.recording_words.specs.Flows.{follow_ups_text, syncs_text, requests_text, interval_told, deviation_text, end_text, told_text};
ghost use Rattle.recording_words.specs.Flows.{course_text, intervals_text, age_text, flows_text};
ghost use Rattle.recording_words.specs.Flows.{syncs_of, requests_of, AreIntervals, AreFlowLines};

use crate::figures::Figures;
use crate::times::{Place, Seconds};
use crate::unit::InputUnit;
use recording_summary::Flows;
use rounded_text::Milliseconds;
use statistics::{Point, Series, Signed};
use std::fmt;
use std::fmt::{Display, Formatter};

/// How many Syncs and Follow_Ups came, and how many are missing. Shows as a line, where a Sync came.
#[derive(Clone, Copy)]
pub struct SyncsLine {
    /// How many Syncs.
    pub count: u64,
    /// How many are missing: numbers that were passed over, less those that came late.
    pub missing: u64,
    /// How many of those that came are two-step ones.
    pub two_step: u64,
    /// How many Follow_Ups.
    pub follow_ups: u64,
    /// How many Syncs that waited have none.
    pub unfollowed: u64,
}

impl SyncsLine {
    /// Of what came.
    fn of(flows: &Flows) -> SyncsLine
        ensures { result ≡ syncs_of flows.now }
    {
        SyncsLine {
            count: flows.syncs.count,
            missing: flows.syncs.missing(),
            two_step: flows.two_step,
            follow_ups: flows.follow_ups,
            unfollowed: flows.unfollowed(),
        }
    }
}

/// How many Syncs are two-step ones, and how many Follow_Ups came and are missing.
#[derive(Clone, Copy)]
struct FollowUps {
    two_step: u64,
    count: u64,
    missing: u64,
}

#[tactic(auto, unfolding(crate::specs::Flows::follow_ups_text))]
impl Display for FollowUps {
    ghost output = { λ x. Some (follow_ups_text x.two_step x.count x.missing) };

    fn fmt<W: fmt::Write>(&self, f: &mut Formatter<W>) -> fmt::Result {
        write!(
            f,
            "of these two-step: {}, Follow_Ups: {}, {} missing",
            self.two_step, self.count, self.missing
        )
    }
}

#[tactic(auto, unfolding(crate::specs::Flows::syncs_text))]
impl Display for SyncsLine {
    ghost output = { λ syncs. Some (syncs_text syncs) };

    fn fmt<W: fmt::Write>(&self, f: &mut Formatter<W>) -> fmt::Result {
        let follow_ups = FollowUps {
            two_step: self.two_step,
            count: self.follow_ups,
            missing: self.unfollowed,
        };
        match self.count {
            0 => Ok(()),
            count => write!(
                f,
                "ptpx: Syncs: {count}, {} missing; {follow_ups}\n",
                self.missing
            ),
        }
    }
}

/// How many Delay_Reqs and Delay_Resps came, and how many are missing. Shows as a line, where a Delay_Req came.
#[derive(Clone, Copy)]
pub struct RequestsLine {
    /// How many Delay_Reqs.
    pub count: u64,
    /// How many are missing: numbers that were passed over, less those that came late.
    pub missing: u64,
    /// How many Delay_Resps answer a Delay_Req that came before.
    pub answers: u64,
    /// How many Delay_Reqs have none.
    pub unanswered: u64,
}

impl RequestsLine {
    /// Of what came.
    fn of(flows: &Flows) -> RequestsLine
        ensures { result ≡ requests_of flows.now }
    {
        RequestsLine {
            count: flows.requests.count,
            missing: flows.requests.missing(),
            answers: flows.answers,
            unanswered: flows.unanswered(),
        }
    }
}

#[tactic(auto, unfolding(crate::specs::Flows::requests_text))]
impl Display for RequestsLine {
    ghost output = { λ requests. Some (requests_text requests) };

    fn fmt<W: fmt::Write>(&self, f: &mut Formatter<W>) -> fmt::Result {
        match self.count {
            0 => Ok(()),
            count => write!(
                f,
                "ptpx: Delay_Reqs: {count}, {} missing; Delay_Resps: {}, {} missing\n",
                self.missing, self.answers, self.unanswered
            ),
        }
    }
}

/// The time from one message to the next.
#[derive(Clone, Copy)]
pub struct Intervals {
    /// The mean and the standard deviation.
    pub figures: Figures,
    /// The least, in units of 2^-17 ns.
    pub least: Option<Point>,
    /// The greatest, in units of 2^-17 ns.
    pub greatest: Option<Point>,
    /// The last logMessageInterval that tells it.
    pub log: Option<i8>,
}

impl Intervals {
    /// Of this series, and this logMessageInterval.
    fn of(series: &Series, log: Option<i8>) -> Intervals
        ensures { AreIntervals series.now log result }
    {
        Intervals {
            figures: Figures::of(series),
            least: series.least,
            greatest: series.greatest,
            log,
        }
    }
}

/// Microseconds in a second.
const SECOND: u128 = 1_000_000;

/// The time from one message to the next that a logMessageInterval tells (IEEE 1588-2019, 13.3.2.14), in microseconds, rounded down,
/// where it is from -7 to 6.
fn interval_told(log: i8) -> Option<u128>
    ensures { result ≡ interval_told log }
{
    match log {
        0..=6 => Some(SECOND << log.unsigned_abs()),
        -7..=-1 => Some(SECOND >> log.unsigned_abs()),
        _ => None,
    }
}

/// The same of one that came last, if one came.
fn interval_told_last(log: Option<i8>) -> Option<u128>
    ensures { result ≡ option_and_then interval_told log }
{
    interval_told(log?)
}

/// A standard deviation in thousandths of a nanosecond, where there is one.
#[derive(Clone, Copy)]
struct Deviation(Option<u128>);

#[tactic(auto, unfolding(crate::specs::Flows::deviation_text))]
impl Display for Deviation {
    ghost output = { λ deviation. Some (deviation_text deviation.0) };

    fn fmt<W: fmt::Write>(&self, f: &mut Formatter<W>) -> fmt::Result {
        let Some(size) = self.0 else {
            return Ok(());
        };
        let deviation = Milliseconds::of_thousandths(Signed {
            is_negative: false,
            size,
        });
        write!(f, ", standard deviation {deviation}")
    }
}

/// The least or the greatest interval, and of which line or packet it is.
#[derive(Clone, Copy)]
struct End {
    unit: InputUnit,
    name: &'static str,
    point: Point,
}

#[tactic(auto, unfolding(crate::specs::Flows::end_text))]
impl Display for End {
    ghost output = { λ end. Some (end_text end.unit end.name.now end.point) };

    fn fmt<W: fmt::Write>(&self, f: &mut Formatter<W>) -> fmt::Result {
        let interval = Milliseconds::of(self.point.value);
        let place = Place {
            unit: self.unit,
            number: self.point.line,
        };
        write!(f, ", {} {interval} {place}", self.name)
    }
}

/// What a logMessageInterval tells, in microseconds, where that is told.
#[derive(Clone, Copy)]
struct Told(Option<u128>);

#[tactic(auto, unfolding(crate::specs::Flows::told_text))]
impl Display for Told {
    ghost output = { λ told. Some (told_text told.0) };

    fn fmt<W: fmt::Write>(&self, f: &mut Formatter<W>) -> fmt::Result {
        let Some(size) = self.0 else {
            return Ok(());
        };
        let told = Milliseconds(Signed {
            is_negative: false,
            size,
        });
        write!(f, "; logMessageInterval tells {told}")
    }
}

/// What is told of intervals, where there are any.
#[derive(Clone, Copy)]
struct Course {
    unit: InputUnit,
    mean: Signed,
    deviation: Option<u128>,
    least: Point,
    greatest: Point,
    log: Option<i8>,
}

#[tactic(auto, unfolding(crate::specs::Flows::course_text))]
impl Display for Course {
    ghost output = { λ x. Some (course_text x.unit x.mean x.deviation x.least x.greatest x.log) };

    fn fmt<W: fmt::Write>(&self, f: &mut Formatter<W>) -> fmt::Result {
        let mean = Milliseconds::of_thousandths(self.mean);
        let deviation = Deviation(self.deviation);
        let least = End {
            unit: self.unit,
            name: "least",
            point: self.least,
        };
        let greatest = End {
            unit: self.unit,
            name: "greatest",
            point: self.greatest,
        };
        let told = Told(interval_told_last(self.log));
        write!(f, "mean {mean}{deviation}{least}{greatest}{told}")
    }
}

/// The time from one message to the next. Shows as a line, where there is any.
#[derive(Clone, Copy)]
struct IntervalsLine {
    unit: InputUnit,
    names: &'static str,
    intervals: Intervals,
}

#[tactic(auto, unfolding(crate::specs::Flows::intervals_text))]
impl Display for IntervalsLine {
    ghost output = { λ x. Some (intervals_text x.unit x.names.now x.intervals) };

    fn fmt<W: fmt::Write>(&self, f: &mut Formatter<W>) -> fmt::Result {
        let Intervals {
            figures,
            least,
            greatest,
            log,
        } = self.intervals;
        let (Some(mean), Some(least), Some(greatest)) = (figures.mean, least, greatest) else {
            return Ok(());
        };
        let course = Course {
            unit: self.unit,
            mean,
            deviation: figures.deviation,
            least,
            greatest,
            log,
        };
        write!(
            f,
            "ptpx: from one of the {} to the next: {course}\n",
            self.names
        )
    }
}

/// How old a path delay is at most. Shows as a line, where that is known.
#[derive(Clone, Copy)]
struct AgeLine {
    unit: InputUnit,
    oldest: Option<Point>,
}

#[tactic(auto, unfolding(crate::specs::Flows::age_text))]
impl Display for AgeLine {
    ghost output = { λ x. Some (age_text x.unit x.oldest) };

    fn fmt<W: fmt::Write>(&self, f: &mut Formatter<W>) -> fmt::Result {
        let Some(Point { value, line, .. }) = self.oldest else {
            return Ok(());
        };
        let age = Seconds(value.unsigned_abs());
        let place = Place {
            unit: self.unit,
            number: line,
        };
        write!(
            f,
            "ptpx: the path delay of an offset is at most {age} old, {place}\n"
        )
    }
}

/// What came of the master and the slave, and what is missing. Shows as lines.
#[derive(Clone, Copy)]
pub struct FlowLines {
    /// What lines or packets are called.
    pub unit: InputUnit,
    /// The Syncs and Follow_Ups.
    pub syncs: SyncsLine,
    /// The time from one Sync to the next.
    pub sync_intervals: Intervals,
    /// The Delay_Reqs and Delay_Resps.
    pub requests: RequestsLine,
    /// The time from one Delay_Req to the next.
    pub request_intervals: Intervals,
    /// The greatest age of a path delay, in units of 2^-16 ns, where there is any.
    pub oldest: Option<Point>,
}

impl FlowLines {
    /// Of what came, and of the greatest age of a path delay.
    pub fn of(flows: &Flows, oldest: Option<Point>, unit: InputUnit) -> FlowLines
        ensures { AreFlowLines flows.now oldest unit result }
    {
        FlowLines {
            unit,
            syncs: SyncsLine::of(flows),
            sync_intervals: Intervals::of(&flows.syncs.intervals, flows.sync_log),
            requests: RequestsLine::of(flows),
            request_intervals: Intervals::of(&flows.requests.intervals, flows.request_log),
            oldest,
        }
    }
}

#[tactic(auto, unfolding(crate::specs::Flows::flows_text))]
impl Display for FlowLines {
    ghost output = { λ lines. Some (flows_text lines) };

    fn fmt<W: fmt::Write>(&self, f: &mut Formatter<W>) -> fmt::Result {
        let unit = self.unit;
        let from_syncs = IntervalsLine {
            unit,
            names: "Syncs",
            intervals: self.sync_intervals,
        };
        let from_requests = IntervalsLine {
            unit,
            names: "Delay_Reqs",
            intervals: self.request_intervals,
        };
        let oldest = AgeLine {
            unit,
            oldest: self.oldest,
        };
        let (syncs, requests) = (self.syncs, self.requests);
        write!(f, "{syncs}{from_syncs}{requests}{from_requests}{oldest}")
    }
}
