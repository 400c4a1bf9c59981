//! Objects and members of the sums in JSON.
ghost use Rattle.std.specs.Prelude.{Some};
ghost use Rattle.recording_words.specs.SumObjects.{IsMedianOf, IsMeasured, exact_text, last_text, ranks_text, measured_text, interval_text, requests_text, responses_text};
ghost use Rattle.recording_words.specs.SumObjects.{follow_ups_text, syncs_text, grandmaster_text, timescale_text, utc_offset_text, told_or_null, announce_text};
ghost use Rattle.recording_words.specs.SumObjects.{corrections_text, others_text};

use crate::clock::ClockIdentity;
use crate::figures::Figures;
use crate::sum_arrays::{DomainArray, SenderArray};
use crate::sum_values::{Ends, LogOrNull, SizeOrNull, SpreadObject, ThousandthsOrNull};
use ptp_units::Nanoseconds;
use recording_summary::{Announced, Announcement, Announces, Flows, Others, Statistics};
use statistics::{Ranks, Series, Signed, median};
use std::fmt;
use std::fmt::{Display, Formatter};

/// What was measured at a half of the exchanges.
#[derive(Clone, Copy)]
pub struct Measured {
    /// Its values, in 2^-17 ns.
    pub series: Series,
    /// Their mean and their standard deviation.
    pub figures: Figures,
    /// Ranks of the last values, in 2^-17 ns.
    pub ranks: Option<Ranks>,
    /// Their median, in thousandths of a nanosecond, rounded.
    pub median: Option<Signed>,
}

/// The median of the last values, if there are any.
fn median_of(ranks: &Option<Ranks>) -> Option<Signed>
    ensures { IsMedianOf ranks.now result }
{
    match ranks {
        Some(ranks) => median(&ranks.middle),
        None => None,
    }
}

impl Measured {
    /// Of a series, and of ranks of its last values.
    pub fn of(series: &Series, ranks: Option<Ranks>) -> Measured
        ensures { IsMeasured series.now ranks result }
    {
        Measured {
            series: *series,
            figures: Figures::of(series),
            ranks,
            median: median_of(&ranks),
        }
    }
}

/// The 95th percentile, in 2^-17 ns.
#[derive(Clone, Copy)]
struct Percentile95(Ranks);

#[tactic(auto, unfolding(crate::specs::SumObjects::exact_text))]
impl Display for Percentile95 {
    ghost output = { λ ranks. Some (exact_text ranks.0.percentile_95) };

    fn fmt<W: fmt::Write>(&self, f: &mut Formatter<W>) -> fmt::Result {
        let Ranks { percentile_95, .. } = self.0;
        write!(f, "\"{}\"", Nanoseconds(percentile_95))
    }
}

/// The 99th percentile, in 2^-17 ns.
#[derive(Clone, Copy)]
struct Percentile99(Ranks);

#[tactic(auto, unfolding(crate::specs::SumObjects::exact_text))]
impl Display for Percentile99 {
    ghost output = { λ ranks. Some (exact_text ranks.0.percentile_99) };

    fn fmt<W: fmt::Write>(&self, f: &mut Formatter<W>) -> fmt::Result {
        let Ranks { percentile_99, .. } = self.0;
        write!(f, "\"{}\"", Nanoseconds(percentile_99))
    }
}

/// The median and the percentiles of the last values, as members.
#[derive(Clone, Copy)]
struct LastMembers {
    ranks: Ranks,
    median: Option<Signed>,
}

#[tactic(auto, unfolding(crate::specs::SumObjects::last_text))]
impl Display for LastMembers {
    ghost output = { λ x. Some (last_text x.ranks x.median) };

    fn fmt<W: fmt::Write>(&self, f: &mut Formatter<W>) -> fmt::Result {
        let median = ThousandthsOrNull(self.median);
        let (most, nearly_all) = (Percentile95(self.ranks), Percentile99(self.ranks));
        write!(
            f,
            "\"median\":{median},\"percentile_95\":{most},\"percentile_99\":{nearly_all}"
        )
    }
}

/// The same, if there are any values.
#[derive(Clone, Copy)]
struct RankMembers {
    ranks: Option<Ranks>,
    median: Option<Signed>,
}

#[tactic(auto, unfolding(crate::specs::SumObjects::ranks_text))]
impl Display for RankMembers {
    ghost output = { λ x. Some (ranks_text x.ranks x.median) };

    fn fmt<W: fmt::Write>(&self, f: &mut Formatter<W>) -> fmt::Result {
        let median = self.median;
        match self.ranks {
            Some(ranks) => write!(f, "{}", LastMembers { ranks, median }),
            None => f.write_str("\"median\":null,\"percentile_95\":null,\"percentile_99\":null"),
        }
    }
}

#[tactic(auto, unfolding(crate::specs::SumObjects::measured_text))]
impl Display for Measured {
    ghost output = { λ measured. Some (measured_text measured) };

    fn fmt<W: fmt::Write>(&self, f: &mut Formatter<W>) -> fmt::Result {
        let deviation = SizeOrNull(self.figures.deviation);
        let ends = Ends {
            least: self.series.least,
            greatest: self.series.greatest,
        };
        let mean = ThousandthsOrNull(self.figures.mean);
        let ranks = RankMembers {
            ranks: self.ranks,
            median: self.median,
        };
        write!(
            f,
            "{{\"count\":{},\"deviation\":{deviation},{ends},\"mean\":{mean},{ranks}}}",
            self.series.count
        )
    }
}

/// The time from one message to the next, and the logMessageInterval of the last that tells it.
#[derive(Clone, Copy)]
struct Interval {
    series: Series,
    figures: Figures,
    log: Option<i8>,
}

#[tactic(auto, unfolding(crate::specs::SumObjects::interval_text))]
impl Display for Interval {
    ghost output = { λ x. Some (interval_text x.series x.figures x.log) };

    fn fmt<W: fmt::Write>(&self, f: &mut Formatter<W>) -> fmt::Result {
        let deviation = SizeOrNull(self.figures.deviation);
        let ends = Ends {
            least: self.series.least,
            greatest: self.series.greatest,
        };
        let (log, mean) = (LogOrNull(self.log), ThousandthsOrNull(self.figures.mean));
        write!(
            f,
            "{{\"deviation\":{deviation},{ends},\"log\":{log},\"mean\":{mean}}}"
        )
    }
}

/// The Delay_Reqs of the slave, as a member.
#[derive(Clone, Copy)]
pub(crate) struct Requests<'a> {
    pub(crate) flows: &'a Flows,
    pub(crate) figures: Figures,
}

#[tactic(auto, unfolding(crate::specs::SumObjects::requests_text))]
impl Display for Requests<'_> {
    ghost output = { λ x. Some (requests_text x.flows.now x.figures) };

    fn fmt<W: fmt::Write>(&self, f: &mut Formatter<W>) -> fmt::Result {
        let flow = &self.flows.requests;
        let interval = Interval {
            series: flow.intervals,
            figures: self.figures,
            log: self.flows.request_log,
        };
        let (count, missing) = (flow.count, flow.missing());
        write!(
            f,
            "\"delay_reqs\":{{\"count\":{count},\"interval\":{interval},\"missing\":{missing}}}"
        )
    }
}

/// The Delay_Resps that answer them, as a member.
#[derive(Clone, Copy)]
pub(crate) struct Responses<'a>(pub(crate) &'a Flows);

#[tactic(auto, unfolding(crate::specs::SumObjects::responses_text))]
impl Display for Responses<'_> {
    ghost output = { λ flows. Some (responses_text flows.0.now) };

    fn fmt<W: fmt::Write>(&self, f: &mut Formatter<W>) -> fmt::Result {
        let (count, missing) = (self.0.answers, self.0.unanswered());
        write!(
            f,
            "\"delay_resps\":{{\"count\":{count},\"missing\":{missing}}}"
        )
    }
}

/// The Follow_Ups, as a member.
#[derive(Clone, Copy)]
pub(crate) struct FollowUps<'a>(pub(crate) &'a Flows);

#[tactic(auto, unfolding(crate::specs::SumObjects::follow_ups_text))]
impl Display for FollowUps<'_> {
    ghost output = { λ flows. Some (follow_ups_text flows.0.now) };

    fn fmt<W: fmt::Write>(&self, f: &mut Formatter<W>) -> fmt::Result {
        let (count, missing) = (self.0.follow_ups, self.0.unfollowed());
        write!(
            f,
            "\"follow_ups\":{{\"count\":{count},\"missing\":{missing}}}"
        )
    }
}

/// The Syncs, as a member.
#[derive(Clone, Copy)]
pub(crate) struct Syncs<'a> {
    pub(crate) flows: &'a Flows,
    pub(crate) figures: Figures,
}

#[tactic(auto, unfolding(crate::specs::SumObjects::syncs_text))]
impl Display for Syncs<'_> {
    ghost output = { λ x. Some (syncs_text x.flows.now x.figures) };

    fn fmt<W: fmt::Write>(&self, f: &mut Formatter<W>) -> fmt::Result {
        let flow = &self.flows.syncs;
        let interval = Interval {
            series: flow.intervals,
            figures: self.figures,
            log: self.flows.sync_log,
        };
        let (count, missing) = (flow.count, flow.missing());
        write!(
            f,
            "\"syncs\":{{\"count\":{count},\"interval\":{interval},\"missing\":{missing},\"two_step\":{}}}",
            self.flows.two_step
        )
    }
}

/// How many Announces came, how often what they tell changed, and whose time it is, as members.
#[derive(Clone, Copy)]
struct Grandmaster {
    changes: u64,
    count: u64,
    announced: Announced,
}

#[tactic(auto, unfolding(crate::specs::SumObjects::grandmaster_text))]
impl Display for Grandmaster {
    ghost output = { λ x. Some (grandmaster_text x.changes x.count x.announced) };

    fn fmt<W: fmt::Write>(&self, f: &mut Formatter<W>) -> fmt::Result {
        let (changes, class, count) = (self.changes, self.announced.clock_class, self.count);
        let grandmaster = ClockIdentity(self.announced.grandmaster);
        write!(
            f,
            "\"changes\":{changes},\"clock_class\":{class},\"count\":{count},\"grandmaster\":\"{grandmaster}\""
        )
    }
}

/// Since when they tell that, the timescale, and how far away the clock is, as members.
#[derive(Clone, Copy)]
struct Timescale(Announcement);

#[tactic(auto, unfolding(crate::specs::SumObjects::timescale_text))]
impl Display for Timescale {
    ghost output = { λ x. Some (timescale_text x.0.line x.0.announced) };

    fn fmt<W: fmt::Write>(&self, f: &mut Formatter<W>) -> fmt::Result {
        let Announcement { line, announced } = self.0;
        let (is_ptp, steps) = (announced.is_ptp_timescale, announced.steps_removed);
        write!(
            f,
            "\"line\":{line},\"ptp_timescale\":{is_ptp},\"steps_removed\":{steps}"
        )
    }
}

/// How far TAI is ahead of UTC, and whether that is valid, as members.
#[derive(Clone, Copy)]
struct UtcOffset(Announced);

#[tactic(auto, unfolding(crate::specs::SumObjects::utc_offset_text))]
impl Display for UtcOffset {
    ghost output = { λ x. Some (utc_offset_text x.0) };

    fn fmt<W: fmt::Write>(&self, f: &mut Formatter<W>) -> fmt::Result {
        let (offset, is_valid) = (self.0.utc_offset, self.0.is_utc_offset_valid);
        write!(f, "\"utc_offset\":{offset},\"utc_offset_valid\":{is_valid}")
    }
}

/// What the Announces of the master tell last, if any came.
#[derive(Clone, Copy)]
struct ToldOrNull {
    changes: u64,
    count: u64,
    told: Option<Announcement>,
}

#[tactic(auto, unfolding(crate::specs::SumObjects::told_or_null))]
impl Display for ToldOrNull {
    ghost output = { λ x. Some (told_or_null x.changes x.count x.told) };

    fn fmt<W: fmt::Write>(&self, f: &mut Formatter<W>) -> fmt::Result {
        let Some(told) = self.told else {
            return f.write_str("null");
        };
        let grandmaster = Grandmaster {
            changes: self.changes,
            count: self.count,
            announced: told.announced,
        };
        let (timescale, offset) = (Timescale(told), UtcOffset(told.announced));
        write!(f, "{{{grandmaster},{timescale},{offset}}}")
    }
}

/// The same of all that Announces tell.
#[derive(Clone, Copy)]
pub(crate) struct AnnounceOrNull<'a>(pub(crate) &'a Announces);

#[tactic(auto, unfolding(crate::specs::SumObjects::announce_text))]
impl Display for AnnounceOrNull<'_> {
    ghost output = { λ announces. Some (announce_text announces.0.now) };

    fn fmt<W: fmt::Write>(&self, f: &mut Formatter<W>) -> fmt::Result {
        let told = ToldOrNull {
            changes: self.0.changes,
            count: self.0.count,
            told: self.0.told,
        };
        write!(f, "{told}")
    }
}

/// What messages were corrected by, as a member.
#[derive(Clone, Copy)]
pub(crate) struct Corrections<'a>(pub(crate) &'a Statistics);

#[tactic(auto, unfolding(crate::specs::SumObjects::corrections_text))]
impl Display for Corrections<'_> {
    ghost output = { λ statistics. Some (corrections_text statistics.0.now) };

    fn fmt<W: fmt::Write>(&self, f: &mut Formatter<W>) -> fmt::Result {
        let response = SpreadObject(self.0.delay_corrections);
        let sync = SpreadObject(self.0.sync_corrections);
        write!(
            f,
            "\"corrections\":{{\"response\":{response},\"sync\":{sync}}}"
        )
    }
}

/// Who else is there, as a member.
#[derive(Clone, Copy)]
pub(crate) struct OtherPorts<'a>(pub(crate) &'a Others);

#[tactic(auto, unfolding(crate::specs::SumObjects::others_text))]
impl Display for OtherPorts<'_> {
    ghost output = { λ others. Some (others_text others.0.now) };

    fn fmt<W: fmt::Write>(&self, f: &mut Formatter<W>) -> fmt::Result {
        let domains = DomainArray(&self.0.domains);
        let (masters, slaves) = (SenderArray(self.0.masters), SenderArray(self.0.slaves));
        write!(
            f,
            "\"others\":{{\"domains\":{domains},\"masters\":{masters},\"slaves\":{slaves}}}"
        )
    }
}
