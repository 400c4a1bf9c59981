//! What was measured, in one line of JSON. Keys are in the order of their octets. Times are nanoseconds: with all their decimals, but for
//! means, medians and deviations, which are rounded to a thousandth.
ghost use Rattle.std.specs.Prelude.{◌≡◌, Some, option_map};
ghost use Rattle.recording_summary.specs.Bewares.{AreBewares};
ghost use Rattle.recording_words.specs.Figures.{AreFigures};
ghost use Rattle.recording_words.specs.SumObjects.{IsMeasured};
ghost use Rattle.recording_words.specs.Sums.{doubts_text, messages_text, master_text, reports_text, readings_text, slave_text};
ghost use Rattle.recording_words.specs.Sums.{front_text, object_text};

use crate::figures::Figures;
use crate::sum_arrays::BewareArray;
use crate::sum_objects::{
    AnnounceOrNull, Corrections, FollowUps, Measured, OtherPorts, Requests, Responses, Syncs,
};
use crate::sum_values::{DomainOrNull, LengthOrNull, PortOrNull, SpreadObject};
use recording_summary::{BEWARES, Beware, Counts, Whom};
use statistics::Ranks;
use std::fmt;
use std::fmt::{Display, Formatter};

/// What was measured at one place, and what was passed over at others, as an object of JSON.
#[derive(Clone, Copy)]
pub struct Sums<'a, P> {
    /// Whom the reports are of.
    pub whom: Whom,
    /// What was counted.
    pub counts: &'a Counts,
    /// What speaks against the numbers.
    pub bewares: [Option<Beware>; BEWARES],
    /// What the offsets at Syncs come to.
    pub offset: Measured,
    /// What the path delays at responses come to.
    pub path: Measured,
    /// What the intervals between Syncs come to.
    pub sync_interval: Figures,
    /// What the intervals between Delay_Reqs come to.
    pub request_interval: Figures,
    /// What shows as the members `place` and `places`: where it was measured, and where not.
    pub places: P,
    /// Whether the readings are a slave's own.
    pub is_own: bool,
}

impl<'a, P> Sums<'a, P> {
    /// Of what was counted, with ranks of the last offsets at a Sync and of the last path delays at a response, in 2^-17 ns.
    pub fn of(
        whom: Whom,
        counts: &'a Counts,
        offsets: Option<Ranks>,
        paths: Option<Ranks>,
        places: P,
        is_own: bool,
    ) -> Sums<'a, P>
        ensures whom { result.whom ≡ whom }
        ensures counts { result.counts.now ≡ counts.now }
        ensures bewares { AreBewares counts.now result.bewares }
        ensures offset { IsMeasured counts.now.quality.statistics.offsets.all offsets result.offset }
        ensures path { IsMeasured counts.now.quality.statistics.paths.all paths result.path }
        ensures sync_interval { AreFigures counts.now.others.flows.syncs.intervals result.sync_interval }
        ensures request_interval { AreFigures counts.now.others.flows.requests.intervals result.request_interval }
        ensures places { result.places ≡ places }
        ensures is_own { result.is_own ≡ is_own }
    {
        let statistics = &counts.quality.statistics;
        let flows = &counts.others.flows;
        Sums {
            whom,
            counts,
            bewares: counts.bewares(),
            offset: Measured::of(&statistics.offsets.all, offsets),
            path: Measured::of(&statistics.paths.all, paths),
            sync_interval: Figures::of(&flows.syncs.intervals),
            request_interval: Figures::of(&flows.requests.intervals),
            places,
            is_own,
        }
    }
}

/// How old delays are, what Announces tell, and what speaks against the numbers, as members.
#[derive(Clone, Copy)]
struct Doubts<'a> {
    counts: &'a Counts,
    bewares: &'a [Option<Beware>],
}

#[tactic(auto, unfolding(crate::specs::Sums::doubts_text))]
impl Display for Doubts<'_> {
    ghost output = { λ x. Some (doubts_text x.counts.now x.bewares.now) };

    fn fmt<W: fmt::Write>(&self, f: &mut Formatter<W>) -> fmt::Result {
        let age = SpreadObject(self.counts.quality.statistics.ages);
        let announce = AnnounceOrNull(&self.counts.announces);
        let bewares = BewareArray(self.bewares);
        write!(
            f,
            "\"age\":{age},\"announce\":{announce},\"bewares\":{bewares}"
        )
    }
}

/// What messages were corrected by, and what came of the slave, as members.
#[derive(Clone, Copy)]
struct Messages<'a> {
    counts: &'a Counts,
    figures: Figures,
}

#[tactic(auto, unfolding(crate::specs::Sums::messages_text))]
impl Display for Messages<'_> {
    ghost output = { λ x. Some (messages_text x.counts.now x.figures) };

    fn fmt<W: fmt::Write>(&self, f: &mut Formatter<W>) -> fmt::Result {
        let corrections = Corrections(&self.counts.quality.statistics);
        let requests = Requests {
            flows: &self.counts.others.flows,
            figures: self.figures,
        };
        let responses = Responses(&self.counts.others.flows);
        write!(f, "{corrections},{requests},{responses}")
    }
}

/// The domain, the Follow_Ups and the master, as members.
#[derive(Clone, Copy)]
struct Master<'a> {
    whom: Whom,
    counts: &'a Counts,
}

#[tactic(auto, unfolding(crate::specs::Sums::master_text))]
impl Display for Master<'_> {
    ghost output = { λ x. Some (master_text x.whom x.counts.now) };

    fn fmt<W: fmt::Write>(&self, f: &mut Formatter<W>) -> fmt::Result {
        let (domain, master) = (DomainOrNull(self.whom.domain), PortOrNull(self.whom.master));
        let follow_ups = FollowUps(&self.counts.others.flows);
        write!(f, "\"domain\":{domain},{follow_ups},\"master\":{master}")
    }
}

/// What reports tell, and who else is there, as members.
#[derive(Clone, Copy)]
struct Reports<'a> {
    counts: &'a Counts,
    offset: Measured,
    path: Measured,
}

#[tactic(auto, unfolding(crate::specs::Sums::reports_text))]
impl Display for Reports<'_> {
    ghost output = { λ x. Some (reports_text x.counts.now x.offset x.path) };

    fn fmt<W: fmt::Write>(&self, f: &mut Formatter<W>) -> fmt::Result {
        let (offset, path) = (self.offset, self.path);
        let others = OtherPorts(&self.counts.others);
        write!(f, "\"offset\":{offset},{others},\"path\":{path}")
    }
}

/// Whose readings these are.
#[tactic(auto, unfolding(crate::specs::Sums::readings_text))]
fn readings(is_own: bool) -> &'static str
    ensures { result.now ≡ readings_text is_own }
{
    if is_own { "own" } else { "capture" }
}

/// How many reports there are, of how long a recording, and of which slave, as members.
#[derive(Clone, Copy)]
struct Slave<'a> {
    whom: Whom,
    counts: &'a Counts,
    figures: Figures,
    is_own: bool,
}

#[tactic(auto, unfolding(crate::specs::Sums::slave_text))]
impl Display for Slave<'_> {
    ghost output = { λ x. Some (slave_text x.whom x.counts.now x.figures x.is_own) };

    fn fmt<W: fmt::Write>(&self, f: &mut Formatter<W>) -> fmt::Result {
        let seconds = LengthOrNull {
            first: self.counts.quality.times.first,
            last: self.counts.quality.times.last,
        };
        let slave = PortOrNull(self.whom.slave);
        let syncs = Syncs {
            flows: &self.counts.others.flows,
            figures: self.figures,
        };
        write!(
            f,
            "\"readings\":\"{}\",\"reports\":{},\"seconds\":{seconds},\"slave\":{slave},{syncs}",
            readings(self.is_own),
            self.counts.reports
        )
    }
}

/// All members in front of those of the places.
#[derive(Clone, Copy)]
struct Front<'a> {
    whom: Whom,
    counts: &'a Counts,
    bewares: &'a [Option<Beware>],
    offset: Measured,
    path: Measured,
    figures: Figures,
}

#[tactic(auto, unfolding(crate::specs::Sums::front_text))]
impl Display for Front<'_> {
    ghost output = { λ x. Some (front_text x.whom x.counts.now x.bewares.now x.offset x.path x.figures) };

    fn fmt<W: fmt::Write>(&self, f: &mut Formatter<W>) -> fmt::Result {
        let counts = self.counts;
        let doubts = Doubts {
            counts,
            bewares: self.bewares,
        };
        let messages = Messages {
            counts,
            figures: self.figures,
        };
        let master = Master {
            whom: self.whom,
            counts,
        };
        let reports = Reports {
            counts,
            offset: self.offset,
            path: self.path,
        };
        write!(f, "{doubts},{messages},{master},{reports}")
    }
}

impl<P: Display> Display for Sums<'_, P> {
    ghost output = { λ x. option_map (λ places. object_text
        (front_text x.whom x.counts.now x.bewares x.offset x.path x.request_interval)
        places
        (slave_text x.whom x.counts.now x.sync_interval x.is_own)) (P.output x.places) };

    fn fmt<W: fmt::Write>(&self, f: &mut Formatter<W>) -> fmt::Result {
        let front = Front {
            whom: self.whom,
            counts: self.counts,
            bewares: &self.bewares,
            offset: self.offset,
            path: self.path,
            figures: self.request_interval,
        };
        let back = Slave {
            whom: self.whom,
            counts: self.counts,
            figures: self.sync_interval,
            is_own: self.is_own,
        };
        write!(f, "{{{front},{},{back}}}", self.places)
    }
}
