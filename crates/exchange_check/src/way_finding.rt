//! 704: what is found of the journeys of a report.

ghost use Rattle.std.specs.Prelude.{◌≡◌, ◌<◌, IfSome};
ghost use Rattle.std.specs.BTreeMap.{get};
ghost use Rattle.std.specs.Ordering.{nat_cmp};
ghost use Rattle.exchange_check.specs.Evidence.{stops_in};
ghost use Rattle.exchange_check.specs.Inner.Found.{of_report};
ghost use Rattle.exchange_check.specs.Inner.Judged.{is_of_kind, followed_to};
ghost use Rattle.exchange_check.specs.Inner.Machine.{facts_of, firsts_of, stamps_of};
ghost use Rattle.copy_stays.specs.Stays.{once_in};
ghost use Rattle.exchange_check.specs.Inner.WayFinding.{earlier_twice, twice_at, stay_before, first_twice};
ghost use Rattle.exchange_check.specs.Inner.WayFinding.{twice_finding_by, unfollowed_finding, way_finding_by, ways_finding_by};

use crate::exceptions::Exceptions;
use crate::facts::{Fact, Found};
use crate::judging::LineKind;
use crate::kept::Kept;
use crate::ways::{Stop, Unfollowed};
use network_model::Report;
use trace_model::{Finding, Part};

/// A stay that was left twice.
#[derive(Clone, Copy)]
pub(crate) struct Twice {
    /// The number of the line by which it began.
    pub(crate) entered: u64,
    /// The number of the second line that left it.
    pub(crate) second: u64,
}

/// The one of two stays that was left twice first.
fn earlier(one: Option<Twice>, other: Option<Twice>) -> Option<Twice>
    ensures { result ≡ earlier_twice one other }
{
    match (one, other) {
        (Some(one), Some(other)) if other.second < one.second => Some(other),
        (Some(one), _) => Some(one),
        (None, other) => other,
    }
}

/// What is found of a stay that was left twice.
fn twice_finding(kept: &Kept, part: Part, twice: &Twice) -> Option<Finding>
    ensures { result ≡ twice_finding_by (firsts_of kept.now) part twice.now }
{
    let first = kept.stays.first(twice.entered)?;
    Some(Finding::LeftTwice {
        part,
        entered: twice.entered,
        first,
        second: twice.second,
    })
}

impl Kept {
    /// The stay by which the copy left that the line of this number made, and the copy that entered there before.
    fn stay_before(&self, copy: u64) -> Option<(u64, u64)>
        ensures stay { result ≡ stay_before (facts_of self.now) copy }
        ensures below { IfSome result (λ stay. stay.1 < copy) }
    {
        let stay = self.last_stay(copy)?;
        let before = stay.entered.event.entered_copy()?;
        if before < copy {
            Some((stay.entered.number, before))
        } else {
            None
        }
    }
}

impl Exceptions {
    /// The stay that began at the line of this number, where it was left twice.
    fn twice(&self, entered: u64) -> Option<Twice>
        ensures { result ≡ twice_at (get nat_cmp self.now.seconds) entered }
    {
        match self.seconds.get(&entered) {
            Some(second) => Some(Twice {
                entered,
                second: *second,
            }),
            None => None,
        }
    }

    /// The stay on the journey of a copy that was left twice first. It takes time with the stays of the journey.
    fn first_twice(&self, kept: &Kept, copy: u64) -> Option<Twice>
        ensures { result ≡ first_twice (facts_of kept.now) (get nat_cmp self.now.seconds) copy }
    {
        let mut first = None;
        let mut at = copy;
        while let Some((entered, before)) = kept.stay_before(at) {
            first = earlier(first, self.twice(entered));
            at = before;
        }
        first
    }

    /// What is found of a journey that isn't followed, for this reason.
    fn unfollowed_finding(&self, kept: &Kept, part: Part, why: Unfollowed) -> Option<Finding>
        ensures { result ≡ unfollowed_finding (facts_of kept.now) (firsts_of kept.now) (get nat_cmp self.now.seconds)
            (stops_in (get nat_cmp self.now.stops)) part why }
    {
        match why {
            Unfollowed::Stops { by, lack } => Some(Finding::Stops { part, by, lack }),
            Unfollowed::Lost { by, copy } => {
                let Stop { by, lack } = kept.stop_of(&self.stops, by, copy)?;
                Some(Finding::Stops { part, by, lack })
            }
            Unfollowed::LeftTwice(copy) => {
                let twice = self.first_twice(kept, copy)?;
                twice_finding(kept, part, &twice)
            }
        }
    }

    /// What is found of the journey of the message that arrives at a line.
    fn way_finding(
        &self,
        kept: &Kept,
        part: Part,
        kind: LineKind,
        arrival: &Fact,
    ) -> Option<Finding>
        ensures { result ≡ way_finding_by (facts_of kept.now) (firsts_of kept.now) (get nat_cmp self.now.seconds)
            (stops_in (get nat_cmp self.now.stops)) part
            (followed_to (facts_of kept.now) (once_in kept.now.stays) (is_of_kind kind) arrival.now) }
    {
        match kept.journey_to(kind, arrival) {
            Ok(_) => None,
            Err(why) => self.unfollowed_finding(kept, part, why),
        }
    }

    /// What is found of the two journeys.
    fn ways_finding(&self, kept: &Kept, found: &Found) -> Option<Finding>
        ensures { result ≡ ways_finding_by (facts_of kept.now) (firsts_of kept.now) (once_in kept.now.stays)
            (get nat_cmp self.now.seconds) (stops_in (get nat_cmp self.now.stops)) found.now }
    {
        match self.way_finding(kept, Part::Sync, LineKind::DrawsSync, &found.sync_arrival) {
            Some(sync) => Some(sync),
            None => self.way_finding(
                kept,
                Part::DelayReq,
                LineKind::Request,
                &found.request_arrival,
            ),
        }
    }

    /// What is found of the journeys of a report of the line of this number.
    pub(crate) fn broken_journey(
        &self,
        kept: &Kept,
        number: u64,
        report: &Report,
    ) -> Option<Finding>
        ensures { result ≡ of_report (facts_of kept.now) (stamps_of kept.now) (λ fact. ways_finding_by
            (facts_of kept.now) (firsts_of kept.now) (once_in kept.now.stays) (get nat_cmp self.now.seconds)
            (stops_in (get nat_cmp self.now.stops))) number report.now }
    {
        let Some(fact) = kept.at(number) else {
            return None;
        };
        match kept.found(fact, report) {
            Ok(found) => self.ways_finding(kept, &found),
            Err(_) => None,
        }
    }
}
