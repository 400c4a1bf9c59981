//! The lines of a report: when its Sync and its Delay_Req departed, were in clocks and arrived, by the
//! readings.

ghost use Rattle.std.specs.Prelude.{◌≡◌};
ghost use Rattle.exchange_check.specs.Inner.Telling.{line_by, stay_by, last_stay_by, copy_at, stay_of_copy};
ghost use Rattle.exchange_check.specs.Inner.Telling.{copy_before, stays_by, earlier_by, leg_by, follow_by};
ghost use Rattle.exchange_check.specs.Inner.Telling.{exchange_with, exchange_by};
ghost use Rattle.exchange_check.specs.Inner.Machine.{facts_of, stamps_of};
ghost use Rattle.copy_stays.specs.Stays.{once_in};

use crate::facts::{Fact, Found, FoundJourney};
use crate::judging::LineKind;
use crate::kept::Kept;
use network_model::{Event, Report};
use ptp_units::{ScaledTime, Seq};

/// The most stays of a journey that are told one by one, so that an exchange takes no more of time and of memory
/// however long its journeys are.
pub const STAYS_MOST: usize = 16;

/// A line of an exchange.
#[derive(Clone, Copy, Debug, PartialEq, Eq)]
pub struct ExchangeLine {
    /// The event's place among the events, from 0.
    pub number: u64,
    /// The event.
    pub event: Event,
    /// What the node's clock is said to have read, in units of 2^-16 ns; 0 where nothing is said.
    pub reading: ScaledTime,
    /// The sequenceId that the event drew; 0 where it draws none.
    pub sequence: Seq,
}

/// A stay in a clock.
#[derive(Clone, Copy, Debug, PartialEq, Eq)]
pub struct Stay {
    /// The message entered.
    pub entered: ExchangeLine,
    /// It left.
    pub left: ExchangeLine,
}

/// The journey of an event message from a port to another one.
#[derive(Clone, Copy, Debug, PartialEq, Eq)]
pub struct Leg {
    /// It departed.
    pub departed: ExchangeLine,
    /// Its last stays in clocks, the last one first, and nothing behind them.
    pub stays: [Option<Stay>; STAYS_MOST],
    /// How long it was in clocks before these stays, in units of 2^-16 ns; none where they are all.
    pub earlier: Option<u128>,
    /// How long it was in clocks, in units of 2^-16 ns.
    pub residence: u128,
    /// It arrived.
    pub arrived: ExchangeLine,
}

/// The lines that a report is of.
#[derive(Clone, Copy, Debug, PartialEq, Eq)]
pub struct Exchange {
    /// The journey of the Sync, from t1 to t2.
    pub sync: Leg,
    /// The event that sent the Follow_Up, by its place among the events; none of a one-step Sync.
    pub follow: Option<u64>,
    /// The journey of the Delay_Req, from t3 to t4.
    pub request: Leg,
    /// The event by which the slave learned when the Delay_Req departed, by its place among the events.
    pub stamped: Option<u64>,
}

/// What is told of a line.
fn line_of(fact: &Fact) -> ExchangeLine
    ensures { result ≡ line_by fact.now }
{
    ExchangeLine {
        number: fact.line,
        event: fact.event,
        reading: fact.reading,
        sequence: fact.number,
    }
}

/// What is told of a stay.
fn stay_of(entered: &Fact, left: &Fact) -> Stay
    ensures { result ≡ stay_by entered.now left.now }
{
    Stay {
        entered: line_of(entered),
        left: line_of(left),
    }
}

/// The copy that entered at a stay.
fn copy_entered(stay: &Option<Stay>) -> Option<u64>
    ensures { result ≡ copy_at stay.now }
{
    match stay {
        Some(stay) => stay.entered.event.entered_copy(),
        None => None,
    }
}

/// The number of the line of the Follow_Up.
fn follow_of(found: &Found) -> Option<u64>
    ensures { result ≡ follow_by found.now }
{
    match &found.follow {
        Some(follow) => Some(follow.line),
        None => None,
    }
}

impl Kept {
    /// What is told of the last stay of the copy that the line of this number made.
    pub(crate) fn last_stay(&self, copy: u64) -> Option<Stay>
        ensures { result ≡ last_stay_by (facts_of self.now) copy }
    {
        let left = self.at(copy)?;
        if left.journey.is_none() {
            return None;
        }
        let entered = self.at(left.event.named_transit()?)?;
        Some(stay_of(entered, left))
    }

    /// The same of a copy that there may be.
    fn stay_of_copy(&self, copy: Option<u64>) -> Option<Stay>
        ensures { result ≡ stay_of_copy (facts_of self.now) copy }
    {
        self.last_stay(copy?)
    }

    /// The last stays of a copy, the last one first, and the copy before them; none where they are fewer
    /// than there is room for.
    fn stays(&self, copy: Option<u64>) -> ([Option<Stay>; STAYS_MOST], Option<u64>)
        ensures stays { result.0 ≡ stays_by (facts_of self.now) copy }
        ensures before { result.1 ≡ copy_before (facts_of self.now) 16 copy }
    {
        let mut stays = [None; STAYS_MOST];
        let mut before = copy;
        for place in &mut stays {
            let stay = self.stay_of_copy(before);
            before = copy_entered(&stay);
            *place = stay;
        }
        (stays, before)
    }

    /// How long a copy was in clocks, where it was in one.
    fn earlier(&self, copy: Option<u64>) -> Option<u128>
        ensures { result ≡ earlier_by (facts_of self.now) copy }
    {
        if self.stay_of_copy(copy).is_none() {
            return None;
        }
        Some(self.kept_journey_at(copy?)?.residence.units())
    }

    /// What is told of the journey of a message that arrives at a line.
    fn leg(&self, arrived: &Fact, journey: &FoundJourney) -> Leg
        ensures { result ≡ leg_by (facts_of self.now) arrived.now journey.now }
    {
        let (stays, before) = self.stays(arrived.event.heard_copy());
        Leg {
            departed: line_of(&journey.origin),
            stays,
            earlier: self.earlier(before),
            residence: journey.kept.residence.units(),
            arrived: line_of(arrived),
        }
    }

    /// What is told of an exchange and its journeys.
    fn exchange_with(&self, found: &Found, sync: &FoundJourney, request: &FoundJourney) -> Exchange
        ensures { result ≡ exchange_with (facts_of self.now) (stamps_of self.now) found.now sync.now request.now }
    {
        Exchange {
            sync: self.leg(&found.sync_arrival, sync),
            follow: follow_of(found),
            request: self.leg(&found.request_arrival, request),
            stamped: self.stamps.get(&found.request.line).copied(),
        }
    }

    /// What is told of a report of the line of this number, where its lines are there and its journeys can
    /// be followed.
    pub(crate) fn exchange(&self, number: u64, report: &Report) -> Option<Exchange>
        ensures { result ≡ exchange_by (facts_of self.now) (once_in self.now.stays) (stamps_of self.now)
            number report.now }
    {
        let fact = self.at(number)?;
        let Ok(found) = self.found(fact, report) else {
            return None;
        };
        let sync = self
            .journey_to(LineKind::DrawsSync, &found.sync_arrival)
            .ok()?;
        let request = self
            .journey_to(LineKind::Request, &found.request_arrival)
            .ok()?;
        Some(self.exchange_with(&found, &sync, &request))
    }
}
