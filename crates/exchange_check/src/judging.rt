//! How a report is judged by what is kept: in `Inner.Judged` each `x_by` is `x`, `x_line` or `are_x` of
//! `trace_model`'s `Sound`, as `proofs/Exchanges` and `proofs/Standing` show.

ghost use Rattle.std.specs.Prelude.{◌≡◌, ◌+◌, ◌-ℤ◌, ◌&&◌, pos, option_map, Some};
ghost use Rattle.std.specs.Ordering.{int_eq};
ghost use Rattle.ptp_units.specs.Exchange.{offset2, path2};
ghost use Rattle.trace_model.specs.Sound.{is_of_line, is_domain};
ghost use Rattle.exchange_check.specs.Inner.Kept.{port_setup};
ghost use Rattle.copy_stays.specs.Stays.{once_in};
ghost use Rattle.exchange_check.specs.Inner.Judged.{is_of_kind, found_journey_at, followed_to, is_followed_by};
ghost use Rattle.exchange_check.specs.Inner.Judged.{fraction_by, fits_by};
ghost use Rattle.exchange_check.specs.Inner.Judged.{bracket_by, results_of_by, results_by, IsElapsed};
ghost use Rattle.exchange_check.specs.Inner.Judged.{journeys_judgement_by, alone, found_judgement, judgement_by};
ghost use Rattle.exchange_check.specs.Inner.Machine.{facts_of, sites_of, stamps_of};

use crate::facts::{Fact, Found, FoundJourney, Site};
use crate::finding::{
    holds, master_finding, octets_line, pair_finding, reading_line, size_finding, value_finding,
};
use crate::kept::Kept;
use crate::lookup::Lookup;
use crate::octets::Port;
use crate::residence::Residence;
use crate::ways::Unfollowed;
use network_model::{Event, Name, Report};
use ptp_units::ScaledTime;
use trace_model::{Judgement, Lack, Reasons, Results, Why};

/// Whether a report is of the line of this number.
pub(crate) fn is_of_line(number: u64, report: &Report) -> bool
    ensures { result ≡ is_of_line number report.now }
{
    let heard = match report.follow_tag {
        Some(hearing) => hearing == number,
        None => false,
    };
    report.sync_tag == number || heard || report.response_tag == number
}

/// Whether two ports have one domainNumber.
pub(crate) fn is_domain(one: &Option<Port>, other: &Option<Port>) -> bool
    ensures { result ≡ is_domain (option_map port_setup one.now) (option_map port_setup other.now) }
{
    match (one, other) {
        (Some(one), Some(other)) => one.config.domain == other.config.domain,
        _ => false,
    }
}

/// Whether the Follow_Up follows the Sync of this line; without a Follow_Up, whether it is one-step.
pub(crate) fn is_followed(follow: &Option<Fact>, origin: &Fact) -> bool
    ensures { result ≡ is_followed_by follow.now origin.now }
{
    match follow {
        Some(follow) => match follow.last_sync {
            Some(last) => last == origin.line,
            None => false,
        },
        None => origin.event.is_one_step_sync(),
    }
}

/// The fraction of a nanosecond that a message is sent with in its correctionField.
fn fraction_sent(origin: &Fact) -> u16
    ensures { result ≡ fraction_by origin.now }
{
    if origin.event.is_one_step_sync() {
        origin.reading.split().1
    } else {
        0
    }
}

/// Whether the correctionField holds the residence of a journey.
pub(crate) fn fits(journey: &FoundJourney) -> bool
    ensures { result ≡ fits_by journey.now }
{
    u128::from(fraction_sent(&journey.origin)) + journey.kept.residence.units() < (1 << 63) - 1
}

/// What a clock read at the arrival, less what another read at the departure, less the residence.
fn elapsed(arrival: ScaledTime, departure: ScaledTime, residence: Residence) -> i128
    ensures value { result ≡ (pos arrival -ℤ pos departure) -ℤ pos residence }
    ensures within { IsElapsed result }
{
    arrival.signed_units() - departure.signed_units() - residence.units() as i128
}

/// The same of an arrival and the journey to it.
fn bracket(arrival: &Fact, journey: &FoundJourney) -> i128
    ensures value { result ≡ bracket_by arrival.now journey.now }
    ensures within { IsElapsed result }
{
    elapsed(
        arrival.reading,
        journey.origin.reading,
        journey.kept.residence,
    )
}

/// Twice offsetFromMaster, of two brackets.
fn offset2(a: i128, b: i128) -> i128
    requires a_within { IsElapsed a }
    requires b_within { IsElapsed b }
    ensures { result ≡ offset2 a b }
{
    a - b
}

/// Twice meanPathDelay, of two brackets.
fn path2(a: i128, b: i128) -> i128
    requires a_within { IsElapsed a }
    requires b_within { IsElapsed b }
    ensures { result ≡ path2 a b }
{
    a + b
}

/// The two results of the readings.
pub(crate) fn results_of(found: &Found, sync: &FoundJourney, request: &FoundJourney) -> Results
    ensures { result ≡ results_of_by found.now sync.now request.now }
{
    let a = bracket(&found.sync_arrival, sync);
    let b = bracket(&found.request_arrival, request);
    Results {
        offset2: offset2(a, b),
        path2: path2(a, b),
    }
}

/// Whether two numbers are one.
fn is_number(one: i128, other: i128) -> bool
    ensures { result ≡ int_eq one other }
{
    one == other
}

/// Whether these are the two results of a report.
pub(crate) fn are_results(report: &Report, results: &Results) -> bool
    ensures { result ≡ results_by report.now results.now }
{
    is_number(report.offset2, results.offset2) && is_number(report.path2, results.path2)
}

/// What a report is judged to be whose lines are there, and its two journeys.
fn journeys_judgement(
    nodes: &Lookup<'_>,
    at: &Site,
    slave: &Name,
    report: &Report,
    found: &Found,
    sync: &FoundJourney,
    request: &FoundJourney,
) -> Judgement
    ensures { result ≡ journeys_judgement_by nodes.now at.now slave.now report.now found.now sync.now request.now }
{
    let results = results_of(found, sync, request);
    let pair = pair_finding(found, sync, request);
    let master = master_finding(nodes, at, slave, report, found, sync);
    let reading = reading_line(found, sync, request);
    let size = size_finding(sync, request);
    let value = value_finding(report, &results);
    let octets = octets_line(found, sync, request);
    Judgement {
        reasons: Reasons::failing(&[
            (Why::OtherNumber, holds(&pair)),
            (Why::OtherMaster, holds(&master)),
            (Why::WrongReading, reading.is_none()),
            (Why::TooBig, holds(&size)),
            (Why::WrongValue, holds(&value)),
            (Why::Bytes, octets.is_none()),
        ]),
        by_readings: Some(results),
    }
}

/// What a report is judged to be of which nothing else can be judged.
fn alone(why: Why) -> Judgement
    ensures { result ≡ alone why }
{
    Judgement {
        reasons: Reasons::only(why),
        by_readings: None,
    }
}

/// A kind of event that a line has to tell of.
#[derive(Clone, Copy)]
pub(crate) enum LineKind {
    DrawsSync,
    Request,
    Arrival,
    Hearing,
}

impl LineKind {
    /// Whether an event is of this kind.
    pub(crate) fn is_of(self, event: &Event) -> bool
        ensures { result ≡ is_of_kind self event.now }
    {
        match self {
            LineKind::DrawsSync => event.draws_sync(),
            LineKind::Request => event.is_request(),
            LineKind::Arrival => event.is_arrival(),
            LineKind::Hearing => event.is_hearing(),
        }
    }
}

impl Kept {
    /// The journey of the copy that the line of this number made.
    pub(crate) fn found_journey_at(&self, copy: u64) -> Option<FoundJourney>
        ensures { result ≡ found_journey_at (facts_of self.now) copy }
    {
        let kept = self.kept_journey_at(copy)?;
        let origin = *self.at(kept.origin)?;
        Some(FoundJourney { kept, origin })
    }

    /// 704: the journey of the copy that arrives at a line, where it begins at an event of this kind and no stay was left twice;
    /// or else why it isn't followed.
    pub(crate) fn journey_to(
        &self,
        kind: LineKind,
        arrival: &Fact,
    ) -> Result<FoundJourney, Unfollowed>
        ensures { result ≡ followed_to (facts_of self.now) (once_in self.now.stays) (is_of_kind kind) arrival.now }
    {
        let by = arrival.line;
        let Some(copy) = arrival.event.heard_copy() else {
            let lack = Lack::OtherEvent(by);
            return Err(Unfollowed::Stops { by, lack });
        };
        if copy >= by {
            let lack = Lack::NotBefore(copy);
            return Err(Unfollowed::Stops { by, lack });
        }
        let Some(journey) = self.found_journey_at(copy) else {
            return Err(Unfollowed::Lost { by, copy });
        };
        if !kind.is_of(&journey.origin.event) {
            let lack = Lack::OtherEvent(journey.origin.line);
            return Err(Unfollowed::Stops { by, lack });
        }
        if self.stays.once(copy) {
            Ok(journey)
        } else {
            Err(Unfollowed::LeftTwice(copy))
        }
    }

    /// What a report of a slave is judged to be.
    fn found_judgement(
        &self,
        nodes: &Lookup<'_>,
        slave: &Name,
        report: &Report,
        found: &Found,
    ) -> Judgement
        ensures { result ≡ found_judgement nodes.now (facts_of self.now) (once_in self.now.stays)
            (sites_of nodes.now self.now slave.now) slave.now report.now (Some found.now) }
    {
        let Ok(sync) = self.journey_to(LineKind::DrawsSync, &found.sync_arrival) else {
            return alone(Why::BrokenJourney);
        };
        let Ok(request) = self.journey_to(LineKind::Request, &found.request_arrival) else {
            return alone(Why::BrokenJourney);
        };
        let at = self.site(nodes, slave);
        journeys_judgement(nodes, &at, slave, report, found, &sync, &request)
    }

    /// What a report at a line is judged to be.
    pub(crate) fn judgement(
        &self,
        nodes: &Lookup<'_>,
        fact: &Option<Fact>,
        report: &Report,
    ) -> Judgement
        ensures { result ≡ judgement_by nodes.now (facts_of self.now) (once_in self.now.stays) (stamps_of self.now)
            (sites_of nodes.now self.now) fact.now report.now }
    {
        let Some(fact) = fact else {
            return alone(Why::NoSuchLine);
        };
        match self.found(fact, report) {
            Ok(found) => self.found_judgement(nodes, &fact.event.node(), report, &found),
            Err(_) => alone(Why::NoSuchLine),
        }
    }
}
