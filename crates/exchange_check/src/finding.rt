//! What is found wrong with a report: of each reason the first thing that breaks its condition, of 701 and of 704 by
//! `place_finding` and `way_finding`.

ghost use Rattle.std.specs.Prelude.{◌≡◌, ◌&&◌, true, nat_lt, reverse, is_none};
ghost use Rattle.std.specs.BTreeMap.{get};
ghost use Rattle.std.specs.Ordering.{nat_cmp};
ghost use Rattle.std.specs.Option.{option_map_or};
ghost use Rattle.network_model.specs.Run.{site_of};
ghost use Rattle.trace_model.specs.declared.finding.Finding.TheVariants as findings;
ghost use Rattle.trace_model.specs.Finding.{broken, early_finding};
ghost use Rattle.exchange_check.specs.Evidence.{Evidences, last_finding};
ghost use Rattle.exchange_check.specs.Inner.Finding.{follow_finding_by, pair_finding_by, told_finding_by};
ghost use Rattle.exchange_check.specs.Inner.Finding.{master_finding_by, size_finding_by, reading_line_by, reading_met};
ghost use Rattle.exchange_check.specs.Inner.Finding.{readings_finding_by, follow_line_by, octets_line_by};
ghost use Rattle.exchange_check.specs.Inner.Finding.{octets_finding_by, found_finding_by};
ghost use Rattle.exchange_check.specs.Inner.Judged.{paired_by, of_master_by, readings_by, fits_by, results_by, octets_by};
ghost use Rattle.exchange_check.specs.Inner.Found.{of_report, of_found};
ghost use Rattle.exchange_check.specs.Inner.Machine.{facts_of, sites_of, stamps_of};
ghost use Rattle.copy_stays.specs.Stays.{once_in};

use crate::checker::Checker;
use crate::evidence::Evidence;
use crate::exceptions::Exceptions;
use crate::facts::{Fact, Found, FoundJourney, Site};
use crate::judging::{LineKind, are_results, fits, is_domain, is_followed, results_of};
use crate::kept::Kept;
use crate::lookup::Lookup;
use crate::octets::{master_at, slave_at};
use crate::wrong_lines::wrong_line;
use network_model::{Name, Nodes, Report};
use trace_model::{Finding, Part, Results, Why};

/// What is found where a condition doesn't hold.
pub(crate) fn broken(holds: bool, finding: Finding) -> Option<Finding>
    ensures { result ≡ broken holds finding }
{
    if holds { None } else { Some(finding) }
}

/// 702: another Sync's Follow_Up, or none of a two-step Sync.
fn follow_finding(follow: &Option<Fact>, origin: &Fact) -> Finding
    ensures { result ≡ follow_finding_by follow.now origin.now }
{
    match follow {
        Some(follow) => Finding::OtherSync {
            follow_up: follow.line,
            follows: follow.last_sync,
            sync: origin.line,
        },
        None => Finding::NoFollowUp { sync: origin.line },
    }
}

/// 702: a Follow_Up of another Sync, or another Delay_Req.
#[tactic(auto, using(crate::proofs::Conditions::broken_holds, crate::proofs::Conditions::pair_holds))]
pub(crate) fn pair_finding(
    found: &Found,
    sync: &FoundJourney,
    request: &FoundJourney,
) -> Option<Finding>
    ensures finding { result ≡ pair_finding_by found.now sync.now request.now }
    ensures holds { is_none result ≡ paired_by found.now sync.now request.now }
{
    if !is_followed(&found.follow, &sync.origin) {
        return Some(follow_finding(&found.follow, &sync.origin));
    }
    broken(
        request.origin.line == found.request.line,
        Finding::OtherRequest {
            request: request.origin.line,
        },
    )
}

/// Whether nothing is found, so that the condition holds.
pub(crate) fn holds(found: &Option<Finding>) -> bool
    ensures { result ≡ is_none found.now }
{
    !found.is_some()
}

/// A message that isn't later than the line of this number.
fn early(part: Part, set: u64, later: bool) -> Option<Finding>
    ensures { result ≡ broken later (findings.Early part set) }
{
    broken(later, Finding::Early { part, set })
}

/// Whether the Follow_Up, if any, is later than the line of this number.
fn is_follow_later(set: u64, report: &Report) -> bool
    ensures { result ≡ option_map_or (λ hearing. nat_lt set hearing) report.now.follow_tag true }
{
    match report.follow_tag {
        Some(hearing) => set < hearing,
        None => true,
    }
}

/// The first line of a report that isn't later than the line of this number.
#[tactic(auto, using(crate::proofs::Options::or_none))]
fn early_finding(set: u64, report: &Report) -> Option<Finding>
    ensures { result ≡ early_finding set report.now }
{
    let sync = early(Part::Sync, set, set < report.sync_tag);
    let follow = early(Part::FollowUp, set, is_follow_later(set, report));
    let request = early(Part::DelayReq, set, set < report.request_tag);
    let response = early(Part::DelayResp, set, set < report.response_tag);
    sync.or(follow.or(request.or(response)))
}

/// 703: what the slave was told of its master.
fn told_finding(set: &Option<(Name, u64)>, master: &Name, report: &Report) -> Option<Finding>
    ensures { result ≡ told_finding_by set.now master.now report.now }
{
    match set {
        Some((told, number)) => {
            let other = broken(*told == *master, Finding::ToldOther { set: *number });
            other.or(early_finding(*number, report))
        }
        None => Some(Finding::NoMaster),
    }
}

/// 703: what is found of the master.
#[tactic(auto, using(crate::proofs::Conditions::master_holds))]
pub(crate) fn master_finding(
    nodes: &Lookup<'_>,
    at: &Site,
    slave: &Name,
    report: &Report,
    found: &Found,
    sync: &FoundJourney,
) -> Option<Finding>
    ensures finding { result ≡ master_finding_by nodes.now at.now slave.now report.now found.now sync.now }
    ensures holds { is_none result ≡ of_master_by nodes.now at.now slave.now report.now found.now sync.now }
{
    let master = sync.origin.event.node();
    let answers = broken(
        found.request_arrival.event.node() == master,
        Finding::OtherAnswers {
            arrival: found.request_arrival.line,
        },
    );
    let domain = broken(
        is_domain(&slave_at(nodes, slave), &master_at(nodes, &master)),
        Finding::OtherDomain,
    );
    told_finding(&at.set_master, &master, report).or(answers.or(domain))
}

/// 707: that a message was too long in clocks, where it was.
fn too_long(part: Part, journey: &FoundJourney) -> Option<Finding>
    ensures { result ≡ broken (fits_by journey.now) (findings.TooLong part) }
{
    broken(fits(journey), Finding::TooLong { part })
}

/// 707: a message that was too long in clocks.
#[tactic(auto, using(crate::proofs::Conditions::size_holds))]
pub(crate) fn size_finding(sync: &FoundJourney, request: &FoundJourney) -> Option<Finding>
    ensures finding { result ≡ size_finding_by sync.now request.now }
    ensures holds { is_none result ≡ (fits_by sync.now && fits_by request.now) }
{
    too_long(Part::Sync, sync).or(too_long(Part::DelayReq, request))
}

/// 706: other results than these.
#[tactic(auto, using(crate::proofs::Conditions::broken_holds))]
pub(crate) fn value_finding(report: &Report, results: &Results) -> Option<Finding>
    ensures finding { result ≡ broken (results_by report.now results.now) findings.OtherResults }
    ensures holds { is_none result ≡ results_by report.now results.now }
{
    broken(are_results(report, results), Finding::OtherResults)
}

/// 705: the line at which the first thing is met that is wrong with readings.
#[tactic(auto, using(crate::proofs::Conditions::reading_holds))]
pub(crate) fn reading_line(
    found: &Found,
    sync: &FoundJourney,
    request: &FoundJourney,
) -> Option<u64>
    ensures finding { result ≡ reading_line_by found.now sync.now request.now }
    ensures holds { is_none result ≡ readings_by found.now sync.now request.now }
{
    let synced = &found.sync_arrival;
    let asked = &found.request_arrival;
    wrong_line(synced.reads_right, synced.line)
        .or(sync.kept.wrong.reading())
        .or(wrong_line(asked.reads_right, asked.line))
        .or(request.kept.wrong.reading())
}

/// 708: the line of the Follow_Up, if any, where its octets are wrong.
fn follow_line(follow: &Option<Fact>) -> Option<u64>
    ensures { result ≡ follow_line_by follow.now }
{
    match follow {
        Some(follow) => wrong_line(follow.writes_right, follow.line),
        None => None,
    }
}

/// 708: the line of the first message with wrong octets.
#[tactic(auto, using(crate::proofs::Conditions::octets_hold))]
pub(crate) fn octets_line(found: &Found, sync: &FoundJourney, request: &FoundJourney) -> Option<u64>
    ensures finding { result ≡ octets_line_by found.now sync.now request.now }
    ensures holds { is_none result ≡ octets_by found.now sync.now request.now }
{
    let answered = &found.request_arrival;
    let sent = sync.kept.wrong.octets().or(follow_line(&found.follow));
    sent.or(request.kept.wrong.octets())
        .or(wrong_line(answered.writes_right, answered.line))
}

/// 708: what is found of octets.
fn octets_finding(found: &Found, sync: &FoundJourney, request: &FoundJourney) -> Option<Finding>
    ensures { result ≡ octets_finding_by found.now sync.now request.now }
{
    let event = octets_line(found, sync, request)?;
    Some(Finding::OtherOctets { event })
}

impl Exceptions {
    /// 705: what is wrong with readings, met at the line of this number: its own reading, or else that of the stay which
    /// ends there the clock read less at the end than at the beginning.
    fn reading_met(&self, kept: &Kept, number: u64) -> Option<Finding>
        ensures { result ≡ reading_met (facts_of kept.now) (get nat_cmp self.now.readings) number }
    {
        let fact = kept.at(number)?;
        if fact.reads_right {
            let entered = fact.event.named_transit()?;
            return Some(Finding::Falls {
                entered,
                left: number,
            });
        }
        let set = match self.readings.get(&number) {
            Some(wrong) => wrong.set,
            None => None,
        };
        Some(Finding::WrongReading { event: number, set })
    }

    /// 705: what is found of readings.
    fn readings_finding(
        &self,
        kept: &Kept,
        found: &Found,
        sync: &FoundJourney,
        request: &FoundJourney,
    ) -> Option<Finding>
        ensures { result ≡ readings_finding_by (facts_of kept.now) (get nat_cmp self.now.readings) found.now sync.now
            request.now }
    {
        self.reading_met(kept, reading_line(found, sync, request)?)
    }
}

/// 703: what is found of the master of the slave of a report.
fn slave_finding(
    nodes: &Nodes,
    kept: &Kept,
    fact: &Fact,
    report: &Report,
    found: &Found,
    sync: &FoundJourney,
) -> Option<Finding>
    ensures { result ≡ master_finding_by nodes.now (sites_of nodes.now kept.now (site_of fact.now.event))
        (site_of fact.now.event) report.now found.now sync.now }
{
    let slave = fact.event.node();
    let nodes = Lookup::new(nodes, slave);
    let at = kept.site(&nodes, &slave);
    master_finding(&nodes, &at, &slave, report, found, sync)
}

/// What is found of a report of a line, and of its journeys.
fn journeys_finding(
    evidence: &Exceptions,
    nodes: &Nodes,
    kept: &Kept,
    fact: &Fact,
    report: &Report,
    found: &Found,
    sync: &FoundJourney,
    request: &FoundJourney,
    why: Why,
) -> Option<Finding>
    ensures { result ≡ found_finding_by nodes.now (sites_of nodes.now kept.now) (facts_of kept.now)
        (get nat_cmp evidence.now.readings) report.now why fact.now found.now sync.now request.now }
{
    match why {
        Why::OtherNumber => pair_finding(found, sync, request),
        Why::OtherMaster => slave_finding(nodes, kept, fact, report, found, sync),
        Why::WrongReading => evidence.readings_finding(kept, found, sync, request),
        Why::TooBig => size_finding(sync, request),
        Why::WrongValue => value_finding(report, &results_of(found, sync, request)),
        Why::Bytes => octets_finding(found, sync, request),
        Why::NoSuchLine | Why::BrokenJourney => None,
    }
}

/// What is found of a report of a line, where its journeys can be followed.
fn found_finding(
    evidence: &Exceptions,
    nodes: &Nodes,
    kept: &Kept,
    fact: &Fact,
    report: &Report,
    found: &Found,
    why: Why,
) -> Option<Finding>
    ensures { result ≡ of_found (facts_of kept.now) (once_in kept.now.stays) (found_finding_by nodes.now
        (sites_of nodes.now kept.now) (facts_of kept.now) (get nat_cmp evidence.now.readings) report.now why fact.now)
        found.now }
{
    let sync = kept.journey_to(LineKind::DrawsSync, &found.sync_arrival);
    let request = kept.journey_to(LineKind::Request, &found.request_arrival);
    match (sync, request) {
        (Ok(sync), Ok(request)) => journeys_finding(
            evidence, nodes, kept, fact, report, found, &sync, &request, why,
        ),
        _ => None,
    }
}

/// What is found of a report of the line of this number, where its lines are there and its journeys can be followed.
fn report_finding(
    evidence: &Exceptions,
    nodes: &Nodes,
    kept: &Kept,
    number: u64,
    report: &Report,
    why: Why,
) -> Option<Finding>
    ensures { result ≡ of_report (facts_of kept.now) (stamps_of kept.now) (λ fact. of_found (facts_of kept.now)
        (once_in kept.now.stays) (found_finding_by nodes.now (sites_of nodes.now kept.now) (facts_of kept.now)
        (get nat_cmp evidence.now.readings) report.now why fact)) number report.now }
{
    let Some(fact) = kept.at(number) else {
        return None;
    };
    match kept.found(fact, report) {
        Ok(found) => found_finding(evidence, nodes, kept, fact, report, &found, why),
        Err(_) => None,
    }
}

impl Evidence {
    /// The first thing that breaks the condition of a reason against a report of the line that was noted last; none
    /// where this reason doesn't stand against it. The time that it takes doesn't grow with the lines, but for looking
    /// some of them up, and of a journey on which a stay was left twice it grows with its stays.
    pub fn finding(&self, checker: &Checker, report: &Report, why: Why) -> Option<Finding>
        ensures { Evidences self.now checker.now
            → result ≡ last_finding checker.now.network (reverse checker.now.lines) report.now why }
    {
        let (nodes, kept) = checker.inside();
        let number = kept.last_number();
        match why {
            Why::NoSuchLine => kept.place_finding(report),
            Why::BrokenJourney => self.exceptions.broken_journey(kept, number, report),
            _ => report_finding(&self.exceptions, nodes, kept, number, report, why),
        }
    }
}
