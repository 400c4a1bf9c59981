//! What the messages tell that came to a slave.

ghost use Rattle.std.specs.Prelude.{◌≡◌, ℕ, ◌==◌, List, if◌then◌else◌, Option, Some, None, option_map, IfSome};
ghost use Rattle.ptp_units.specs.Exchange.{IsBracket};
ghost use Rattle.event_codec.specs.Layout.{number_of, type_of, stamp_in};
ghost use Rattle.trace_model.specs.ByMessages.{said_in, sync_told};
ghost use Rattle.exchange_check.specs.Evidence.{Table, Evidences, last_by_messages};
ghost use Rattle.exchange_check.specs.Inner.Machine.{facts_of, stamps_of};
ghost use Rattle.exchange_check.specs.Inner.Messages.{heard_type, said_told, AreMade, said_of, follow_said_by};
ghost use Rattle.exchange_check.specs.Inner.Messages.{sync_said_by, sync_bracket_by, delay_bracket_by, results_told_by};
ghost use Rattle.exchange_check.specs.Inner.Messages.{by_messages_by, said_by};
ghost use Rattle.exchange_check.specs.Inner.Found.{of_found};
ghost use Rattle.ptp_units.specs.Exchange.{offset2, path2};
ghost use Rattle.copy_stays.specs.Stays.{once_in};
ghost use Rattle.std.specs.Prelude.{reverse};

use crate::checker::Checker;
use crate::evidence::{Evidence, octets};
use crate::exceptions::Exceptions;
use crate::facts::{Fact, Found};
use crate::judging::LineKind;
use crate::kept::Kept;
use event_codec::{Body, Header, decode};
use network_model::{Nodes, Report};
use ptp_units::{ScaledTime, Timestamp, delay_bracket, offset2, path2, sync_bracket};
use trace_model::Results;

/// A kind of message that a slave hears.
#[derive(Clone, Copy)]
pub(crate) enum HeardKind {
    Sync,
    FollowUp,
    DelayResp,
}

impl HeardKind {
    /// The timestamp of a message, where it is of this kind.
    fn timestamp(self, body: &Body) -> Option<Timestamp>
        ensures { result ≡ (if number_of (type_of body.now) == heard_type self then Some (stamp_in body.now) else None) }
    {
        match (self, body) {
            (HeardKind::Sync, Body::Sync { origin }) => Some(*origin),
            (HeardKind::FollowUp, Body::FollowUp { precise }) => Some(*precise),
            (HeardKind::DelayResp, Body::DelayResp { receive, .. }) => Some(*receive),
            _ => None,
        }
    }
}

/// What a message says.
#[derive(Clone, Copy)]
pub(crate) struct Said {
    pub(crate) timestamp: Timestamp,
    /// In units of 2^-16 ns.
    pub(crate) correction: i64,
}

/// What octets say, where they are a message of this kind.
fn said_in(kind: HeardKind, octets: &[u8]) -> Option<Said>
    ensures { option_map said_told result ≡ said_in (heard_type kind) octets.now }
{
    match decode(octets) {
        Ok((message, _)) => said_of(kind, &message.header, &message.body),
        Err(_) => None,
    }
}

/// What a message says, where it is of this kind.
fn said_of(kind: HeardKind, header: &Header, body: &Body) -> Option<Said>
    ensures { option_map said_told result ≡ said_by (heard_type kind) header.now body.now }
{
    match kind.timestamp(body) {
        Some(timestamp) => Some(Said {
            timestamp,
            correction: header.correction.0,
        }),
        None => None,
    }
}

/// What the message of the line of this number says, where it is of this kind.
fn said_at(
    exceptions: &Exceptions,
    nodes: &Nodes,
    kept: &Kept,
    kind: HeardKind,
    number: u64,
) -> Option<Said>
    ensures { (octets : Table (List ℕ)) → AreMade nodes.now kept.now exceptions.now octets
        → option_map said_told result ≡ said_of octets (heard_type kind) number }
{
    match octets(exceptions, nodes, kept, number) {
        Some(octets) => said_in(kind, octets.as_slice()),
        None => None,
    }
}

/// t2 less the departure and the corrections that the slave was told.
fn sync_told(t2: ScaledTime, follow: Option<Said>, sync: Said) -> i128
    ensures value { result ≡ sync_told t2 (option_map said_told follow) (said_told sync) }
    ensures within { IsBracket result }
{
    match follow {
        Some(follow) => sync_bracket(t2, follow.timestamp, follow.correction, sync.correction),
        None => sync_bracket(t2, sync.timestamp, 0, sync.correction),
    }
}

/// What the Follow_Up says, where there is one.
fn follow_said(
    exceptions: &Exceptions,
    nodes: &Nodes,
    kept: &Kept,
    follow: &Option<Fact>,
) -> Option<Option<Said>>
    ensures { (octets : Table (List ℕ)) → AreMade nodes.now kept.now exceptions.now octets
        → option_map (option_map said_told) result ≡ follow_said_by octets follow.now }
{
    match follow {
        Some(follow) => {
            match said_at(exceptions, nodes, kept, HeardKind::FollowUp, follow.line) {
                Some(said) => Some(Some(said)),
                None => None,
            }
        }
        None => Some(None),
    }
}

/// What the copy of the Sync says that arrives.
fn sync_said(exceptions: &Exceptions, nodes: &Nodes, kept: &Kept, arrival: &Fact) -> Option<Said>
    ensures { (octets : Table (List ℕ)) → AreMade nodes.now kept.now exceptions.now octets
        → option_map said_told result ≡ sync_said_by (facts_of kept.now) octets arrival.now }
{
    match kept.sender(arrival) {
        Some(sender) => said_at(exceptions, nodes, kept, HeardKind::Sync, sender.line),
        None => None,
    }
}

/// t2 less the departure and the corrections that the slave was told.
fn sync_bracket_told(
    exceptions: &Exceptions,
    nodes: &Nodes,
    kept: &Kept,
    found: &Found,
) -> Option<i128>
    ensures value { (octets : Table (List ℕ)) → AreMade nodes.now kept.now exceptions.now octets
        → result ≡ sync_bracket_by (facts_of kept.now) octets found.now }
    ensures within { IfSome result (λ a. IsBracket a) }
{
    let sync = sync_said(exceptions, nodes, kept, &found.sync_arrival);
    let follow = follow_said(exceptions, nodes, kept, &found.follow);
    match (sync, follow) {
        (Some(sync), Some(follow)) => Some(sync_told(found.sync_arrival.reading, follow, sync)),
        _ => None,
    }
}

/// The arrival of the Delay_Req that the slave was told, less t3.
fn delay_bracket_told(
    exceptions: &Exceptions,
    nodes: &Nodes,
    kept: &Kept,
    found: &Found,
) -> Option<i128>
    ensures value { (octets : Table (List ℕ)) → AreMade nodes.now kept.now exceptions.now octets
        → result ≡ delay_bracket_by octets found.now }
    ensures within { IfSome result (λ b. IsBracket b) }
{
    let line = found.request_arrival.line;
    match said_at(exceptions, nodes, kept, HeardKind::DelayResp, line) {
        Some(response) => Some(delay_bracket(
            response.timestamp,
            response.correction,
            found.request.reading,
        )),
        None => None,
    }
}

/// The two results of two brackets.
fn results_of(a: i128, b: i128) -> Results
    requires a_within { IsBracket a }
    requires b_within { IsBracket b }
    ensures { result ≡ record { offset2 = offset2 a b; path2 = path2 a b } }
{
    Results {
        offset2: offset2(a, b),
        path2: path2(a, b),
    }
}

/// The two results of what came to the slave.
fn results_told(
    exceptions: &Exceptions,
    nodes: &Nodes,
    kept: &Kept,
    found: &Found,
) -> Option<Results>
    ensures { (octets : Table (List ℕ)) → AreMade nodes.now kept.now exceptions.now octets
        → result ≡ results_told_by (facts_of kept.now) octets found.now }
{
    let a = sync_bracket_told(exceptions, nodes, kept, found);
    let b = delay_bracket_told(exceptions, nodes, kept, found);
    match (a, b) {
        (Some(a), Some(b)) => Some(results_of(a, b)),
        _ => None,
    }
}

/// The same where both journeys can be followed.
fn journeys_told(
    exceptions: &Exceptions,
    nodes: &Nodes,
    kept: &Kept,
    found: &Found,
) -> Option<Results>
    ensures { (octets : Table (List ℕ)) → AreMade nodes.now kept.now exceptions.now octets
        → result ≡ of_found (facts_of kept.now) (once_in kept.now.stays)
        (λ told sync request. results_told_by (facts_of kept.now) octets told) found.now }
{
    let sync = kept.journey_to(LineKind::DrawsSync, &found.sync_arrival);
    let request = kept.journey_to(LineKind::Request, &found.request_arrival);
    match (sync, request) {
        (Ok(_), Ok(_)) => results_told(exceptions, nodes, kept, found),
        _ => None,
    }
}

/// The same of a report of the line of this number.
fn report_told(
    exceptions: &Exceptions,
    nodes: &Nodes,
    kept: &Kept,
    number: u64,
    report: &Report,
) -> Option<Results>
    ensures { (octets : Table (List ℕ)) → AreMade nodes.now kept.now exceptions.now octets
        → result ≡ by_messages_by (facts_of kept.now) (once_in kept.now.stays) (stamps_of kept.now) octets number
        report.now }
{
    match kept.found_at(number, report) {
        Some(found) => journeys_told(exceptions, nodes, kept, &found),
        None => None,
    }
}

impl Evidence {
    /// The two results by the messages of a report of the line that was noted last: of what came to the slave and of
    /// its own readings. Of a two-step Sync t1 and a correction are from the Follow_Up, of a one-step Sync from itself;
    /// and there are the Sync's correction, the receive timestamp and the correction of the Delay_Resp (IEEE 1588-2019,
    /// 11.3). None where 701 or 704 stands against the report, or where one of these messages can't be read or is of
    /// another type.
    pub fn by_messages(&self, checker: &Checker, report: &Report) -> Option<Results>
        ensures { Evidences self.now checker.now
            → result ≡ last_by_messages checker.now.network (reverse checker.now.lines) report.now }
    {
        let (nodes, kept) = checker.inside();
        report_told(&self.exceptions, nodes, kept, kept.last_number(), report)
    }
}
