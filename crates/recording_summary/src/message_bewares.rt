//! What messages that are missing, come again, begin anew or have a correction speak against the numbers.

ghost use Rattle.std.specs.Prelude.{◌≡◌};
ghost use Rattle.recording_summary.specs.Bewares.{lost_of, lost_many, lost_by_number, missing_syncs, missing_follow_ups};
ghost use Rattle.recording_summary.specs.Bewares.{missing_requests, missing_responses, corrected_requests, master_anew, slave_anew};
ghost use Rattle.recording_summary.specs.Bewares.{request_interval, is_anybody, other_masters, other_slaves};
ghost use Rattle.recording_summary.specs.Bewares.{is_any_counted, other_domains};

use crate::beware::{Beware, Lost};
use crate::flows::Flows;
use crate::others::{Others, Senders};
use crate::report_bewares::if_any;
use statistics::Flow;

/// So many missing beside so many that came.
fn lost_of(missing: u64, came: u64) -> Lost
    ensures { result ≡ lost_of missing came }
{
    Lost {
        missing,
        of: missing.saturating_add(came),
    }
}

/// Messages that are missing, where that are more than one, and more than 1 %.
fn lost_many(lost: Lost) -> Option<Lost>
    ensures { result ≡ lost_many lost }
{
    if lost.missing > 1 && u128::from(lost.missing) * 100 > u128::from(lost.of) {
        Some(lost)
    } else {
        None
    }
}

/// Messages that are missing by their numbers, where that are many.
fn lost_by_number(flow: &Flow) -> Option<Lost>
    ensures { result ≡ lost_by_number flow.now }
{
    lost_many(lost_of(flow.missing(), flow.count))
}

/// How long it is from one Delay_Req to the next, in the mean, in units of 2^-16 ns; 0 of fewer than two.
pub(crate) fn request_interval(requests: &Flow) -> u128
    ensures { result ≡ request_interval requests.now }
{
    match (&requests.first, &requests.newest) {
        (Some(first), Some(newest)) if requests.count > 1 => {
            let span = newest.time.value().saturating_sub(first.time.value());
            span / u128::from(requests.count - 1)
        }
        _ => 0,
    }
}

/// Syncs that are missing.
pub(crate) fn missing_syncs(flows: &Flows) -> Option<Beware>
    ensures { result ≡ missing_syncs flows.now }
{
    Some(Beware::MissingSyncs(lost_by_number(&flows.syncs)?))
}

/// Follow_Ups that are missing.
pub(crate) fn missing_follow_ups(flows: &Flows) -> Option<Beware>
    ensures { result ≡ missing_follow_ups flows.now }
{
    let lost = Lost {
        missing: flows.unfollowed(),
        of: flows.two_step,
    };
    Some(Beware::MissingFollowUps(lost_many(lost)?))
}

/// Delay_Reqs that are missing.
pub(crate) fn missing_requests(flows: &Flows) -> Option<Beware>
    ensures { result ≡ missing_requests flows.now }
{
    Some(Beware::MissingRequests(lost_by_number(&flows.requests)?))
}

/// Delay_Resps that are missing.
pub(crate) fn missing_responses(flows: &Flows) -> Option<Beware>
    ensures { result ≡ missing_responses flows.now }
{
    let lost = Lost {
        missing: flows.unanswered(),
        of: flows.requests.count,
    };
    Some(Beware::MissingResponses(lost_many(lost)?))
}

/// Delay_Reqs that have a correction.
pub(crate) fn corrected_requests(flows: &Flows) -> Option<Beware>
    ensures { result ≡ corrected_requests flows.now }
{
    Some(Beware::CorrectedRequests(if_any(flows.corrected)?))
}

/// A master that began anew.
pub(crate) fn master_anew(flows: &Flows) -> Option<Beware>
    ensures { result ≡ master_anew flows.now }
{
    Some(Beware::MasterAnew(if_any(flows.master_anew)?))
}

/// A slave that began anew.
pub(crate) fn slave_anew(flows: &Flows) -> Option<Beware>
    ensures { result ≡ slave_anew flows.now }
{
    Some(Beware::SlaveAnew(if_any(flows.slave_anew)?))
}

/// Whether anybody sent a message.
fn is_anybody(senders: &Senders) -> bool
    ensures { result ≡ is_anybody senders.now }
{
    senders.listed[0].is_some()
}

/// Other masters of the domain.
pub(crate) fn other_masters(others: &Others) -> Option<Beware>
    ensures { result ≡ other_masters others.now }
{
    if is_anybody(&others.masters) {
        Some(Beware::OtherMasters)
    } else {
        None
    }
}

/// Other slaves of the domain.
pub(crate) fn other_slaves(others: &Others) -> Option<Beware>
    ensures { result ≡ other_slaves others.now }
{
    if is_anybody(&others.slaves) {
        Some(Beware::OtherSlaves)
    } else {
        None
    }
}

/// Whether any of these counts is above 0.
fn is_any_counted(counts: &[u64]) -> bool
    ensures { result ≡ is_any_counted counts.now }
{
    counts.iter().any(|count| *count > 0)
}

/// Other domains.
pub(crate) fn other_domains(others: &Others) -> Option<Beware>
    ensures { result ≡ other_domains others.now }
{
    if is_any_counted(&others.domains) {
        Some(Beware::OtherDomains)
    } else {
        None
    }
}
