//! What is told of a report beside its judgement.
ghost use Rattle.std.specs.Prelude.{◌≡◌, MatchResult, option_map, reverse};
ghost use Rattle.trace_model.specs.declared.verdict.Why.TheVariants.{Bytes};
ghost use Rattle.exchange_check.specs.Evidence.{Evidences, last_finding};
ghost use Rattle.exchange_check.specs.Exchange.{last_exchange};
ghost use Rattle.schedule_reading.specs.declared.fault.TaskFault.TheVariants.{Memory};
ghost use Rattle.explain_input.specs.Input.{Enters};
ghost use Rattle.explain_transcript.specs.Details.{details_of, fields_of, last_time, made_by, moments_of, octets_of};
ghost use Rattle.explain_transcript.specs.Inner.Noting.{IsNotedIn};
ghost use Rattle.explain_transcript.specs.Inner.Times.{later_reading};

use exchange_check::{Checker, Evidence, Exchange, ExchangeLine, Finding, Results, Why};
use explain_input::{Input, Taken};
use network_model::Report;
use ptp_units::ScaledTime;
use schedule_lines::TranscriptLine;
use schedule_reading::TaskFault;

/// In which fields octets differ of messages that a report rests on, where they aren't right (708).
#[derive(Clone, Copy, Debug, PartialEq, Eq)]
pub enum Octets {
    /// In one at least that a slave or a master reads.
    Told,
    /// In others alone, which nobody here reads.
    Other,
}

/// What the clocks read as the two event messages of an exchange departed and came (IEEE 1588-2019, 11.3).
#[derive(Clone, Copy, Debug, PartialEq, Eq)]
pub struct Moments {
    /// The Sync departed.
    pub t1: ScaledTime,
    /// It came to the slave.
    pub t2: ScaledTime,
    /// The Delay_Req departed.
    pub t3: ScaledTime,
    /// It came to the master.
    pub t4: ScaledTime,
}

/// What is told of a report beside its judgement.
#[derive(Clone, Copy, Debug)]
pub struct Details {
    /// Its results by the messages.
    pub by_messages: Option<Results>,
    /// In which fields octets of its messages differ; none where 708 doesn't stand against it.
    pub octets: Option<Octets>,
    /// The event that made the first of its messages in which a field differs that a slave or a master reads, the Sync's
    /// journey before the Follow_Up, the Delay_Req's and the Delay_Resp.
    pub otherwise: Option<u64>,
    /// The four moments of its exchange; none where 701 or 704 stands.
    pub moments: Option<Moments>,
    /// What its slave read at the last of its two event messages, as the Sync came or as the Delay_Req left.
    pub time: Option<ScaledTime>,
}

/// Nothing is told.
const NOTHING: Details = Details {
    by_messages: None,
    octets: None,
    otherwise: None,
    moments: None,
    time: None,
};

/// Notes what was recorded of the line that the input took last.
pub(crate) fn note(evidence: &mut Evidence, input: &Input, taken: &Taken) -> Result<(), TaskFault>
    ensures { MatchResult result
        (λ _. (before : Input) → Enters taken.now.entry before input.now → IsNotedIn evidence.old before
        → IsNotedIn evidence.new input.now)
        (λ fault. fault ≡ Memory) }
{
    let Input::Transcript(transcript) = input else {
        return Ok(());
    };
    let Some(entry) = &taken.entry else {
        return Ok(());
    };
    let TranscriptLine::Event { line, .. } = entry else {
        return Ok(());
    };
    match transcript.checker() {
        Some(checker) => Ok(evidence.note(checker, line)?),
        None => Ok(()),
    }
}

/// What the slave read at the later of the Sync's arrival and the event of this number, by which a Delay_Req left.
fn later_reading(checker: &Checker, request: u64, arrived: &ExchangeLine) -> Option<ScaledTime>
    ensures { result ≡ later_reading checker.now.network (reverse checker.now.lines) request arrived.now }
{
    if request < arrived.number {
        return Some(arrived.reading);
    }
    match checker.line_at(request) {
        Some(line) => Some(line.reading),
        None => None,
    }
}

/// What the slave read at the last of the two event messages of a report of the line that the checker was fed last, which
/// has this exchange. None where 701 or 704 stands.
fn last_time(checker: &Checker, report: &Report, exchange: &Option<Exchange>) -> Option<ScaledTime>
    ensures { exchange.now ≡ last_exchange checker.now.network (reverse checker.now.lines) report.now
        → result ≡ last_time checker.now.network (reverse checker.now.lines) report.now }
{
    match exchange {
        Some(exchange) => later_reading(checker, report.request_tag, &exchange.sync.arrived),
        None => None,
    }
}

/// The four moments of an exchange.
fn moments_of(exchange: &Exchange) -> Moments
    ensures { result ≡ moments_of exchange.now }
{
    Moments {
        t1: exchange.sync.departed.reading,
        t2: exchange.sync.arrived.reading,
        t3: exchange.request.departed.reading,
        t4: exchange.request.arrived.reading,
    }
}

/// The same, where there is an exchange.
fn moments_told(exchange: &Option<Exchange>) -> Option<Moments>
    ensures { result ≡ option_map moments_of exchange.now }
{
    match exchange {
        Some(exchange) => Some(moments_of(exchange)),
        None => None,
    }
}

/// The event that made the message whose octets were found to be others.
fn made_by(finding: Option<Finding>) -> Option<u64>
    ensures { result ≡ made_by finding }
{
    match finding {
        Some(Finding::OtherOctets { event }) => Some(event),
        _ => None,
    }
}

/// In which fields octets differ that aren't right: in one that a slave or a master reads, where a message tells otherwise.
fn fields_of(otherwise: Option<Finding>) -> Octets
    ensures { result ≡ fields_of otherwise }
{
    match otherwise {
        Some(_) => Octets::Told,
        None => Octets::Other,
    }
}

/// In which fields octets differ of the messages of a report of the line that was noted last, of which this is the first that
/// tells otherwise.
fn octets_of(
    evidence: &Evidence,
    checker: &Checker,
    report: &Report,
    otherwise: Option<Finding>,
) -> Option<Octets>
    ensures { Evidences evidence.now checker.now → result ≡ octets_of
        (last_finding checker.now.network (reverse checker.now.lines) report.now Bytes) otherwise }
{
    match evidence.finding(checker, report, Why::Bytes) {
        Some(_) => Some(fields_of(otherwise)),
        None => None,
    }
}

/// What is told of a report of the last line beside its judgement, by what was noted of each line.
pub(crate) fn details_of(evidence: &Evidence, input: &Input, report: &Report) -> Details
    ensures { IsNotedIn evidence.now input.now → result ≡ details_of input.now report.now }
{
    match input {
        Input::Transcript(transcript) => match transcript.checker() {
            Some(checker) => {
                let exchange = checker.exchange(report);
                let otherwise = evidence.first_otherwise(checker, report);
                Details {
                    by_messages: evidence.by_messages(checker, report),
                    octets: octets_of(evidence, checker, report, otherwise),
                    otherwise: made_by(otherwise),
                    moments: moments_told(&exchange),
                    time: last_time(checker, report, &exchange),
                }
            }
            None => NOTHING,
        },
        Input::Schedule(_) => NOTHING,
    }
}
