ghost use Rattle.std.specs.Prelude.{◌≡◌, option_map};
ghost use Rattle.slave_port.specs.Completion.{pair, alone, answered, bracket_of_sync, bracket_of_delay};
ghost use Rattle.slave_port.specs.Answer.{report_of};
ghost use Rattle.slave_port.specs.Exchange.{exchange_of, exchanged};
ghost use Rattle.ptp_units.specs.Exchange.{IsBracket};

use crate::exchange::LastExchange;
use crate::heard::Report;
use crate::held::{HeldFollow, HeldRequest, HeldSync};
use crate::used::{OneStepSync, Response};
use ptp_units::{ScaledTime, Seq, Timestamp, delay_bracket, offset2, path2, sync_bracket};
use std::marker::Model;

/// A Sync that is completed, by its Follow_Up where it is two-step.
#[derive(Clone, Copy)]
pub(crate) struct SyncCompletion {
    t2: ScaledTime,
    origin: Timestamp,
    follow_correction: i64,
    sync_correction: i64,
    sync_tag: u64,
    follow_tag: Option<u64>,
    number: Seq,
}

impl Model for SyncCompletion {
    ghost use Rattle.slave_port.specs.Completion.{SyncCompletion};

    ghost Value = { SyncCompletion };

    ghost view = { λ c. record {
      number = c.number.0;
      t2 = c.t2;
      origin = c.origin;
      follow_correction = c.follow_correction;
      sync_correction = c.sync_correction;
      sync_tag = c.sync_tag;
      follow_tag = c.follow_tag;
    } };

    ghost inverse = { λ c. record {
      number = record { 0 = c.number };
      t2 = c.t2;
      origin = c.origin;
      follow_correction = c.follow_correction;
      sync_correction = c.sync_correction;
      sync_tag = c.sync_tag;
      follow_tag = c.follow_tag;
    } };
}

/// A Delay_Resp with its request.
#[derive(Clone, Copy)]
pub(crate) struct DelayCompletion {
    t3: ScaledTime,
    receive: Timestamp,
    correction: i64,
    request_tag: u64,
    response_tag: u64,
    number: Seq,
}

impl Model for DelayCompletion {
    ghost use Rattle.slave_port.specs.Completion.{DelayCompletion};

    ghost Value = { DelayCompletion };

    ghost view = { λ c. record {
      number = c.number.0;
      t3 = c.t3;
      receive = c.receive;
      correction = c.correction;
      request_tag = c.request_tag;
      response_tag = c.response_tag;
    } };

    ghost inverse = { λ c. record {
      number = record { 0 = c.number };
      t3 = c.t3;
      receive = c.receive;
      correction = c.correction;
      request_tag = c.request_tag;
      response_tag = c.response_tag;
    } };
}

/// The last completion of a kind, and whether a tick came since.
#[derive(Clone, Copy)]
pub(crate) struct Last<C> {
    completion: C,
    ticked: bool,
}

impl<C> Model for Last<C> {
    ghost use Rattle.slave_port.specs.StandsFor.{Last as LastValue};

    ghost Value = { LastValue C };

    ghost view = { λ l. record { completion = l.completion; ticked = l.ticked } };

    ghost inverse = { λ l. record { completion = l.completion; ticked = l.ticked } };
}

impl<C: Copy> Last<C> {
    ghost use Rattle.std.specs.Prelude.{◌≡◌, Some};
    ghost use Rattle.slave_port.specs.Inner.Changes.{aged, renewed};

    /// Of which no tick has come yet.
    pub(crate) fn new(completion: C) -> Last<C>
        ensures { Some result ≡ renewed (Some completion) None }
    {
        Last {
            completion,
            ticked: false,
        }
    }

    pub(crate) fn completion(self) -> C
        ensures { result ≡ self.completion }
    {
        self.completion
    }

    /// What a tick leaves of it.
    pub(crate) fn aged(self) -> Option<Last<C>>
        ensures { result ≡ aged self }
    {
        (!self.ticked).then_some(Last {
            completion: self.completion,
            ticked: true,
        })
    }
}

impl SyncCompletion {
    /// The sequenceId of the Sync.
    pub(crate) fn number(self) -> Seq
        ensures { result.0 ≡ self.number }
    {
        self.number
    }

    /// Its half of a report: `a`.
    fn bracket(self) -> i128
        ensures value { result ≡ bracket_of_sync self }
        ensures within { IsBracket result }
    {
        sync_bracket(
            self.t2,
            self.origin,
            self.follow_correction,
            self.sync_correction,
        )
    }
}

impl DelayCompletion {
    /// Its half of a report: `b`.
    fn bracket(self) -> i128
        ensures value { result ≡ bracket_of_delay self }
        ensures within { IsBracket result }
    {
        delay_bracket(self.receive, self.correction, self.t3)
    }
}

/// The completion of a two-step Sync by a Follow_Up of its number.
pub(crate) fn pair(number: Seq, sync: HeldSync, follow: HeldFollow) -> SyncCompletion
    ensures { result ≡ pair number.0 sync follow }
{
    SyncCompletion {
        number,
        t2: sync.t2,
        origin: follow.precise,
        follow_correction: follow.correction,
        sync_correction: sync.correction,
        sync_tag: sync.tag,
        follow_tag: Some(follow.tag),
    }
}

/// The completion of a one-step Sync, which is its own.
pub(crate) fn alone(number: Seq, sync: OneStepSync) -> SyncCompletion
    ensures { result ≡ alone number.0 sync }
{
    let OneStepSync {
        t2,
        origin,
        correction,
        tag,
    } = sync;
    SyncCompletion {
        number,
        t2,
        origin,
        follow_correction: 0,
        sync_correction: correction,
        sync_tag: tag,
        follow_tag: None,
    }
}

/// The completion of a request by a Delay_Resp of its number, or None where it isn't known when the request left.
pub(crate) fn answered(
    number: Seq,
    response: Response,
    request: HeldRequest,
) -> Option<DelayCompletion>
    ensures { result ≡ answered number.0 response request }
{
    let t3 = request.t3?;
    Some(DelayCompletion {
        number,
        t3,
        receive: response.receive,
        correction: response.correction,
        request_tag: request.tag,
        response_tag: response.tag,
    })
}

/// The report of these two completions.
pub(crate) fn report_of(sync: SyncCompletion, delay: DelayCompletion) -> Report
    ensures { result ≡ report_of sync delay }
{
    let (a, b) = (sync.bracket(), delay.bracket());
    Report {
        offset2: offset2(a, b),
        path2: path2(a, b),
        sync_tag: sync.sync_tag,
        follow_tag: sync.follow_tag,
        request_tag: delay.request_tag,
        response_tag: delay.response_tag,
    }
}

/// The exchange of these two completions.
fn exchange_of(sync: SyncCompletion, delay: DelayCompletion) -> LastExchange
    ensures { result ≡ exchange_of sync delay }
{
    LastExchange {
        t1: ScaledTime::join(sync.origin, 0),
        t2: sync.t2,
        t3: delay.t3,
        t4: ScaledTime::join(delay.receive, 0),
        sync_correction: sync.sync_correction,
        follow_correction: sync.follow_correction,
        response_correction: delay.correction,
        sync_number: sync.number,
        request_number: delay.number,
    }
}

/// The exchange of the last completions, where both are there.
pub(crate) fn exchanged(
    sync: Option<Last<SyncCompletion>>,
    delay: Option<Last<DelayCompletion>>,
) -> Option<LastExchange>
    ensures { result ≡ exchanged
        (option_map (λ last. last.completion) sync)
        (option_map (λ last. last.completion) delay) }
{
    Some(exchange_of(sync?.completion(), delay?.completion()))
}
