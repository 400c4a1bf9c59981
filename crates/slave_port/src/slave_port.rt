ghost use Rattle.std.specs.Prelude.{◌≡◌, ◌≤◌, List, [], ◌∷◌, is_ok, OnErr, Ok, Some, None, IfSome, IsSome};
ghost use Rattle.event_codec.specs.Packet.{Packet, contents};
ghost use Rattle.event_codec.specs.Reading.{Reading, IsReading};
ghost use Rattle.pairing.specs.Marked.{empty, entry};
ghost use Rattle.slave_port.specs.declared.heard.Report.{Report};
ghost use Rattle.slave_port.specs.declared.reason.Reason.{Reason};
ghost use Rattle.slave_port.specs.History.{Setup, Call, setup_of, next_number, SetMaster, Tick, NextRequest};
ghost use Rattle.slave_port.specs.History.{RequestLeft, Event, General};
ghost use Rattle.slave_port.specs.Requests.{is_held};
ghost use Rattle.slave_port.specs.Written.{delay_req};
ghost use Rattle.slave_port.specs.Answer.{answer};
ghost use Rattle.slave_port.specs.Exchange.{last_exchange, IsOfLastReport};
ghost use Rattle.slave_port.specs.StandsFor.{StandsFor, StandsAfter, IsAnswer};
ghost use Rattle.slave_port.specs.Inner.Changes.{criteria_of, with_sync, with_follow, with_sync_completion};
ghost use Rattle.slave_port.specs.Inner.Changes.{with_response, and_completed, exchange_in, taken, sync_heard};
ghost use Rattle.slave_port.specs.Inner.Changes.{general_heard};

use crate::completion::{
    DelayCompletion, Last, SyncCompletion, alone, answered, exchanged, pair, report_of,
};
use crate::exchange::LastExchange;
use crate::heard::Heard;
use crate::held::{HeldFollow, HeldRequest, HeldSync};
use crate::reason::{Reason, SlaveRefusal};
use crate::usable::{Criteria, event_use, general_use};
use crate::used::{Response, Used};
use crate::written::delay_req;
use event_codec::{Message, PortConfig, PortIdentity, decode};
use pairing::PairTable;
use ptp_units::{ScaledTime, Seq};
use std::marker::Model;

/// A slave port, with a table each for the Syncs, the Follow_Ups and the requests that it holds.
#[derive(Drop)]
pub struct SlavePort<S, F, Q>
where
    S: PairTable<HeldSync>,
    F: PairTable<HeldFollow>,
    Q: PairTable<HeldRequest>,
{
    config: PortConfig,
    next: Seq,
    master: Option<PortIdentity>,
    syncs: S,
    follows: F,
    requests: Q,
    last_sync: Option<Last<SyncCompletion>>,
    last_delay: Option<Last<DelayCompletion>>,
}

impl<S, F, Q> Model for SlavePort<S, F, Q>
where
    S: PairTable<HeldSync>,
    F: PairTable<HeldFollow>,
    Q: PairTable<HeldRequest>,
{
    ghost use Rattle.slave_port.specs.Written.{delay_req};
    ghost use Rattle.slave_port.specs.StandsFor.{Port};

    ghost Value = { Port };

    ghost view = { λ p. record {
      config = p.config;
      capacities = record { syncs = S.CAPACITY; follows = F.CAPACITY; requests = Q.CAPACITY };
      next = p.next.0;
      master = p.master;
      syncs = S.marked p.syncs;
      follows = F.marked p.follows;
      requests = Q.marked p.requests;
      last_sync = p.last_sync;
      last_delay = p.last_delay;
    } };
}

impl<S, F, Q> SlavePort<S, F, Q>
where
    S: PairTable<HeldSync>,
    F: PairTable<HeldFollow>,
    Q: PairTable<HeldRequest>,
{
    /// A port that has no master and holds nothing. Its requests are numbered from `first` on.
    pub fn new(config: PortConfig, first: Seq) -> Self
        requires syncs { (1 ≤ S.CAPACITY) × (S.CAPACITY ≤ 256) }
        requires follows { (1 ≤ F.CAPACITY) × (F.CAPACITY ≤ 256) }
        requires requests { (1 ≤ Q.CAPACITY) × (Q.CAPACITY ≤ 256) }
        ensures { StandsFor (setup_of config first.0 S.CAPACITY F.CAPACITY Q.CAPACITY) result [] }
    {
        SlavePort {
            config,
            next: first,
            master: None,
            syncs: S::empty(),
            follows: F::empty(),
            requests: Q::empty(),
            last_sync: None,
            last_delay: None,
        }
    }

    /// As a new port of the same configuration, whose requests are numbered from `first` on: it has no
    /// master and holds nothing.
    pub fn restart(&mut self, first: Seq)
        ensures { (setup : Setup) (history : List Call) → StandsFor setup self.old history
            → StandsFor (record setup { first = first.0 }) self.new [] }
    {
        self.next = first;
        self.master = None;
        self.forget();
    }

    /// From now on the present master is this one. Nothing that was held is kept, even where it was
    /// the master already.
    pub fn set_master(&mut self, master: PortIdentity)
        ensures { StandsAfter (SetMaster master) self.old self.new }
    {
        self.master = Some(master);
        self.forget();
    }

    /// Keeps nothing that was held or completed.
    fn forget(&mut self)
        ensures { self.new ≡ record self.old {
          syncs = empty;
          follows = empty;
          requests = empty;
          last_sync = None;
          last_delay = None;
        } }
    {
        self.syncs.clear();
        self.follows.clear();
        self.requests.clear();
        self.last_sync = None;
        self.last_delay = None;
    }

    /// Of what is held beside requests, drops what came before the tick before this one.
    pub fn tick(&mut self)
        ensures { StandsAfter Tick self.old self.new }
    {
        self.syncs.tick();
        self.follows.tick();
        self.last_sync = self.last_sync.and_then(Last::aged);
        self.last_delay = self.last_delay.and_then(Last::aged);
    }

    /// Draws a number: the octets of its Delay_Req, and the number. The request is held, and completes
    /// once it is known when it left. It needs no master.
    pub fn next_request(&mut self, tag: u64) -> ([u8; 44], Seq)
        ensures octets { (setup : Setup) (history : List Call) → StandsFor setup self.old history
            → Packet (delay_req setup.config (next_number setup history)) result.0 }
        ensures number { (setup : Setup) (history : List Call) → StandsFor setup self.old history
            → result.1.0 ≡ next_number setup history }
        ensures stands { StandsAfter (NextRequest tag) self.old self.new }
    {
        let number = self.draw_request(tag);
        (delay_req(&self.config, number).octets(), number)
    }

    /// The same without the octets, for a request that somebody else wrote.
    pub fn draw_request(&mut self, tag: u64) -> Seq
        ensures number { (setup : Setup) (history : List Call) → StandsFor setup self.old history
            → result.0 ≡ next_number setup history }
        ensures stands { StandsAfter (NextRequest tag) self.old self.new }
        ensures config { self.new.config ≡ self.old.config }
    {
        let number = self.next;
        self.next = number.next();
        self.requests.push(number, HeldRequest { t3: None, tag });
        number
    }

    /// The request of this number has left at `t3`: the newest that is held, also where it was known
    /// to have left before. Refused with 511 where none is held.
    pub fn request_left(&mut self, number: Seq, t3: ScaledTime) -> Result<(), SlaveRefusal>
        ensures held { (setup : Setup) (history : List Call) → StandsFor setup self.old history
            → is_ok result ≡ is_held setup history number.0 }
        ensures stands { StandsAfter (RequestLeft number.0 t3) self.old self.new }
        ensures refused { OnErr result (self.new ≡ self.old) }
    {
        let Some(request) = self.requests.find(number).copied() else {
            return Err(SlaveRefusal::NotHeld);
        };
        self.requests.set(
            number,
            HeldRequest {
                t3: Some(t3),
                tag: request.tag,
            },
        );
        Ok(())
    }

    /// A message arrived on the event port at `t2`. A two-step Sync of the present master is held, and
    /// completes with the newest held Follow_Up of its number; a one-step Sync completes by itself. All else
    /// is ignored, for the first reason that applies, and changes nothing: a message of another type for 502,
    /// whoever sent it.
    pub fn sync(&mut self, octets: &[u8], t2: ScaledTime, tag: u64) -> Heard
        ensures answer { (said : Reading) → IsReading octets.now said → IsAnswer (Event said t2 tag) self.old result }
        ensures stands { (said : Reading) → IsReading octets.now said
            → StandsAfter (Event said t2 tag) self.old self.new }
        ensures ignored { (reason : Reason) → result ≡ Heard.Ignored reason → self.new ≡ self.old }
    {
        match decode(octets) {
            Ok((message, _)) => self.sync_message(&message, t2, tag),
            Err(refusal) => Heard::Ignored(Reason::Decode(refusal)),
        }
    }

    /// The same as [`sync`](Self::sync), of a message that was decoded already.
    pub fn sync_message(&mut self, message: &Message<'_>, t2: ScaledTime, tag: u64) -> Heard
        ensures answer { IsAnswer (Event (Ok (contents message.now)) t2 tag) self.old result }
        ensures stands { StandsAfter (Event (Ok (contents message.now)) t2 tag) self.old self.new }
        ensures ignored { (reason : Reason) → result ≡ Heard.Ignored reason → self.new ≡ self.old }
    {
        self.hear_event(message, t2, tag)
    }

    /// A message arrived on the general port. A Follow_Up of the present master is held, and completes
    /// the newest held Sync of its number. A Delay_Resp completes the newest request held under its number.
    /// All else is ignored, for the first reason that applies, and changes nothing.
    pub fn general(&mut self, octets: &[u8], tag: u64) -> Heard
        ensures answer { (said : Reading) → IsReading octets.now said → IsAnswer (General said tag) self.old result }
        ensures stands { (said : Reading) → IsReading octets.now said
            → StandsAfter (General said tag) self.old self.new }
        ensures ignored { (reason : Reason) → result ≡ Heard.Ignored reason → self.new ≡ self.old }
    {
        match decode(octets) {
            Ok((message, _)) => self.general_message(&message, tag),
            Err(refusal) => Heard::Ignored(Reason::Decode(refusal)),
        }
    }

    /// The same as [`general`](Self::general), of a message that was decoded already.
    pub fn general_message(&mut self, message: &Message<'_>, tag: u64) -> Heard
        ensures answer { IsAnswer (General (Ok (contents message.now)) tag) self.old result }
        ensures stands { StandsAfter (General (Ok (contents message.now)) tag) self.old self.new }
        ensures ignored { (reason : Reason) → result ≡ Heard.Ignored reason → self.new ≡ self.old }
    {
        self.hear_general(message, tag)
    }

    /// The exchange of the last report: what its two results were made of. None before the first report,
    /// and after [`restart`](Self::restart), [`set_master`](Self::set_master) or a second
    /// [`tick`](Self::tick) dropped a half of it, until the next report. So it is there when a report was
    /// answered, whatever came before.
    pub fn last_exchange(&self) -> Option<LastExchange>
        ensures exchange { (setup : Setup) (history : List Call) → StandsFor setup self.now history
            → result ≡ last_exchange setup history }
        ensures reported { (setup : Setup) (history : List Call) → StandsFor setup self.now history
            → IfSome result (IsOfLastReport setup history) }
        ensures at_report { (setup : Setup) (call : Call) (earlier : List Call) (report : Report)
            → StandsFor setup self.now (call ∷ earlier) → answer setup earlier call ≡ Heard.Report report
            → IsSome result }
    {
        self.exchange()
    }

    /// The exchange of the last completions, where both are there.
    fn exchange(&self) -> Option<LastExchange>
        ensures { result ≡ exchange_in self.now }
    {
        exchanged(self.last_sync, self.last_delay)
    }

    /// By what this port judges the next message.
    fn criteria(&self) -> Criteria
        ensures { result ≡ criteria_of self.now }
    {
        Criteria {
            config: self.config,
            master: self.master,
            last: self.last_sync.map(|last| last.completion().number()),
        }
    }

    fn hear_event(&mut self, message: &Message<'_>, t2: ScaledTime, tag: u64) -> Heard
        ensures { (self.new, result) ≡ sync_heard (contents message.now) t2 tag self.old }
    {
        match event_use(&self.criteria(), message, t2, tag) {
            Ok(used) => self.take(message.header.sequence, used),
            Err(reason) => Heard::Ignored(reason),
        }
    }

    fn hear_general(&mut self, message: &Message<'_>, tag: u64) -> Heard
        ensures { (self.new, result) ≡ general_heard (contents message.now) tag self.old }
    {
        match general_use(&self.criteria(), message, tag) {
            Ok(used) => self.take(message.header.sequence, used),
            Err(reason) => Heard::Ignored(reason),
        }
    }

    /// What becomes of a message of this number that is used so.
    fn take(&mut self, number: Seq, used: Used) -> Heard
        ensures { (self.new, result) ≡ taken number.0 used self.old }
    {
        match used {
            Used::TwoStepSync(sync) => self.hold_sync(number, sync),
            Used::OneStepSync(sync) => self.complete_sync(alone(number, sync)),
            Used::FollowUp(follow) => self.hold_follow(number, follow),
            Used::DelayResp(response) => self.complete_request(number, response),
        }
    }

    fn hold_sync(&mut self, number: Seq, sync: HeldSync) -> Heard
        ensures { (self.new, result) ≡ with_sync (entry number.0 sync) self.old }
    {
        self.syncs.push(number, sync);
        match self.follows.find(number).copied() {
            Some(follow) => self.complete_sync(pair(number, sync, follow)),
            None => Heard::Held,
        }
    }

    fn hold_follow(&mut self, number: Seq, follow: HeldFollow) -> Heard
        ensures { (self.new, result) ≡ with_follow (entry number.0 follow) self.old }
    {
        self.follows.push(number, follow);
        match self.syncs.find(number).copied() {
            Some(sync) => self.complete_sync(pair(number, sync, follow)),
            None => Heard::Held,
        }
    }

    fn complete_sync(&mut self, completion: SyncCompletion) -> Heard
        ensures { (self.new, result) ≡ with_sync_completion (Some completion) self.old }
    {
        self.last_sync = Some(Last::new(completion));
        self.completed()
    }

    fn complete_request(&mut self, number: Seq, response: Response) -> Heard
        ensures { (self.new, result) ≡ with_response (entry number.0 response) self.old }
    {
        let Some(request) = self.requests.find(number).copied() else {
            return Heard::Ignored(Reason::UnknownRequest);
        };
        let Some(completion) = answered(number, response, request) else {
            return Heard::Ignored(Reason::EgressUnknown);
        };
        self.last_delay = Some(Last::new(completion));
        self.completed()
    }

    /// A report, where both completions are there.
    fn completed(&self) -> Heard
        ensures { (self.now, result) ≡ and_completed self.now }
    {
        match (self.last_sync, self.last_delay) {
            (Some(sync), Some(delay)) => {
                Heard::Report(report_of(sync.completion(), delay.completion()))
            }
            _ => Heard::Completed,
        }
    }
}
