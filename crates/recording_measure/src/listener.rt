//! The slave port that hears a recording, and what it has to be told of by itself: Delay_Reqs that the slave sent, and that
//! the slave or its master began anew.
//!
//! What becomes of a message is a function of those that were heard before (`specs/Inner/Became.antt`).

ghost use Rattle.std.specs.Prelude.{◌≡◌, ◌∷◌, ◌&&◌, ℕ, false, [], List, Ok, Some, None, if◌then◌else◌};
ghost use Rattle.ptp_units.specs.Sequence.{ahead};
ghost use Rattle.event_codec.specs.Packet.{contents};
ghost use Rattle.event_codec.specs.Port.{is_same_port};
ghost use Rattle.sync_watch.specs.Judged.{judged_sync, judged_follow_up, judged_response};
ghost use Rattle.slave_port.specs.History.{Setup, Call, SetMaster, Event, General};
ghost use Rattle.slave_port.specs.StandsFor.{StandsFor as StandsForCalls};
ghost use Rattle.recording_model.specs.declared.watched.Watched.{Watched};
ghost use Rattle.recording_model.specs.Listening.{Listening, setup_with, table_capacity, start, told, draws, is_of};
ghost use Rattle.recording_model.specs.Listening.{is_unicast, arrival_of, with_count, ready_sync};
ghost use Rattle.recording_model.specs.Listening.{ready_follow_up, ready_response, hears_ready, asks, anew};
ghost use Rattle.recording_model.specs.Listening.{hears_request, hears};
ghost use Rattle.recording_measure.specs.Announced.{announcement_in};
ghost use Rattle.recording_measure.specs.Begins.{sync_begins};
ghost use Rattle.recording_measure.specs.Inner.Became.{reply_by, became_own_request, became_request, became_called, became_of};
ghost use Rattle.recording_measure.specs.Inner.StandsFor.{StandsFor, Listens, Becomes, IsAnswered, IsExchanged};
ghost use Rattle.recording_measure.specs.Inner.Steps.{Replies, Says, with_sync, with_follow_up, with_response, told_again};

use event_codec::{Body, Header, Message, PortConfig, PortIdentity, decode_announce};
use pairing::RingTable;
use ptp_units::{ScaledTime, Seq};
use recording_model::Watched;
use recording_summary::{Announced, Announcement};
use slave_port::{Heard, HeldFollow, HeldRequest, HeldSync, LastExchange, SlavePort};
use sync_watch::{Arrival, Judgement, ResponseWatch, SyncWatch};

/// How many messages of a kind the port holds.
const CAPACITY: usize = 256;

/// Syncs of the master after which there is a tick.
const TICKS_EVERY: u16 = 4096;

/// The bit of unicastFlag in the first octet of flagField (IEEE 1588-2019, 13.3.2.8).
const UNICAST: u8 = 4;

type Port = SlavePort<
    RingTable<HeldSync, CAPACITY>,
    RingTable<HeldFollow, CAPACITY>,
    RingTable<HeldRequest, CAPACITY>,
>;

type Times = RingTable<ScaledTime, CAPACITY>;

/// What the port answered to a message that it heard, and the exchange of its last report then.
#[derive(Clone, Copy)]
pub(crate) struct Reply {
    /// What the port answered.
    pub(crate) heard: Heard,
    /// The exchange of its last report once it heard the message; None before its first report, and where a half
    /// of that was dropped since.
    pub(crate) exchange: Option<LastExchange>,
}

/// What became of a message.
#[derive(Clone, Copy)]
pub(crate) enum Became {
    /// The port heard it, and replied so.
    Heard(Reply),
    /// The port heard a Sync of the master, which began anew, and replied so.
    HeardAnew(Reply),
    /// A message of the master whose number came before, or a Follow_Up whose Sync is a second or more apart, or whose number is
    /// far from that of the newest Sync: the port didn't hear it.
    HeardBefore,
    /// A Delay_Req of the slave: the first, or one whose number is 1 to 256 ahead of the last one's. The port drew requests up
    /// to it.
    Asked,
    /// A Delay_Req of the slave with the number of the last one.
    Repeated,
    /// A Delay_Req of the slave with any other number: the slave began anew, and a new port takes over.
    Anew,
    /// A Delay_Req of another port, or of another domain.
    Foreign,
}

/// A slave port that hears a recording, and what it has to be told of by itself: Delay_Reqs that the slave sent, a tick after
/// each 4,096 Syncs of the master that it heard, ignored ones too, and that the slave or the master began anew. It holds the latest
/// 256 messages of a kind. No call allocates.
#[derive(Drop)]
pub(crate) struct Listener {
    watched: Watched,
    port: Port,
    /// The number that the port's next request gets.
    next: Seq,
    /// Whether a Delay_Req of the slave came.
    asked: bool,
    /// Syncs of the master since the last tick.
    syncs: u16,
    /// What it heard of the master since that began.
    heard: SyncWatch<Times>,
    /// Which Delay_Resps it heard since the port began.
    responses: ResponseWatch<Times>,
}

/// A port of the slave that follows the master, whose requests are numbered from `first` on.
fn port_of(watched: &Watched, first: Seq) -> Port
    ensures { StandsForCalls (setup_with watched.now first.0) result (SetMaster watched.now.master ∷ []) }
{
    let config = PortConfig {
        identity: watched.slave,
        domain: watched.domain,
        log: 0,
    };
    let mut port = Port::new(config, first);
    port.set_master(watched.master);
    port
}

/// Draws so many requests under this tag.
fn draw(port: &mut Port, count: u32, tag: u64)
    ensures { (setup : Setup) (history : List Call) → StandsForCalls setup port.old history
        → StandsForCalls setup port.new (draws count tag history) }
{
    for _ in 0..count {
        let _ = port.draw_request(tag);
    }
}

/// Whether unicastFlag is set.
fn is_unicast(header: &Header) -> bool
    ensures { result ≡ is_unicast header.now }
{
    header.flags[0] & UNICAST != 0
}

/// A Sync or a Follow_Up with this header, which came at this time.
fn arrival_of(header: &Header, time: ScaledTime) -> Arrival
    ensures { result ≡ arrival_of header.now time }
{
    Arrival {
        number: header.sequence,
        is_unicast: is_unicast(header),
        log: header.log,
        time,
    }
}

impl Listener {
    /// A port of the slave that was told its master and nothing else.
    pub(crate) fn new(watched: Watched) -> Listener
        ensures { StandsFor watched result (start watched) }
    {
        Listener {
            watched,
            port: port_of(&watched, Seq(0)),
            next: Seq(0),
            asked: false,
            syncs: 0,
            heard: SyncWatch::new(),
            responses: ResponseWatch::new(),
        }
    }

    /// The domainNumber of the port.
    pub(crate) fn domain(&self) -> u8
        ensures { (w : Watched) (l : Listening) → StandsFor w self.now l → result ≡ w.domain }
    {
        self.watched.domain
    }

    /// Whether this is the header of a message of the domain, from this port.
    fn is_of(&self, port: PortIdentity, header: &Header) -> bool
        ensures { result ≡ is_of self.now.watched port header.now }
    {
        header.domain == self.watched.domain && header.source == port
    }

    /// What the octets of this line or packet announce, if they are an Announce of the master.
    pub(crate) fn announcement(&self, line: u64, octets: &[u8]) -> Option<Announcement>
        ensures { result ≡ announcement_in self.now.watched line octets.now }
    {
        match decode_announce(octets) {
            Some(announce) if self.is_of(self.watched.master, &announce.header) => {
                Some(Announcement {
                    line,
                    announced: Announced::of(&announce),
                })
            }
            _ => None,
        }
    }

    /// Whether this is the header of a Delay_Resp of the master, where it is to this port.
    fn is_answer(&self, header: &Header, requesting: PortIdentity) -> bool
        ensures { result
            ≡ (is_of self.now.watched self.now.watched.master header.now && is_same_port requesting self.now.watched.slave) }
    {
        self.is_of(self.watched.master, header) && requesting == self.watched.slave
    }

    /// Hears a message that the slave's port sent or received at this time, in units of 2^-16 ns, and answers what became of it
    /// (IEEE 1588-2019, 7.3.7 and 11.3). `line` is the number of the line or packet that told it, by which reports name it.
    pub(crate) fn hear(&mut self, line: u64, time: ScaledTime, message: &Message<'_>) -> Became
        ensures listens { Listens (λ w. hears w line time (contents message.now) message.now.body) self.old self.new }
        ensures answered { IsAnswered line time (contents message.now) self.old result }
        ensures exchanged { IsExchanged line time (contents message.now) self.old result }
        ensures became { Becomes (λ w l. became_of w line time (contents message.now) message.now.body l) self.old result }
    {
        match message.body {
            Body::Sync { .. } => self.hear_sync(line, time, message),
            Body::DelayReq { .. } => self.hear_request(line, time, &message.header),
            Body::FollowUp { .. } => self.hear_follow_up(line, time, message),
            Body::DelayResp { requesting, .. } => {
                self.hear_response(line, time, message, requesting)
            }
        }
    }

    /// Hears a Sync, whoever sent it, unless the master's number says that it came before.
    fn hear_sync(&mut self, line: u64, time: ScaledTime, message: &Message<'_>) -> Became
        ensures listens { let m = contents message.now in
            let call = Event (Ok m) time line in
            Listens (λ w l. hears_ready (is_of w w.master m.header) call (ready_sync w line time m l) l)
            self.old self.new }
        ensures became { let m = contents message.now in
            let call = Event (Ok m) time line in
            Becomes (λ w l. became_called (sync_begins w time m l) call w (ready_sync w line time m l)) self.old result }
    {
        if !self.is_of(self.watched.master, &message.header) {
            return Became::Heard(self.tell_event(line, time, message));
        }
        match self.judge_sync(&message.header, time) {
            Judgement::Newer => Became::Heard(self.hear_counted(line, time, message)),
            Judgement::Repeated => Became::HeardBefore,
            Judgement::BeganAnew => {
                self.tell_master();
                Became::HeardAnew(self.hear_counted(line, time, message))
            }
        }
    }

    /// Hears a Sync of the master, which is counted.
    fn hear_counted(&mut self, line: u64, time: ScaledTime, message: &Message<'_>) -> Reply
        ensures listens { let call = Event (Ok (contents message.now)) time line in
            Listens (λ w l. with_count (told call l)) self.old self.new }
        ensures reply { Replies (Event (Ok (contents message.now)) time line) self.old result }
    {
        let reply = self.tell_event(line, time, message);
        self.count_sync();
        reply
    }

    /// The port is told of a Sync, whoever sent it.
    fn tell_event(&mut self, line: u64, time: ScaledTime, message: &Message<'_>) -> Reply
        ensures listens { let call = Event (Ok (contents message.now)) time line in
            Listens (λ w. told call) self.old self.new }
        ensures reply { Replies (Event (Ok (contents message.now)) time line) self.old result }
    {
        let heard = self.port.sync_message(message, time, line);
        let exchange = self.port.last_exchange();
        Reply { heard, exchange }
    }

    /// The port is told of a Follow_Up or a Delay_Resp, whoever sent it.
    fn tell_general(&mut self, line: u64, message: &Message<'_>) -> Reply
        ensures listens { let call = General (Ok (contents message.now)) line in
            Listens (λ w. told call) self.old self.new }
        ensures reply { Replies (General (Ok (contents message.now)) line) self.old result }
    {
        let heard = self.port.general_message(message, line);
        let exchange = self.port.last_exchange();
        Reply { heard, exchange }
    }

    /// Hears a Follow_Up, whoever sent it, unless the master's number says that it came before.
    fn hear_follow_up(&mut self, line: u64, time: ScaledTime, message: &Message<'_>) -> Became
        ensures listens { let m = contents message.now in
            let call = General (Ok m) line in
            Listens (λ w l. hears_ready false call (ready_follow_up w time m l) l) self.old self.new }
        ensures became { let m = contents message.now in
            let call = General (Ok m) line in
            Becomes (λ w l. became_called false call w (ready_follow_up w time m l)) self.old result }
    {
        if !self.is_of(self.watched.master, &message.header) {
            return Became::Heard(self.tell_general(line, message));
        }
        match self.judge_follow_up(&message.header, time) {
            Judgement::Newer => Became::Heard(self.tell_general(line, message)),
            Judgement::Repeated | Judgement::BeganAnew => Became::HeardBefore,
        }
    }

    /// Hears a Delay_Resp, whoever sent it, unless it is the master's to the slave, and its number came before.
    fn hear_response(
        &mut self,
        line: u64,
        time: ScaledTime,
        message: &Message<'_>,
        requesting: PortIdentity,
    ) -> Became
        ensures listens { let m = contents message.now in
            let call = General (Ok m) line in
            Listens (λ w l. hears_ready false call (ready_response w time m requesting l) l) self.old self.new }
        ensures became { let m = contents message.now in
            let call = General (Ok m) line in
            Becomes (λ w l. became_called false call w (ready_response w time m requesting l)) self.old result }
    {
        if !self.is_answer(&message.header, requesting) {
            return Became::Heard(self.tell_general(line, message));
        }
        match self.judge_response(message.header.sequence, time) {
            Judgement::Newer => Became::Heard(self.tell_general(line, message)),
            Judgement::Repeated | Judgement::BeganAnew => Became::HeardBefore,
        }
    }

    /// What the number of a Sync of the master says, which is known from then on.
    fn judge_sync(&mut self, header: &Header, time: ScaledTime) -> Judgement
        ensures listens { Listens (λ w. with_sync (arrival_of header.now time)) self.old self.new }
        ensures judgement { Says (λ l. judged_sync (arrival_of header.now time) table_capacity l.heard)
            self.old result }
    {
        self.heard.sync(&arrival_of(header, time))
    }

    /// What the number of a Follow_Up of the master says, which is known from then on.
    fn judge_follow_up(&mut self, header: &Header, time: ScaledTime) -> Judgement
        ensures listens { Listens (λ w. with_follow_up (arrival_of header.now time)) self.old self.new }
        ensures judgement { Says (λ l. judged_follow_up (arrival_of header.now time) table_capacity l.heard)
            self.old result }
    {
        self.heard.follow_up(&arrival_of(header, time))
    }

    /// What the number of a Delay_Resp of the master to the slave says, which is known from then on.
    fn judge_response(&mut self, number: Seq, time: ScaledTime) -> Judgement
        ensures listens { Listens (λ w. with_response number.0 time) self.old self.new }
        ensures judgement { Says (λ l. judged_response table_capacity number.0 l.responses) self.old result }
    {
        self.responses.response(number, time)
    }

    /// The port is told its master again, and forgets what it heard.
    fn tell_master(&mut self)
        ensures { (line : ℕ) → Listens (λ w. told_again w line) self.old self.new }
    {
        self.port.set_master(self.watched.master);
        self.responses.forget();
    }

    /// Takes a Delay_Req, whoever sent it.
    fn hear_request(&mut self, line: u64, time: ScaledTime, header: &Header) -> Became
        ensures listens { Listens (λ w l. if is_of w w.slave header.now
            then hears_request w line time header.now.sequence.0 l else l) self.old self.new }
        ensures became { Becomes (became_request header.now) self.old result }
        ensures unheard { reply_by result ≡ None }
    {
        if self.is_of(self.watched.slave, header) {
            self.request(line, time, header.sequence)
        } else {
            Became::Foreign
        }
    }

    /// One more Sync of the master.
    fn count_sync(&mut self)
        ensures { Listens (λ w. with_count) self.old self.new }
    {
        if self.syncs < TICKS_EVERY - 1 {
            self.syncs += 1;
        } else {
            self.syncs = 0;
            self.port.tick();
        }
    }

    /// How far this number is ahead of that of the port's next request.
    fn ahead(&self, number: Seq) -> u16
        ensures { result ≡ ahead number.0 self.now.next.0 }
    {
        number.0.wrapping_sub(self.next.0)
    }

    /// A Delay_Req of the slave.
    fn request(&mut self, line: u64, time: ScaledTime, number: Seq) -> Became
        ensures listens { Listens (λ w. hears_request w line time number.0) self.old self.new }
        ensures became { Becomes (became_own_request number.0) self.old result }
        ensures unheard { reply_by result ≡ None }
    {
        let ahead = self.ahead(number);
        if !self.asked || usize::from(ahead) < CAPACITY {
            self.ask(line, time, number);
            return Became::Asked;
        }
        if ahead == u16::MAX {
            return Became::Repeated;
        }
        self.begin_anew(number);
        self.ask(line, time, number);
        Became::Anew
    }

    /// Draws requests up to this number, which departed at this time.
    fn ask(&mut self, line: u64, time: ScaledTime, number: Seq)
        ensures { Listens (λ w. asks w line time number.0) self.old self.new }
    {
        let count = u32::from(self.ahead(number)) + 1;
        draw(&mut self.port, count, line);
        let _ = self.port.request_left(number, time);
        self.next = number.next();
        self.asked = true;
    }

    /// A new port, whose requests begin with this number.
    fn begin_anew(&mut self, number: Seq)
        ensures { (line : ℕ) → Listens (λ w. anew w line number.0) self.old self.new }
    {
        self.port.restart(number);
        self.port.set_master(self.watched.master);
        self.next = number;
        self.responses.forget();
    }
}
