//! Who else is there: other masters and slaves, other domains, a master that takes over, and messages that come twice.

ghost use Rattle.std.specs.Prelude.{◌≡◌, List, [], ◌∷◌, ◌-◌, Option};
ghost use Rattle.std.specs.List.{position};
ghost use Rattle.std.specs.Option.{option_map_or};
ghost use Rattle.recording_summary.specs.Others.{is_master_sync, newcomer_of, IsTurn, kept_of, lag_of, lesser_lag, greater_lag};
ghost use Rattle.recording_summary.specs.Others.{AreRepeats, is_for, with_more, with_sender, nobody, other_master, other_slave};
ghost use Rattle.recording_summary.specs.Others.{other_domain, AreDomains, AreOthers};
ghost use Rattle.recording_summary.specs.Inner.Others.{with_kept};

use crate::flows::Flows;
use crate::no_report::NoReport;
use event_codec::{Header, PortIdentity};
use ptp_units::{ScaledTime, Seq};

/// How many senders are listed by themselves.
const LISTED_MOST: usize = 8;

/// How many domains there can be.
const DOMAINS: usize = 256;

/// Which message of the mechanism one is (IEEE 1588-2019, table 36).
#[derive(Clone, Copy)]
pub enum MessageKind {
    /// A Sync.
    Sync,
    /// A Follow_Up.
    FollowUp,
    /// A Delay_Req.
    DelayReq,
    /// A Delay_Resp.
    DelayResp,
}

/// Of whom a message is.
#[derive(Clone, Copy)]
pub enum Met {
    /// It is of the master and the slave that are watched, and the first with its number.
    First(MessageKind, Seq),
    /// It is of these, and its number came before.
    Repeat(MessageKind, Seq),
    /// It is of another master of the domain.
    Master(MessageKind, PortIdentity),
    /// It is a Delay_Req of another slave of the domain.
    Slave(PortIdentity),
    /// It is of another domain.
    Domain(u8),
}

/// A message that says who is there.
#[derive(Clone, Copy)]
pub struct Meeting {
    /// The number of its line.
    pub line: u64,
    /// The time of its line.
    pub time: ScaledTime,
    /// Of whom it is.
    pub met: Met,
    /// Its header.
    pub header: Header,
    /// Why it gave no report, if it gave none.
    pub why: Option<NoReport>,
    /// Whether its sender begins its numbers anew with it.
    pub begins: bool,
}

/// A port, and how many messages it sent. The count stays at 2^64 - 1.
#[derive(Clone, Copy)]
pub struct Sender {
    /// Its portIdentity.
    pub port: PortIdentity,
    /// How many.
    pub count: u64,
}

/// The first eight ports that sent messages, in this order, and how many messages all others sent. Each count stays at 2^64 - 1.
#[derive(Clone, Copy)]
pub struct Senders {
    /// The first eight.
    pub listed: [Option<Sender>; LISTED_MOST],
    /// How many messages are of others.
    pub rest: u64,
}

/// The first Sync of another master since the last one of the master.
#[derive(Clone, Copy)]
pub struct Newcomer {
    /// The other master.
    pub port: PortIdentity,
    /// The line of its Sync.
    pub line: u64,
    /// The time of that line.
    pub time: ScaledTime,
}

/// Until when the master sends Syncs, and who does from then on.
#[derive(Clone, Copy)]
pub struct Turn {
    /// The time of its last Sync.
    pub last: Option<ScaledTime>,
    /// Who sent a Sync since then.
    pub newcomer: Option<Newcomer>,
}

/// The number of a message, and its time.
#[derive(Clone, Copy)]
pub struct Numbered {
    /// Its sequenceId.
    pub number: Seq,
    /// The time of its line.
    pub time: ScaledTime,
}

/// How much later messages came that repeat the last number of their kind, in 2^-16 ns; 0 where the time is before that of the first.
#[derive(Clone, Copy)]
pub struct Repeats {
    /// The last Sync that is the first of its number.
    pub sync: Option<Numbered>,
    /// The same of Follow_Ups.
    pub follow_up: Option<Numbered>,
    /// The same of Delay_Reqs.
    pub request: Option<Numbered>,
    /// The same of Delay_Resps.
    pub response: Option<Numbered>,
    /// The least.
    pub least: Option<u128>,
    /// The greatest.
    pub greatest: Option<u128>,
}

/// Who else is there.
#[derive(Clone, Copy)]
pub struct Others {
    /// Other masters of the domain, by their Syncs, Follow_Ups and Delay_Resps.
    pub masters: Senders,
    /// Other slaves of the domain, by their Delay_Reqs.
    pub slaves: Senders,
    /// How many messages are of each other domain. Each count stays at 2^64 - 1.
    pub domains: [u64; DOMAINS],
    /// Until when the master sends.
    pub turn: Turn,
    /// What came twice.
    pub repeats: Repeats,
    /// What came, and what is missing.
    pub flows: Flows,
}

/// Whether this is a Sync of the master that is watched.
fn is_master_sync(met: Met) -> bool
    ensures { result ≡ is_master_sync met }
{
    matches!(
        met,
        Met::First(MessageKind::Sync, _) | Met::Repeat(MessageKind::Sync, _)
    )
}

/// Who comes by a Sync, if it is of another master.
fn newcomer_of(meeting: &Meeting) -> Option<Newcomer>
    ensures { result ≡ newcomer_of meeting.now }
{
    let Meeting {
        line,
        time,
        met,
        ..
    } = *meeting;
    match met {
        Met::Master(MessageKind::Sync, port) => Some(Newcomer { port, line, time }),
        _ => None,
    }
}

/// The other master of whom a message is.
fn other_master(meeting: &Meeting) -> Option<PortIdentity>
    ensures { result ≡ other_master meeting.now }
{
    match meeting.met {
        Met::Master(_, port) => Some(port),
        _ => None,
    }
}

/// The other slave of whom a message is.
fn other_slave(meeting: &Meeting) -> Option<PortIdentity>
    ensures { result ≡ other_slave meeting.now }
{
    match meeting.met {
        Met::Slave(port) => Some(port),
        _ => None,
    }
}

/// The other domain of which a message is.
fn other_domain(meeting: &Meeting) -> Option<u8>
    ensures { result ≡ other_domain meeting.now }
{
    match meeting.met {
        Met::Domain(domain) => Some(domain),
        _ => None,
    }
}

/// The lesser of two lags.
fn lesser_lag(lag: Option<u128>, least: Option<u128>) -> Option<u128>
    ensures { result ≡ lesser_lag lag least }
{
    match (lag, least) {
        (Some(lag), Some(least)) => Some(lag.min(least)),
        (Some(lag), None) => Some(lag),
        (None, least) => least,
    }
}

/// The greater of two lags.
fn greater_lag(lag: Option<u128>, greatest: Option<u128>) -> Option<u128>
    ensures { result ≡ greater_lag lag greatest }
{
    match (lag, greatest) {
        (Some(lag), Some(greatest)) => Some(lag.max(greatest)),
        (Some(lag), None) => Some(lag),
        (None, greatest) => greatest,
    }
}

/// Whether this place is free, or that of a port.
fn is_for(port: PortIdentity, place: &Option<Sender>) -> bool
    ensures { result ≡ is_for port place.now }
{
    match place {
        Some(sender) => sender.port == port,
        None => true,
    }
}

/// A port with one message more.
fn with_more(port: PortIdentity, place: Option<Sender>) -> Sender
    ensures { result ≡ with_more port place }
{
    match place {
        Some(sender) => Sender {
            port: sender.port,
            count: sender.count.saturating_add(1),
        },
        None => Sender { port, count: 1 },
    }
}

impl Senders {
    /// No message came.
    pub(crate) fn new() -> Senders
        ensures { result ≡ nobody }
    {
        Senders {
            listed: [None; LISTED_MOST],
            rest: 0,
        }
    }

    /// The first place that is free or that of a port.
    fn place_of(&self, port: PortIdentity) -> Option<usize>
        ensures { result ≡ position (is_for port) self.now.listed }
    {
        self.listed.iter().position(|place| is_for(port, place))
    }

    /// Takes a message of a port.
    pub(crate) fn take(&mut self, port: PortIdentity)
        ensures { self.new ≡ with_sender port self.old }
    {
        match self.place_of(port) {
            Some(place) => self.listed[place] = Some(with_more(port, self.listed[place])),
            None => self.rest = self.rest.saturating_add(1),
        }
    }

    /// Takes a message of a port, if it is of one.
    fn take_some(&mut self, port: Option<PortIdentity>)
        ensures { self.new ≡ option_map_or (λ port. with_sender port self.old) port self.old }
    {
        if let Some(port) = port {
            self.take(port);
        }
    }
}

impl Turn {
    /// Takes a message.
    fn take(&mut self, meeting: &Meeting)
        ensures { (earlier : List Meeting) → IsTurn earlier self.old → IsTurn (meeting.now ∷ earlier) self.new }
    {
        if is_master_sync(meeting.met) {
            *self = Turn {
                last: Some(meeting.time),
                newcomer: None,
            };
        } else {
            self.newcomer = self.newcomer.or(newcomer_of(meeting));
        }
    }
}

impl Repeats {
    /// The last of a kind that is the first of its number.
    fn last(&self, kind: MessageKind) -> Option<Numbered>
        ensures { result ≡ kept_of kind self.now }
    {
        match kind {
            MessageKind::Sync => self.sync,
            MessageKind::FollowUp => self.follow_up,
            MessageKind::DelayReq => self.request,
            MessageKind::DelayResp => self.response,
        }
    }

    /// How much later a message came than the first of its number, where it repeats the last of its kind.
    fn lag(&self, meeting: &Meeting) -> Option<u128>
        ensures { result ≡ lag_of meeting.now (λ kind. kept_of kind self.now) }
    {
        let Met::Repeat(kind, number) = meeting.met else {
            return None;
        };
        let first = self.last(kind)?;
        if first.number == number {
            Some(meeting.time.value().saturating_sub(first.time.value()))
        } else {
            None
        }
    }

    /// Keeps a message, where it is the first of its number.
    fn keep(&mut self, meeting: &Meeting)
        ensures { self.new ≡ with_kept meeting.now self.old }
    {
        let Met::First(kind, number) = meeting.met else {
            return;
        };
        let time = meeting.time;
        let first = Some(Numbered { number, time });
        match kind {
            MessageKind::Sync => self.sync = first,
            MessageKind::FollowUp => self.follow_up = first,
            MessageKind::DelayReq => self.request = first,
            MessageKind::DelayResp => self.response = first,
        }
    }

    /// Takes a message.
    fn take(&mut self, meeting: &Meeting)
        ensures { (earlier : List Meeting) → AreRepeats earlier self.old → AreRepeats (meeting.now ∷ earlier) self.new }
    {
        let lag = self.lag(meeting);
        self.least = lesser_lag(lag, self.least);
        self.greatest = greater_lag(lag, self.greatest);
        self.keep(meeting);
    }
}

/// Counts a message of another domain, if it is of one.
fn count_domain(domains: &mut [u64; DOMAINS], domain: Option<u8>)
    ensures { (earlier : List Meeting) (meeting : Meeting) → domain ≡ other_domain meeting
        → AreDomains earlier domains.old → AreDomains (meeting ∷ earlier) domains.new }
{
    if let Some(domain) = domain {
        let place = usize::from(domain);
        domains[place] = domains[place].saturating_add(1);
    }
}

impl Others {
    /// Nobody else was met yet.
    pub fn new() -> Others
        ensures { AreOthers [] result }
    {
        Others {
            masters: Senders::new(),
            slaves: Senders::new(),
            domains: [0; DOMAINS],
            turn: Turn {
                last: None,
                newcomer: None,
            },
            repeats: Repeats {
                sync: None,
                follow_up: None,
                request: None,
                response: None,
                least: None,
                greatest: None,
            },
            flows: Flows::new(),
        }
    }

    /// Takes a message of the recording: who else it says is there, until when the master sends, what
    /// came twice, and what is missing.
    pub fn take(&mut self, meeting: &Meeting)
        ensures { (earlier : List Meeting) → AreOthers earlier self.old → AreOthers (meeting.now ∷ earlier) self.new }
    {
        self.masters.take_some(other_master(meeting));
        self.slaves.take_some(other_slave(meeting));
        count_domain(&mut self.domains, other_domain(meeting));
        self.turn.take(meeting);
        self.repeats.take(meeting);
        self.flows.take(meeting);
    }
}
