//! Whom a recording is of: what the arguments leave open, its first messages tell.

ghost use Rattle.std.specs.Prelude.{◌≡◌, ◌<◌, ℕ, List, [], ◌∷◌, Some, Ok, IfSome, option_and_then};
ghost use Rattle.std.specs.Option.{option_or};
ghost use Rattle.event_codec.specs.Packet.{contents};
ghost use Rattle.recording_model.specs.Recorded.{Recorded};
ghost use Rattle.recording_measure.specs.Watch.{source_in, domain_from, watched_in};
ghost use Rattle.recording_measure.specs.Summary.{known_at, asked_for};
ghost use Rattle.recording_measure.specs.Inner.Watching.{value_of, request_known, whom_of, IsWatch};

use capture_file::InterfaceName;
use datagram_source::Readings;
use event_codec::{Body, Header, Message, PortIdentity};
use recording_model::Watched;
use recording_summary::{Known, Whom};

/// Whom to watch, as far as it is asked for.
#[derive(Clone, Copy)]
pub struct WantedPorts {
    /// The portIdentity of the slave.
    pub slave: Option<PortIdentity>,
    /// The portIdentity of the master.
    pub master: Option<PortIdentity>,
    /// Their domainNumber.
    pub domain: Option<u8>,
    /// The interface of a capture at which they are; lines have none.
    pub interface: Option<InterfaceName>,
    /// Whose readings are measured; where none are asked for, a slave's own if any come before the first report.
    pub readings: Option<Readings>,
}

/// What is known of whom a recording is of.
#[derive(Drop)]
pub struct Watch {
    /// The slave, whose port sent and received what was recorded.
    pub slave: Option<Known<PortIdentity>>,
    /// The master that it follows.
    pub master: Option<Known<PortIdentity>>,
    /// Their domain.
    pub domain: Option<Known<u8>>,
    /// The source of the first Delay_Req of each domain.
    requests: [Option<Known<PortIdentity>>; 256],
}

/// What is asked for, which no line told.
fn asked<T: Copy>(value: Option<T>) -> Option<Known<T>>
    ensures { result ≡ asked_for value }
{
    value.map(|value| Known { value, line: None })
}

/// What this line told.
fn told<T>(line: u64, value: T) -> Known<T>
    ensures { result ≡ record { value = value; line = Some line } }
{
    Known {
        value,
        line: Some(line),
    }
}

impl Watch {
    /// What is known before any message: what is asked for.
    pub(crate) fn new(wanted: &WantedPorts) -> Watch
        ensures { IsWatch wanted.now [] result }
    {
        Watch {
            slave: asked(wanted.slave),
            master: asked(wanted.master),
            domain: asked(wanted.domain),
            requests: [None; 256],
        }
    }

    /// Takes what the message of this line tells.
    pub(crate) fn notice(&mut self, line: u64, message: &Message<'_>)
        ensures { (w : WantedPorts) (d : Recorded) (ds : List Recorded) → d.said ≡ Ok (contents message.now) → d.line ≡ line
            → IsWatch w ds self.old → IsWatch w (d ∷ ds) self.new }
    {
        match message.body {
            Body::Sync { .. } => self.notice_sync(line, &message.header),
            Body::DelayReq { .. } => self.notice_request(line, &message.header),
            Body::FollowUp { .. } | Body::DelayResp { .. } => {}
        }
        self.slave = self.slave.or(self.requester());
    }

    /// Takes what a Sync tells: the domain where it isn't known, and then the master.
    fn notice_sync(&mut self, line: u64, header: &Header)
        ensures domain { self.new.domain
            ≡ option_or self.old.domain (known_at line (domain_from (value_of self.old.master) header.now)) }
        ensures master { self.new.master ≡ option_or self.old.master
            (option_and_then (λ domain. known_at line (source_in domain header.now)) (value_of self.new.domain)) }
        ensures others { self.new ≡ record self.old { domain = self.new.domain; master = self.new.master } }
    {
        let of_master = self
            .master
            .is_none_or(|master| header.source == master.value);
        if self.domain.is_none() && of_master {
            self.domain = Some(told(line, header.domain));
        }
        let of_domain = self
            .domain
            .is_some_and(|domain| header.domain == domain.value);
        if self.master.is_none() && of_domain {
            self.master = Some(told(line, header.source));
        }
    }

    /// Takes what a Delay_Req tells: its source, where it is the first of its domain.
    fn notice_request(&mut self, line: u64, header: &Header)
        ensures requests { (domain : ℕ) → domain < 256 → request_known self.new domain
            ≡ option_or (request_known self.old domain) (known_at line (source_in domain header.now)) }
        ensures others { self.new ≡ record self.old { requests = self.new.requests } }
    {
        let place = usize::from(header.domain);
        if self.requests[place].is_none() {
            self.requests[place] = Some(told(line, header.source));
        }
    }

    /// The source of the first Delay_Req of the domain, where both are known.
    fn requester(&self) -> Option<Known<PortIdentity>>
        ensures source { result ≡ option_and_then (request_known self.now) (value_of self.now.domain) }
        ensures domain { IfSome (value_of self.now.domain) (λ domain. domain < 256) }
    {
        self.requests[usize::from(self.domain?.value)]
    }

    /// Whom the recording is of, where all is known.
    pub(crate) fn watched(&self) -> Option<Watched>
        ensures { (w : WantedPorts) (ds : List Recorded) → IsWatch w ds self.now → result ≡ watched_in w ds }
    {
        Some(Watched {
            slave: self.slave?.value,
            master: self.master?.value,
            domain: self.domain?.value,
        })
    }

    /// What is known of the three.
    pub(crate) fn whom(&self) -> Whom
        ensures { result ≡ whom_of self.now }
    {
        Whom {
            domain: self.domain,
            master: self.master,
            slave: self.slave,
        }
    }
}
