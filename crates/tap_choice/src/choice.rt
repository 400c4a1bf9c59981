//! Whose messages are followed, and which of the two taps a Sync meets first.
ghost use Rattle.std.specs.Prelude.{◌≡◌, ◌≤◌};
ghost use Rattle.pairing.specs.Marked.{find};
ghost use Rattle.tap_choice.specs.Known.{asked, noticed, pair_of, sync_domain, sync_master, is_of, earlier_side};
ghost use Rattle.tap_choice.specs.Known.{syncs_at, told_by, met_sync, from_by};

use crate::met::{Met, Side};
use crate::wanted::WantedTaps;
use event_codec::{Body, Header, PortIdentity};
use pairing::PairTable;
use ptp_units::ScaledTime;
use std::marker::Model;

/// Whose Syncs are followed, and which way they go.
#[derive(Clone, Copy, Debug, PartialEq, Eq)]
pub struct Pair {
    /// domainNumber.
    pub domain: u8,
    /// Who sends the Syncs.
    pub master: PortIdentity,
    /// The tap that they meet first.
    pub from: Side,
}

/// What is known of the three, by the messages that were met.
#[derive(Drop)]
pub struct Choice<T: PairTable<ScaledTime>> {
    domain: Option<u8>,
    master: Option<PortIdentity>,
    from: Option<Side>,
    /// When the last Syncs of the master were met, at the first tap and at the second.
    first_syncs: T,
    second_syncs: T,
}

impl<T: PairTable<ScaledTime>> Model for Choice<T> {
    ghost use Rattle.tap_choice.specs.Known.{Known};

    ghost Value = { Known };

    ghost view = { λ c. record {
      domain = c.domain;
      master = c.master;
      from = c.from;
      first_syncs = T.marked c.first_syncs;
      second_syncs = T.marked c.second_syncs;
    } };
}

/// The domain, once this Sync was met.
fn sync_domain(domain: Option<u8>, master: Option<PortIdentity>, header: &Header) -> Option<u8>
    ensures { result ≡ sync_domain domain master header.now }
{
    if domain.is_some() {
        return domain;
    }
    let of_master = match master {
        Some(master) => header.source == master,
        None => true,
    };
    if of_master { Some(header.domain) } else { None }
}

/// The master, once this Sync was met, in this domain.
fn sync_master(
    domain: Option<u8>,
    master: Option<PortIdentity>,
    header: &Header,
) -> Option<PortIdentity>
    ensures { result ≡ sync_master domain master header.now }
{
    if master.is_some() {
        return master;
    }
    match domain {
        Some(domain) if header.domain == domain => Some(header.source),
        _ => None,
    }
}

/// The tap at which a message was met earlier; where both times are equal, the other one.
fn earlier_side(side: Side, time: ScaledTime, other: ScaledTime) -> Side
    ensures { result ≡ earlier_side side time other }
{
    if time.value() < other.value() {
        side
    } else {
        side.other()
    }
}

impl<T: PairTable<ScaledTime>> Choice<T> {
    /// What is known before any message came: what is asked for.
    pub fn new(wanted: &WantedTaps) -> Self
        requires { (1 ≤ T.CAPACITY) × (T.CAPACITY ≤ 256) }
        ensures { result ≡ asked wanted.now }
    {
        let is_named = wanted.from.is_some() || wanted.to.is_some();
        Choice {
            domain: wanted.domain,
            master: wanted.master,
            from: if is_named { Some(Side::First) } else { None },
            first_syncs: T::empty(),
            second_syncs: T::empty(),
        }
    }

    /// Takes what a message tells: a Sync the domain where it isn't known, then the master, and then which tap it met
    /// first, where it is one of the last that were met at the other.
    pub fn notice(&mut self, met: &Met)
        ensures { self.new ≡ noticed T.CAPACITY met.now self.old }
    {
        if let Body::Sync { .. } = met.body {
            self.domain = sync_domain(self.domain, self.master, &met.header);
            self.master = sync_master(self.domain, self.master, &met.header);
            self.meet(met);
        }
    }

    /// Whether a Sync is of the master.
    fn is_of(&self, header: &Header) -> bool
        ensures { result ≡ is_of self.now header.now }
    {
        let of_domain = match self.domain {
            Some(domain) => header.domain == domain,
            None => false,
        };
        let of_master = match self.master {
            Some(master) => header.source == master,
            None => false,
        };
        of_domain && of_master
    }

    /// When the newest Sync of this number was met at a tap, where it is one of the last there.
    fn met_at(&self, side: Side, met: &Met) -> Option<ScaledTime>
        ensures { result ≡ find met.now.header.sequence.0 (syncs_at side self.now) }
    {
        match side {
            Side::First => self.first_syncs.find(met.header.sequence).copied(),
            Side::Second => self.second_syncs.find(met.header.sequence).copied(),
        }
    }

    /// Which tap it met first, where it was met at both.
    fn from_by(&self, met: &Met) -> Option<Side>
        ensures { result ≡ from_by met.now self.now }
    {
        match self.met_at(met.side.other(), met) {
            Some(other) => Some(earlier_side(met.side, met.time, other)),
            None => None,
        }
    }

    /// Takes a Sync, where it is of the master.
    fn meet(&mut self, met: &Met)
        ensures { self.new ≡ met_sync T.CAPACITY met.now self.old }
    {
        if !self.is_of(&met.header) {
            return;
        }
        if self.from.is_none() {
            self.from = self.from_by(met);
        }
        match met.side {
            Side::First => self.first_syncs.push(met.header.sequence, met.time),
            Side::Second => self.second_syncs.push(met.header.sequence, met.time),
        }
    }

    /// Domain, master and order of the taps, once all three are known.
    pub fn pair(&self) -> Option<Pair>
        ensures { result ≡ pair_of self.now }
    {
        Some(Pair {
            domain: self.domain?,
            master: self.master?,
            from: self.from?,
        })
    }
}
