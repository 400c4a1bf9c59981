//! Which of the streams of an interface a datagram is of.
ghost use Rattle.std.specs.Prelude.{◌≡◌, not, slice_index};
ghost use Rattle.datagram_source.specs.Stream.{sdo_in, unicast, is_exchange, slave_in, stream_of, to_all, plain, is_same_stream};

use capture_frame::{Address, Route};
use std::fmt;
use std::fmt::{Display, Formatter};

/// messageTypes (IEEE 1588-2019, table 36) of what a master sends to a slave, and of what a slave sends to it.
const SYNC: u8 = 0;

const DELAY_REQ: u8 = 1;

const FOLLOW_UP: u8 = 8;

const DELAY_RESP: u8 = 9;

/// Which of the streams of an interface a datagram is of: messages of one sdoId and VLAN, and of one slave where its master sends to it
/// alone.
#[derive(Clone, Copy, Debug, PartialEq, Eq, PartialOrd, Ord)]
pub struct Stream {
    /// sdoId (IEEE 1588-2019, 7.1.4), below 4,096; 0 for what is no message of version 2.
    pub sdo: u16,
    /// The VLAN, from 1 on.
    pub vlan: Option<u16>,
    /// The address of the slave: to which a Sync, Follow_Up or Delay_Resp was sent by unicast, or from which a Delay_Req was.
    pub slave: Option<Address>,
}

/// The octet at this place, and 0 behind the end.
fn octet_at(octets: &[u8], at: usize) -> u8
    ensures { result ≡ slice_index octets.now at }
{
    octets.get(at).copied().unwrap_or(0)
}

/// sdoId: majorSdoId and minorSdoId (13.3.2.2, 13.3.2.7).
fn sdo_in(octets: &[u8]) -> u16
    ensures { result ≡ sdo_in octets.now }
{
    if octet_at(octets, 1) % 16 == 2 {
        256 * u16::from(octet_at(octets, 0) / 16) + u16::from(octet_at(octets, 5))
    } else {
        0
    }
}

/// An address, where one interface alone has it.
fn unicast(address: Option<Address>) -> Option<Address>
    ensures { result ≡ unicast address }
{
    address.filter(Address::is_unicast)
}

/// The address of the slave, where a message goes between it and its master alone.
fn slave_in(route: Route, octets: &[u8]) -> Option<Address>
    ensures { result ≡ slave_in route octets.now }
{
    match octet_at(octets, 0) % 16 {
        SYNC | FOLLOW_UP | DELAY_RESP => unicast(route.destination),
        DELAY_REQ => match unicast(route.destination) {
            Some(_) => unicast(route.source),
            None => None,
        },
        _ => None,
    }
}

/// Whether octets are those of a Delay_Req, or of the answer to one, also where they are cut short.
pub(crate) fn is_exchange(octets: &[u8]) -> bool
    ensures { result ≡ is_exchange octets.now }
{
    matches!(octet_at(octets, 0) % 16, DELAY_REQ | DELAY_RESP)
}

impl Stream {
    /// That of a datagram that came by this way.
    pub(crate) fn new(route: Route, octets: &[u8]) -> Stream
        ensures { result ≡ stream_of route octets.now }
    {
        Stream {
            sdo: sdo_in(octets),
            vlan: route.vlan,
            slave: slave_in(route, octets),
        }
    }

    /// That of messages to all slaves in its place.
    pub fn to_all(self) -> Stream
        ensures { result ≡ to_all self }
    {
        Stream {
            slave: None,
            ..self
        }
    }

    /// Whether anything tells it from that of sdoId 0 in no VLAN by multicast.
    pub fn is_named(&self) -> bool
        ensures { result ≡ not (is_same_stream self.now plain) }
    {
        self.sdo != 0 || self.vlan.is_some() || self.slave.is_some()
    }

    /// Whether it is the same.
    pub fn is(&self, other: &Stream) -> bool
        ensures { result ≡ is_same_stream self.now other.now }
    {
        self == other
    }
}

/// What tells it from other streams; nothing for sdoId 0 in no VLAN and to all slaves.
impl Display for Stream {
    fn fmt<W: fmt::Write>(&self, f: &mut Formatter<W>) -> fmt::Result {
        if self.sdo != 0 {
            write!(f, ", sdoId {:#05x}", self.sdo)?;
        }
        if let Some(vlan) = self.vlan {
            write!(f, ", VLAN {vlan}")?;
        }
        if let Some(slave) = self.slave {
            write!(f, ", unicast to {slave}")?;
        }
        Ok(())
    }
}
