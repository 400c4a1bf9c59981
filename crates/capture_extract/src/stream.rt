//! The text of a stream.
ghost use Rattle.std.specs.Prelude.{◌≡◌, Some};
ghost use Rattle.capture_extract.specs.Streams.{address_text, comma, ethernet_text, octet_text, sdo_part, slave_part, stream_text, vlan_part};

use capture_frame::Address;
use datagram_source::Stream;
use std::fmt;
use std::fmt::{Display, Formatter};
use std::net::{Ipv4Addr, Ipv6Addr};

/// An octet, in two hexadecimal digits.
#[derive(Clone, Copy)]
struct Octet(u8);

impl Display for Octet {
    ghost output = { λ octet. Some (octet_text octet.0) };

    fn fmt<W: fmt::Write>(&self, f: &mut Formatter<W>) -> fmt::Result {
        let octet = self.0;
        write!(f, "{octet:02x}")
    }
}

/// An address of Ethernet, which is the last six of these octets, in colons.
#[derive(Clone, Copy)]
struct OfEthernet([u8; 8]);

#[tactic(auto, unfolding(crate::specs::Streams::ethernet_text))]
impl Display for OfEthernet {
    ghost output = { λ address. Some (ethernet_text address.0) };

    fn fmt<W: fmt::Write>(&self, f: &mut Formatter<W>) -> fmt::Result {
        let octets = &self.0;
        write!(
            f,
            "{}:{}:{}:{}:{}:{}",
            Octet(octets[2]),
            Octet(octets[3]),
            Octet(octets[4]),
            Octet(octets[5]),
            Octet(octets[6]),
            Octet(octets[7])
        )
    }
}

/// An address as people write it: in dots, or in colons.
#[derive(Clone, Copy)]
struct OfInterface(Address);

#[tactic(auto, unfolding(crate::specs::Streams::address_text))]
impl Display for OfInterface {
    ghost output = { λ address. Some (address_text address.0) };

    fn fmt<W: fmt::Write>(&self, f: &mut Formatter<W>) -> fmt::Result {
        match self.0 {
            Address::Ethernet(number) => write!(f, "{}", OfEthernet(number.to_be_bytes())),
            Address::Ipv4(number) => write!(f, "{}", Ipv4Addr::from(number)),
            Address::Ipv6(number) => write!(f, "{}", Ipv6Addr::from(number)),
        }
    }
}

/// sdoId, where it isn't 0.
#[derive(Clone, Copy)]
struct Sdo(u16);

impl Display for Sdo {
    ghost output = { λ sdo. Some (sdo_part sdo.0) };

    fn fmt<W: fmt::Write>(&self, f: &mut Formatter<W>) -> fmt::Result {
        if self.0 == 0 {
            return Ok(());
        }
        write!(f, "sdo=0x{:03x}", self.0)
    }
}

/// What stands before a part of a stream.
fn comma(is_behind: bool) -> &'static str
    ensures { result.now ≡ comma is_behind }
{
    if is_behind { "," } else { "" }
}

/// The VLAN, if there is one, with a comma where something stands before it.
#[derive(Clone, Copy)]
struct Vlan {
    is_behind: bool,
    vlan: Option<u16>,
}

impl Display for Vlan {
    ghost output = { λ x. Some (vlan_part x.is_behind x.vlan) };

    fn fmt<W: fmt::Write>(&self, f: &mut Formatter<W>) -> fmt::Result {
        match self.vlan {
            Some(vlan) => write!(f, "{}vlan={vlan}", comma(self.is_behind)),
            None => Ok(()),
        }
    }
}

/// The slave, if the stream is its alone, with a comma where something stands before it.
#[derive(Clone, Copy)]
struct Slave {
    is_behind: bool,
    slave: Option<Address>,
}

impl Display for Slave {
    ghost output = { λ x. Some (slave_part x.is_behind x.slave) };

    fn fmt<W: fmt::Write>(&self, f: &mut Formatter<W>) -> fmt::Result {
        match self.slave {
            Some(slave) => write!(f, "{}unicast={}", comma(self.is_behind), OfInterface(slave)),
            None => Ok(()),
        }
    }
}

/// What tells a stream from others of its interface, without blanks; a dash for sdoId 0 in no VLAN by multicast.
#[derive(Clone, Copy)]
pub(crate) struct OfStream(pub(crate) Stream);

impl Display for OfStream {
    ghost output = { λ stream. Some (stream_text stream.0) };

    fn fmt<W: fmt::Write>(&self, f: &mut Formatter<W>) -> fmt::Result {
        let stream = self.0;
        if !stream.is_named() {
            return f.write_str("-");
        }
        let has_sdo = stream.sdo != 0;
        let vlan = Vlan {
            is_behind: has_sdo,
            vlan: stream.vlan,
        };
        let slave = Slave {
            is_behind: has_sdo || stream.vlan.is_some(),
            slave: stream.slave,
        };
        write!(f, "{}{vlan}{slave}", Sdo(stream.sdo))
    }
}
