//! By which way a packet came.
ghost use Rattle.std.specs.Prelude.{◌≡◌, ◌≤◌, ◌<◌, ◌+◌, drop};
ghost use Rattle.capture_frame.specs.Octets.{two_octets, four_octets, six_octets, sixteen_octets};
ghost use Rattle.capture_frame.specs.Route.{is_unicast, ethernet_route, ipv4_route, ipv6_route, ip_route, behind_type, with_tag, behind_tags, frame_route, route_in};

use crate::ether::{IPV4, IPV6, tag_size};
use crate::link_type::LinkType;
use crate::octets::octet_at;
use std::fmt;
use std::fmt::{Display, Formatter};
use std::net::{Ipv4Addr, Ipv6Addr};

/// How many tags are looked at.
const TAGS_MOST: usize = 8;

/// The address of an interface, or of a group of them, as a number of which the most significant octet stands first in a packet.
#[derive(Clone, Copy, Debug, PartialEq, Eq, PartialOrd, Ord)]
pub enum Address {
    /// Of Ethernet, below 2^48.
    Ethernet(u64),
    /// Of IPv4.
    Ipv4(u32),
    /// Of IPv6.
    Ipv6(u128),
}

impl Address {
    /// Whether one interface alone has it: of Ethernet the last bit of its first octet is 0 (IEEE 802, 8.2), of IPv4 it is below
    /// 224.0.0.0, of IPv6 below ff00::.
    pub fn is_unicast(&self) -> bool
        ensures { result ≡ is_unicast self.now }
    {
        match *self {
            Address::Ethernet(number) => number / (1 << 40) % 2 == 0,
            Address::Ipv4(number) => number < 0xe000_0000,
            Address::Ipv6(number) => number < 0xff << 120,
        }
    }
}

/// As people write it: in dots, or in colons.
impl Display for Address {
    fn fmt<W: fmt::Write>(&self, f: &mut Formatter<W>) -> fmt::Result {
        match self {
            Address::Ipv4(number) => Ipv4Addr::from(*number).fmt(f),
            Address::Ipv6(number) => Ipv6Addr::from(*number).fmt(f),
            Address::Ethernet(number) => {
                let octets = number.to_be_bytes();
                write!(f, "{:02x}", octets[2])?;
                for octet in &octets[3..] {
                    write!(f, ":{octet:02x}")?;
                }
                Ok(())
            }
        }
    }
}

/// By which way a packet came, as far as its headers tell.
#[derive(Clone, Copy, Debug, PartialEq, Eq)]
pub struct Route {
    /// The VLAN (IEEE 802.1Q), from 1 on, which the last tag that names one tells.
    pub vlan: Option<u16>,
    /// Who sent it: the address of IP, or of Ethernet where PTP stands in that alone.
    pub source: Option<Address>,
    /// To whom it was sent.
    pub destination: Option<Address>,
}

/// Nothing is told.
const NOWHERE: Route = Route {
    vlan: None,
    source: None,
    destination: None,
};

/// The big-endian number in the two octets at this place; those behind the end are 0.
fn two_at(octets: &[u8], at: usize) -> u16
    requires { at < 64 }
    ensures { result ≡ two_octets octets.now at }
{
    u16::from_be_bytes([octet_at(octets, at), octet_at(octets, at + 1)])
}

/// That in four octets.
fn four_at(octets: &[u8], at: usize) -> u32
    requires { at < 60 }
    ensures { result ≡ four_octets octets.now at }
{
    (u32::from(two_at(octets, at)) << 16) + u32::from(two_at(octets, at + 2))
}

/// That in six octets.
fn six_at(octets: &[u8], at: usize) -> u64
    requires { at < 50 }
    ensures { result ≡ six_octets octets.now at }
{
    (u64::from(two_at(octets, at)) << 32) + u64::from(four_at(octets, at + 2))
}

/// That in sixteen octets.
fn sixteen_at(octets: &[u8], at: usize) -> u128
    requires { at < 40 }
    ensures { result ≡ sixteen_octets octets.now at }
{
    (u128::from(four_at(octets, at)) << 96)
        + (u128::from(four_at(octets, at + 4)) << 64)
        + (u128::from(four_at(octets, at + 8)) << 32)
        + u128::from(four_at(octets, at + 12))
}

/// What is behind the first octets.
fn behind(octets: &[u8], count: usize) -> &[u8]
    ensures { result.now ≡ drop count octets.now }
{
    octets.get(count..).unwrap_or(&[])
}

/// The addresses in a header of Ethernet (IEEE 802.3, 3.2).
fn ethernet_route(octets: &[u8]) -> Route
    ensures { result ≡ ethernet_route octets.now }
{
    Route {
        vlan: None,
        source: Some(Address::Ethernet(six_at(octets, 6))),
        destination: Some(Address::Ethernet(six_at(octets, 0))),
    }
}

/// Those in a header of IPv4 (RFC 791), in the same VLAN.
fn ipv4_route(octets: &[u8], route: Route) -> Route
    ensures { result ≡ ipv4_route octets.now route }
{
    Route {
        vlan: route.vlan,
        source: Some(Address::Ipv4(four_at(octets, 12))),
        destination: Some(Address::Ipv4(four_at(octets, 16))),
    }
}

/// Those in a header of IPv6 (RFC 8200, 3), in the same VLAN.
fn ipv6_route(octets: &[u8], route: Route) -> Route
    ensures { result ≡ ipv6_route octets.now route }
{
    Route {
        vlan: route.vlan,
        source: Some(Address::Ipv6(sixteen_at(octets, 8))),
        destination: Some(Address::Ipv6(sixteen_at(octets, 24))),
    }
}

/// Those of a packet of IP, by its version.
fn ip_route(octets: &[u8], route: Route) -> Route
    ensures { result ≡ ip_route octets.now route }
{
    if octet_at(octets, 0) / 16 == 4 {
        ipv4_route(octets, route)
    } else {
        ipv6_route(octets, route)
    }
}

/// Those of what an EtherType says; of what isn't IP those that are known.
fn behind_type(kind: u16, octets: &[u8], route: Route) -> Route
    ensures { result ≡ behind_type kind octets.now route }
{
    match kind {
        IPV4 => ipv4_route(octets, route),
        IPV6 => ipv6_route(octets, route),
        _ => route,
    }
}

/// What a tag of this size adds.
fn with_tag(size: usize, tag: &[u8], route: Route) -> Route
    ensures { result ≡ with_tag size tag.now route }
{
    let vlan = two_at(tag, 0) % 4096;
    if size == 4 && vlan != 0 {
        Route {
            vlan: Some(vlan),
            ..route
        }
    } else {
        route
    }
}

/// The same of so many tags at the most.
fn behind_tags(most: usize, kind: u16, octets: &[u8], route: Route) -> Route
    ensures { result ≡ behind_tags most kind octets.now route }
{
    match tag_size(kind) {
        Some(size) if most > 0 => behind_tags(
            most - 1,
            two_at(octets, size - 2),
            behind(octets, size),
            with_tag(size, octets, route),
        ),
        _ => behind_type(kind, octets, route),
    }
}

/// What tags, of which the first has this EtherType, and what is behind them tell.
#[tactic(auto, unfolding(crate::specs::Route::frame_route))]
fn frame_route(kind: u16, octets: &[u8], route: Route) -> Route
    ensures { result ≡ frame_route kind octets.now route }
{
    behind_tags(TAGS_MOST, kind, octets, route)
}

/// By which way a packet came: `link` is the number of its link type, and `octets` what was captured of it, as
/// [`find_datagram`](crate::find_datagram) takes them. Of a header that wasn't captured whole the octets that are missing count as 0.
pub fn find_route(link: u16, octets: &[u8]) -> Route
    ensures { result ≡ route_in link octets.now }
{
    match LinkType::from_number(link) {
        Some(LinkType::Ethernet) => frame_route(
            two_at(octets, 12),
            behind(octets, 14),
            ethernet_route(octets),
        ),
        Some(LinkType::Cooked) => { frame_route(two_at(octets, 14), behind(octets, 16), NOWHERE) }
        Some(LinkType::Cooked2) => { frame_route(two_at(octets, 0), behind(octets, 20), NOWHERE) }
        Some(LinkType::Raw) => ip_route(octets, NOWHERE),
        Some(LinkType::Null | LinkType::Loop) => ip_route(behind(octets, 4), NOWHERE),
        Some(LinkType::Ipv4) => ipv4_route(octets, NOWHERE),
        Some(LinkType::Ipv6) => ipv6_route(octets, NOWHERE),
        None => NOWHERE,
    }
}

#[cfg(test)]
mod tests {
    use super::*;

    #[test]
    fn finds_the_vlan_and_the_addresses_behind_a_tag(rt: HostRuntime) {
        let packet = b"\x01\x1b\x19\0\0\0\x02\0\0\0\0\x01\x81\0\x60\x07\x88\xf7PTP";
        let route = Route {
            vlan: Some(7),
            source: Some(Address::Ethernet(0x0200_0000_0001)),
            destination: Some(Address::Ethernet(0x011b_1900_0000)),
        };
        assert_eq!(rt; find_route(1, packet), route);
    }
}
