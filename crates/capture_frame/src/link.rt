ghost use Rattle.std.specs.Prelude.{◌⊎◌};
ghost use Rattle.std.specs.Option.{option_map};
ghost use Rattle.capture_frame.specs.Ipv4.{IsIpv4};
ghost use Rattle.capture_frame.specs.Ipv6.{IsIpv6};
ghost use Rattle.capture_frame.specs.Link.{Carries, IsOfFamily, IsBigEndian, IsLittleEndian};
ghost use Rattle.capture_frame.specs.Inner.Walk.{IsOnly, payload_of};

use crate::content::Content;
use crate::ether::in_frame;
use crate::ipv4::in_ipv4;
use crate::ipv6::in_ipv6;
use crate::link_type::LinkType;
use crate::octets::octet_at;

/// What a packet of IP carries, by its version.
fn in_raw(octets: &[u8]) -> Option<Content<'_>>
    ensures { IsOnly (λ payload. IsIpv4 octets.now payload ⊎ IsIpv6 octets.now payload) (option_map payload_of result) }
{
    if octet_at(octets, 0) / 16 == 4 {
        in_ipv4(octets)
    } else {
        in_ipv6(octets)
    }
}

/// What a packet of a family of addresses carries.
fn in_family(family: u8, octets: &[u8]) -> Option<Content<'_>>
    ensures { IsOnly (IsOfFamily family octets.now) (option_map payload_of result) }
{
    match family {
        2 => in_ipv4(octets),
        24 | 28 | 30 => in_ipv6(octets),
        _ => None,
    }
}

/// What a packet carries behind a family in four octets, the most significant first.
fn in_big_endian(octets: &[u8]) -> Option<Content<'_>>
    ensures { IsOnly (IsBigEndian octets.now) (option_map payload_of result) }
{
    match octets {
        [0, 0, 0, family, behind @ ..] => in_family(*family, behind),
        _ => None,
    }
}

/// What a packet carries behind a family in four octets, the least significant first.
fn in_little_endian(octets: &[u8]) -> Option<Content<'_>>
    ensures { IsOnly (IsLittleEndian octets.now) (option_map payload_of result) }
{
    match octets {
        [family, 0, 0, 0, behind @ ..] => in_family(*family, behind),
        _ => None,
    }
}

/// What a packet carries behind a family in four octets, in either order.
fn in_either_endian(octets: &[u8]) -> Option<Content<'_>>
    ensures { IsOnly (λ payload. IsBigEndian octets.now payload ⊎ IsLittleEndian octets.now payload) (option_map payload_of result) }
{
    if octet_at(octets, 0) == 0 {
        in_big_endian(octets)
    } else {
        in_little_endian(octets)
    }
}

/// What a packet of this link type carries.
pub(crate) fn in_link(link: LinkType, octets: &[u8]) -> Option<Content<'_>>
    ensures { IsOnly (Carries link octets.now) (option_map payload_of result) }
{
    match link {
        LinkType::Null => in_either_endian(octets),
        LinkType::Ethernet => in_frame(14, 12, octets),
        LinkType::Raw => in_raw(octets),
        LinkType::Loop => in_big_endian(octets),
        LinkType::Cooked => in_frame(16, 14, octets),
        LinkType::Ipv4 => in_ipv4(octets),
        LinkType::Ipv6 => in_ipv6(octets),
        LinkType::Cooked2 => in_frame(20, 0, octets),
    }
}
