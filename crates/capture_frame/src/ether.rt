ghost use Rattle.std.specs.Prelude.{◌≡◌, [], ◌+◌, ◌<◌, ◌≤◌, length, MatchOption};
ghost use Rattle.std.specs.Option.{option_map};
ghost use Rattle.capture_frame.specs.Tags.{CarriesByType, IsTagged, tag_size};
ghost use Rattle.capture_frame.specs.Link.{IsFrame};
ghost use Rattle.capture_frame.specs.Inner.Walk.{IsOnly, payload_of};

use crate::content::Content;
use crate::ipv4::in_ipv4;
use crate::ipv6::in_ipv6;
use crate::octets::{cut, u16_at};

/// EtherTypes of tags: of VLANs (IEEE 802.1Q), of redundancy (IEEE 802.1CB) and of HSR (IEC 62439-3).
const CUSTOMER_TAG: u16 = 0x8100;

const SERVICE_TAG: u16 = 0x88a8;

const OLD_SERVICE_TAG: u16 = 0x9100;

const REDUNDANCY_TAG: u16 = 0xf1c1;

const HSR_TAG: u16 = 0x892f;

/// EtherTypes of PTP (IEEE 1588-2019, annex E) and of what carries it.
const PTP: u16 = 0x88f7;

pub(crate) const IPV4: u16 = 0x0800;

pub(crate) const IPV6: u16 = 0x86dd;

/// How many octets stand behind the EtherType of a tag, of which the last two are the next EtherType.
pub(crate) fn tag_size(kind: u16) -> Option<usize>
    ensures { result ≡ tag_size kind [] }
{
    match kind {
        CUSTOMER_TAG | SERVICE_TAG | OLD_SERVICE_TAG => Some(4),
        REDUNDANCY_TAG | HSR_TAG => Some(6),
        _ => None,
    }
}

/// What a packet carries behind its tags.
fn behind_tags(kind: u16, octets: &[u8]) -> Option<Content<'_>>
    ensures { IsOnly (CarriesByType kind octets.now) (option_map payload_of result) }
{
    match kind {
        PTP => Some(Content::Datagram(octets)),
        IPV4 => in_ipv4(octets),
        IPV6 => in_ipv6(octets),
        _ => None,
    }
}

/// What tags, of which the first has this EtherType, and what is behind them carry.
fn in_tags(first: u16, octets: &[u8]) -> Option<Content<'_>>
    ensures { IsOnly (IsTagged first octets.now) (option_map payload_of result) }
{
    let mut kind = first;
    let mut rest = octets;
    while let Some(size) = tag_size(kind) {
        let (tag, behind) = cut(rest, size)?;
        kind = u16_at(tag, size - 2);
        rest = behind;
    }
    behind_tags(kind, rest)
}

/// What a packet carries behind a header of `count` octets, whose EtherType stands at octet `place`.
pub(crate) fn in_frame(count: usize, place: usize, octets: &[u8]) -> Option<Content<'_>>
    requires { place + 2 ≤ count }
    ensures { IsOnly (IsFrame count place octets.now) (option_map payload_of result) }
{
    let (header, behind) = cut(octets, count)?;
    in_tags(u16_at(header, place), behind)
}
