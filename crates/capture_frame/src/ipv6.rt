ghost use Rattle.std.specs.Prelude.{◌≡◌, ◌<◌, ◌≤◌, length, MatchOption};
ghost use Rattle.std.specs.Option.{option_map};
ghost use Rattle.capture_frame.specs.Chain.{IsChain};
ghost use Rattle.capture_frame.specs.Ipv6.{IsIpv6, CarriesOverIpv6, extension_size, next_header, is_whole};
ghost use Rattle.capture_frame.specs.Inner.Walk.{IsOnly, payload_of};

use crate::content::Content;
use crate::octets::{cut, front, octet_at, u16_at};
use crate::udp::{UDP, in_udp};

/// The numbers of extension headers (RFC 8200, 4).
const HOP_BY_HOP_OPTIONS: u8 = 0;

const ROUTING: u8 = 43;

const FRAGMENT: u8 = 44;

const DESTINATION_OPTIONS: u8 = 60;

/// Whether a fragment header is of a whole packet: its offset is 0, and no fragments follow (RFC 8200, 4.5).
fn is_whole(header: &[u8]) -> bool
    ensures { result ≡ is_whole header.now }
{
    let offset_and_more = u16::from_be_bytes([octet_at(header, 2), octet_at(header, 3)]);
    offset_and_more / 8 == 0 && offset_and_more % 2 == 0
}

/// The size of the extension header that the octets begin with, of those that are passed over (RFC 8200, 4.3 to 4.6).
fn extension_size(kind: u8, octets: &[u8]) -> Option<usize>
    ensures { result ≡ extension_size kind octets.now }
{
    match kind {
        HOP_BY_HOP_OPTIONS | ROUTING | DESTINATION_OPTIONS => {
            Some(8 + 8 * usize::from(octet_at(octets, 1)))
        }
        FRAGMENT if is_whole(octets) => Some(8),
        _ => None,
    }
}

/// What a packet carries behind its extension headers.
fn behind_extensions(kind: u8, octets: &[u8]) -> Option<Content<'_>>
    ensures { IsOnly (CarriesOverIpv6 kind octets.now) (option_map payload_of result) }
{
    match kind {
        UDP => Some(Content::Datagram(in_udp(octets)?)),
        FRAGMENT if octets.len() >= 8 && !is_whole(octets) => Some(Content::Fragment),
        _ => None,
    }
}

/// What extension headers, of which the first has this number, and what is behind them carry.
fn in_extensions(first: u8, octets: &[u8]) -> Option<Content<'_>>
    ensures { IsOnly (IsChain extension_size next_header CarriesOverIpv6 first octets.now) (option_map payload_of result) }
{
    let mut kind = first;
    let mut rest = octets;
    while let Some(size) = extension_size(kind, rest) {
        let (header, behind) = cut(rest, size)?;
        kind = octet_at(header, 0);
        rest = behind;
    }
    behind_extensions(kind, rest)
}

/// What a packet of IPv6 carries (RFC 8200).
pub(crate) fn in_ipv6(octets: &[u8]) -> Option<Content<'_>>
    ensures { IsOnly (IsIpv6 octets.now) (option_map payload_of result) }
{
    let (header, behind) = cut(octets, 40)?;
    if header[0] / 16 != 6 {
        return None;
    }
    in_extensions(header[6], front(behind, usize::from(u16_at(header, 4))))
}
