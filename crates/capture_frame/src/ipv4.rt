ghost use Rattle.std.specs.Prelude.{◌≡◌, ◌<◌, ◌≤◌, ◌⊎◌, length, MatchOption};
ghost use Rattle.std.specs.Option.{option_map};
ghost use Rattle.capture_frame.specs.Ipv4.{IsIpv4, is_unfragmented, ipv4_data};
ghost use Rattle.capture_frame.specs.Octets.{two_octets};
ghost use Rattle.capture_frame.specs.Inner.Walk.{IsOnly, payload_of};

use crate::content::Content;
use crate::octets::{cut, front, octet_at, u16_at};
use crate::udp::{UDP, in_udp};

/// Whether the packet is a whole datagram: its fragment offset is 0, and no fragments follow.
fn is_unfragmented(header: &[u8]) -> bool
    requires { 20 ≤ length header.now }
    ensures { result ≡ is_unfragmented header.now }
{
    let flags_and_offset = u16_at(header, 6);
    flags_and_offset % 8192 == 0 && flags_and_offset / 8192 % 2 == 0
}

/// What is behind the header, up to the total length.
fn ipv4_data<'a>(header: &[u8], behind: &'a [u8]) -> Option<&'a [u8]>
    requires { 20 ≤ length header.now }
    ensures { MatchOption result
        ((0 < two_octets header.now 2) × (two_octets header.now 2 < length header.now))
        (λ rest. ((two_octets header.now 2 ≡ 0) ⊎ (length header.now ≤ two_octets header.now 2))
        × (rest.now ≡ ipv4_data header.now behind.now)) }
{
    match u16_at(header, 2) {
        0 => Some(behind),
        total_length => Some(front(behind, usize::from(total_length).checked_sub(header.len())?)),
    }
}

/// What a packet of IPv4 carries (RFC 791).
pub(crate) fn in_ipv4(octets: &[u8]) -> Option<Content<'_>>
    ensures { IsOnly (IsIpv4 octets.now) (option_map payload_of result) }
{
    let (header, behind) = cut(octets, 4 * usize::from(octet_at(octets, 0) % 16))?;
    if header.len() < 20 {
        return None;
    }
    if header[0] / 16 != 4 || header[9] != UDP {
        return None;
    }
    let payload = ipv4_data(header, behind)?;
    if !is_unfragmented(header) {
        return Some(Content::Fragment);
    }
    Some(Content::Datagram(in_udp(payload)?))
}
