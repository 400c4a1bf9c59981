ghost use Rattle.std.specs.Prelude.{◌≡◌};
ghost use Rattle.capture_frame.specs.Found.{Answer, IsAnswer, IsFound, answer_of};
ghost use Rattle.capture_frame.specs.Link.{Carries};

use crate::content::Content;
use crate::link::in_link;
use crate::link_type::LinkType;

/// The most octets of a datagram that is handed on: so many fit into a line of a recording.
pub const DATAGRAM_LIMIT: usize = 2035;

/// What a captured packet has of PTP.
#[derive(Clone, Copy, Debug, PartialEq, Eq)]
pub enum Found<'a> {
    /// The datagram that it carries to port 319 or 320 of UDP, or over Ethernet with its padding: as far as it was
    /// captured.
    Datagram(&'a [u8]),
    /// A part of a datagram that was sent in several packets of IP.
    Fragment,
    /// A datagram of more than [`DATAGRAM_LIMIT`] octets.
    TooLong,
    /// The link type is none in which PTP is looked for.
    OtherLink,
    /// Nothing of PTP, or a header that wasn't captured whole.
    Other,
}

/// What a packet of a known link type has of PTP.
fn found_behind(link: LinkType, octets: &[u8]) -> Found<'_>
    ensures found { IsAnswer (Carries link octets.now) (answer_of result) }
    ensures only { (answer : Answer) → IsAnswer (Carries link octets.now) answer → answer ≡ answer_of result }
{
    match in_link(link, octets) {
        Some(Content::Datagram(datagram)) if datagram.len() > DATAGRAM_LIMIT => Found::TooLong,
        Some(Content::Datagram(datagram)) => Found::Datagram(datagram),
        Some(Content::Fragment) => Found::Fragment,
        None => Found::Other,
    }
}

/// What a captured packet has of PTP: `link` is the number of its link type, as tcpdump.org gives them, and `octets` is what
/// was captured of it, from its first octet on.
///
/// PTP is found in Ethernet (1), Linux cooked capture (113 and 276), raw IP (101, 228 and 229) and behind the family of a
/// loopback (0 and 108): behind any tags in packets of type 0x88f7 (IEEE 1588-2019, annex E), and to ports 319 and 320 of UDP
/// over IPv4 and IPv6 (annexes C and D), behind any of the extension headers 0, 43, 44 and 60.
pub fn find_datagram<'a>(link: u16, octets: &'a [u8]) -> Found<'a>
    // What is said is so.
    ensures found { IsFound link octets.now (answer_of result) }
    // What is so is said.
    ensures only { (answer : Answer) → IsFound link octets.now answer → answer ≡ answer_of result }
{
    match LinkType::from_number(link) {
        Some(link) => found_behind(link, octets),
        None => Found::OtherLink,
    }
}

#[cfg(test)]
mod tests {
    use super::*;

    #[test]
    fn finds_a_datagram_behind_a_vlan_tag(rt: HostRuntime) {
        let packet = b"\x01\x1b\x19\0\0\0\x02\0\0\0\0\x01\x81\0\0\x07\x88\xf7PTP";
        assert_eq!(rt; find_datagram(1, packet), Found::Datagram(&packet[18..]));
    }
}
