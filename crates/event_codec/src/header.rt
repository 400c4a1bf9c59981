//! Headers of messages of every type, and Announce.
ghost use Rattle.std.specs.Prelude.{◌≡◌, ◌≤◌, ◌<◌, ◌+◌, length, slice_index, slice_range, MatchResult, MatchOption, Some, None};
ghost use Rattle.std.specs.Prelude.{false};
ghost use Rattle.std.specs.Int.{w16, cast_signed};
ghost use Rattle.event_codec.specs.Layout.{number};
ghost use Rattle.event_codec.specs.Packet.{IsHeader};
ghost use Rattle.event_codec.specs.Header.{IsAnnounce, HasHeader, header_refusal, is_announce};

use crate::decoding::{HEADER_LENGTH, array_at, header_of, u16_at};
use crate::message::{Header, VERSION};
use crate::refusal::DecodeRefusal;

/// The messageType of an Announce (IEEE 1588-2019, table 36).
const ANNOUNCE: u8 = 11;

/// The octets of the fields of an Announce; the suffix begins after them.
const ANNOUNCE_LENGTH: u16 = 64;

/// What an Announce tells of the clock from which the time comes (IEEE 1588-2019, 13.5).
#[derive(Clone, Copy, Debug, PartialEq, Eq)]
pub struct Announce {
    /// The fields that all messages have; flagField tells whether currentUtcOffset is valid and the timescale is PTP.
    pub header: Header,
    /// currentUtcOffset, in s.
    pub utc_offset: i16,
    /// clockClass of grandmasterClockQuality.
    pub clock_class: u8,
    /// grandmasterIdentity.
    pub grandmaster: [u8; 8],
    /// stepsRemoved.
    pub steps_removed: u16,
}

/// messageType and header of a message of any type (IEEE 1588-2019, 13.3). Refused with the first of 201 and 202 that applies.
pub fn decode_header(octets: &[u8]) -> Result<(u8, Header), DecodeRefusal>
    ensures { MatchResult result
        (λ r. (header_refusal octets.now ≡ None) × HasHeader r.0 r.1 octets.now)
        (λ e. header_refusal octets.now ≡ Some e) }
{
    if octets.len() < HEADER_LENGTH {
        return Err(DecodeRefusal::Short);
    }
    if octets[1] % 16 != VERSION {
        return Err(DecodeRefusal::Version);
    }
    Ok((octets[0] % 16, header_of(octets)))
}

/// Whether the octets begin with a whole Announce of version 2.
fn is_announce(octets: &[u8]) -> bool
    ensures { result ≡ is_announce octets.now }
{
    octets.len() >= HEADER_LENGTH
        && octets[1] % 16 == VERSION
        && octets[0] % 16 == ANNOUNCE
        && u16_at(octets, 2) >= ANNOUNCE_LENGTH
        && octets.len() >= usize::from(u16_at(octets, 2))
}

/// The Announce that the octets begin with, if they begin with a whole one of version 2.
pub fn decode_announce(octets: &[u8]) -> Option<Announce>
    ensures { MatchOption result
        (is_announce octets.now ≡ false)
        (λ announce. IsAnnounce announce octets.now) }
{
    if !is_announce(octets) {
        return None;
    }
    Some(Announce {
        header: header_of(octets),
        utc_offset: u16_at(octets, 44).cast_signed(),
        clock_class: octets[48],
        grandmaster: array_at(octets, 53),
        steps_removed: u16_at(octets, 61),
    })
}
