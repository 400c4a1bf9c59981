ghost use Rattle.std.specs.Prelude.{◌≡◌, ◌<◌, ◌≤◌, ◌+◌, ◌/◌, ◌%◌, ◌^◌, ℕ, length, take, slice_index, slice_range, IfOk};
ghost use Rattle.std.specs.Prelude.{IfSome, MatchResult, IsOkAnd, Some, None};
ghost use Rattle.std.specs.Int.{w8, w64, cast_signed};
ghost use Rattle.event_codec.specs.Layout.{number, number_of, type_of, fields_length, stamp_in};
ghost use Rattle.event_codec.specs.Packet.{Contents, Packet, IsHeader, IsIdentityAt, IsTimestampAt, IsRequesting};
ghost use Rattle.event_codec.specs.Packet.{contents};
ghost use Rattle.event_codec.specs.Reading.{Reading, IsReading, Answers};
ghost use Rattle.event_codec.specs.Refusal.{decode_refusal};

use crate::message::{Body, Header, Message, VERSION};
use crate::message_type::MessageType;
use crate::nibble::Nibble;
use crate::port::PortIdentity;
use crate::refusal::DecodeRefusal;
use ptp_units::{Interval, Seq, Timestamp};

/// The octets of the header that every message begins with.
pub(crate) const HEADER_LENGTH: usize = 34;

pub(crate) fn array_at<const N: usize>(octets: &[u8], at: usize) -> [u8; N]
    requires { at + N ≤ length octets.now }
    ensures { result ≡ slice_range octets.now at (at + N) }
{
    let mut array = [0; N];
    array.copy_from_slice(&octets[at..at + N]);
    array
}

pub(crate) fn u16_at(octets: &[u8], at: usize) -> u16
    requires { at + 2 ≤ length octets.now }
    ensures { result ≡ number octets.now at 2 }
{
    u16::from_be_bytes(array_at(octets, at))
}

fn u32_at(octets: &[u8], at: usize) -> u32
    requires { at + 4 ≤ length octets.now }
    ensures { result ≡ number octets.now at 4 }
{
    u32::from_be_bytes(array_at(octets, at))
}

fn u64_at(octets: &[u8], at: usize) -> u64
    requires { at + 8 ≤ length octets.now }
    ensures { result ≡ number octets.now at 8 }
{
    u64::from_be_bytes(array_at(octets, at))
}

fn port_identity_at(octets: &[u8], at: usize) -> PortIdentity
    requires { at + 10 ≤ length octets.now }
    ensures { IsIdentityAt result octets.now at }
{
    PortIdentity {
        clock: array_at(octets, at),
        port: u16_at(octets, at + 8),
    }
}

/// The header, of a message of version 2.
pub(crate) fn header_of(octets: &[u8]) -> Header
    requires whole { 34 ≤ length octets.now }
    requires version { slice_index octets.now 1 % 16 ≡ 2 }
    ensures { IsHeader result (slice_index octets.now 0 % 16) (number octets.now 2 2) octets.now }
{
    Header {
        major_sdo: Nibble::high(octets[0]),
        minor_version: Nibble::high(octets[1]),
        domain: octets[4],
        minor_sdo: octets[5],
        flags: array_at(octets, 6),
        correction: Interval(u64_at(octets, 8).cast_signed()),
        specific: array_at(octets, 16),
        source: port_identity_at(octets, 20),
        sequence: Seq(u16_at(octets, 30)),
        control: octets[32],
        log: octets[33].cast_signed(),
    }
}

/// The timestamp after the header.
fn timestamp_of(octets: &[u8]) -> Result<Timestamp, DecodeRefusal>
    requires { 44 ≤ length octets.now }
    ensures { MatchResult result
        (λ t. IsTimestampAt t octets.now 34)
        (λ e. (e ≡ DecodeRefusal.Nanoseconds) × (10 ^ 9 ≤ number octets.now 40 4)) }
{
    let seconds = u64::from(u16_at(octets, 34)) << 32 | u64::from(u32_at(octets, 36));
    Timestamp::new(seconds, u32_at(octets, 40)).map_err(|_| DecodeRefusal::Nanoseconds)
}

/// What stands between the header and the suffix.
fn body_of(kind: MessageType, timestamp: Timestamp, octets: &[u8]) -> Body
    requires { fields_length kind ≤ length octets.now }
    ensures type_of { type_of result ≡ kind }
    ensures stamp { stamp_in result ≡ timestamp }
    ensures requesting { IsRequesting result octets.now }
{
    match kind {
        MessageType::Sync => Body::Sync { origin: timestamp },
        MessageType::DelayReq => Body::DelayReq { origin: timestamp },
        MessageType::FollowUp => Body::FollowUp { precise: timestamp },
        MessageType::DelayResp => Body::DelayResp {
            receive: timestamp,
            requesting: port_identity_at(octets, 44),
        },
    }
}

/// The message that the octets are, all of them.
fn message_of(kind: MessageType, timestamp: Timestamp, octets: &[u8]) -> Message<'_>
    requires kind { slice_index octets.now 0 % 16 ≡ number_of kind }
    requires version { slice_index octets.now 1 % 16 ≡ 2 }
    requires least { fields_length kind ≤ length octets.now }
    requires message_length { number octets.now 2 2 ≡ length octets.now }
    requires timestamp { IsTimestampAt timestamp octets.now 34 }
    ensures { Packet (contents result) octets.now }
{
    Message {
        header: header_of(octets),
        body: body_of(kind, timestamp, octets),
        suffix: &octets[kind.fields_length()..],
    }
}

/// The type of the message, from a whole header of version 2.
#[tactic(auto, unfolding(crate::specs::Refusal::decode_refusal))]
fn message_type_of(octets: &[u8]) -> Result<MessageType, DecodeRefusal>
    ensures { MatchResult result
        (λ kind. (34 ≤ length octets.now) × (slice_index octets.now 1 % 16 ≡ 2)
        × (slice_index octets.now 0 % 16 ≡ number_of kind))
        (λ e. decode_refusal octets.now ≡ Some e) }
{
    if octets.len() < HEADER_LENGTH {
        return Err(DecodeRefusal::Short);
    }
    if octets[1] % 16 != VERSION {
        return Err(DecodeRefusal::Version);
    }
    let nibble = octets[0] % 16;
    MessageType::from_nibble(nibble).ok_or(DecodeRefusal::OtherType(nibble))
}

/// The octets up to messageLength, at least as many as the fields take.
#[tactic(auto, unfolding(crate::specs::Refusal::decode_refusal))]
fn without_padding(kind: MessageType, octets: &[u8]) -> Result<&[u8], DecodeRefusal>
    requires header { 34 ≤ length octets.now }
    requires version { slice_index octets.now 1 % 16 ≡ 2 }
    requires kind { slice_index octets.now 0 % 16 ≡ number_of kind }
    ensures { MatchResult result
        (λ packet. (number octets.now 2 2 ≤ length octets.now) × (packet.now ≡ take (number octets.now 2 2) octets.now)
        × (fields_length kind ≤ number octets.now 2 2))
        (λ e. decode_refusal octets.now ≡ Some e) }
{
    let message_length = usize::from(u16_at(octets, 2));
    if message_length < kind.fields_length() {
        return Err(DecodeRefusal::LengthField);
    }
    octets.get(..message_length).ok_or(DecodeRefusal::Truncated)
}

/// What [`decode`] answers, without the law that follows from it.
#[inline(always)]
fn message_at_front(octets: &[u8]) -> Result<(Message<'_>, usize), DecodeRefusal>
    ensures read { IfOk result (λ r. (r.1 ≤ length octets.now) × Packet (contents r.0) (take r.1 octets.now)) }
    ensures refused { MatchResult result
        (λ _. decode_refusal octets.now ≡ None)
        (λ e. decode_refusal octets.now ≡ Some e) }
{
    let kind = message_type_of(octets)?;
    let packet = without_padding(kind, octets)?;
    let timestamp = timestamp_of(packet)?;
    Ok((message_of(kind, timestamp, packet), packet.len()))
}

/// The message that the octets begin with, and its messageLength. The octets after that are
/// padding, and each value of a field that the layout doesn't limit is kept
/// (IEEE 1588-2019, 13.3). Refused with the first of 201 to 206 that applies.
///
/// What [`encode`](crate::encode) wrote is read again as it was, whatever follows it: see
/// [`decode_of_encode`](crate::laws::decode_of_encode).
#[inline(always)]
pub fn decode(octets: &[u8]) -> Result<(Message<'_>, usize), DecodeRefusal>
    // What is read is what the octets say.
    ensures read { IfOk result (λ r. (r.1 ≤ length octets.now) × Packet (contents r.0) (take r.1 octets.now)) }
    // What the octets say is read.
    ensures only { (m : Contents) (n : ℕ) → n ≤ length octets.now → Packet m (take n octets.now)
        → IsOkAnd result (λ r. (contents r.0 ≡ m) × (r.1 ≡ n)) }
    ensures refused { MatchResult result
        (λ _. decode_refusal octets.now ≡ None)
        (λ e. decode_refusal octets.now ≡ Some e) }
    // Whatever the octets say, that is the answer.
    ensures reading { (said : Reading) → IsReading octets.now said → Answers result said }
{
    message_at_front(octets)
}
