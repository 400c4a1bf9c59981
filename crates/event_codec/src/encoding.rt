ghost use Rattle.std.specs.Prelude.{◌≡◌, ◌<◌, ◌≤◌, ◌+◌, ◌*◌, ◌^◌, ◌++◌, ℕ, List, length, take, drop, slice_index};
ghost use Rattle.std.specs.Prelude.{slice_range, IfOk, OnErr, MatchResult, Some, None};
ghost use Rattle.std.specs.Int.{w8, w16, w64, cast_signed, to_be_bytes};
ghost use Rattle.event_codec.specs.Layout.{number, number_of, type_of, fields_length, stamp_in};
ghost use Rattle.event_codec.specs.Packet.{Packet, IsHeader, IsIdentityAt, IsTimestampAt, IsRequesting, contents};
ghost use Rattle.event_codec.specs.EncodeRefusal.{encode_refusal};

use crate::message::{Body, Header, Message, VERSION};
use crate::message_type::MessageType;
use crate::port::PortIdentity;
use crate::refusal::EncodeRefusal;
use ptp_units::{Seq, Timestamp};

/// Copies the octets to a place of the buffer.
fn put<const N: usize>(buffer: &mut [u8], at: usize, octets: [u8; N])
    requires { at + N ≤ length buffer.old }
    ensures before { take at buffer.new ≡ take at buffer.old }
    ensures here { slice_range buffer.new at (at + N) ≡ octets.entry }
    ensures after { drop (at + N) buffer.new ≡ drop (at + N) buffer.old }
{
    buffer[at..at + N].copy_from_slice(&octets);
}

/// The octets of the identity.
fn identity_octets(identity: PortIdentity) -> [u8; 10]
    ensures { IsIdentityAt identity result 0 }
{
    let [c0, c1, c2, c3, c4, c5, c6, c7] = identity.clock;
    let [p0, p1] = identity.port.to_be_bytes();
    [c0, c1, c2, c3, c4, c5, c6, c7, p0, p1]
}

/// The octets of the number.
fn sequence_octets(sequence: Seq) -> [u8; 2]
    ensures { sequence.0 ≡ number result 0 2 }
{
    sequence.0.to_be_bytes()
}

/// The octets of the timestamp.
fn timestamp_octets(timestamp: Timestamp) -> [u8; 10]
    ensures { IsTimestampAt timestamp result 0 }
{
    let [_, _, s0, s1, s2, s3, s4, s5] = timestamp.seconds().to_be_bytes();
    let [n0, n1, n2, n3] = timestamp.nanos().to_be_bytes();
    [s0, s1, s2, s3, s4, s5, n0, n1, n2, n3]
}

/// The octets of the header, with messageType, versionPTP and messageLength.
fn header_octets(header: &Header, kind: MessageType, message_length: u16) -> [u8; 34]
    ensures { IsHeader header.now (number_of kind) message_length result }
{
    let [l0, l1] = message_length.to_be_bytes();
    let [c0, c1, c2, c3, c4, c5, c6, c7] = header.correction.0.to_be_bytes();
    let [s0, s1] = sequence_octets(header.sequence);
    let log = header.log.cast_unsigned();
    let sdo_type = header.major_sdo.octet_with(kind.number());
    let versions = header.minor_version.octet_with(VERSION);
    let [f0, f1] = header.flags;
    let [m0, m1, m2, m3] = header.specific;
    let [i0, i1, i2, i3, i4, i5, i6, i7, i8, i9] = identity_octets(header.source);
    let (domain, minor_sdo, control) = (header.domain, header.minor_sdo, header.control);
    [
        sdo_type, versions, l0, l1, domain, minor_sdo, f0, f1, c0, c1, c2, c3, c4, c5, c6, c7, m0,
        m1, m2, m3, i0, i1, i2, i3, i4, i5, i6, i7, i8, i9, s0, s1, control, log,
    ]
}

/// The fields of the message, of which the header says this messageLength.
fn put_fields(buffer: &mut [u8], message: &Message<'_>, message_length: u16)
    requires { fields_length (type_of message.now.body) ≤ length buffer.old }
    ensures header { IsHeader message.now.header (number_of (type_of message.now.body)) message_length buffer.new }
    ensures timestamp { IsTimestampAt (stamp_in message.now.body) buffer.new 34 }
    ensures requesting { IsRequesting message.now.body buffer.new }
    ensures after { drop (fields_length (type_of message.now.body)) buffer.new
        ≡ drop (fields_length (type_of message.now.body)) buffer.old }
{
    let Message { header, body, .. } = message;
    put(
        buffer,
        0,
        header_octets(header, body.message_type(), message_length),
    );
    put(buffer, 34, timestamp_octets(body.timestamp()));
    if let Body::DelayResp { requesting, .. } = body {
        put(buffer, 44, identity_octets(*requesting));
    }
}

/// The whole message, of this messageLength.
fn put_message(buffer: &mut [u8], message: &Message<'_>, message_length: u16)
    requires whole { message_length ≡ fields_length (type_of message.now.body) + length message.now.suffix.now }
    requires room { message_length ≤ length buffer.old }
    ensures written { Packet (contents message.now) (take message_length buffer.new) }
    ensures after { drop message_length buffer.new ≡ drop message_length buffer.old }
{
    put_fields(buffer, message, message_length);
    let fields_length = message.body.message_type().fields_length();
    buffer[fields_length..usize::from(message_length)].copy_from_slice(message.suffix);
}

/// Writes the message into the front of the buffer, and gives its messageLength. The octets after
/// that stay as they are, and on a refusal all octets do. Refused with 211 where the buffer is
/// shorter than the message, else with 212 where messageLength would pass 65,535.
///
/// What is written is read again by [`decode`](crate::decode) as it was, whatever follows it: see
/// [`decode_of_encode`](crate::laws::decode_of_encode).
pub fn encode(message: &Message<'_>, buffer: &mut [u8]) -> Result<usize, EncodeRefusal>
    ensures written { IfOk result (λ n. (n ≤ length buffer.old)
        × Packet (contents message.now) (take n buffer.new)
        × (drop n buffer.new ≡ drop n buffer.old)) }
    // What was read is written again octet for octet.
    ensures again { (b : List ℕ) → Packet (contents message.now) b → IfOk result (λ n. take n buffer.new ≡ b) }
    ensures refused { MatchResult result
        (λ _. encode_refusal (contents message.now) (length buffer.old) ≡ None)
        (λ e. encode_refusal (contents message.now) (length buffer.old) ≡ Some e) }
    ensures unchanged { OnErr result (buffer.new ≡ buffer.old) }
{
    let fields_length = message.body.message_type().fields_length();
    let message_length = fields_length + message.suffix.len();
    if buffer.len() < message_length {
        return Err(EncodeRefusal::NoRoom);
    }
    match u16::try_from(message_length) {
        Ok(length_field) => {
            put_message(buffer, message, length_field);
            Ok(message_length)
        }
        Err(_) => Err(EncodeRefusal::SuffixTooLong),
    }
}
