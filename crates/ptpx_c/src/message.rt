ghost use Rattle.std.specs.Prelude.{◌≡◌, ◌≤◌, ◌<◌, length, MatchOption, MatchResult, Ok, Err, true, false};
ghost use Rattle.event_codec.specs.Packet.{contents};
ghost use Rattle.event_codec.specs.Reading.{Reading, IsReading};
ghost use Rattle.event_codec.specs.Layout.{type_of, number_of};
ghost use Rattle.event_codec.specs.Correction.{corrected};
ghost use Rattle.ptpx_c.specs.Messages.{fields_of, identity_of, requesting_in, header_said, body_said, contents_said};
ghost use Rattle.ptpx_c.specs.Messages.{has_nibbles, IsDecoded, IsEncoded};

use crate::refusal::InputRefusal;
use crate::time::RawTimestamp;
use event_codec::{
    Body, DecodeRefusal, Header, Message, Nibble, PortIdentity, decode, encode, patch_correction,
};
use ptp_units::{Interval, Seq, Timestamp};

/// A port's identity (IEEE 1588-2019, 5.3.5).
#[repr(C)]
#[derive(Clone, Copy)]
pub struct RawPortIdentity {
    /// clockIdentity, an EUI-64.
    pub clock: [u8; 8],
    /// portNumber.
    pub port: u16,
}

impl RawPortIdentity {
    /// The same for C.
    pub(crate) fn of(identity: PortIdentity) -> RawPortIdentity
        ensures { identity_of result ≡ identity }
    {
        let clock = identity.clock;
        RawPortIdentity {
            clock,
            port: identity.port,
        }
    }

    /// The same for the crates.
    pub(crate) fn identity(self) -> PortIdentity
        ensures { result ≡ identity_of self }
    {
        let clock = self.clock;
        PortIdentity {
            clock,
            port: self.port,
        }
    }
}

/// The fields of a message (IEEE 1588-2019, 13.3 and 13.6 to 13.8). versionPTP is 2, and messageLength is that of the
/// fields and the suffix, the octets of the TLVs after them.
#[repr(C)]
#[derive(Clone, Copy)]
pub struct RawMessage {
    /// messageType: 0 for a Sync, 1 for a Delay_Req, 8 for a Follow_Up, 9 for a Delay_Resp.
    pub kind: u8,
    /// domainNumber.
    pub domain: u8,
    /// majorSdoId, 0 to 15.
    pub major_sdo: u8,
    /// minorSdoId.
    pub minor_sdo: u8,
    /// minorVersionPTP, 0 to 15.
    pub minor_version: u8,
    /// flagField.
    pub flags: [u8; 2],
    /// correctionField, in 2^-16 ns.
    pub correction: i64,
    /// messageTypeSpecific.
    pub specific: [u8; 4],
    /// sourcePortIdentity.
    pub source: RawPortIdentity,
    /// sequenceId.
    pub sequence: u16,
    /// logMessageInterval.
    pub log: i8,
    /// controlField.
    pub control: u8,
    /// originTimestamp, preciseOriginTimestamp or receiveTimestamp.
    pub timestamp: RawTimestamp,
    /// requestingPortIdentity of a Delay_Resp.
    pub requesting: RawPortIdentity,
    /// How many octets stand after the fields, up to messageLength.
    pub suffix_length: u16,
}

impl RawMessage {
    /// The fields of a message.
    fn of(message: &Message<'_>) -> RawMessage
        requires { length message.now.suffix.now < 65536 }
        ensures { result ≡ fields_of (contents message.now) }
    {
        let header = message.header;
        let flags = header.flags;
        let specific = header.specific;
        RawMessage {
            kind: kind_of(message.body),
            major_sdo: header.major_sdo.value(),
            minor_version: header.minor_version.value(),
            domain: header.domain,
            minor_sdo: header.minor_sdo,
            flags,
            correction: header.correction.0,
            specific,
            source: RawPortIdentity::of(header.source),
            sequence: header.sequence.0,
            control: header.control,
            log: header.log,
            timestamp: RawTimestamp::of(message.body.timestamp()),
            requesting: requesting_of(message.body),
            suffix_length: message.suffix.len() as u16,
        }
    }

    /// The message with this suffix. Refused with the first of 903, 904, 102 and 103 that applies.
    fn message<'s>(&self, suffix: &'s [u8]) -> Result<Message<'s>, u16>
        ensures { MatchResult result
            (λ m. contents_said self.now suffix.now ≡ Ok (contents m))
            (λ code. contents_said self.now suffix.now ≡ Err code) }
    {
        if !matches!(self.kind, 0 | 1 | 8 | 9) {
            return Err(InputRefusal::OtherType.code());
        }
        let Some(header) = self.header() else {
            return Err(InputRefusal::Nibble.code());
        };
        let timestamp = match self.timestamp.timestamp() {
            Ok(timestamp) => timestamp,
            Err(refusal) => return Err(refusal.code()),
        };
        match body_of(self.kind, timestamp, self.requesting.identity()) {
            Some(body) => Ok(Message {
                header,
                body,
                suffix,
            }),
            None => Err(InputRefusal::OtherType.code()),
        }
    }

    /// The header, or None where a nibble is 16 or more.
    fn header(&self) -> Option<Header>
        ensures { MatchOption result
            (has_nibbles self.now ≡ false)
            (λ header. (has_nibbles self.now ≡ true) × (header ≡ header_said self.now)) }
    {
        let major_sdo = Nibble::new(self.major_sdo)?;
        let minor_version = Nibble::new(self.minor_version)?;
        let flags = self.flags;
        let specific = self.specific;
        Some(Header {
            major_sdo,
            minor_version,
            domain: self.domain,
            minor_sdo: self.minor_sdo,
            flags,
            correction: Interval(self.correction),
            specific,
            source: self.source.identity(),
            sequence: Seq(self.sequence),
            control: self.control,
            log: self.log,
        })
    }
}

/// messageType of a message with this body.
fn kind_of(body: Body) -> u8
    ensures { result ≡ number_of (type_of body) }
{
    match body {
        Body::Sync { .. } => 0,
        Body::DelayReq { .. } => 1,
        Body::FollowUp { .. } => 8,
        Body::DelayResp { .. } => 9,
    }
}

/// requestingPortIdentity, which only a Delay_Resp has.
fn requesting_of(body: Body) -> RawPortIdentity
    ensures { result ≡ requesting_in body }
{
    match body {
        Body::DelayResp { requesting, .. } => RawPortIdentity::of(requesting),
        Body::Sync { .. } | Body::DelayReq { .. } | Body::FollowUp { .. } => RawPortIdentity {
            clock: [0; 8],
            port: 0,
        },
    }
}

/// The body of this messageType, or None where it is none of the four.
fn body_of(kind: u8, timestamp: Timestamp, requesting: PortIdentity) -> Option<Body>
    ensures { result ≡ body_said kind timestamp requesting }
{
    match kind {
        0 => Some(Body::Sync { origin: timestamp }),
        1 => Some(Body::DelayReq { origin: timestamp }),
        8 => Some(Body::FollowUp { precise: timestamp }),
        9 => Some(Body::DelayResp {
            receive: timestamp,
            requesting,
        }),
        _ => None,
    }
}

/// The fields of the message that the octets begin with. Refused with the first of 201 to 206 that applies; `message`
/// stays then.
#[unsafe(no_mangle)]
pub extern "C" fn ptpx_raw_decode(octets: &[u8], message: &mut RawMessage) -> u16
    ensures { (said : Reading) → IsReading octets.now said → IsDecoded said result message.old message.new }
{
    match decode(octets) {
        Ok((read, _)) => {
            *message = RawMessage::of(&read);
            0
        }
        Err(refusal) => refusal.code(),
    }
}

/// Writes the message with this suffix into the front of the buffer, and its messageLength to `length`. What
/// `suffix_length` says doesn't matter, nor does `requesting` but in a Delay_Resp. Refused with the first of 903,
/// 904, 102, 103, 211 and 212 that applies; nothing is written then.
#[unsafe(no_mangle)]
pub extern "C" fn ptpx_raw_encode(
    message: &RawMessage,
    suffix: &[u8],
    buffer: &mut [u8],
    length: &mut usize,
) -> u16
    ensures encoded { MatchResult (contents_said message.now suffix.now)
        (λ m. IsEncoded m result buffer.old buffer.new length.old length.new)
        (λ code. (result ≡ code) × (buffer.new ≡ buffer.old) × (length.new ≡ length.old)) }
{
    match message.message(suffix) {
        Ok(message) => match encode(&message, buffer) {
            Ok(written) => {
                *length = written;
                0
            }
            Err(refusal) => refusal.code(),
        },
        Err(code) => code,
    }
}

/// Puts the correctionField, in 2^-16 ns, into octets 8 to 15. Refused with 201 where there are fewer than 34 octets;
/// nothing is written then.
#[unsafe(no_mangle)]
pub extern "C" fn ptpx_raw_patch_correction(octets: &mut [u8], correction: i64) -> u16
    ensures patched { 34 ≤ length octets.old → (result ≡ 0) × (octets.new ≡ corrected octets.old correction) }
    ensures refused { length octets.old < 34 → (result ≡ 201) × (octets.new ≡ octets.old) }
{
    if octets.len() < 34 {
        return DecodeRefusal::Short.code();
    }
    patch_correction(octets, Interval(correction));
    0
}
