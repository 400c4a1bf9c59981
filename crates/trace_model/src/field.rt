//! The fields of messages, and which of them octets have otherwise (IEEE 1588-2019, 13.3 and 13.6 to 13.8).

ghost use Rattle.std.specs.Prelude.{◌≡◌, ◌++◌, [], ◌∷◌, ◌<◌, length, slice_index, slice_range};
ghost use Rattle.std.specs.Prelude.{◌≤◌, not, drop, filter, ◌==◌};
ghost use Rattle.std.specs.List.{list_all};
ghost use Rattle.event_codec.specs.Layout.{number, number_of, type_of, fields_length};
ghost use Rattle.event_codec.specs.Packet.{contents};
ghost use Rattle.event_codec.specs.Refusal.{message_length};
ghost use Rattle.slave_port.specs.Usable.{is_two_step};
ghost use Rattle.trace_model.specs.Octets.{is_identity_at, is_requesting};
ghost use Rattle.trace_model.specs.Field.{all_fields, is_whole, two_step_bit, are_other_flags, is_stamp_at};
ghost use Rattle.trace_model.specs.Field.{has_field, differing, is_stamp_read, is_sync_body, is_read, tells_same};

use event_codec::{Body, Header, Message, PortIdentity, TWO_STEP};
use ptp_units::Timestamp;
use std::marker::Model;

/// A field of a message, in the order of octets. Octet 0 and octet 1 have two each, and flagField is
/// two here, since of its flags only twoStepFlag is read by anybody.
#[derive(Clone, Copy, Debug, PartialEq, Eq)]
pub enum Field {
    /// majorSdoId, the high half of octet 0 (IEEE 1588-2019, 13.3.2.1).
    MajorSdoId,
    /// messageType, the low half of octet 0.
    MessageType,
    /// minorVersionPTP, the high half of octet 1.
    MinorVersion,
    /// versionPTP, the low half of octet 1, which is 2.
    Version,
    /// messageLength.
    MessageLength,
    /// That messageLength has room for all fields, and that there are as many octets.
    Whole,
    /// domainNumber.
    DomainNumber,
    /// minorSdoId.
    MinorSdoId,
    /// twoStepFlag of flagField.
    TwoStepFlag,
    /// The other flags of flagField.
    OtherFlags,
    /// correctionField.
    Correction,
    /// messageTypeSpecific.
    TypeSpecific,
    /// sourcePortIdentity.
    SourcePort,
    /// sequenceId.
    SequenceId,
    /// controlField.
    Control,
    /// logMessageInterval.
    LogInterval,
    /// The timestamp: originTimestamp, preciseOriginTimestamp or receiveTimestamp.
    Timestamp,
    /// That the nanoseconds of the timestamp are less than a second.
    Nanoseconds,
    /// requestingPortIdentity of a Delay_Resp; the other types don't have it.
    RequestingPort,
    /// What stands after the last field.
    Suffix,
}

/// The octet at a place, and 0 where they end before it.
fn octet(octets: &[u8], at: usize) -> u8
    ensures { result ≡ slice_index octets.now at }
{
    match octets.get(at) {
        Some(octet) => *octet,
        None => 0,
    }
}

/// The octets from one to before another, as many of them as are there.
fn part(octets: &[u8], from: usize, end: usize) -> &[u8]
    requires { from ≤ end }
    ensures { result.now ≡ slice_range octets.now from end }
{
    let end = end.min(octets.len());
    &octets[from.min(end)..end]
}

/// The octets from one on, as many as are there.
fn part_after(octets: &[u8], from: usize) -> &[u8]
    ensures { result.now ≡ drop from octets.now }
{
    &octets[from.min(octets.len())..]
}

fn u16_at(octets: &[u8], at: usize) -> u16
    requires { at < 200 }
    ensures { result ≡ number octets.now at 2 }
{
    u16::from_be_bytes([octet(octets, at), octet(octets, at + 1)])
}

fn u32_at(octets: &[u8], at: usize) -> u32
    requires { at < 100 }
    ensures { result ≡ number octets.now at 4 }
{
    u32::from(u16_at(octets, at)) << 16 | u32::from(u16_at(octets, at + 2))
}

fn u64_at(octets: &[u8], at: usize) -> u64
    requires { at < 50 }
    ensures { result ≡ number octets.now at 8 }
{
    u64::from(u32_at(octets, at)) << 32 | u64::from(u32_at(octets, at + 4))
}

/// The number of the messageType.
fn type_number(body: &Body) -> u8
    ensures { result ≡ number_of (type_of body.now) }
{
    match body {
        Body::Sync { .. } => 0,
        Body::DelayReq { .. } => 1,
        Body::FollowUp { .. } => 8,
        Body::DelayResp { .. } => 9,
    }
}

/// How many octets the fields take.
fn fields_length(body: &Body) -> usize
    ensures value { result ≡ fields_length (type_of body.now) }
    ensures within { result ≤ 54 }
{
    match body {
        Body::DelayResp { .. } => 54,
        Body::Sync { .. } | Body::DelayReq { .. } | Body::FollowUp { .. } => 44,
    }
}

/// Whether messageLength is that of the message.
fn is_length(message: &Message<'_>, octets: &[u8]) -> bool
    ensures { result ≡ (number octets.now 2 2 == message_length (contents message.now)) }
{
    let fields = fields_length(&message.body);
    match usize::from(u16_at(octets, 2)).checked_sub(fields) {
        Some(rest) => rest == message.suffix.len(),
        None => false,
    }
}

/// Whether messageLength has room for all fields, and there are as many octets.
fn is_whole(body: &Body, octets: &[u8]) -> bool
    ensures { result ≡ is_whole body.now octets.now }
{
    let message_length = usize::from(u16_at(octets, 2));
    message_length >= fields_length(body) && octets.len() >= message_length
}

/// Whether an octet has the twoStepFlag.
fn two_step_bit(octet: u8) -> u8
    ensures { result ≡ two_step_bit octet }
{
    octet / TWO_STEP[0] % 2
}

/// Whether the flags are those of octets 6 and 7, but for twoStepFlag.
fn are_other_flags(flags: &[u8; 2], octets: &[u8]) -> bool
    ensures { result ≡ are_other_flags flags.now octets.now }
{
    let first = octet(octets, 6);
    flags[0] / 4 == first / 4 && flags[0] % 2 == first % 2 && flags[1] == octet(octets, 7)
}

/// Whether octets 34 to 43 are this timestamp.
fn is_stamp_at(stamp: Timestamp, octets: &[u8]) -> bool
    ensures { result ≡ is_stamp_at stamp octets.now }
{
    let seconds = u64::from(u16_at(octets, 34)) << 32 | u64::from(u32_at(octets, 36));
    stamp.seconds() == seconds && stamp.nanos() == u32_at(octets, 40)
}

/// Whether ten octets are this identity.
fn is_identity_at(identity: &PortIdentity, octets: &[u8], at: usize) -> bool
    requires { at < 90 }
    ensures { result ≡ is_identity_at identity.now octets.now at }
{
    identity.clock.as_slice() == part(octets, at, at + 8) && identity.port == u16_at(octets, at + 8)
}

/// Whether octets 44 to 53 of a Delay_Resp are its requestingPortIdentity.
fn is_requesting(body: &Body, octets: &[u8]) -> bool
    ensures { result ≡ is_requesting body.now octets.now }
{
    match body {
        Body::DelayResp { requesting, .. } => is_identity_at(requesting, octets, 44),
        Body::Sync { .. } | Body::DelayReq { .. } | Body::FollowUp { .. } => true,
    }
}

/// Whether this is a Sync.
fn is_sync_body(body: &Body) -> bool
    ensures { result ≡ is_sync_body body.now }
{
    match body {
        Body::Sync { .. } => true,
        Body::DelayReq { .. } | Body::FollowUp { .. } | Body::DelayResp { .. } => false,
    }
}

/// Whether a slave reads the timestamp.
fn is_stamp_read(header: &Header, body: &Body) -> bool
    ensures { result ≡ is_stamp_read (is_two_step header.now) body.now }
{
    match body {
        Body::Sync { .. } => two_step_bit(header.flags[0]) == 0,
        Body::DelayReq { .. } => false,
        Body::FollowUp { .. } | Body::DelayResp { .. } => true,
    }
}

impl Field {
    /// All fields, in the order of their octets.
    pub const ALL: [Field; 20] = [
        Field::MajorSdoId,
        Field::MessageType,
        Field::MinorVersion,
        Field::Version,
        Field::MessageLength,
        Field::Whole,
        Field::DomainNumber,
        Field::MinorSdoId,
        Field::TwoStepFlag,
        Field::OtherFlags,
        Field::Correction,
        Field::TypeSpecific,
        Field::SourcePort,
        Field::SequenceId,
        Field::Control,
        Field::LogInterval,
        Field::Timestamp,
        Field::Nanoseconds,
        Field::RequestingPort,
        Field::Suffix,
    ];

    /// Its name, whatever the message (IEEE 1588-2019, 13.3 and 13.6 to 13.8); of a test of a field, that of the field.
    pub fn name(self) -> &'static str {
        match self {
            Field::MajorSdoId => "majorSdoId",
            Field::MessageType => "messageType",
            Field::MinorVersion => "minorVersionPTP",
            Field::Version => "versionPTP",
            Field::MessageLength | Field::Whole => "messageLength",
            Field::DomainNumber => "domainNumber",
            Field::MinorSdoId => "minorSdoId",
            Field::TwoStepFlag => "twoStepFlag",
            Field::OtherFlags => "flagField",
            Field::Correction => "correctionField",
            Field::TypeSpecific => "messageTypeSpecific",
            Field::SourcePort => "sourcePortIdentity",
            Field::SequenceId => "sequenceId",
            Field::Control => "controlField",
            Field::LogInterval => "logMessageInterval",
            Field::Timestamp | Field::Nanoseconds => "the timestamp",
            Field::RequestingPort => "requestingPortIdentity",
            Field::Suffix => "the suffix",
        }
    }

    /// Its name in a message with this body, where the timestamp has one of its own.
    pub fn name_in(self, body: &Body) -> &'static str {
        match (self, body) {
            (Field::Timestamp | Field::Nanoseconds, Body::Sync { .. } | Body::DelayReq { .. }) => {
                "originTimestamp"
            }
            (Field::Timestamp | Field::Nanoseconds, Body::FollowUp { .. }) => {
                "preciseOriginTimestamp"
            }
            (Field::Timestamp | Field::Nanoseconds, Body::DelayResp { .. }) => "receiveTimestamp",
            _ => self.name(),
        }
    }

    /// Whether octets have this field as the message has it. Octets that aren't there count as 0.
    pub fn is_in(self, message: &Message<'_>, octets: &[u8]) -> bool
        ensures { result ≡ has_field (contents message.now) octets.now self }
    {
        let header = &message.header;
        let body = &message.body;
        match self {
            Field::MajorSdoId => header.major_sdo.value() == octet(octets, 0) / 16,
            Field::MessageType => type_number(body) == octet(octets, 0) % 16,
            Field::MinorVersion => header.minor_version.value() == octet(octets, 1) / 16,
            Field::Version => octet(octets, 1) % 16 == 2,
            Field::MessageLength => is_length(message, octets),
            Field::Whole => is_whole(body, octets),
            Field::DomainNumber => header.domain == octet(octets, 4),
            Field::MinorSdoId => header.minor_sdo == octet(octets, 5),
            Field::TwoStepFlag => two_step_bit(header.flags[0]) == two_step_bit(octet(octets, 6)),
            Field::OtherFlags => are_other_flags(&header.flags, octets),
            Field::Correction => header.correction.0 == u64_at(octets, 8).cast_signed(),
            Field::TypeSpecific => header.specific.as_slice() == part(octets, 16, 20),
            Field::SourcePort => is_identity_at(&header.source, octets, 20),
            Field::SequenceId => header.sequence.0 == u16_at(octets, 30),
            Field::Control => header.control == octet(octets, 32),
            Field::LogInterval => header.log == octet(octets, 33).cast_signed(),
            Field::Timestamp => is_stamp_at(body.timestamp(), octets),
            Field::Nanoseconds => u32_at(octets, 40) < 1_000_000_000,
            Field::RequestingPort => is_requesting(body, octets),
            Field::Suffix => message.suffix == part_after(octets, fields_length(body)),
        }
    }

    /// Whether a slave or a master reads this field of this message: where octets have it otherwise,
    /// that can turn what it does. Of the others nobody here reads anything.
    pub fn is_read(self, message: &Message<'_>) -> bool
        ensures { result ≡ is_read (contents message.now) self }
    {
        match self {
            Field::MessageType
            | Field::Version
            | Field::Whole
            | Field::DomainNumber
            | Field::Correction
            | Field::SourcePort
            | Field::SequenceId
            | Field::Nanoseconds
            | Field::RequestingPort => true,
            Field::TwoStepFlag => is_sync_body(&message.body),
            Field::Timestamp => is_stamp_read(&message.header, &message.body),
            Field::MajorSdoId
            | Field::MinorVersion
            | Field::MessageLength
            | Field::MinorSdoId
            | Field::OtherFlags
            | Field::TypeSpecific
            | Field::Control
            | Field::LogInterval
            | Field::Suffix => false,
        }
    }
}

/// Fields of a message, in the order of octets.
#[derive(Debug, Drop)]
pub struct Fields {
    /// The fields, and what doesn't count behind them.
    fields: [Field; 20],
    count: usize,
}

impl Model for Fields {
    ghost use Rattle.std.specs.Prelude.{◌≤◌, List, take};
    ghost use Rattle.trace_model.specs.declared.field.Field.{Field};

    ghost Value = { List Field };

    ghost view = { λ f. take f.count f.fields };

    ghost invariant = { λ f. f.count ≤ 20 };
}

impl Fields {
    /// No field.
    fn none() -> Fields
        ensures { result ≡ [] }
    {
        Fields {
            fields: Field::ALL,
            count: 0,
        }
    }

    /// One more field.
    fn push(&mut self, field: Field)
        requires { length self.old < 20 }
        ensures { self.new ≡ self.old ++ field ∷ [] }
    {
        self.fields[self.count] = field;
        self.count += 1;
    }

    /// The fields, in their order.
    pub fn as_slice(&self) -> &[Field]
        ensures { result.now ≡ self.now }
    {
        &self.fields[..self.count]
    }
}

/// Those of these fields that octets have otherwise.
fn otherwise(fields: &[Field], message: &Message<'_>, octets: &[u8]) -> Fields
    requires { length fields.now ≤ 20 }
    ensures { result ≡ filter (λ field. not (has_field (contents message.now) octets.now field)) fields.now }
{
    let mut differing = Fields::none();
    for field in fields {
        if !field.is_in(message, octets) {
            differing.push(*field);
        }
    }
    differing
}

/// The fields that octets have otherwise than the message: every one, in the order of octets. There is
/// none exactly where the octets are the message, as [`fields_are_tested`](crate::laws::fields_are_tested)
/// says.
pub fn differing(message: &Message<'_>, octets: &[u8]) -> Fields
    ensures { result ≡ differing (contents message.now) octets.now }
{
    otherwise(&Field::ALL, message, octets)
}

/// Whether a slave and a master read none of these fields.
fn are_unread(fields: &[Field], message: &Message<'_>) -> bool
    ensures { result ≡ list_all (λ field. not (is_read (contents message.now) field)) fields.now }
{
    for field in fields {
        if field.is_read(message) {
            return false;
        }
    }
    true
}

/// Whether octets tell the same as the message: a slave or a master reads no field of it that they
/// have otherwise.
pub fn tells_same(message: &Message<'_>, octets: &[u8]) -> bool
    ensures { result ≡ tells_same (contents message.now) octets.now }
{
    are_unread(differing(message, octets).as_slice(), message)
}
