ghost use Rattle.std.specs.Prelude.{◌≡◌};

use crate::message_type::MessageType;
use crate::nibble::Nibble;
use crate::port::PortIdentity;
use ptp_units::{Interval, Seq, Timestamp};

/// versionPTP of every message.
pub(crate) const VERSION: u8 = 2;

/// flagField with the twoStepFlag alone (IEEE 1588-2019, 13.3.2.8).
pub const TWO_STEP: [u8; 2] = [0x02, 0x00];

/// flagField without a flag.
pub const NO_FLAGS: [u8; 2] = [0x00, 0x00];

/// The fields that all messages have in common, but for messageType, versionPTP and messageLength
/// (IEEE 1588-2019, 13.3).
#[derive(Clone, Copy, Debug, PartialEq, Eq)]
pub struct Header {
    /// majorSdoId.
    pub major_sdo: Nibble,
    /// minorVersionPTP; versionPTP is 2.
    pub minor_version: Nibble,
    /// domainNumber.
    pub domain: u8,
    /// minorSdoId.
    pub minor_sdo: u8,
    /// flagField.
    pub flags: [u8; 2],
    /// correctionField, in units of 2^-16 ns.
    pub correction: Interval,
    /// messageTypeSpecific.
    pub specific: [u8; 4],
    /// sourcePortIdentity.
    pub source: PortIdentity,
    /// sequenceId.
    pub sequence: Seq,
    /// controlField.
    pub control: u8,
    /// logMessageInterval.
    pub log: i8,
}

/// What a message has beside the header, which also tells its messageType.
#[derive(Clone, Copy, Debug, PartialEq, Eq)]
pub enum Body {
    /// Sync (IEEE 1588-2019, 13.6), with its originTimestamp.
    Sync {
        origin: Timestamp,
    },
    /// Delay_Req (13.6), with its originTimestamp.
    DelayReq {
        origin: Timestamp,
    },
    /// Follow_Up (13.7), with its preciseOriginTimestamp.
    FollowUp {
        precise: Timestamp,
    },
    /// Delay_Resp (13.8), with its receiveTimestamp and requestingPortIdentity.
    DelayResp {
        receive: Timestamp,
        requesting: PortIdentity,
    },
}

impl Body {
    ghost use Rattle.event_codec.specs.Layout.{type_of, stamp_in};

    /// The type of a message with this body.
    pub(crate) fn message_type(&self) -> MessageType
        ensures { result ≡ type_of self.now }
    {
        match self {
            Body::Sync { .. } => MessageType::Sync,
            Body::DelayReq { .. } => MessageType::DelayReq,
            Body::FollowUp { .. } => MessageType::FollowUp,
            Body::DelayResp { .. } => MessageType::DelayResp,
        }
    }

    /// The timestamp field, whatever its name in this type of message.
    pub fn timestamp(&self) -> Timestamp
        ensures { result ≡ stamp_in self.now }
    {
        match self {
            Body::Sync { origin } | Body::DelayReq { origin } => *origin,
            Body::FollowUp { precise } => *precise,
            Body::DelayResp { receive, .. } => *receive,
        }
    }
}

/// A message: its fields, and the octets of its TLVs as they stand.
#[derive(Clone, Copy, Debug, PartialEq, Eq)]
pub struct Message<'a> {
    /// The fields that all messages have.
    pub header: Header,
    /// The fields of the message's own type.
    pub body: Body,
    /// The octets after the last field, up to messageLength.
    pub suffix: &'a [u8],
}
