//! What is read of a datagram: its header, and behind that who is answered.

ghost use Rattle.std.specs.Prelude.{◌≡◌, Err, Ok, if◌then◌else◌, length};
ghost use Rattle.datagram_source.specs.Datagram.{datagram_of};
ghost use Rattle.capture_extract.specs.Message.{identity_at, is_cut, read, requesting_in, unlisted_by};

use crate::message_type::MessageType;
use datagram_source::Datagram;
use event_codec::{DecodeRefusal, Header, PortIdentity, decode_header};
use ptp_units::ScaledTime;

/// The octet at which a requestingPortIdentity stands, behind the header and a timestamp.
const REQUESTING_PLACE: usize = 44;

/// The octets of a portIdentity.
const IDENTITY_LENGTH: usize = 10;

/// Why a datagram isn't listed.
#[derive(Clone, Copy, PartialEq, Eq)]
pub(crate) enum Unlisted {
    /// Its versionPTP isn't 2.
    OtherVersion,
    /// It ends before the fields that are read.
    TooShort,
}

/// A message, as it is listed.
#[derive(Clone, Copy)]
pub(crate) struct Listed {
    /// The number of its packet.
    pub(crate) packet: u64,
    /// The time of its packet.
    pub(crate) time: ScaledTime,
    /// messageType.
    pub(crate) message: MessageType,
    /// The fields that all messages have.
    pub(crate) header: Header,
    /// requestingPortIdentity, in the types that have one.
    pub(crate) requesting: Option<PortIdentity>,
}

/// The portIdentity that these octets are.
fn identity_of(octets: &[u8]) -> PortIdentity
    requires { length octets.now ≡ 10 }
    ensures { result ≡ identity_at octets.now 0 }
{
    let mut clock = [0; 8];
    clock.copy_from_slice(&octets[..8]);
    PortIdentity {
        clock,
        port: u16::from_be_bytes([octets[8], octets[9]]),
    }
}

/// The requestingPortIdentity of a message of this type, if it has one.
fn requesting_in(message: MessageType, octets: &[u8]) -> Result<Option<PortIdentity>, Unlisted>
    ensures { result ≡ (if is_cut message octets.now then Err Unlisted.TooShort else Ok (requesting_in message octets.now)) }
{
    if !message.has_requesting() {
        return Ok(None);
    }
    match octets.get(REQUESTING_PLACE..REQUESTING_PLACE + IDENTITY_LENGTH) {
        Some(identity) => Ok(Some(identity_of(identity))),
        None => Err(Unlisted::TooShort),
    }
}

/// Why a datagram whose header is refused isn't listed.
fn unlisted_by(refusal: DecodeRefusal) -> Unlisted
    ensures { result ≡ unlisted_by refusal }
{
    match refusal {
        DecodeRefusal::Version => Unlisted::OtherVersion,
        _ => Unlisted::TooShort,
    }
}

/// The message that a datagram is, or why it isn't listed.
pub(crate) fn read_listed(datagram: &Datagram<'_>) -> Result<Listed, Unlisted>
    ensures { result ≡ read (datagram_of datagram.now) }
{
    let (number, header) = match decode_header(datagram.octets) {
        Ok(read) => read,
        Err(refusal) => return Err(unlisted_by(refusal)),
    };
    let message = MessageType::from_number(number);
    let requesting = requesting_in(message, datagram.octets)?;
    Ok(Listed {
        packet: datagram.number,
        time: datagram.time,
        message,
        header,
        requesting,
    })
}
