ghost use Rattle.std.specs.Prelude.{◌≡◌};

use thiserror::Error;

/// Why octets are no message, in the order in which the conditions are tested.
#[derive(Clone, Copy, Debug, PartialEq, Eq, Error)]
pub enum DecodeRefusal {
    /// Fewer than the 34 octets of a header.
    #[error("there are fewer than the 34 octets of a header")]
    Short,
    /// versionPTP isn't 2.
    #[error("versionPTP isn't 2")]
    Version,
    /// A message of another type, whose messageType this is.
    #[error("messageType {0} isn't Sync (0), Delay_Req (1), Follow_Up (8) or Delay_Resp (9)")]
    OtherType(u8),
    /// messageLength is less than the type's fields take.
    #[error("messageLength is below 44, or 54 for a Delay_Resp")]
    LengthField,
    /// Fewer octets than messageLength.
    #[error("there are fewer octets than messageLength")]
    Truncated,
    /// The timestamp's nanoseconds are 10^9 or more.
    #[error("the nanoseconds of the timestamp are 10^9 or more")]
    Nanoseconds,
}

/// Why a message can't be written, in the order in which the conditions are tested.
#[derive(Clone, Copy, Debug, PartialEq, Eq, Error)]
pub enum EncodeRefusal {
    /// The buffer is shorter than the message.
    #[error("the buffer is shorter than the message")]
    NoRoom,
    /// messageLength would pass 65,535.
    #[error("the suffix is too long: messageLength would pass 65535")]
    SuffixTooLong,
}

impl DecodeRefusal {
    ghost use Rattle.event_codec.specs.Refusal.{code_of};

    /// The number of the refusal.
    pub fn code(&self) -> u16
        ensures { result ≡ code_of self.now }
    {
        match self {
            DecodeRefusal::Short => 201,
            DecodeRefusal::Version => 202,
            DecodeRefusal::OtherType(_) => 203,
            DecodeRefusal::LengthField => 204,
            DecodeRefusal::Truncated => 205,
            DecodeRefusal::Nanoseconds => 206,
        }
    }
}

impl EncodeRefusal {
    ghost use Rattle.event_codec.specs.EncodeRefusal.{code_of};

    /// The number of the refusal.
    pub fn code(&self) -> u16
        ensures { result ≡ code_of self.now }
    {
        match self {
            EncodeRefusal::NoRoom => 211,
            EncodeRefusal::SuffixTooLong => 212,
        }
    }
}
