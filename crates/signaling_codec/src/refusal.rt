ghost use Rattle.std.specs.Prelude.{◌≡◌};

use thiserror::Error;

/// Why octets are no Signaling message, in the order in which the conditions are tested. Of TLVs the first that isn't sound decides.
#[derive(Clone, Copy, Debug, PartialEq, Eq, Error)]
pub enum SignalingRefusal {
    /// Fewer than the 34 octets of a header, another versionPTP than 2, or another messageType than 12.
    #[error("there is no header of Signaling: 34 octets, versionPTP 2, messageType 12")]
    NoSignaling,
    /// messageLength is below 44.
    #[error("messageLength of Signaling is below 44")]
    LengthField,
    /// Fewer octets than messageLength.
    #[error("there are fewer octets than messageLength of Signaling")]
    Truncated,
    /// A TLV passes messageLength, or the value of one of the two types isn't 10 octets and whole records.
    #[error("a TLV passes messageLength, or its value isn't 10 octets and whole records")]
    TlvLength,
    /// The nanoseconds of a timestamp in a record are 10^9 or more.
    #[error("the nanoseconds of a timestamp in a TLV are 10^9 or more")]
    Nanoseconds,
}

impl SignalingRefusal {
    ghost use Rattle.signaling_codec.specs.Refusal.{code_of};

    /// The number of the refusal.
    pub fn code(&self) -> u16
        ensures { result ≡ code_of self.now }
    {
        match self {
            SignalingRefusal::NoSignaling => 221,
            SignalingRefusal::LengthField => 222,
            SignalingRefusal::Truncated => 223,
            SignalingRefusal::TlvLength => 224,
            SignalingRefusal::Nanoseconds => 225,
        }
    }
}
