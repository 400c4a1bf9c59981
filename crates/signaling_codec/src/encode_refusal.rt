ghost use Rattle.std.specs.Prelude.{◌≡◌};

use thiserror::Error;

/// Why a Signaling message can't be written, in the order in which the conditions are tested.
#[derive(Clone, Copy, Debug, PartialEq, Eq, Error)]
pub enum SignalingEncodeRefusal {
    /// messageLength would pass 65,535.
    #[error("the TLVs are too long: messageLength would pass 65535")]
    TooLong,
    /// The buffer is shorter than the message.
    #[error("the buffer is shorter than the Signaling message")]
    NoRoom,
}

impl SignalingEncodeRefusal {
    ghost use Rattle.signaling_codec.specs.EncodeRefusal.{code_of};

    /// The number of the refusal.
    pub fn code(&self) -> u16
        ensures { result ≡ code_of self.now }
    {
        match self {
            SignalingEncodeRefusal::TooLong => 231,
            SignalingEncodeRefusal::NoRoom => 232,
        }
    }
}
