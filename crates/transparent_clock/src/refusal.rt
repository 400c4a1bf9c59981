ghost use Rattle.std.specs.Prelude.{◌≡◌};

use event_codec::DecodeRefusal;
use thiserror::Error;

/// Why a clock doesn't send a message on, in the order in which the conditions are tested.
#[derive(Clone, Copy, Debug, PartialEq, Eq, Error)]
pub enum ClockRefusal {
    /// The octets are no message.
    #[error("the octets are no message: {0}")]
    Decode(DecodeRefusal),
    /// The message is neither Sync nor Delay_Req.
    #[error("the message is neither Sync nor Delay_Req")]
    NotEvent,
    /// The clock reads less than when the message entered.
    #[error("the clock reads less than when the message entered")]
    NegativeResidence,
}

impl ClockRefusal {
    ghost use Rattle.transparent_clock.specs.Refusal.{code_of};

    /// The number of the refusal.
    pub fn code(&self) -> u16
        ensures { result ≡ code_of self.now }
    {
        match self {
            ClockRefusal::Decode(_) => 401,
            ClockRefusal::NotEvent => 402,
            ClockRefusal::NegativeResidence => 403,
        }
    }
}
