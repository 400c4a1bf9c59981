ghost use Rattle.std.specs.Prelude.{◌≡◌};

use event_codec::DecodeRefusal;
use thiserror::Error;

/// Why a message is ignored, in the order in which the reasons are tested.
#[derive(Clone, Copy, Debug, PartialEq, Eq, Error)]
pub enum Reason {
    /// The octets are no message.
    #[error("the octets are no message: {0}")]
    Decode(DecodeRefusal),
    /// Not a Sync where a Sync is heard, or neither a Follow_Up nor a Delay_Resp where these are.
    #[error("the message is of another type than the ones that are heard here")]
    WrongType,
    /// domainNumber isn't the port's.
    #[error("domainNumber isn't that of the slave")]
    OtherDomain,
    /// The port has no master.
    #[error("the slave has no master")]
    NoMaster,
    /// sourcePortIdentity isn't the present master's.
    #[error("sourcePortIdentity isn't that of the present master")]
    OtherMaster,
    /// correctionField says 'too big to be represented'.
    #[error("the correction is too big to be represented")]
    TooBig,
    /// A Sync or a Follow_Up whose number is neither that of the last Sync that was completed nor newer.
    #[error("sequenceId is neither that of the last Sync that was completed nor newer")]
    NotNewer,
    /// A Delay_Resp whose requestingPortIdentity isn't the port's own.
    #[error("requestingPortIdentity isn't that of the slave")]
    OtherRequester,
    /// A Delay_Resp whose number no held request has.
    #[error("no held Delay_Req has this sequenceId")]
    UnknownRequest,
    /// A Delay_Resp to a request of which it isn't known when it left.
    #[error("it isn't known when the Delay_Req of this sequenceId left")]
    EgressUnknown,
}

/// Why the departure of a request isn't kept.
#[derive(Clone, Copy, Debug, PartialEq, Eq, Error)]
pub enum SlaveRefusal {
    /// No held request has the number.
    #[error("no held Delay_Req has this number")]
    NotHeld,
}

impl Reason {
    ghost use Rattle.slave_port.specs.Refusal.{code_of_reason};

    /// The number of the reason.
    pub fn code(&self) -> u16
        ensures { result ≡ code_of_reason self.now }
    {
        match self {
            Reason::Decode(_) => 501,
            Reason::WrongType => 502,
            Reason::OtherDomain => 503,
            Reason::NoMaster => 504,
            Reason::OtherMaster => 505,
            // 506 was the number of a reason that is gone, and isn't used again.
            Reason::TooBig => 507,
            Reason::NotNewer => 512,
            Reason::OtherRequester => 508,
            Reason::UnknownRequest => 509,
            Reason::EgressUnknown => 510,
        }
    }
}

impl SlaveRefusal {
    ghost use Rattle.slave_port.specs.Refusal.{code_of};

    /// The number of the refusal.
    pub fn code(&self) -> u16
        ensures { result ≡ code_of self.now }
    {
        match self {
            SlaveRefusal::NotHeld => 511,
        }
    }
}

impl From<DecodeRefusal> for Reason {
    ghost use Rattle.std.specs.Prelude.{◌≡◌};
    ghost use Rattle.slave_port.specs.declared.reason.Reason.TheVariants.{Decode};

    ghost from_gives = { λ refusal reason. reason ≡ Decode refusal };

    fn from(refusal: DecodeRefusal) -> Reason {
        Reason::Decode(refusal)
    }
}
