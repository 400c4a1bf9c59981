ghost use Rattle.std.specs.Prelude.{◌≡◌};

use event_codec::DecodeRefusal;
use thiserror::Error;

/// Why a master writes nothing, in the order in which the conditions are tested.
#[derive(Clone, Copy, Debug, PartialEq, Eq, Error)]
pub enum MasterRefusal {
    /// No Sync of this number waits for its departure time.
    #[error("no Sync of this number waits for its departure time")]
    NotWaiting,
    /// The octets are no message.
    #[error("the octets are no message: {0}")]
    Decode(DecodeRefusal),
    /// The message is no Delay_Req.
    #[error("the message is no Delay_Req")]
    NotRequest,
    /// domainNumber isn't the port's.
    #[error("domainNumber isn't that of the master")]
    OtherDomain,
    /// The Delay_Resp's correction would be below -2^63.
    #[error("the correction of the Delay_Resp would be below -2^63 units of 2^-16 ns")]
    CorrectionTooLow,
}

impl MasterRefusal {
    ghost use Rattle.master_port.specs.Refusal.{code_of};

    /// The number of the refusal.
    pub fn code(&self) -> u16
        ensures { result ≡ code_of self.now }
    {
        match self {
            MasterRefusal::NotWaiting => 301,
            MasterRefusal::Decode(_) => 302,
            MasterRefusal::NotRequest => 303,
            MasterRefusal::OtherDomain => 304,
            MasterRefusal::CorrectionTooLow => 305,
        }
    }
}
