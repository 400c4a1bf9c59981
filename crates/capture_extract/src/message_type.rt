//! The types of messages.
ghost use Rattle.std.specs.Prelude.{◌≡◌, Some};
ghost use Rattle.capture_extract.specs.Message.{has_requesting, type_numbered};
ghost use Rattle.capture_extract.specs.Cells.{has_steps, type_text};

use std::fmt;
use std::fmt::{Display, Formatter};

/// The type of a message, by its name in IEEE 1588-2019, table 36.
#[derive(Clone, Copy, PartialEq, Eq, PartialOrd, Ord)]
pub(crate) enum MessageType {
    Sync,
    DelayReq,
    PdelayReq,
    PdelayResp,
    FollowUp,
    DelayResp,
    PdelayRespFollowUp,
    Announce,
    Signaling,
    Management,
    /// One that has no name: 4 to 7, 14 and 15.
    Reserved(u8),
}

impl MessageType {
    /// The type of a number, the value of messageType.
    pub(crate) fn from_number(number: u8) -> MessageType
        ensures { result ≡ type_numbered number }
    {
        match number {
            0 => MessageType::Sync,
            1 => MessageType::DelayReq,
            2 => MessageType::PdelayReq,
            3 => MessageType::PdelayResp,
            8 => MessageType::FollowUp,
            9 => MessageType::DelayResp,
            10 => MessageType::PdelayRespFollowUp,
            11 => MessageType::Announce,
            12 => MessageType::Signaling,
            13 => MessageType::Management,
            _ => MessageType::Reserved(number),
        }
    }

    /// Whether twoStepFlag has a meaning in it (IEEE 1588-2019, table 37).
    pub(crate) fn has_steps(self) -> bool
        ensures { result ≡ has_steps self }
    {
        matches!(self, MessageType::Sync | MessageType::PdelayResp)
    }

    /// Whether it has a requestingPortIdentity (IEEE 1588-2019, 13.8, 13.10 and 13.11).
    pub(crate) fn has_requesting(self) -> bool
        ensures { result ≡ has_requesting self }
    {
        matches!(
            self,
            MessageType::DelayResp | MessageType::PdelayResp | MessageType::PdelayRespFollowUp
        )
    }
}

impl Display for MessageType {
    ghost output = { λ message. Some (type_text message) };

    fn fmt<W: fmt::Write>(&self, f: &mut Formatter<W>) -> fmt::Result {
        let name = match self {
            MessageType::Sync => "Sync",
            MessageType::DelayReq => "Delay_Req",
            MessageType::PdelayReq => "Pdelay_Req",
            MessageType::PdelayResp => "Pdelay_Resp",
            MessageType::FollowUp => "Follow_Up",
            MessageType::DelayResp => "Delay_Resp",
            MessageType::PdelayRespFollowUp => "Pdelay_Resp_Follow_Up",
            MessageType::Announce => "Announce",
            MessageType::Signaling => "Signaling",
            MessageType::Management => "Management",
            MessageType::Reserved(number) => return write!(f, "type {number}"),
        };
        f.write_str(name)
    }
}
