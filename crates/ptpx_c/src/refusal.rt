ghost use Rattle.std.specs.Prelude.{◌≡◌};

use thiserror::Error;

/// Why a call refuses what C passes or asks for. 901, 902, 906, 907 and 912 are those of the header.
#[derive(Clone, Copy, Debug, PartialEq, Eq, Error)]
pub enum InputRefusal {
    /// The type of a message that is to be written isn't one of the four.
    #[error("the type isn't Sync (0), Delay_Req (1), Follow_Up (8) or Delay_Resp (9)")]
    OtherType,
    /// Half an octet can't hold it.
    #[error("majorSdoId or minorVersionPTP is 16 or more")]
    Nibble,
    /// A stay leaves once.
    #[error("no message stays: it left already, or never entered")]
    LeftAlready,
    /// It comes from no bracket call.
    #[error("a bracket isn't strictly between -2^96 and 2^96")]
    NoBracket,
    /// It is below -2^63, or 2^63 or more.
    #[error("the number doesn't fit a signed number of 64 bits")]
    Wide,
    /// No report was made, or a half of it was dropped since.
    #[error("there is no last exchange: none was reported, or a half of it was dropped since")]
    NoExchange,
    /// It is the part of a second.
    #[error("no struct timespec: tv_nsec is below 0, or 10^9 or more")]
    NoTimespec,
}

impl InputRefusal {
    ghost use Rattle.ptpx_c.specs.Refusal.{code_of};

    /// The number of the refusal.
    pub fn code(&self) -> u16
        ensures { result ≡ code_of self.now }
    {
        match self {
            InputRefusal::OtherType => 903,
            InputRefusal::Nibble => 904,
            InputRefusal::LeftAlready => 905,
            InputRefusal::NoBracket => 908,
            InputRefusal::Wide => 909,
            InputRefusal::NoExchange => 910,
            InputRefusal::NoTimespec => 911,
        }
    }
}
