ghost use Rattle.std.specs.Prelude.{◌≡◌, ◌<◌, MatchOption, Some, None};

/// The types of message that are read and written (IEEE 1588-2019, 13.3.2.3).
#[derive(Clone, Copy)]
pub(crate) enum MessageType {
    Sync = 0,
    DelayReq = 1,
    FollowUp = 8,
    DelayResp = 9,
}

impl MessageType {
    ghost use Rattle.event_codec.specs.Layout.{number_of, type_numbered, fields_length};

    /// The type with this number in the low half of octet 0.
    pub(crate) fn from_nibble(nibble: u8) -> Option<MessageType>
        ensures { MatchOption result
            (type_numbered nibble ≡ None)
            (λ kind. number_of kind ≡ nibble) }
    {
        match nibble {
            0 => Some(MessageType::Sync),
            1 => Some(MessageType::DelayReq),
            8 => Some(MessageType::FollowUp),
            9 => Some(MessageType::DelayResp),
            _ => None,
        }
    }

    /// The number that stands in the low half of octet 0.
    pub(crate) fn number(self) -> u8
        ensures value { result ≡ number_of self }
        ensures within { result < 16 }
    {
        self as u8
    }

    /// The octets of the fields of a message of this type; the suffix begins after them.
    pub(crate) fn fields_length(self) -> usize
        ensures { result ≡ fields_length self }
    {
        match self {
            MessageType::Sync | MessageType::DelayReq | MessageType::FollowUp => 44,
            MessageType::DelayResp => 54,
        }
    }
}
