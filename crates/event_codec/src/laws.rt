//! Laws that follow from the contracts of several calls, or from the definitions alone. A caller that
//! needs one in its proof calls it.

ghost use Rattle.std.specs.Prelude.{◌≡◌, ◌↔◌, IsTrue, length, IfOk, IsOkAnd, MatchResult, Some, None};
ghost use Rattle.event_codec.specs.Packet.{contents};
ghost use Rattle.event_codec.specs.Port.{is_same_port};
ghost use Rattle.event_codec.specs.Refusal.{message_length};
ghost use Rattle.event_codec.specs.EncodeRefusal.{encode_refusal};

use crate::decoding::decode;
use crate::encoding::encode;
use crate::message::Message;
use crate::port::PortIdentity;
use crate::refusal::{DecodeRefusal, EncodeRefusal};

/// Decodes what it encoded into the front of the buffer: the same message, whatever octets follow it there.
pub fn decode_of_encode<'b>(
    message: &Message<'_>,
    buffer: &'b mut [u8],
) -> Result<Result<(Message<'b>, usize), DecodeRefusal>, EncodeRefusal>
    ensures same { IfOk result (λ read. IsOkAnd read
        (λ r. (contents r.0 ≡ contents message.now) × (r.1 ≡ message_length (contents message.now)))) }
    ensures refused { MatchResult result
        (λ _. encode_refusal (contents message.now) (length buffer.old) ≡ None)
        (λ e. encode_refusal (contents message.now) (length buffer.old) ≡ Some e) }
{
    encode(message, buffer)?;
    Ok(decode(buffer))
}

/// The same port has one identity.
pub fn same_port()
    ensures { (a b : PortIdentity) → IsTrue (is_same_port a b) ↔ (a ≡ b) }
{}
