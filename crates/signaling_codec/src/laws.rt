//! Laws that follow from the contracts of several calls, or from the definitions alone. A caller that needs one in its proof
//! calls it.

ghost use Rattle.std.specs.Prelude.{◌≡◌, ℕ, List, length, IfOk, IsOkAnd, MatchResult, Some, None};
ghost use Rattle.signaling_codec.specs.declared.signaling.Signaling.{Signaling};
ghost use Rattle.signaling_codec.specs.Tlv.{readings_of};
ghost use Rattle.signaling_codec.specs.Packet.{IsSignaling};
ghost use Rattle.signaling_codec.specs.EncodeRefusal.{encode_refusal};
ghost use Rattle.signaling_codec.specs.Written.{message_of};

use crate::decoding::decode_signaling;
use crate::encode_refusal::SignalingEncodeRefusal;
use crate::encoding::{Tlv, encode_signaling};
use crate::reading::OwnReading;
use crate::refusal::SignalingRefusal;
use crate::signaling::Signaling;
use event_codec::{Header, PortIdentity};
use std::alloc::{AllocError, Global};

/// Decodes what it encoded into the front of the buffer: the same message, whatever octets follow it there.
pub fn decode_of_encode<'b>(
    header: &Header,
    target: PortIdentity,
    tlvs: &[Tlv<'_>],
    buffer: &'b mut [u8],
) -> Result<Result<Signaling<'b>, SignalingRefusal>, SignalingEncodeRefusal>
    ensures same { IfOk result (λ read. IsOkAnd read (λ m. m ≡ message_of header.now target tlvs.now)) }
    ensures refused { MatchResult result
        (λ _. encode_refusal (message_of header.now target tlvs.now) (length buffer.old) ≡ None)
        (λ e. encode_refusal (message_of header.now target tlvs.now) (length buffer.old) ≡ Some e) }
{
    encode_signaling(header, target, tlvs, buffer)?;
    Ok(decode_signaling(buffer))
}

/// All readings of a message, in order: none is left out, and none comes twice.
pub fn all_readings(alloc: Global, message: &Signaling<'_>) -> Result<Vec<OwnReading>, AllocError>
    ensures { IfOk result (λ readings. readings.items ≡ readings_of message.now.tlvs) }
{
    message.readings().collect(alloc)
}

/// The same octets are one message.
pub fn one_message()
    ensures { (m n : Signaling) (b : List ℕ) → IsSignaling m b → IsSignaling n b → m ≡ n }
{}
