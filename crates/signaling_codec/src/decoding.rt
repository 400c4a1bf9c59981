ghost use Rattle.std.specs.Prelude.{◌≡◌, ◌≤◌, ◌%◌, ℕ, length, take, drop, slice_index, IfOk, IsOkAnd, MatchResult, Some, None, true};
ghost use Rattle.event_codec.specs.Layout.{number};
ghost use Rattle.event_codec.specs.Packet.{IsHeader};
ghost use Rattle.signaling_codec.specs.declared.signaling.Signaling.{Signaling};
ghost use Rattle.signaling_codec.specs.Layout.{signaling_type, fields_length};
ghost use Rattle.signaling_codec.specs.Packet.{IsSignaling};
ghost use Rattle.signaling_codec.specs.Refusal.{is_signaling, signaling_refusal};

use crate::octets::{port_identity_at, u16_at};
use crate::refusal::SignalingRefusal;
use crate::signaling::Signaling;
use crate::tlvs::Tlvs;
use event_codec::{Header, decode_header};

/// messageType of Signaling (IEEE 1588-2019, table 36).
const SIGNALING: u8 = 12;

/// The octets of the fields of Signaling; its TLVs begin after them.
const FIELDS_LENGTH: usize = 44;

/// The header, where the octets begin with one of Signaling.
fn signaling_header(octets: &[u8]) -> Result<Header, SignalingRefusal>
    ensures { MatchResult result
        (λ header. (is_signaling octets.now ≡ true)
        × IsHeader header signaling_type (number octets.now 2 2) octets.now)
        (λ e. signaling_refusal octets.now ≡ Some e) }
{
    let Ok((kind, header)) = decode_header(octets) else {
        return Err(SignalingRefusal::NoSignaling);
    };
    if kind != SIGNALING {
        return Err(SignalingRefusal::NoSignaling);
    }
    Ok(header)
}

/// The octets up to messageLength, at least as many as the fields take.
#[tactic(auto, unfolding(crate::specs::Refusal::signaling_refusal))]
fn without_padding(octets: &[u8]) -> Result<&[u8], SignalingRefusal>
    requires { is_signaling octets.now ≡ true }
    ensures { MatchResult result
        (λ message. (number octets.now 2 2 ≤ length octets.now) × (message.now ≡ take (number octets.now 2 2) octets.now)
        × (fields_length ≤ number octets.now 2 2))
        (λ e. signaling_refusal octets.now ≡ Some e) }
{
    let message_length = usize::from(u16_at(octets, 2));
    if message_length < FIELDS_LENGTH {
        return Err(SignalingRefusal::LengthField);
    }
    octets
        .get(..message_length)
        .ok_or(SignalingRefusal::Truncated)
}

/// What [`decode_signaling`] answers, without the law that follows from it.
fn message_at_front(octets: &[u8]) -> Result<Signaling<'_>, SignalingRefusal>
    ensures read { IfOk result (λ m. (number octets.now 2 2 ≤ length octets.now)
        × IsSignaling m (take (number octets.now 2 2) octets.now)) }
    ensures refused { MatchResult result
        (λ _. signaling_refusal octets.now ≡ None)
        (λ e. signaling_refusal octets.now ≡ Some e) }
{
    let header = signaling_header(octets)?;
    let message = without_padding(octets)?;
    let tlvs = Tlvs::new(&message[FIELDS_LENGTH..])?;
    Ok(Signaling {
        header,
        target: port_identity_at(message, 34),
        tlvs,
    })
}

/// The Signaling message that the octets begin with. Those after messageLength are padding, and TLVs of other types than the
/// two are passed over (IEEE 1588-2019, 13.12). Refused with the first of 221 to 225 that applies; then nothing is read.
pub fn decode_signaling(octets: &[u8]) -> Result<Signaling<'_>, SignalingRefusal>
    // What is read is what the octets say.
    ensures read { IfOk result (λ m. (number octets.now 2 2 ≤ length octets.now)
        × IsSignaling m (take (number octets.now 2 2) octets.now)) }
    // What the octets say is read.
    ensures only { (m : Signaling) (n : ℕ) → n ≤ length octets.now → IsSignaling m (take n octets.now)
        → IsOkAnd result (λ it. it ≡ m) }
    ensures refused { MatchResult result
        (λ _. signaling_refusal octets.now ≡ None)
        (λ e. signaling_refusal octets.now ≡ Some e) }
{
    message_at_front(octets)
}
