//! What follows from the definitions alone, for any octets.
ghost use Rattle.std.specs.Prelude.{◌≡◌, ℕ, List};
ghost use Rattle.datagram_text.specs.Shown.{IsShownAs};

use event_codec::decode;

/// A datagram is shown by no two texts.
pub fn shown_by_one_text()
    ensures { (octets one other : List ℕ) → IsShownAs octets one → IsShownAs octets other → one ≡ other }
{}

/// Any datagram is shown by some text.
pub fn shown_by_some_text(octets: &[u8])
    ensures { (text : List ℕ) × IsShownAs octets.now text }
{
    let _ = decode(octets).is_ok();
}
