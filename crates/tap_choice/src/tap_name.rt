//! The name of a tap.
ghost use Rattle.std.specs.Prelude.{◌≡◌, ◌↔◌, IsTrue, IsSome, IfSome};
ghost use Rattle.std.specs.Cmp.{partial_equiv_from_equiv};
ghost use Rattle.std.specs.Cmp.Lexicographic.{nat_list_eq_equiv};
ghost use Rattle.std.specs.Str.{bytes_eq};
ghost use Rattle.tap_choice.specs.TapName.{IsTapName};

use std::marker::Model;
use std::{fmt, str};

/// The name of a tap: 1 to 16 octets, each a letter, a digit, `_`, `-` or `.` of ASCII.
#[derive(Clone, Copy)]
pub struct TapName {
    octets: [u8; 16],
    size: u8,
}

impl Model for TapName {
    ghost use Rattle.std.specs.Prelude.{ℕ, List, length, take};
    ghost use Rattle.std.proofs.Common.{length-take-le, sym};
    ghost use Rattle.tap_choice.specs.Inner.Padding.{IsKept, padded};

    ghost Value = { List ℕ };

    ghost view = { λ n. take n.size n.octets };

    ghost invariant = { λ n. IsKept n.size n.octets };

    ghost inverse = { λ text. record { octets = padded text; size = length text } };

    ghost inverse_ok = { λ n kept i. record {
      octets = sym kept.zeros i;
      size = length-take-le n.size n.octets kept.within i;
    } };
}

impl TapName {
    /// The name that is these octets, or None where they are no tap's name.
    pub fn new(octets: &[u8]) -> Option<TapName>
        ensures some { IsSome result ↔ IsTapName octets.now }
        ensures text { IfSome result (λ name. name ≡ octets.now) }
    {
        if !is_tap_name(octets) {
            return None;
        }
        let mut room = [0; 16];
        room[..octets.len()].copy_from_slice(octets);
        Some(TapName {
            octets: room,
            size: octets.len() as u8,
        })
    }

    /// The name's text.
    #[tactic(auto, using(crate::proofs::Names::IsUtf8_name))]
    pub fn text(&self) -> &str
        ensures value { result.now ≡ self.now }
        ensures name { IsTapName result.now }
    {
        unsafe { str::from_utf8_unchecked(&self.octets[..usize::from(self.size)]) }
    }
}

/// Whether a tap may be called so.
fn is_tap_name(text: &[u8]) -> bool
    ensures { IsTrue result ↔ IsTapName text.now }
{
    (1..=16).contains(&text.len())
        && text.iter().all(|octet| octet.is_ascii_alphanumeric()
            || matches!(octet, b'_' | b'-' | b'.'))
}

impl PartialEq for TapName {
    ghost eq = { bytes_eq };

    ghost laws = { partial_equiv_from_equiv nat_list_eq_equiv };

    fn eq(&self, other: &Self) -> bool {
        self.text() == other.text()
    }
}

impl Eq for TapName {
    ghost laws = { nat_list_eq_equiv };
}

impl fmt::Debug for TapName {
    fn fmt<W: fmt::Write>(&self, f: &mut fmt::Formatter<W>) -> fmt::Result {
        fmt::Debug::fmt(&self.text(), f)
    }
}
