ghost use Rattle.std.specs.Prelude.{◌≡◌, ◌↔◌, IsTrue, IsSome, IfSome};
ghost use Rattle.std.specs.Cmp.{partial_equiv_from_equiv};
ghost use Rattle.std.specs.Cmp.Lexicographic.{nat_list_eq_equiv};
ghost use Rattle.std.specs.Cmp.Rules.{hashing};
ghost use Rattle.std.specs.Hash as fed;
ghost use Rattle.std.specs.Str.{bytes_eq};
ghost use Rattle.std.proofs.Common.{rules};
ghost use Rattle.network_model.specs.Name.{IsName};

use std::hash::{Hash, Hasher};
use std::marker::Model;
use std::{fmt, str};

/// The name of a node: 1 to 16 octets, each a letter, a digit, `_` or `-` of ASCII.
#[derive(Clone, Copy)]
pub struct Name {
    octets: [u8; 16],
    len: u8,
}

impl Model for Name {
    ghost use Rattle.std.specs.Prelude.{ℕ, List, length, take};
    ghost use Rattle.std.proofs.Common.{length-take-le, sym};
    ghost use Rattle.network_model.specs.Inner.Padding.{IsKept, padded};

    ghost Value = { List ℕ };

    ghost view = { λ n. take n.len n.octets };

    ghost invariant = { λ n. IsKept n.len n.octets };

    ghost inverse = { λ text. record { octets = padded text; len = length text } };

    ghost inverse_ok = { λ n kept i. record {
      octets = sym kept.zeros i;
      len = length-take-le n.len n.octets kept.within i;
    } };
}

impl Name {
    /// The name with this text, or None where the text isn't one of a node.
    pub fn new(text: &str) -> Option<Name>
        ensures some { IsSome result ↔ IsName text.now }
        ensures text { IfSome result (λ name. name ≡ text.now) }
    {
        let bytes = text.as_bytes();
        if !is_name(bytes) {
            return None;
        }
        let mut octets = [0; 16];
        octets[..bytes.len()].copy_from_slice(bytes);
        Some(Name {
            octets,
            len: bytes.len() as u8,
        })
    }

    /// The name's text.
    #[tactic(auto, using(crate::proofs::Names::IsUtf8_name))]
    pub fn text(&self) -> &str
        ensures value { result.now ≡ self.now }
        ensures name { IsName result.now }
    {
        unsafe { str::from_utf8_unchecked(&self.octets[..usize::from(self.len)]) }
    }
}

// Whether a node may be called so.
fn is_name(text: &[u8]) -> bool
    ensures { IsTrue result ↔ IsName text.now }
{
    (1..=16).contains(&text.len())
        && text.iter().all(|octet| octet.is_ascii_alphanumeric() || matches!(octet, b'_' | b'-'))
}

impl PartialEq for Name {
    ghost eq = { bytes_eq };

    ghost laws = { partial_equiv_from_equiv nat_list_eq_equiv };

    fn eq(&self, other: &Self) -> bool {
        self.text() == other.text()
    }
}

impl Eq for Name {
    ghost laws = { nat_list_eq_equiv };
}

impl Hash for Name {
    ghost hash_input = { fed.str };

    ghost respects_eq = { Prim.search (hashing, rules) };

    fn hash<H: Hasher>(&self, state: &mut H) {
        self.text().hash(state);
    }
}

impl fmt::Debug for Name {
    fn fmt<W: fmt::Write>(&self, f: &mut fmt::Formatter<W>) -> fmt::Result {
        fmt::Debug::fmt(&self.text(), f)
    }
}
