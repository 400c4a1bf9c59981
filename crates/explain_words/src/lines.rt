//! Lines that stand below another one, as their beginnings tell.
ghost use Rattle.std.specs.Prelude.{◌≡◌, ◌++◌, List, ℕ, OnOk, true};
ghost use Rattle.std.specs.String.{string_bytes};
ghost use Rattle.explain_words.specs.Lines.{are_lines};

use std::alloc::AllocError;

/// Whether a text is whole lines, each of which begins with this lead, or with blanks in place of octets of it.
fn are_lines(lead: &[u8], text: &[u8]) -> bool
    ensures { result ≡ are_lines lead.now text.now }
{
    let mut place = 0;
    for octet in text {
        if place == lead.len() {
            if *octet == b'\n' {
                place = 0;
            }
        } else if *octet == b' ' || *octet == lead[place] {
            place += 1;
        } else {
            return false;
        }
    }
    place == 0
}

/// Appends lines that begin with this lead; where they aren't such lines, none of them.
pub fn push_lines(text: &mut String, lead: &str, lines: &str) -> Result<(), AllocError>
    ensures { OnOk result ((told : List ℕ) × (are_lines lead.now told ≡ true)
        × (string_bytes text.new ≡ string_bytes text.old ++ told)) }
{
    if are_lines(lead.as_bytes(), lines.as_bytes()) {
        text.push_str(lines)
    } else {
        Ok(())
    }
}
