//! A portIdentity as text, in the two forms that are in use.
ghost use Rattle.std.specs.Prelude.{◌≡◌, option_map};
ghost use Rattle.command_line.specs.PortText.{has_at, parts_of, port_identity_of};

use crate::number::number_in;
use event_codec::PortIdentity;

/// The portIdentity that a text writes, as `ptpx show` does (`00aabbfffeccddee/1`) or as linuxptp's pmc
/// does (`00aabb.fffe.ccddee-1`).
pub(crate) fn port_identity_in(text: &str) -> Option<PortIdentity>
    ensures { result ≡ port_identity_of text.now }
{
    let (digits, number) = parts(text.as_bytes())?;
    let mut clock = [0; 8];
    hex::decode_to_slice(digits, &mut clock).ok()?;
    let port = u16::try_from(number_in(number, 5)?).ok()?;
    Some(PortIdentity { clock, port })
}

/// The digits of clockIdentity and those of portNumber, by the marks between them.
fn parts(text: &[u8]) -> Option<([u8; 16], &[u8])>
    ensures { option_map (λ parts. (parts.0, parts.1.now)) result ≡ parts_of text.now }
{
    let mut digits = [0; 16];
    if has_at(text, 16, b'/') {
        digits.copy_from_slice(&text[..16]);
        Some((digits, &text[17..]))
    } else if has_at(text, 6, b'.') && has_at(text, 11, b'.') && has_at(text, 18, b'-') {
        digits[..6].copy_from_slice(&text[..6]);
        digits[6..10].copy_from_slice(&text[7..11]);
        digits[10..].copy_from_slice(&text[12..18]);
        Some((digits, &text[19..]))
    } else {
        None
    }
}

/// Whether the text has this character at a place.
fn has_at(text: &[u8], place: usize, mark: u8) -> bool
    ensures { result ≡ has_at text.now place mark }
{
    text.get(place).copied() == Some(mark)
}
