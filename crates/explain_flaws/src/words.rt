//! What is wanted of a value, in words.

use schedule_lines::{EventKind, Wanted};
use std::fmt;
use std::fmt::{Display, Formatter};

/// What is wanted of a value, in words.
#[derive(Clone, Copy)]
pub(crate) struct Words(pub(crate) Wanted);

/// Whether a number is wanted.
fn is_number(wanted: Wanted) -> bool {
    matches!(
        wanted,
        Wanted::Whole { .. } | Wanted::Tag | Wanted::SignedOctet | Wanted::TagOrNull
    )
}

/// Whether a text is wanted.
fn is_text(wanted: Wanted) -> bool {
    !is_number(wanted) && !matches!(wanted, Wanted::Moment | Wanted::Tags)
}

/// What else is wanted, by what stands there.
pub(crate) fn hint(wanted: Wanted, found: &[u8]) -> &'static str {
    match found {
        [b'"', ..] if is_number(wanted) => ", without quotes",
        [b'0'..=b'9' | b'-', ..] if is_number(wanted) && has_point(found) => {
            ", without point and exponent"
        }
        [b'"', ..] | [] => "",
        _ if is_text(wanted) => ", in quotes",
        _ => "",
    }
}

impl Display for Words {
    fn fmt<W: fmt::Write>(&self, f: &mut Formatter<W>) -> fmt::Result {
        match self.0 {
            Wanted::NodeKind => f.write_str("wanted is \"master\", \"slave\" or \"clock\""),
            Wanted::EventKind => write_event_kinds(f),
            Wanted::Outcome => f.write_str(
                "wanted is one of done, made, entered, held, completed, report, ignored, refused",
            ),
            Wanted::Name => f.write_str("wanted are 1 to 16 letters, digits, _ or -"),
            Wanted::Identity => f.write_str(
                "wanted are 16 hexadecimal digits of either case, and nothing between them",
            ),
            Wanted::Whole { bound } => write!(
                f,
                "wanted is a whole number from 0 to {}",
                bound.saturating_sub(1)
            ),
            Wanted::Tag => f.write_str("wanted is a whole number from 0 to 2^64 - 1"),
            Wanted::SignedOctet => f.write_str("wanted is a whole number from -128 to 127"),
            Wanted::Moment => f.write_str("wanted is [seconds, nanoseconds, units of 2^-16 ns]"),
            Wanted::Difference => f.write_str(
                "wanted is a whole number of at most 32 characters, without +, point or zeros in front",
            ),
            Wanted::Octets => f.write_str(
                "wanted are at most 54 octets, of two hexadecimal digits each",
            ),
            Wanted::Tags => f.write_str(
                "wanted are the tags of [Sync, Follow_Up, Delay_Req, Delay_Resp]",
            ),
            Wanted::TagOrNull => f.write_str("wanted is null or a whole number from 0 to 2^64 - 1"),
        }
    }
}

/// Whether a point or an exponent is there.
fn has_point(number: &[u8]) -> bool {
    number.contains(&b'.') || number.contains(&b'e') || number.contains(&b'E')
}

/// That the word of a kind of event is wanted, with all such words.
fn write_event_kinds<W: fmt::Write>(f: &mut Formatter<W>) -> fmt::Result {
    f.write_str("wanted is one of ")?;
    let mut between = "";
    for kind in EventKind::ALL {
        f.write_str(between)?;
        f.write_str(kind.word())?;
        between = ", ";
    }
    Ok(())
}
