//! What stands in a line, as it is quoted.

use std::fmt::{Display, Formatter};
use std::{fmt, str};

/// The most characters of the input that are quoted at once.
const MOST_CHARACTERS: usize = 40;

/// Octets of the input: at most 40 characters, with two dots where there are more, and each that isn't
/// printable ASCII by its number.
#[derive(Clone, Copy)]
pub(crate) struct Excerpt<'a>(pub(crate) &'a [u8]);

impl Display for Excerpt<'_> {
    fn fmt<W: fmt::Write>(&self, f: &mut Formatter<W>) -> fmt::Result {
        let text = match str::from_utf8(self.0) {
            Ok(text) => text,
            Err(_) => return f.write_str("no UTF-8"),
        };
        for character in text.chars().take(MOST_CHARACTERS) {
            match character {
                ' '..='~' => write!(f, "{character}")?,
                _ => write!(f, "\\u{{{:x}}}", u32::from(character))?,
            }
        }
        if text.chars().nth(MOST_CHARACTERS).is_some() {
            f.write_str("..")?;
        }
        Ok(())
    }
}
