//! Octets of one class at the front of a text.

/// A class of octets.
#[derive(Clone, Copy, Debug, PartialEq, Eq)]
pub(crate) enum Class {
    /// Decimal digits.
    Digit,
    /// Decimal digits and the point.
    DigitOrPoint,
    /// Hexadecimal digits, of either case.
    HexDigit,
    /// ASCII letters, digits and `_`.
    Word,
    /// All but LF.
    InLine,
}

impl Class {
    fn has(self, octet: u8) -> bool {
        match self {
            Class::Digit => octet.is_ascii_digit(),
            Class::DigitOrPoint => octet.is_ascii_digit() || octet == b'.',
            Class::HexDigit => octet.is_ascii_hexdigit(),
            Class::Word => octet.is_ascii_alphanumeric() || octet == b'_',
            Class::InLine => octet != b'\n',
        }
    }

    /// The octets of this class at the front, and what comes after them.
    pub(crate) fn split(self, text: &[u8]) -> (&[u8], &[u8]) {
        for (at, octet) in text.iter().enumerate() {
            if !self.has(*octet) {
                return text.split_at(at);
            }
        }
        (text, &[])
    }

    /// Whether all octets are of this class.
    pub(crate) fn has_all(self, text: &[u8]) -> bool {
        let (_, after) = self.split(text);
        after.is_empty()
    }
}
