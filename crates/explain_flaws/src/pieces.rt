//! The pieces of a JSON object or array, as they stand.
ghost use Rattle.std.specs.Prelude.{◌≡◌, ◌≤◌, ◌∷◌, ◌++◌, [], IfSome, length};
ghost use Rattle.std.specs.Iterator.{at_most};

use std::str;

/// Where the first `,`, `:`, `]` or `}` stands that is in no text and in no inner brackets, or the
/// length where there is none.
fn piece_end(octets: &[u8]) -> usize
    ensures { result ≤ length octets.now }
{
    let mut inner = 0usize;
    let mut in_text = false;
    let mut escaped = false;
    for (at, octet) in octets.iter().enumerate() {
        match octet {
            _ if escaped => escaped = false,
            b'\\' => escaped = in_text,
            b'"' => in_text = !in_text,
            _ if in_text => {}
            b'[' | b'{' => inner = inner.saturating_add(1),
            b',' | b':' | b']' | b'}' if inner == 0 => return at,
            b']' | b'}' => inner = inner.saturating_sub(1),
            _ => {}
        }
    }
    octets.len()
}

/// What stands between the commas and colons of an object or an array.
#[derive(Clone, Copy, Drop)]
struct Pieces<'a> {
    rest: &'a [u8],
}

impl<'a> Pieces<'a> {
    /// The pieces of what is between the outer brackets.
    fn of(text: &'a [u8]) -> Pieces<'a> {
        match text.trim_ascii() {
            [b'{' | b'[', rest @ ..] => Pieces { rest },
            _ => Pieces { rest: &[] },
        }
    }
}

impl<'a> Iterator for Pieces<'a> {
    type Item = &'a [u8];

    ghost remaining = { λ pieces. at_most (length pieces.rest.now) };

    fn next(&mut self) -> Option<&'a [u8]> {
        if self.rest.is_empty() {
            return None;
        }
        let (piece, after) = self.rest.split_at(piece_end(self.rest));
        self.rest = match after {
            [_, rest @ ..] => rest,
            [] => &[],
        };
        Some(piece.trim_ascii())
    }
}

/// A member of an object.
#[derive(Clone, Copy)]
pub(crate) struct Member<'a> {
    /// The key, in its quotes.
    pub(crate) key: &'a [u8],
    /// The value.
    pub(crate) value: &'a [u8],
}

/// The members of an object.
#[derive(Clone, Copy, Drop)]
pub(crate) struct Members<'a> {
    pieces: Pieces<'a>,
}

impl<'a> Members<'a> {
    /// The members of the object that a text is.
    pub(crate) fn of(text: &'a [u8]) -> Members<'a> {
        Members {
            pieces: Pieces::of(text),
        }
    }
}

impl<'a> Iterator for Members<'a> {
    type Item = Member<'a>;

    ghost remaining = { λ members. at_most (length members.pieces.rest.now) };

    fn next(&mut self) -> Option<Member<'a>> {
        let key = self.pieces.next()?;
        let value = self.pieces.next()?;
        Some(Member { key, value })
    }
}

/// A key without its quotes.
pub(crate) fn unquoted(key: &[u8]) -> &[u8] {
    match key {
        [b'"', name @ .., b'"'] => name,
        _ => key,
    }
}

/// The name that a key in its quotes is, where it has no escapes.
pub(crate) fn plain_name(key: &[u8]) -> Option<&str>
    ensures { IfSome result (λ name. key.now ≡ 34 ∷ (name.now ++ 34 ∷ [])) }
{
    match key {
        [b'"', name @ .., b'"'] if !name.contains(&b'\\') => str::from_utf8(name).ok(),
        _ => None,
    }
}

/// The value of a key, which is its last where it comes twice. Empty where no key is written so.
pub(crate) fn value_text<'a>(object: &'a [u8], key: &str) -> &'a [u8] {
    let mut found: &'a [u8] = &[];
    for member in Members::of(object) {
        if unquoted(member.key) == key.as_bytes() {
            found = member.value;
        }
    }
    found
}

/// The item of an array at an index. Empty where there is none.
pub(crate) fn item_text<'a>(array: &'a [u8], index: usize) -> &'a [u8] {
    for (at, piece) in Pieces::of(array).enumerate() {
        if at == index {
            return piece;
        }
    }
    &[]
}
