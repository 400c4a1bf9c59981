//! Why a line is no JSON, and where.
ghost use Rattle.explain_flaws.specs.Truth.{IsSoOfOctets};

use crate::class::Class;
use crate::flaw::Flaw;
use arrayvec::ArrayVec;
use std::str;

/// Why no JSON goes on at an octet.
#[derive(Clone, Copy, Debug, PartialEq, Eq)]
enum JsonFault {
    /// There is nothing but blanks.
    Empty,
    /// The line begins with a byte order mark.
    ByteOrderMark,
    /// The line ends within an object.
    OpenObject,
    /// The line ends within an array.
    OpenArray,
    /// The line ends before a value.
    NoValueAtEnd,
    /// The line ends within the text that begins there.
    OpenText,
    /// Something stands after the value that the line is.
    After,
    /// A second value begins on the line.
    SecondValue,
    /// A key has no quotes.
    BareKey,
    /// Something other than a key stands where one is wanted.
    NoKey,
    /// A text has no quotes.
    BareText,
    /// A text or a key has single quotes.
    SingleQuotes,
    /// A text or a key has typographic quotes.
    CurvedQuotes,
    /// Something other than a value stands where one is wanted.
    NoValue,
    /// A comma stands before the `}` or `]` that is there.
    TrailingComma,
    /// There is no colon after a key.
    NoColon,
    /// There is no comma after a value.
    NoComma,
    /// A `]` closes an object, or a `}` an array.
    OtherBracket,
    /// A comment.
    Comment,
    /// `true`, `false` or `null` in other letters, as `True` or `None`.
    OtherWord,
    /// `NaN` or an infinity.
    NoNumber,
    /// A `0` stands in front of a number.
    LeadingZero,
    /// A `+` stands in front of a number.
    PlusSign,
    /// A point without a digit in front of it.
    BarePoint,
    /// A digit is wanted.
    NoDigit,
    /// A number in hexadecimal.
    Hexadecimal,
    /// A number goes on with what belongs to none.
    OddNumber,
    /// A number too large for a float.
    LargeNumber,
    /// A control octet, as a tab, within a text.
    ControlOctet,
    /// A `\` in a text isn't followed by an escape.
    OddEscape,
    /// An escape is one half of a pair, without the other.
    HalfPair,
    /// Brackets nest deeper than 127.
    TooDeep,
}

impl JsonFault {
    /// Why, in words.
    fn text(self) -> &'static str {
        match self {
            JsonFault::Empty => "nothing; wanted is an object",
            JsonFault::ByteOrderMark => "a byte order mark; wanted is none",
            JsonFault::OpenObject => "the line ends before the } of an object",
            JsonFault::OpenArray => "the line ends before the ] of an array",
            JsonFault::NoValueAtEnd => "the line ends before a value",
            JsonFault::OpenText => "a text without its closing quote",
            JsonFault::After => "something after the value; wanted is the end of the line",
            JsonFault::SecondValue => "a second value; wanted is one a line",
            JsonFault::BareKey => "a key without quotes",
            JsonFault::NoKey => "no key; wanted is one, in double quotes",
            JsonFault::BareText => "a text without quotes",
            JsonFault::SingleQuotes => "single quotes; wanted are double ones",
            JsonFault::CurvedQuotes => "typographic quotes; wanted are plain double ones",
            JsonFault::NoValue => "no value; wanted is one",
            JsonFault::TrailingComma => "a bracket after a comma; wanted is no comma before it",
            JsonFault::NoColon => "no colon; wanted is one after the key",
            JsonFault::NoComma => "no comma; wanted is one between two",
            JsonFault::OtherBracket =>
                "the bracket of another kind; wanted is the one that was opened",
            JsonFault::Comment => "a comment; JSON has none",
            JsonFault::OtherWord => "another word; wanted is true, false or null",
            JsonFault::NoNumber => "NaN or an infinity; JSON has none",
            JsonFault::LeadingZero => "a zero in front of a number",
            JsonFault::PlusSign => "a + in front of a number",
            JsonFault::BarePoint => "a point without a digit in front of it",
            JsonFault::NoDigit => "no digit; wanted is one in the number",
            JsonFault::Hexadecimal => "a number in hexadecimal; wanted are decimal digits",
            JsonFault::OddNumber =>
                "a character that belongs to no number; wanted is a comma or a bracket after it",
            JsonFault::LargeNumber => "a number too large for a float; wanted is a smaller one",
            JsonFault::ControlOctet =>
                "a control character in a text; wanted is its escape, as \\t",
            JsonFault::OddEscape =>
                "a \\ without an escape; wanted is \\\\, or another escape of JSON",
            JsonFault::HalfPair => "an escape that is half of a character; wanted are both halves",
            JsonFault::TooDeep => "brackets that nest deeper than 127; wanted are fewer",
        }
    }
}

/// Why a line is no JSON, from the octet at which it isn't read, counted from 1.
pub(crate) fn json_flaw<'a>(line: &[u8], column: usize) -> Flaw<'a>
    ensures { IsSoOfOctets line.now result }
{
    if let Err(error) = str::from_utf8(line) {
        return Flaw::NoText {
            octet: error.valid_up_to().saturating_add(1),
        };
    }
    match halt_in(line) {
        Some(halt) => Flaw::NoJson {
            octet: line.len().saturating_sub(halt.left.len()).saturating_add(1),
            hint: Some(halt.why.text()),
        },
        None => Flaw::NoJson {
            octet: column,
            hint: None,
        },
    }
}

/// What is left from the octet on at which no JSON goes on, and why.
#[derive(Clone, Copy)]
struct Halt<'a> {
    left: &'a [u8],
    why: JsonFault,
}

impl<'a> Halt<'a> {
    fn at<T>(left: &'a [u8], why: JsonFault) -> Result<T, Halt<'a>> {
        Err(Halt { left, why })
    }
}

/// What is wanted next.
#[derive(Clone, Copy, Debug, PartialEq, Eq)]
enum Next {
    /// A value.
    Value,
    /// The first value of an array, or its end.
    FirstItem,
    /// The first key of an object, or its end.
    FirstKey,
    /// A key.
    Key,
    /// A colon.
    Colon,
    /// A comma, or the end of what was opened last; after the outermost value, the end.
    Separator,
}

/// The brackets that are open, `{` and `[`, the innermost last.
type Open = ArrayVec<u8, 127>;

/// Where JSON doesn't go on; None where that isn't found.
fn halt_in(line: &[u8]) -> Option<Halt<'_>> {
    if line.starts_with(&[0xef, 0xbb, 0xbf]) {
        return Some(Halt {
            left: line,
            why: JsonFault::ByteOrderMark,
        });
    }
    let mut open = Open::new();
    let mut next = Next::Value;
    let mut rest = line.trim_ascii_start();
    if rest.is_empty() {
        return Some(Halt {
            left: line,
            why: JsonFault::Empty,
        });
    }
    for _ in line {
        if rest.is_empty() {
            break;
        }
        match step(next, rest, &mut open) {
            Ok((after, wanted)) => {
                rest = after.trim_ascii_start();
                next = wanted;
            }
            Err(halt) => return Some(halt),
        }
    }
    halt_at_end(next, rest, &open)
}

/// Why the line can't end here.
fn halt_at_end<'a>(next: Next, left: &'a [u8], open: &Open) -> Option<Halt<'a>> {
    let why = match (next, open.last()) {
        (Next::Value | Next::Colon, _) => JsonFault::NoValueAtEnd,
        (_, Some(b'{')) => JsonFault::OpenObject,
        (_, Some(_)) => JsonFault::OpenArray,
        (_, None) => return None,
    };
    Some(Halt { left, why })
}

/// Goes over what is wanted next.
fn step<'a>(next: Next, rest: &'a [u8], open: &mut Open) -> Result<(&'a [u8], Next), Halt<'a>> {
    match (next, rest) {
        (Next::FirstItem, [b']', ..]) | (Next::FirstKey, [b'}', ..]) => close(rest, open),
        (Next::Value | Next::FirstItem, _) => value(rest, open),
        (Next::Key | Next::FirstKey, _) => key(rest),
        (Next::Colon, [b':', after @ ..]) => Ok((after, Next::Value)),
        (Next::Colon, _) => Halt::at(rest, JsonFault::NoColon),
        (Next::Separator, _) => separator(rest, open),
    }
}

/// Goes over a comma or a closing bracket.
fn separator<'a>(rest: &'a [u8], open: &mut Open) -> Result<(&'a [u8], Next), Halt<'a>> {
    match (open.last(), rest) {
        (None, [b'{' | b'[' | b'"', ..]) => Halt::at(rest, JsonFault::SecondValue),
        (_, [b'/' | b'#', ..]) => Halt::at(rest, JsonFault::Comment),
        (None, _) => Halt::at(rest, JsonFault::After),
        (Some(b'{'), [b',', after @ ..]) => Ok((after, Next::Key)),
        (Some(b'['), [b',', after @ ..]) => Ok((after, Next::Value)),
        (Some(b'{'), [b'}', ..]) | (Some(b'['), [b']', ..]) => { close(rest, open) }
        (_, [b'}' | b']', ..]) => Halt::at(rest, JsonFault::OtherBracket),
        _ => Halt::at(rest, JsonFault::NoComma),
    }
}

/// Goes over a closing bracket.
fn close<'a>(rest: &'a [u8], open: &mut Open) -> Result<(&'a [u8], Next), Halt<'a>> {
    open.pop();
    match rest {
        [_, after @ ..] => Ok((after, Next::Separator)),
        [] => Ok((rest, Next::Separator)),
    }
}

/// Goes over an opening bracket.
fn begin<'a>(
    after: &'a [u8],
    bracket: u8,
    next: Next,
    open: &mut Open,
) -> Result<(&'a [u8], Next), Halt<'a>> {
    match open.try_push(bracket) {
        Ok(()) => Ok((after, next)),
        Err(_) => Halt::at(after, JsonFault::TooDeep),
    }
}

/// Goes over a key.
fn key(rest: &[u8]) -> Result<(&[u8], Next), Halt<'_>> {
    match rest {
        [b'"', ..] => Ok((text(rest)?, Next::Colon)),
        [b'\'', ..] => Halt::at(rest, JsonFault::SingleQuotes),
        [0xe2, 0x80, 0x9c..=0x9f, ..] => Halt::at(rest, JsonFault::CurvedQuotes),
        [b'}' | b']', ..] => Halt::at(rest, JsonFault::TrailingComma),
        [b'/' | b'#', ..] => Halt::at(rest, JsonFault::Comment),
        [b'a'..=b'z' | b'A'..=b'Z' | b'_', ..] => Halt::at(rest, JsonFault::BareKey),
        _ => Halt::at(rest, JsonFault::NoKey),
    }
}

/// Goes over a value, or the bracket that begins one.
fn value<'a>(rest: &'a [u8], open: &mut Open) -> Result<(&'a [u8], Next), Halt<'a>> {
    match rest {
        [b'{', after @ ..] => begin(after, b'{', Next::FirstKey, open),
        [b'[', after @ ..] => begin(after, b'[', Next::FirstItem, open),
        [b'"', ..] => Ok((text(rest)?, Next::Separator)),
        [b'0'..=b'9' | b'-', ..] => Ok((number(rest)?, Next::Separator)),
        [b'a'..=b'z' | b'A'..=b'Z' | b'_', ..] => Ok((word(rest)?, Next::Separator)),
        [b'\'', ..] => Halt::at(rest, JsonFault::SingleQuotes),
        [0xe2, 0x80, 0x9c..=0x9f, ..] => Halt::at(rest, JsonFault::CurvedQuotes),
        [b'+', ..] => Halt::at(rest, JsonFault::PlusSign),
        [b'.', ..] => Halt::at(rest, JsonFault::BarePoint),
        [b'/' | b'#', ..] => Halt::at(rest, JsonFault::Comment),
        [b']', ..] if open.last() == Some(&b'[') => { Halt::at(rest, JsonFault::TrailingComma) }
        _ => Halt::at(rest, JsonFault::NoValue),
    }
}

/// Goes over a text in its quotes.
fn text(quoted: &[u8]) -> Result<&[u8], Halt<'_>> {
    let mut rest = match quoted {
        [_, after @ ..] => after,
        [] => quoted,
    };
    for _ in quoted {
        rest = match rest {
            [b'"', after @ ..] => return Ok(after),
            [b'\\', ..] => escape(rest)?,
            [0..=0x1f, ..] => return Halt::at(rest, JsonFault::ControlOctet),
            [_, after @ ..] => after,
            [] => break,
        };
    }
    Halt::at(quoted, JsonFault::OpenText)
}

/// Goes over an escape.
fn escape(rest: &[u8]) -> Result<&[u8], Halt<'_>> {
    match rest {
        [
            b'\\',
            b'"' | b'\\' | b'/' | b'b' | b'f' | b'n' | b'r' | b't',
            after @ ..,
        ] => Ok(after),
        [b'\\', b'u', digits @ ..] => match (unit(digits), digits) {
            (Some(0xd800..=0xdbff), [_, _, _, _, after @ ..]) => second_unit(rest, after),
            (Some(0xdc00..=0xdfff), _) => Halt::at(rest, JsonFault::HalfPair),
            (Some(_), [_, _, _, _, after @ ..]) => Ok(after),
            _ => Halt::at(rest, JsonFault::OddEscape),
        },
        _ => Halt::at(rest, JsonFault::OddEscape),
    }
}

/// Goes over the second of two escapes that are one character.
fn second_unit<'a>(first: &'a [u8], rest: &'a [u8]) -> Result<&'a [u8], Halt<'a>> {
    if let [b'\\', b'u', digits @ ..] = rest {
        if let (Some(0xdc00..=0xdfff), [_, _, _, _, after @ ..]) = (unit(digits), digits) {
            return Ok(after);
        }
    }
    Halt::at(first, JsonFault::HalfPair)
}

/// The number of the four hexadecimal digits at the front.
fn unit(digits: &[u8]) -> Option<u16> {
    let text = str::from_utf8(digits.get(..4)?).ok()?;
    if Class::HexDigit.has_all(text.as_bytes()) {
        u16::from_str_radix(text, 16).ok()
    } else {
        None
    }
}

/// What comes after the digits at the front.
fn after_digits(rest: &[u8]) -> &[u8] {
    let (_, after) = Class::Digit.split(rest);
    after
}

/// Goes over digits, of which one has to be there.
fn digits(rest: &[u8]) -> Result<&[u8], Halt<'_>> {
    match rest {
        [b'0'..=b'9', ..] => Ok(after_digits(rest)),
        _ => Halt::at(rest, JsonFault::NoDigit),
    }
}

/// Goes over a number, which a float can hold.
fn number(rest: &[u8]) -> Result<&[u8], Halt<'_>> {
    let after = number_end(rest)?;
    let digits = rest.get(..rest.len().saturating_sub(after.len()));
    if is_large(digits.unwrap_or(rest)) {
        return Halt::at(rest, JsonFault::LargeNumber);
    }
    Ok(after)
}

/// Whether no float can hold a number, since it is too large.
fn is_large(digits: &[u8]) -> bool {
    match str::from_utf8(digits) {
        Ok(text) => match text.parse::<f64>() {
            Ok(number) => number.is_infinite(),
            Err(_) => false,
        },
        Err(_) => false,
    }
}

/// What comes after a number.
fn number_end(rest: &[u8]) -> Result<&[u8], Halt<'_>> {
    let unsigned = match rest {
        [b'-', after @ ..] => after,
        _ => rest,
    };
    let whole = match unsigned {
        [b'0', b'0'..=b'9', ..] => return Halt::at(unsigned, JsonFault::LeadingZero),
        [b'0', b'x' | b'X', ..] => return Halt::at(unsigned, JsonFault::Hexadecimal),
        [b'I' | b'N' | b'i' | b'n', ..] => return Halt::at(rest, JsonFault::NoNumber),
        _ => digits(unsigned)?,
    };
    let fraction = match whole {
        [b'.', after @ ..] => digits(after)?,
        _ => whole,
    };
    let after = match fraction {
        [b'e' | b'E', b'+' | b'-', after @ ..] | [b'e' | b'E', after @ ..] => digits(after)?,
        _ => fraction,
    };
    match after {
        [
            b'a'..=b'z' | b'A'..=b'Z' | b'0'..=b'9' | b'_' | b'.' | b'+' | b'-',
            ..
        ] => { Halt::at(after, JsonFault::OddNumber) }
        _ => Ok(after),
    }
}

/// Goes over a word.
fn word(rest: &[u8]) -> Result<&[u8], Halt<'_>> {
    let (word, after) = Class::Word.split(rest);
    match word {
        b"true" | b"false" | b"null" => Ok(after),
        b"NaN" | b"nan" | b"NAN" | b"Infinity" | b"inf" | b"Inf" => {
            Halt::at(rest, JsonFault::NoNumber)
        }
        b"True"
        | b"TRUE"
        | b"False"
        | b"FALSE"
        | b"None"
        | b"none"
        | b"Null"
        | b"NULL"
        | b"nil"
        | b"undefined" => Halt::at(rest, JsonFault::OtherWord),
        _ => Halt::at(rest, JsonFault::BareText),
    }
}
