//! Input of another kind than lines of JSON, by its first octets.

use crate::class::Class;
use std::fmt;
use std::fmt::{Display, Formatter};

/// An input of another kind than lines of a schedule or a transcript.
#[derive(Clone, Copy, Debug, PartialEq, Eq)]
pub enum Foreign {
    /// A capture, as libpcap writes it, with stamps of microseconds or nanoseconds in either order of
    /// octets.
    Pcap,
    /// A capture in pcapng.
    PcapNg,
    /// Compressed by gzip.
    Gzip,
    /// Text that begins with a byte order mark of UTF-8.
    ByteOrderMark,
    /// Lines of JSON that end in CR alone.
    CarriageReturns,
    /// UTF-16 that begins with a byte order mark, which tells the order of octets.
    Utf16,
    /// UTF-16 without one, the low octets first.
    Utf16LowFirst,
    /// UTF-16 without one, the high octets first.
    Utf16HighFirst,
    /// Lines of datagrams in hexadecimal, as `ptpx show` reads them.
    Datagrams,
    /// Lines of times and datagrams, as `ptpx measure` reads them.
    Recording,
    /// JSON objects over several lines.
    ObjectOverLines,
    /// A JSON array of objects.
    ArrayOfLines,
    /// Objects in single quotes, as Python prints them.
    SingleQuotes,
    /// A list of objects in single quotes, as Python prints it.
    ListInSingleQuotes,
}

impl Foreign {
    /// The kind of an input, by its beginning, which is to have the first line at least; None where
    /// it begins as none of these does.
    pub fn of(start: &[u8]) -> Option<Foreign> {
        match start {
            [0xd4, 0xc3, 0xb2, 0xa1, ..]
            | [0xa1, 0xb2, 0xc3, 0xd4, ..]
            | [0x4d, 0x3c, 0xb2, 0xa1, ..]
            | [0xa1, 0xb2, 0x3c, 0x4d, ..] => Some(Foreign::Pcap),
            [0x0a, 0x0d, 0x0d, 0x0a, ..] => Some(Foreign::PcapNg),
            [0x1f, 0x8b, ..] => Some(Foreign::Gzip),
            [0xef, 0xbb, 0xbf, ..] => Some(Foreign::ByteOrderMark),
            [0xff, 0xfe, ..] | [0xfe, 0xff, ..] => Some(Foreign::Utf16),
            [b'{' | b'[', 0, ..] => Some(Foreign::Utf16LowFirst),
            [0, b'{' | b'[', ..] => Some(Foreign::Utf16HighFirst),
            _ => Foreign::of_text(first_line(start).trim_ascii()),
        }
    }

    /// The kind of a text, by its first line.
    fn of_text(line: &[u8]) -> Option<Foreign> {
        match line {
            [b'{', rest @ ..] => Foreign::of_object(rest.trim_ascii()),
            [b'[', rest @ ..] => Some(Foreign::of_array(rest.trim_ascii())),
            _ if is_recording(line) => Some(Foreign::Recording),
            _ if is_hexadecimal(line) => Some(Foreign::Datagrams),
            _ => None,
        }
    }

    /// The kind of a text that begins with an array, by what stands after the `[` in its first line.
    fn of_array(rest: &[u8]) -> Foreign {
        match rest {
            [b'{', object @ ..] if object.trim_ascii().starts_with(b"'".as_slice()) => {
                Foreign::ListInSingleQuotes
            }
            _ => Foreign::ArrayOfLines,
        }
    }

    /// The kind of a text that begins with an object, by what stands after the `{` in its first line.
    fn of_object(rest: &[u8]) -> Option<Foreign> {
        match rest {
            [b'\'', ..] => Some(Foreign::SingleQuotes),
            _ if has_objects_by_cr(rest) => Some(Foreign::CarriageReturns),
            [.., b'}', b','] => None,
            [] | [.., b',' | b'{' | b'[' | b':'] => Some(Foreign::ObjectOverLines),
            _ => None,
        }
    }

    /// A command that takes the input as its standard input, and makes of it what is wanted, or reads it
    /// as it is.
    pub fn command(self) -> &'static str {
        match self {
            Foreign::Gzip => "gzip -dc",
            Foreign::ByteOrderMark => "tail -c +4",
            Foreign::CarriageReturns => "tr '\\r' '\\n'",
            Foreign::Utf16 => "iconv -f UTF-16 -t UTF-8",
            Foreign::Utf16LowFirst => "iconv -f UTF-16LE -t UTF-8",
            Foreign::Utf16HighFirst => "iconv -f UTF-16BE -t UTF-8",
            Foreign::Datagrams => "ptpx show",
            Foreign::Pcap | Foreign::PcapNg | Foreign::Recording => "ptpx measure",
            Foreign::ObjectOverLines => "jq -c .",
            Foreign::ArrayOfLines => "jq -c '.[]'",
            Foreign::SingleQuotes => {
                "python3 -c 'import ast, json, sys; [print(json.dumps(ast.literal_eval(s))) for s in sys.stdin]'"
            }
            Foreign::ListInSingleQuotes => {
                "python3 -c 'import ast, json, sys; [print(json.dumps(o)) for o in ast.literal_eval(sys.stdin.read())]'"
            }
        }
    }
}

impl Display for Foreign {
    fn fmt<W: fmt::Write>(&self, f: &mut Formatter<W>) -> fmt::Result {
        f.write_str(match self {
            Foreign::Pcap => "a capture (pcap); measure by it with: ",
            Foreign::PcapNg => "a capture (pcapng); measure by it with: ",
            Foreign::Gzip => "compressed by gzip; unpack it by: ",
            Foreign::ByteOrderMark => "text behind a byte order mark; take the mark away by: ",
            Foreign::CarriageReturns => "objects with CR between them; make LF of each CR by: ",
            Foreign::Utf16 | Foreign::Utf16LowFirst | Foreign::Utf16HighFirst => {
                "UTF-16; make UTF-8 of it by: "
            }
            Foreign::Datagrams => "datagrams in hexadecimal; show them by: ",
            Foreign::Recording => "times with datagrams in hexadecimal; measure by them with: ",
            Foreign::ObjectOverLines => {
                "JSON objects over several lines; make a line of each by: "
            }
            Foreign::ArrayOfLines => "a JSON array; make a line of each of its objects by: ",
            Foreign::SingleQuotes => {
                "objects in single quotes, as Python prints them; make JSON of them by: "
            }
            Foreign::ListInSingleQuotes => {
                "a list in single quotes, as Python prints it; make a line of each object by: "
            }
        })?;
        f.write_str(self.command())
    }
}

/// The octets before the first LF.
fn first_line(start: &[u8]) -> &[u8] {
    let (line, _) = Class::InLine.split(start);
    line
}

/// Whether an object ends just before a CR, after which one begins.
fn has_objects_by_cr(text: &[u8]) -> bool {
    for octets in text.windows(3) {
        if octets == b"}\r{".as_slice() {
            return true;
        }
    }
    false
}

/// Whether these are pairs of hexadecimal digits, one at least.
fn is_hexadecimal(text: &[u8]) -> bool {
    !text.is_empty() && text.len() % 2 == 0 && Class::HexDigit.has_all(text)
}

/// Whether it is a time, a blank, and pairs of hexadecimal digits.
fn is_recording(line: &[u8]) -> bool {
    match Class::DigitOrPoint.split(line) {
        ([_, ..], [b' ', datagram @ ..]) => is_hexadecimal(datagram),
        _ => false,
    }
}
