//! The line of a datagram.
ghost use Rattle.std.specs.Prelude.{◌≡◌, ◌++◌, ◌≤◌, length, OnOk};
ghost use Rattle.std.specs.String.{string_bytes};
ghost use Rattle.hex.specs.Hex.{encode_lower};
ghost use Rattle.datagram_source.specs.Datagram.{octets_limit, text_of};
ghost use Rattle.capture_extract.specs.Line.{line_text};

use datagram_source::Datagram;
use std::alloc::AllocError;
use std::str;
use text_lines::LINE_LIMIT;

/// What stands in a line.
#[derive(Clone, Copy, PartialEq, Eq)]
pub enum ExtractForm {
    /// The octets of a datagram, as `ptpx show` reads them.
    Octets,
    /// The time of its packet before them, as `ptpx measure` reads them: seconds, a point, and nine decimals.
    Timed,
}

/// Appends octets in lower case hexadecimal.
fn push_digits(text: &mut String, octets: &[u8]) -> Result<(), AllocError>
    requires { length octets.now ≤ octets_limit }
    ensures { OnOk result (string_bytes text.new ≡ string_bytes text.old ++ encode_lower octets.now) }
{
    let mut room = [0; LINE_LIMIT];
    let digits = &mut room[..2 * octets.len()];
    hex::encode_to_slice(octets, digits).unwrap();
    text.push_str(str::from_utf8(digits).unwrap())
}

/// Puts the line of a datagram, with its LF, in place of what `text` holds.
pub(crate) fn make_line(
    text: &mut String,
    form: ExtractForm,
    datagram: &Datagram<'_>,
) -> Result<(), AllocError>
    requires { length datagram.now.octets.now ≤ octets_limit }
    ensures { OnOk result (string_bytes text.new ≡ line_text form (text_of datagram.now.stamp) datagram.now.octets.now) }
{
    text.clear();
    if form == ExtractForm::Timed {
        datagram.stamp.push(text)?;
        text.push(' ')?;
    }
    push_digits(text, datagram.octets)?;
    text.push('\n')
}
