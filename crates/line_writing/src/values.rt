//! The compact texts of values.
ghost use Rattle.std.specs.Prelude.{◌≡◌, ◌≤◌, ◌++◌, length, OnOk};
ghost use Rattle.std.specs.Fmt.{signed_decimal};
ghost use Rattle.serde_json.specs.Data.{string};
ghost use Rattle.serde_json.specs.Written.{compact_text};
ghost use Rattle.schedule_lines.specs.Written.{whole, moment_data, difference_data, octets_data, follow_data};
ghost use Rattle.schedule_lines.specs.Written.{tags_data};

use itoa::Buffer;
use network_model::{Name, Report};
use ptp_units::ScaledTime;
use std::alloc::AllocError;

/// Appends a whole number.
pub(crate) fn push_whole(text: &mut Vec<u8>, number: u64) -> Result<(), AllocError>
    ensures { OnOk result (text.new.items ≡ text.old.items ++ compact_text (whole number)) }
{
    let mut digits = Buffer::new();
    text.extend_from_slice(digits.format(number).as_bytes())
}

/// Appends a number of 8 bits with its sign.
pub(crate) fn push_signed(text: &mut Vec<u8>, number: &i8) -> Result<(), AllocError>
    ensures { OnOk result (text.new.items ≡ text.old.items ++ signed_decimal number.now) }
{
    let mut digits = Buffer::new();
    text.extend_from_slice(digits.format(*number).as_bytes())
}

/// Appends a signed number, as its text.
pub(crate) fn push_difference(text: &mut Vec<u8>, units: i128) -> Result<(), AllocError>
    ensures { OnOk result (text.new.items ≡ text.old.items ++ compact_text (difference_data units)) }
{
    let mut digits = Buffer::new();
    text.push(b'"')?;
    text.extend_from_slice(digits.format(units).as_bytes())?;
    text.push(b'"')?;
    Ok(())
}

/// Appends the name of a node.
pub(crate) fn push_name(text: &mut Vec<u8>, name: &Name) -> Result<(), AllocError>
    ensures { OnOk result (text.new.items ≡ text.old.items ++ compact_text (string name.now)) }
{
    text.push(b'"')?;
    text.extend_from_slice(name.text().as_bytes())?;
    text.push(b'"')?;
    Ok(())
}

/// Appends at most 54 octets in hexadecimal.
pub(crate) fn push_octets(text: &mut Vec<u8>, octets: &[u8]) -> Result<(), AllocError>
    requires { length octets.now ≤ 54 }
    ensures { OnOk result (text.new.items ≡ text.old.items ++ compact_text (octets_data octets.now)) }
{
    let mut digits = [0; 108];
    let count = 2 * octets.len();
    let _ = hex::encode_to_slice(octets, &mut digits[..count]);
    text.push(b'"')?;
    text.extend_from_slice(&digits[..count])?;
    text.push(b'"')?;
    Ok(())
}

/// Appends a moment.
pub(crate) fn push_moment(text: &mut Vec<u8>, time: ScaledTime) -> Result<(), AllocError>
    ensures { OnOk result (text.new.items ≡ text.old.items ++ compact_text (moment_data time)) }
{
    let (timestamp, fraction) = time.split();
    text.push(b'[')?;
    push_whole(text, timestamp.seconds())?;
    text.push(b',')?;
    push_whole(text, u64::from(timestamp.nanos()))?;
    text.push(b',')?;
    push_whole(text, u64::from(fraction))?;
    text.push(b']')?;
    Ok(())
}

/// Appends the tag of a Follow_Up.
fn push_follow(text: &mut Vec<u8>, tag: Option<u64>) -> Result<(), AllocError>
    ensures { OnOk result (text.new.items ≡ text.old.items ++ compact_text (follow_data tag)) }
{
    match tag {
        Some(tag) => push_whole(text, tag),
        None => text.extend_from_slice(b"null"),
    }
}

/// Appends the tags of a report.
pub(crate) fn push_tags(text: &mut Vec<u8>, report: &Report) -> Result<(), AllocError>
    ensures { OnOk result (text.new.items ≡ text.old.items ++ compact_text (tags_data report.now)) }
{
    text.push(b'[')?;
    push_whole(text, report.sync_tag)?;
    text.push(b',')?;
    push_follow(text, report.follow_tag)?;
    text.push(b',')?;
    push_whole(text, report.request_tag)?;
    text.push(b',')?;
    push_whole(text, report.response_tag)?;
    text.push(b']')?;
    Ok(())
}
