//! The values of fields.
ghost use Rattle.std.specs.Prelude.{◌≡◌, MatchResult, IfSome, Some, None, false, ◌≢◌, ◌≤◌, ◌&&◌, pos, neg_ℤ, nat_lt, drop, length, slice_index, option_map};
ghost use Rattle.schedule_lines.specs.Json.{whole_below};
ghost use Rattle.schedule_lines.specs.Json.{item_at, octets_in, signed_octet_in, name_in, clock_in};
ghost use Rattle.schedule_lines.specs.Json.{moment_in, positive_of, difference_of, difference_in};
ghost use Rattle.schedule_lines.specs.Wanted.{array_of, is_wanted_part, part_wanted, place_of, HasWrong};

use crate::wanted::{Part, Wanted};
use arrayvec::ArrayVec;
use hex::FromHex;
use line_object::LineValue;
use network_model::Name;
use ptp_units::{ScaledTime, Timestamp};

/// A whole number from 0 to below a bound; None for all else.
pub(crate) fn whole_below<V: LineValue>(value: &V, bound: u64) -> Option<u64>
    ensures { result ≡ whole_below bound (V.as_data value.now) }
{
    let number = value.as_u64()?;
    if number < bound { Some(number) } else { None }
}

/// The part of an array that is a whole number below a bound.
fn part_below<V: LineValue>(value: &V, part: Part, bound: u64) -> Result<u64, Part>
    requires { part_wanted part ≡ Wanted.Whole bound }
    ensures { MatchResult result
        (λ n. item_at (whole_below bound) (place_of part) (V.as_data value.now) ≡ Some n)
        (λ wrong. (wrong ≡ part) × (item_at (whole_below bound) (place_of part) (V.as_data value.now) ≡ None)
        × (is_wanted_part part (V.as_data value.now) ≡ false)) }
{
    match value.u64_at(part.place()) {
        Some(number) if number < bound => Ok(number),
        _ => Err(part),
    }
}

/// A moment `[s,n,f]`: seconds, nanoseconds, and units of 2^-16 ns. Else the part that isn't what is wanted, where it has so many.
pub(crate) fn moment_in<V: LineValue>(value: &V) -> Result<ScaledTime, Option<Part>>
    ensures { MatchResult result
        (λ time. moment_in (V.as_data value.now) ≡ Some time)
        (λ part. (moment_in (V.as_data value.now) ≡ None)
        × IfSome part (λ part. (array_of part ≡ Wanted.Moment) × HasWrong part (V.as_data value.now))) }
{
    if !value.has_items(3) {
        return Err(None);
    }
    let seconds = part_below(value, Part::Seconds, 1 << 48)?;
    let nanos = part_below(value, Part::Nanoseconds, 1_000_000_000)?;
    let fraction = part_below(value, Part::Fraction, 65_536)?;
    let Ok(timestamp) = Timestamp::new(seconds, nanos as u32) else {
        unreachable!()
    };
    Ok(ScaledTime::join(timestamp, fraction as u16))
}

/// A whole number from -128 to 127; None for all else.
pub(crate) fn signed_octet_in<V: LineValue>(value: &V) -> Option<i8>
    ensures { result ≡ signed_octet_in (V.as_data value.now) }
{
    let number = value.as_i64()?;
    if -128 <= number && number <= 127 {
        Some(number as i8)
    } else {
        None
    }
}

/// A node's name, a text of 1 to 16 ASCII letters, digits, `_` and `-`; None for all else.
pub(crate) fn name_in<V: LineValue>(value: &V) -> Option<Name>
    ensures { result ≡ name_in (V.as_data value.now) }
{
    Name::new(value.as_str()?)
}

/// A clockIdentity: a text of 16 hexadecimal digits of either case; None for all else.
pub(crate) fn clock_in<V: LineValue>(value: &V) -> Option<[u8; 8]>
    ensures { result ≡ clock_in (V.as_data value.now) }
{
    <[u8; 8] as FromHex>::from_hex(value.as_str()?).ok()
}

/// At most 54 octets: a text in hexadecimal, of either case; None for all else.
pub(crate) fn octets_in<V: LineValue>(value: &V) -> Option<ArrayVec<u8, 54>>
    ensures { option_map (λ octets. octets.items) result ≡ octets_in (V.as_data value.now) }
{
    let text = value.as_str()?;
    if text.len() > 108 {
        return None;
    }
    let mut octets = [0; 54];
    let count = text.len() / 2;
    hex::decode_to_slice(text, &mut octets[..count]).ok()?;
    ArrayVec::try_from(&octets[..count]).ok()
}

/// A whole number as its text: in decimal within 32 octets, a sign in front of negative ones alone,
/// and without leading zeros; None for all else.
pub(crate) fn difference_in<V: LineValue>(value: &V) -> Option<i128>
    ensures { result ≡ difference_in (V.as_data value.now) }
{
    difference_of(value.as_str()?)
}

/// The signed number that a text is.
fn difference_of(text: &str) -> Option<i128>
    ensures { result ≡ difference_of text.now }
{
    let octets = text.as_bytes();
    if text == "0" {
        Some(0)
    } else if octets.len() > 32 {
        None
    } else if !octets.is_empty() && octets[0] == b'-' {
        negative_of(text)
    } else {
        positive_of(text)
    }
}

/// Whether a digit from 1 on, or another octet above `0`, stands there.
fn is_above_zero(octets: &[u8], at: usize) -> bool
    ensures { result ≡ nat_lt 48 (slice_index octets.now at) }
{
    at < octets.len() && octets[at] > b'0'
}

/// A number without a sign.
fn positive_of(text: &str) -> Option<i128>
    requires short { length text.now ≤ 32 }
    requires unsigned { slice_index text.now 0 ≢ 45 }
    ensures { result ≡ option_map pos (positive_of text.now) }
{
    if !is_above_zero(text.as_bytes(), 0) {
        return None;
    }
    text.parse().ok()
}

/// A number with its sign in front.
fn negative_of(text: &str) -> Option<i128>
    requires short { length text.now ≤ 32 }
    requires signed { slice_index text.now 0 ≡ 45 }
    ensures { result ≡ option_map (λ n. neg_ℤ (pos n)) (positive_of (drop 1 text.now)) }
{
    if !is_above_zero(text.as_bytes(), 1) {
        return None;
    }
    text.parse().ok()
}
