//! The text of a decimal number, read exactly.
ghost use Rattle.std.specs.Prelude.{◌≡◌, ◌≤◌, ◌<◌, ◌^◌, pos, length, option_map, IfSome};
ghost use Rattle.result_verdict.specs.Exact.{are_digits, number_in, whole_in, parts_in, size_in, exact_in, IsWithin};

use crate::difference::{Difference, joined};

/// Whether a text is 1 to `most` digits and nothing else.
fn are_digits(text: &str, most: usize) -> bool
    ensures { result ≡ are_digits most text.now }
{
    1 <= text.len()
        && text.len() <= most
        && text.as_bytes().iter().all(|octet| octet.is_ascii_digit())
}

/// The number that 1 to `most` digits write.
fn number_in(text: &str, most: usize) -> Option<u128>
    requires { most ≤ 24 }
    ensures value { result ≡ number_in most text.now }
    ensures within { IfSome result (λ number. number < 10 ^ length text.now) }
{
    if !are_digits(text, most) {
        return None;
    }
    text.parse().ok()
}

/// Whole nanoseconds, without zeros in front.
fn whole_in(text: &str) -> Option<u128>
    ensures value { result ≡ whole_in text.now }
    ensures within { IfSome result (λ whole. whole < 10 ^ 24) }
{
    if text.starts_with('0') && text.len() > 1 {
        return None;
    }
    number_in(text, 24)
}

/// What the digits after a point are, in units of 10^-17 ns.
fn parts_in(text: &str) -> Option<u64>
    ensures value { result ≡ parts_in text.now }
    ensures within { IfSome result (λ parts. parts < 10 ^ 17) }
{
    let number = number_in(text, 16)? as u64;
    Some(number * 10_u64.pow(17 - text.len() as u32))
}

/// A number without a sign.
fn size_in(text: &str) -> Option<Difference>
    ensures value { result ≡ option_map pos (size_in text.now) }
    ensures within { IfSome result (IsWithin (2 ^ 111)) }
{
    let (whole, parts) = match text.split_once('.') {
        Some((whole, decimals)) => (whole_in(whole)?, parts_in(decimals)?),
        None => (whole_in(text)?, 0),
    };
    Some(joined(whole as i128, parts))
}

/// A number, and a minus in front turns it.
pub(crate) fn exact_in(text: &str) -> Option<Difference>
    ensures value { result ≡ exact_in text.now }
    ensures within { IfSome result (IsWithin (2 ^ 111)) }
{
    match text.strip_prefix('-') {
        Some(size) => Some(size_in(size)?.negated()),
        None => size_in(text),
    }
}
