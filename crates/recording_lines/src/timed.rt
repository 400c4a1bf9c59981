ghost use Rattle.std.specs.Prelude.{◌≡◌, ◌≤◌, ◌<◌, ◌^◌, ◌==◌, length, option_map, IfSome};
ghost use Rattle.std.specs.List.{position};
ghost use Rattle.recording_lines.specs.Timed.{are_digits, number_in, seconds_in, nanoseconds_in, time_in, timed_in};
ghost use Rattle.recording_lines.specs.Timed.{parts_of};

use ptp_units::{ScaledTime, Timestamp};
use std::str;

/// A datagram of a recording, as its line tells it.
#[derive(Clone, Copy, Debug)]
pub struct Timed<'a> {
    /// The time at which the slave's port sent or received it, as the line has it: seconds since the
    /// beginning of the timescale.
    pub text: &'a str,
    /// That time.
    pub time: ScaledTime,
    /// What stands after the blank: the octets in hexadecimal, if it is such.
    pub digits: &'a [u8],
}

/// Whether a text is 1 to `most` digits and nothing else.
fn are_digits(text: &str, most: usize) -> bool
    ensures { result ≡ are_digits most text.now }
{
    1 <= text.len()
        && text.len() <= most
        && text.as_bytes().iter().all(|octet| octet.is_ascii_digit())
}

/// The number that 1 to `most` digits write.
fn number_in(text: &str, most: usize) -> Option<u64>
    requires { most ≤ 15 }
    ensures value { result ≡ number_in most text.now }
    ensures within { IfSome result (λ number. number < 10 ^ length text.now) }
{
    if !are_digits(text, most) {
        return None;
    }
    text.parse().ok()
}

/// Whole seconds, without zeros in front.
fn seconds_in(text: &str) -> Option<u64>
    ensures { result ≡ seconds_in text.now }
{
    if text.starts_with('0') && text.len() > 1 {
        return None;
    }
    number_in(text, 15)
}

/// The nanoseconds that the digits after a point are, below a second.
fn nanoseconds_in(text: &str) -> Option<u32>
    ensures value { result ≡ nanoseconds_in text.now }
    ensures within { IfSome result (λ nanoseconds. nanoseconds < 10 ^ 9) }
{
    let number = number_in(text, 9)? as u32;
    Some(number * 10_u32.pow(9 - text.len() as u32))
}

/// Seconds since the beginning of the timescale.
fn time_in(text: &str) -> Option<ScaledTime>
    ensures { result ≡ time_in text.now }
{
    let (seconds, nanoseconds) = match text.split_once('.') {
        Some((whole, decimals)) => (seconds_in(whole)?, nanoseconds_in(decimals)?),
        None => (seconds_in(text)?, 0),
    };
    let timestamp = Timestamp::new(seconds, nanoseconds).ok()?;
    Some(ScaledTime::join(timestamp, 0))
}

/// Where the first blank stands.
fn blank_in(line: &[u8]) -> Option<usize>
    ensures { result ≡ position (λ octet. octet == 32) line.now }
{
    line.iter().position(|octet| *octet == b' ')
}

/// Reads a line: a time, one blank, and the digits of a datagram, which may be none.
///
/// A time is seconds since the beginning of the timescale: 1 to 15 digits without zeros in front,
/// below 2^48, and then nothing, or a point and 1 to 9 digits. None where a line isn't of this form.
pub fn read_timed(line: &[u8]) -> Option<Timed<'_>>
    ensures { option_map parts_of result ≡ timed_in line.now }
{
    let blank = blank_in(line)?;
    let text = str::from_utf8(&line[..blank]).ok()?;
    Some(Timed {
        text,
        time: time_in(text)?,
        digits: &line[blank + 1..],
    })
}
