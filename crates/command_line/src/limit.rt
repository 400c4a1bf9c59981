//! Nanoseconds that are written as a time is.
ghost use Rattle.std.specs.Prelude.{◌≡◌};
ghost use Rattle.command_line.specs.Limit.{limit_of, time_alone};
ghost use Rattle.recording_lines.specs.Timed.{parts_of};

use ptp_units::ScaledTime;
use recording_lines::{Timed, read_timed};

/// The most octets of a time: 15 digits, a point and 9 digits.
const TIME_MOST: usize = 25;

/// The time of a line that has no digits.
fn time_alone(timed: &Timed<'_>) -> Option<ScaledTime>
    ensures { result ≡ time_alone (parts_of timed.now) }
{
    if timed.digits.is_empty() {
        Some(timed.time)
    } else {
        None
    }
}

/// The time that a text is, if it is one and nothing else: so many seconds as the text says nanoseconds.
pub(crate) fn limit_in(text: &str) -> Option<ScaledTime>
    ensures { result ≡ limit_of text.now }
{
    let octets = text.as_bytes();
    let size = octets.len();
    if TIME_MOST < size {
        return None;
    }
    let mut line = [0; TIME_MOST + 1];
    line[..size].copy_from_slice(octets);
    line[size] = b' ';
    match read_timed(&line[..size + 1]) {
        Some(timed) => time_alone(&timed),
        None => None,
    }
}
