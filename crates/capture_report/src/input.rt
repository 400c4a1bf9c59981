//! How an input of lines or a capture is told to have ended, and which exit status comes of it.

ghost use Rattle.std.specs.Prelude.{◌≡◌, ◌&&◌};
ghost use Rattle.capture_report.specs.Status.{outcome_status, judged};

use crate::capture::finish_capture;
use datagram_source::InputOutcome;
use fault_report::finish;
use std::io::Write;
use text_lines::{Cause, Numbered, Stopped};

/// What is told of an input of no octet.
const EMPTY: &[u8] = b"ptpx: the input is empty\n";

/// What is told where the packets of an interface are asked for, and there are lines.
const LINES_HAVE_NO_INTERFACE: &[u8] =
    b"ptpx: lines have no interface, so --interface changes nothing\n";

/// Answers the exit status by what came of an input, and says its fault. Of lines it says that there are none, and that an interface was
/// asked for in vain. What can't be written to `errors` is lost.
pub fn finish_input<F: Numbered + Copy, E: Write>(
    errors: &mut E,
    outcome: InputOutcome<F>,
    has_interface: bool,
) -> u8
    ensures { result ≡ outcome_status outcome }
{
    match outcome {
        InputOutcome::Lines(answer) => {
            let status = finish(errors, answer);
            tell_lines(&answer, has_interface, errors);
            status
        }
        InputOutcome::Capture(answer) => finish_capture(errors, answer),
    }
}

/// Says of lines that there are none, and that an interface was asked for in vain, once any was read.
fn tell_lines<F, E: Write>(
    answer: &Result<u64, Stopped<Cause<F>>>,
    has_interface: bool,
    errors: &mut E,
) {
    if matches!(answer, Ok(0)) {
        let _ = errors.write_all(EMPTY);
    }
    let is_unread = matches!(answer, Err(Stopped { line: 0, .. }));
    if has_interface && !is_unread {
        let _ = errors.write_all(LINES_HAVE_NO_INTERFACE);
    }
}

/// The exit status: 1 where what is asked for isn't so, and nothing gives another.
pub fn judged(status: u8, is_refused: bool) -> u8
    ensures { result ≡ judged status is_refused }
{
    if status == 0 && is_refused { 1 } else { status }
}
