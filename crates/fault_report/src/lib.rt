//! How a fault of lines is told to a person, and which exit status comes of it.
#![tactic(auto)]

ghost use Rattle.std.specs.Prelude.{◌≡◌};
ghost use Rattle.fault_report.specs.Status.{status_of};

use std::io::Write;
use text_lines::{Numbered, Stopped};

/// The exit status of a fault.
pub const FAULT: u8 = 3;

/// Says a fault, with the number of the refusal that it is about, and answers the exit status of a fault, 3. What can't
/// be written to `errors` is lost.
pub fn report<F: Numbered + Copy, E: Write>(errors: &mut E, stop: Stopped<F>) -> u8
    ensures { result ≡ 3 }
{
    let (line, number) = (stop.line, stop.what.number());
    let _ = match stop.what.refusal() {
        Some(refusal) => writeln!(errors, "ptpx: fault {number} ({refusal}) at line {line}"),
        None => writeln!(errors, "ptpx: fault {number} at line {line}"),
    };
    FAULT
}

/// The same, with what the number means behind it, for a person who reads `errors`.
pub fn explain_fault<F: Numbered + Copy, E: Write>(
    errors: &mut E,
    stop: Stopped<F>,
    meaning: &str,
) -> u8
    ensures { result ≡ 3 }
{
    let status = report(errors, stop);
    let _ = writeln!(errors, "ptpx: {} is {meaning}", stop.what.number());
    status
}

/// Answers the exit status of a subcommand that ended in this answer, 0 or that of the fault, which is said.
pub fn finish<F: Numbered + Copy, E: Write>(errors: &mut E, answer: Result<u64, Stopped<F>>) -> u8
    ensures { result ≡ status_of answer }
{
    match answer {
        Ok(_) => 0,
        Err(stop) => report(errors, stop),
    }
}
