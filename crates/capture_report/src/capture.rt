//! How a fault of a capture is told to a person, and which exit status comes of it.

ghost use Rattle.std.specs.Prelude.{◌≡◌};
ghost use Rattle.fault_report.specs.Status.{status_of};

use capture_file::{CaptureCause, CaptureFault, CaptureStop};
use fault_report::FAULT;
use std::io::Write;
use text_lines::{Numbered, ReadingFault};

/// What is wrong with a capture.
fn words_of(fault: CaptureFault) -> &'static str {
    match fault {
        CaptureFault::NoCapture => "the input doesn't begin as a capture does",
        CaptureFault::Version => "the version of the capture isn't known",
        CaptureFault::ByteOrderMagic => "the octets that tell the order of numbers are none",
        CaptureFault::Length => "a length can't be",
        CaptureFault::Interface => "a packet is of an interface that wasn't described",
        CaptureFault::CutOff => "the capture ends within a packet or a block",
    }
}

/// The number of want of memory.
const MEMORY: u16 = 808;

/// The number of what stopped the reading of a capture.
fn number_of<F: Numbered>(cause: &CaptureCause<F>) -> u16 {
    match cause {
        CaptureCause::Read => ReadingFault::Read.number(),
        CaptureCause::Memory => MEMORY,
        CaptureCause::Capture(fault) => fault.number(),
        CaptureCause::Task(fault) => fault.number(),
    }
}

/// Says a fault, and answers the exit status of a fault, 3. What can't be written to `errors` is lost.
pub fn report_capture<F: Numbered + Copy, E: Write>(errors: &mut E, stop: CaptureStop<F>) -> u8
    ensures { result ≡ 3 }
{
    let CaptureStop {
        packets,
        octet,
        what,
    } = stop;
    let number = number_of(&what);
    let name = if packets == 1 { "packet" } else { "packets" };
    let _ = match what {
        CaptureCause::Capture(fault) => writeln!(
            errors,
            "ptpx: fault {number} at octet {octet}, after {packets} {name}: {}",
            words_of(fault)
        ),
        _ => writeln!(
            errors,
            "ptpx: fault {number} at octet {octet}, after {packets} {name}"
        ),
    };
    tell_unpacking(&what, errors);
    FAULT
}

/// Tells, of an input that isn't a capture, how one that is compressed is read. What can't be written is lost.
fn tell_unpacking<F, E: Write>(cause: &CaptureCause<F>, errors: &mut E) {
    if let CaptureCause::Capture(CaptureFault::NoCapture) = cause {
        let _ = writeln!(
            errors,
            "ptpx: where it is compressed, unpack it: gunzip -c FILE | ptpx extract"
        );
    }
}

/// Answers the exit status of a subcommand that took packets, 0 or that of the fault, which is said.
pub fn finish_capture<F: Numbered + Copy, E: Write>(
    errors: &mut E,
    answer: Result<u64, CaptureStop<F>>,
) -> u8
    ensures { result ≡ status_of answer }
{
    match answer {
        Ok(_) => 0,
        Err(stop) => report_capture(errors, stop),
    }
}
