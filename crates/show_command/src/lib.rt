//! What `ptpx show` runs.
#![tactic(auto)]

ghost use Rattle.fault_report.specs.Status.{status_of};
ghost use Rattle.show_command.specs.Run.{RunsShow};
ghost use Rattle.std.specs.Prelude.{◌≡◌};
ghost use Rattle.text_lines.specs.Lines.{input_limit, lines_limit, GivesWithin};

use datagram_text::show_lines;
use fault_report::{explain_fault, report};
use std::alloc::Global;
use std::io::{Read, Write};
use text_lines::{Cause, Counted, LineFault, ReadingFault, Stopped};

/// Shows the datagrams of the input, and answers the exit status: 0, or 3 at a fault, which goes to `errors`, with what its
/// number means where that is a terminal.
pub fn run_show<R: Read, W: Write, E: Write>(
    alloc: Global,
    is_terminal: bool,
    input: &mut Counted<R>,
    output: &mut Counted<W>,
    errors: &mut E,
) -> u8
    ensures runs { RunsShow R.remaining W.contents result input.old input.new output.old output.new }
    ensures bounded { GivesWithin R.remaining (input_limit lines_limit) input.old input.new }
{
    finish(errors, is_terminal, show_lines(alloc, input, output))
}

/// Answers the exit status, and says the fault.
fn finish<E: Write>(
    errors: &mut E,
    is_terminal: bool,
    answer: Result<u64, Stopped<Cause<LineFault>>>,
) -> u8
    ensures { result ≡ status_of answer }
{
    match answer {
        Ok(_) => 0,
        Err(stop) if is_terminal => explain_fault(errors, stop, meaning(stop.what)),
        Err(stop) => report(errors, stop),
    }
}

/// What the number of a fault means.
fn meaning(what: Cause<LineFault>) -> &'static str {
    match what {
        Cause::Reading(ReadingFault::Read) => "an input that can't be read",
        Cause::Reading(ReadingFault::LineTooLong) => "a line of more than 4096 octets",
        Cause::Reading(ReadingFault::TooManyLines) => "an input of more than 1048576 lines",
        Cause::Task(LineFault::Write) => "an output that can't be written",
        Cause::Task(LineFault::Field) => "a line that isn't pairs of hexadecimal digits",
        Cause::Task(LineFault::Memory) => "memory that was refused",
    }
}
