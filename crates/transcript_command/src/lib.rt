//! What `ptpx replay` and `ptpx check` run.
#![tactic(auto)]

ghost use Rattle.fault_report.specs.Status.{status_of};
ghost use Rattle.std.specs.Prelude.{◌≡◌};
ghost use Rattle.text_lines.specs.Lines.{input_limit, lines_limit, GivesWithin};
ghost use Rattle.transcript_command.specs.Run.{RunsReplay, RunsCheck, check_status};

mod meaning;

use crate::meaning::{Lines, meaning};
use exchange_check::Verdict;
use fault_report::{explain_fault, report};
use std::alloc::Global;
use std::io::{Read, Write};
use text_lines::{Counted, Stopped};
use transcript_text::{Fault, check_text};

/// Replays the schedule of the input, and answers the exit status: 0, or 3 at a fault, which goes to `errors`, with what its
/// number means where that is a terminal.
pub fn run_replay<R: Read, W: Write, E: Write>(
    alloc: Global,
    is_terminal: bool,
    input: &mut Counted<R>,
    output: &mut Counted<W>,
    errors: &mut E,
) -> u8
    ensures runs { RunsReplay R.remaining W.contents result input.old input.new output.old output.new }
    ensures bounded { GivesWithin R.remaining (input_limit lines_limit) input.old input.new }
{
    match transcript_text::replay(alloc, input, output) {
        Ok(_) => 0,
        Err(fault) => finish(errors, is_terminal, Lines::Schedule, fault),
    }
}

/// Checks the transcript of the input, and answers the exit status: 0 where it is accepted, 1 where it is refused, and 3 at a
/// fault, which goes to `errors`, with what its number means where that is a terminal.
pub fn run_check<R: Read, W: Write, E: Write>(
    alloc: Global,
    is_terminal: bool,
    input: &mut Counted<R>,
    output: &mut Counted<W>,
    errors: &mut E,
) -> u8
    ensures runs { RunsCheck R.remaining W.contents result input.old input.new output.old output.new }
    ensures bounded { GivesWithin R.remaining (input_limit lines_limit) input.old input.new }
{
    match check_text(alloc, input, output) {
        Ok(Verdict::Accepted(_)) => 0,
        Ok(Verdict::Refused { .. }) => 1,
        Err(fault) => finish(errors, is_terminal, Lines::Transcript, fault),
    }
}

/// Says a fault, and answers the exit status.
fn finish<E: Write>(errors: &mut E, is_terminal: bool, lines: Lines, fault: Fault) -> u8
    ensures { result ≡ 3 }
{
    let Fault { line, what } = fault;
    let stop = Stopped { line, what };
    if is_terminal {
        explain_fault(errors, stop, meaning(lines, what))
    } else {
        report(errors, stop)
    }
}
