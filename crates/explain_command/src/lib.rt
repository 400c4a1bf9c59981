//! What `ptpx explain` runs.
#![tactic(auto)]

ghost use Rattle.explain_command.specs.Run.{RunsExplain, found_status, is_of_output, stopped_status};
ghost use Rattle.std.specs.Prelude.{◌≡◌};
ghost use Rattle.text_lines.specs.Lines.{input_limit, lines_limit, GivesWithin};

use command_options::ExplainOptions;
use exchange_check::Verdict;
use explain_transcript::{Explained, FoundInput, explain, write_judgements};
use fault_report::report;
use schedule_reading::TaskFault;
use std::alloc::Global;
use std::io::{Read, Write};
use text_lines::{Cause, Counted, Stopped};

/// Explains a transcript or a schedule, and answers the exit status, which is that of `check` or of `replay`.
pub fn run_explain<R: Read, W: Write, E: Write>(
    alloc: Global,
    options: ExplainOptions,
    input: &mut Counted<R>,
    output: &mut Counted<W>,
    errors: &mut E,
) -> u8
    ensures runs { RunsExplain R.remaining W.contents options result input.old input.new output.old output.new }
    ensures bounded { GivesWithin R.remaining (input_limit lines_limit) input.old input.new }
{
    if options.json {
        return match write_judgements(alloc, options.first, input, output) {
            Ok(found) => found_status(found),
            Err(stop) => finish_stopped(errors, output, stop),
        };
    }
    match explain(alloc, options.first, input, output) {
        Ok(Explained::Whole(found)) => found_status(found),
        Ok(Explained::Flawed { line, what }) => report(errors, Stopped { line, what }),
        Err(stop) => finish_stopped(errors, output, stop),
    }
}

/// Answers the exit status of `explain` where it stopped, and says its fault; that nobody reads any more, as behind
/// `head`, is none.
fn finish_stopped<W: Write, E: Write>(
    errors: &mut E,
    output: &Counted<W>,
    stop: Stopped<Cause<TaskFault>>,
) -> u8
    ensures { result ≡ stopped_status output.now stop.what }
{
    if is_of_output(stop.what) && output.is_unread() {
        return 0;
    }
    report(errors, stop)
}

/// Whether the writer failed at this.
fn is_of_output(what: Cause<TaskFault>) -> bool
    ensures { result ≡ is_of_output what }
{
    matches!(what, Cause::Task(TaskFault::Write))
}

/// The exit status of `explain` over a whole input: that of `check` or of `replay`.
fn found_status(found: FoundInput) -> u8
    ensures { result ≡ found_status found }
{
    match found {
        FoundInput::Transcript(Verdict::Accepted(_)) | FoundInput::Schedule(_) => 0,
        FoundInput::Transcript(Verdict::Refused { .. }) => 1,
    }
}
