//! What `ptpx measure` runs.
#![tactic(auto)]

ghost use Rattle.measure_command.specs.Run.{RunsMeasure, form_of, is_beyond_limit, are_refused, is_refused};
ghost use Rattle.measure_command.specs.Run.{is_field, leaves_sums, EndsAs, EndsWithSums};
ghost use Rattle.recording_summary.specs.declared.beware.Rounded.{Rounded};
ghost use Rattle.std.specs.Prelude.{◌≡◌, ◌&&◌};

use capture_file::CaptureCause;
use capture_report::{finish_input, judged};
use command_options::MeasureOptions;
use datagram_source::InputOutcome;
use ptp_units::ScaledTime;
use recording_measure::{Counts, Form, Summary, WantedPorts, measure};
use std::alloc::Global;
use std::io::{Read, Write};
use text_lines::{Cause, Counted, LineFault, Numbered};

/// Measures a recording or a capture, writes and tells what came of it beside the reports, and answers the exit status.
pub fn run_measure<R: Read, W: Write, E: Write>(
    alloc: Global,
    options: MeasureOptions,
    input: &mut Counted<R>,
    output: &mut Counted<W>,
    errors: &mut E,
) -> u8
    ensures { RunsMeasure R.remaining W.contents options result input.old input.new output.old output.new }
{
    let wanted = WantedPorts {
        slave: options.slave,
        master: options.master,
        domain: options.domain,
        interface: options.interface,
        readings: options.readings,
    };
    let form = form_of(&options);
    let (outcome, summary) = measure(alloc, &wanted, form, input, output, errors);
    let status = finish_input(errors, outcome, options.interface.is_some());
    let is_asked = asks_sums(&options, &outcome);
    let status = end_with_sums(alloc, is_asked, &summary, status, output, errors);
    summary.tell(errors);
    judged(status, is_refused(&options, &summary.counts()))
}

/// Whether an offset is greater than the limit, either way, where there is one.
fn is_beyond_limit(limit: Option<ScaledTime>, counts: &Counts) -> bool
    ensures { result ≡ is_beyond_limit limit counts.now }
{
    match limit {
        Some(limit) => counts.is_beyond(limit),
        None => false,
    }
}

/// Whether numbers aren't as they are asked for: one is beyond a limit, or strictly asked they are doubtful.
fn are_refused(is_strict: bool, is_beyond: bool, is_doubtful: bool) -> bool
    ensures { result ≡ are_refused is_strict is_beyond is_doubtful }
{
    is_beyond || (is_strict && is_doubtful)
}

/// Whether the numbers aren't as these options ask for them.
fn is_refused(options: &MeasureOptions, counts: &Counts) -> bool
    ensures { (rounded : Rounded) × (result ≡ is_refused options.now rounded counts.now) }
{
    are_refused(
        options.strict,
        is_beyond_limit(options.limit, counts),
        counts.is_doubtful(),
    )
}

/// How measurements are asked for.
fn form_of(options: &MeasureOptions) -> Form
    ensures { result ≡ form_of options.now }
{
    if options.sum {
        Form::Sums
    } else if options.full {
        if options.csv {
            Form::FullTable
        } else {
            Form::FullJson
        }
    } else if options.csv {
        Form::Table
    } else {
        Form::Json
    }
}

/// Whether a fault says that a line isn't what is asked for.
fn is_field(fault: LineFault) -> bool
    ensures { result ≡ is_field fault }
{
    match fault {
        LineFault::Field => true,
        LineFault::Write | LineFault::Memory => false,
    }
}

/// Whether sums are written after this outcome: at the end, and after a fault of reading or of the input.
fn leaves_sums(outcome: &InputOutcome<LineFault>) -> bool
    ensures { result ≡ leaves_sums outcome.now }
{
    match outcome {
        InputOutcome::Lines(Ok(_)) | InputOutcome::Capture(Ok(_)) => true,
        InputOutcome::Lines(Err(stop)) => match stop.what {
            Cause::Reading(_) => true,
            Cause::Task(fault) => is_field(fault),
        },
        InputOutcome::Capture(Err(stop)) => match stop.what {
            CaptureCause::Read | CaptureCause::Capture(_) => true,
            CaptureCause::Memory => false,
            CaptureCause::Task(fault) => is_field(fault),
        },
    }
}

/// Whether sums are asked for, and written after this outcome.
fn asks_sums(options: &MeasureOptions, outcome: &InputOutcome<LineFault>) -> bool
    ensures { result ≡ (options.now.sum && leaves_sums outcome.now) }
{
    options.sum && leaves_sums(outcome)
}

/// Writes the sums, where they are asked for, and answers the exit status.
fn end_with_sums<W: Write, E: Write>(
    alloc: Global,
    is_asked: bool,
    summary: &Summary,
    status: u8,
    output: &mut Counted<W>,
    errors: &mut E,
) -> u8
    ensures { EndsAs W.contents is_asked status result output.old output.new }
{
    if is_asked {
        finish_sums(alloc, summary, status, output, errors)
    } else {
        status
    }
}

/// Writes the sums. Answers the exit status, and says the fault where they can't be written.
fn finish_sums<W: Write, E: Write>(
    alloc: Global,
    summary: &Summary,
    status: u8,
    output: &mut Counted<W>,
    errors: &mut E,
) -> u8
    ensures { EndsWithSums W.contents status result output.old output.new }
{
    match summary.write_sums(alloc, output) {
        Ok(()) => status,
        Err(fault) => {
            let _ = writeln!(
                errors,
                "ptpx: fault {}: the sums can't be written",
                fault.number()
            );
            3
        }
    }
}
