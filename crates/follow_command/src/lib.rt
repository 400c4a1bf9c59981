//! What `ptpx follow` runs.
#![tactic(auto)]

ghost use Rattle.std.specs.Prelude.{◌≡◌, ◌&&◌, List};
ghost use Rattle.tap_crossing.specs.declared.crossing.Crossing.{Crossing};
ghost use Rattle.tap_sums.specs.Held.{AreSums};
ghost use Rattle.follow_command.specs.Run.{RunsFollow, EndsAs, EndsWithSums, capture_status, fault_status, follow_status};
ghost use Rattle.follow_command.specs.Run.{lines_status, crossing_form, leaves_sums, is_field, is_beyond_limit, limited, lacking};

use capture_file::{CaptureCause, CaptureStop};
use capture_report::report_capture;
use command_options::FollowOptions;
use datagram_source::InputOutcome;
use fault_report::report;
use ptp_units::ScaledTime;
use std::alloc::Global;
use std::io::{Read, Write};
use tap_choice::{Sides, TapName, WantedTaps};
use tap_follow::{FollowFault, Form, Summary, follow};
use tap_sums::Sums;
use text_lines::{Cause, Counted, Numbered, Stopped};

/// Follows messages between two taps, tells whose they are and what came of them beside the crossings, and answers the exit status.
pub fn run_follow<R: Read, W: Write, E: Write>(
    alloc: Global,
    options: FollowOptions,
    input: &mut Counted<R>,
    output: &mut Counted<W>,
    errors: &mut E,
) -> u8
    ensures { RunsFollow R.remaining W.contents options result input.old input.new output.old output.new }
{
    let wanted = WantedTaps {
        from: options.from,
        to: options.to,
        domain: options.domain,
        master: options.master,
        slave: options.slave,
    };
    let form = crossing_form(&options);
    let (outcome, summary) = follow(alloc, &wanted, form, input, output, errors);
    let status = finish_followed(errors, &summary.taps(), outcome);
    let are_asked = asks_sums(&options, &outcome);
    let status = end_with_sums(alloc, are_asked, &summary, status, output, errors);
    summary.tell(errors);
    let status = limited(status, is_beyond(options.limit, &summary.sums()));
    let lacks = summary.lacks_tap();
    end_with_taps(&summary, lacks, status, errors)
}

/// Answers the exit status, 2 where a tap that is asked for wasn't met and nothing gives another; this is said then.
fn end_with_taps<E: Write>(summary: &Summary, lacks: bool, status: u8, errors: &mut E) -> u8
    ensures { result ≡ lacking status lacks }
{
    if status == 0 && lacks {
        summary.tell_lacking(errors);
        2
    } else {
        status
    }
}

/// How crossings are asked for.
fn crossing_form(options: &FollowOptions) -> Form
    ensures { result ≡ crossing_form options.now }
{
    if options.sum {
        Form::Sums
    } else if options.csv {
        Form::Table
    } else {
        Form::Json
    }
}

/// Whether sums are written after this outcome: at the end, and after a fault of reading or of the input, but for a third tap.
fn leaves_sums(outcome: &InputOutcome<FollowFault>) -> bool
    ensures { result ≡ leaves_sums outcome.now }
{
    match outcome {
        InputOutcome::Lines(Ok(_)) | InputOutcome::Capture(Ok(_)) => true,
        InputOutcome::Lines(Err(stop)) => match stop.what {
            Cause::Reading(_) => true,
            Cause::Task(fault) => is_field(fault),
        },
        InputOutcome::Capture(Err(stop)) => match stop.what {
            CaptureCause::Read | CaptureCause::Capture(_) => true,
            CaptureCause::Memory => false,
            CaptureCause::Task(fault) => is_field(fault),
        },
    }
}

/// Whether sums are asked for, and written after this outcome.
fn asks_sums(options: &FollowOptions, outcome: &InputOutcome<FollowFault>) -> bool
    ensures { result ≡ (options.now.sum && leaves_sums outcome.now) }
{
    options.sum && leaves_sums(outcome)
}

/// Whether a fault says that a line isn't what is asked for.
fn is_field(fault: FollowFault) -> bool
    ensures { result ≡ is_field fault }
{
    match fault {
        FollowFault::Field => true,
        FollowFault::Write | FollowFault::Memory | FollowFault::ThirdTap(_) => false,
    }
}

/// Writes the sums, where they are asked for, and answers the exit status.
fn end_with_sums<W: Write, E: Write>(
    alloc: Global,
    are_asked: bool,
    summary: &Summary,
    status: u8,
    output: &mut Counted<W>,
    errors: &mut E,
) -> u8
    ensures { EndsAs W.contents are_asked summary.now status result output.old output.new }
{
    if are_asked {
        finish_sums(alloc, summary, status, output, errors)
    } else {
        status
    }
}

/// Writes the sums. Answers the exit status, and says the fault where they can't be written.
fn finish_sums<W: Write, E: Write>(
    alloc: Global,
    summary: &Summary,
    status: u8,
    output: &mut Counted<W>,
    errors: &mut E,
) -> u8
    ensures { EndsWithSums W.contents summary.now status result output.old output.new }
{
    match summary.write_sums(alloc, output) {
        Ok(()) => status,
        Err(fault) => {
            let _ = writeln!(
                errors,
                "ptpx: fault {}: the sums can't be written",
                fault.number()
            );
            3
        }
    }
}

/// Whether the rest of a crossing is greater than the limit, either way, where there is one.
fn is_beyond(limit: Option<ScaledTime>, sums: &Sums) -> bool
    ensures { (all : List Crossing) → AreSums all sums.now → result ≡ is_beyond_limit limit all }
{
    match limit {
        Some(limit) => sums.is_beyond(limit),
        None => false,
    }
}

/// The exit status where none speaks against it: 1 where a rest is beyond the limit.
fn limited(status: u8, is_beyond: bool) -> u8
    ensures { result ≡ limited status is_beyond }
{
    if status == 0 && is_beyond { 1 } else { status }
}

/// Answers the exit status of `follow`, and says its fault.
fn finish_followed<E: Write>(errors: &mut E, taps: &Sides, outcome: InputOutcome<FollowFault>) -> u8
    ensures { result ≡ follow_status outcome }
{
    match outcome {
        InputOutcome::Lines(answer) => finish_lines(errors, taps, answer),
        InputOutcome::Capture(answer) => finish_capture(errors, taps, answer),
    }
}

fn finish_lines<E: Write>(
    errors: &mut E,
    taps: &Sides,
    answer: Result<u64, Stopped<Cause<FollowFault>>>,
) -> u8
    ensures { result ≡ lines_status answer }
{
    let Err(stop) = answer else {
        return 0;
    };
    let what = stop.what;
    report(errors, stop);
    match what {
        Cause::Task(fault) => finish_fault(errors, taps, fault),
        Cause::Reading(_) => 3,
    }
}

fn finish_capture<E: Write>(
    errors: &mut E,
    taps: &Sides,
    answer: Result<u64, CaptureStop<FollowFault>>,
) -> u8
    ensures { result ≡ capture_status answer }
{
    let Err(stop) = answer else {
        return 0;
    };
    let what = stop.what;
    report_capture(errors, stop);
    match what {
        CaptureCause::Task(fault) => finish_fault(errors, taps, fault),
        CaptureCause::Read | CaptureCause::Memory | CaptureCause::Capture(_) => 3,
    }
}

/// Answers the exit status of a fault. Of a third tap it says what to do about it.
fn finish_fault<E: Write>(errors: &mut E, taps: &Sides, fault: FollowFault) -> u8
    ensures { result ≡ fault_status fault }
{
    match fault {
        FollowFault::ThirdTap(third) => {
            tell_third(errors, taps, &third);
            2
        }
        FollowFault::Write | FollowFault::Field | FollowFault::Memory => 3,
    }
}

/// Tells the three taps, and what to do about them.
fn tell_third<E: Write>(errors: &mut E, taps: &Sides, third: &TapName) {
    let _ = write!(errors, "ptpx: PTP was met at a third tap, {}", third.text());
    if let (Some(first), Some(second)) = (taps.first, taps.second) {
        let _ = match (taps.is_first_met, taps.is_second_met) {
            (true, false) => write!(
                errors,
                ", beside {}, and not at {}",
                first.text(),
                second.text()
            ),
            (false, true) => write!(
                errors,
                ", beside {}, and not at {}",
                second.text(),
                first.text()
            ),
            _ => write!(errors, ", beside {} and {}", first.text(), second.text()),
        };
    }
    let _ = writeln!(errors, "; --from and --to say which two are meant");
}
