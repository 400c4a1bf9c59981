//! How `audit` runs.

ghost use Rattle.std.specs.Prelude.{◌≡◌, IfOk};
ghost use Rattle.audit_command.specs.Run.{RunsAudit, told_tolerance, tolerance_of};

use crate::input::{Ended, audit};
use crate::task::{AuditForm, AuditTask};
use capture_report::{finish_input, judged};
use command_options::AuditOptions;
use datagram_source::InputOutcome;
use ptp_units::ScaledTime;
use recording_measure::WantedPorts;
use result_verdict::Exact;
use std::alloc::{AllocError, Global};
use std::fmt::Write as _;
use std::io::{Read, Write};
use text_lines::{Cause, Counted, LineFault, Stopped};

/// By so many nanoseconds a number may be off: the seconds of a time, with its decimals.
fn nanoseconds_of(alloc: Global, tolerance: ScaledTime) -> Result<Exact, AllocError>
    ensures { IfOk result (λ exact. exact ≡ told_tolerance tolerance) }
{
    let (stamp, _) = tolerance.split();
    let mut text = String::new(alloc);
    write!(text, "{}.{:09}", stamp.seconds(), stamp.nanos())?;
    Ok(Exact::from_text(text.as_str()).unwrap_or_default())
}

/// By so much a number may be off: 1 ns, unless asked for.
fn tolerance_of(alloc: Global, tolerance: Option<ScaledTime>) -> Result<Exact, AllocError>
    ensures { IfOk result (λ exact. exact ≡ tolerance_of tolerance) }
{
    match tolerance {
        Some(tolerance) => nanoseconds_of(alloc, tolerance),
        None => Ok(Exact::from_text("1").unwrap_or_default()),
    }
}

/// Judges results by what is measured of an input, writes and tells what came of it, and answers the exit status.
pub fn run_audit<R: Read, W: Write, E: Write>(
    alloc: Global,
    options: AuditOptions,
    input: &mut Counted<R>,
    output: &mut Counted<W>,
    errors: &mut E,
) -> u8
    ensures { RunsAudit R.remaining W.contents options result input.old input.new output.old output.new }
{
    let wanted = WantedPorts {
        slave: options.slave,
        master: options.master,
        domain: options.domain,
        interface: options.interface,
        readings: options.readings,
    };
    let Ok(tolerance) = tolerance_of(alloc, options.tolerance) else {
        let what = Cause::Task(LineFault::Memory);
        let outcome = InputOutcome::Lines(Err(Stopped { line: 0, what }));
        return finish_input(errors, outcome, false);
    };
    let form = AuditForm {
        tolerance,
        has_path: !options.offset_only,
        is_table: options.csv,
    };
    let task = AuditTask::new(alloc, &wanted, form);
    let ended = audit(alloc, form.head(), task, input, output, errors);
    let status = finish_input(errors, ended.outcome, options.interface.is_some());
    tell(&ended, errors);
    judged(status, ended.ending.is_wrong())
}

/// Tells what came of packets, of what was measured where there is no report, and of results. What can't be written is lost.
fn tell<E: Write>(ended: &Ended, errors: &mut E) {
    if let Some(packets) = &ended.packets {
        packets.tell_packets(errors);
    }
    if !ended.task.measure.has_reported() {
        ended.task.measure.tell(errors);
    }
    let _ = write!(errors, "{}", ended.ending);
}
