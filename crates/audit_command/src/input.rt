//! An input of datagrams and results: lines, or results and a capture behind them.

ghost use Rattle.std.specs.Prelude.{◌≡◌, ◌≢◌, ◌≤◌, ◌<◌, ◌++◌, [], length, Err, IfOk, MatchResult, IsTrue, IsFalse};
ghost use Rattle.std.specs.List.{All};
ghost use Rattle.std.specs.Option.{ForSome};
ghost use Rattle.std.specs.Io.KnownBytes.{Appends};
ghost use Rattle.text_lines.specs.Counted.{device_of, HasFailed, HasNotFailed};
ghost use Rattle.text_lines.specs.Lines.{line_limit, lfs_in};
ghost use Rattle.datagram_source.specs.Input.{OutcomeFailed};
ghost use Rattle.audit_command.specs.Audit.{Audited, audit_rules};
ghost use Rattle.audit_command.specs.Input.{AnswersAudit, answer_behind};
ghost use Rattle.audit_command.specs.Inner.Front.{CaptureAnswers, LinesAnswer};
ghost use Rattle.audit_command.specs.Inner.Task.{IsAt};

use crate::ending::Ending;
use crate::front::take_front;
use crate::lines::{AuditLines, Finished};
use crate::task::AuditTask;
use datagram_source::{InputOutcome, PacketCounts, answer_capture_behind};
use std::alloc::Global;
use std::io::{Read, Write};
use text_lines::{Cause, Counted, LineFault, Stopped, answer_lines_behind, write_text};

/// What came of an input.
#[derive(Drop)]
pub(crate) struct Ended {
    pub(crate) outcome: InputOutcome<LineFault>,
    /// As its calls left it.
    pub(crate) task: AuditTask,
    /// What is told of results.
    pub(crate) ending: Ending,
    /// Of a capture how many packets there were of each kind.
    pub(crate) packets: Option<PacketCounts>,
}

/// Where it stopped.
fn stopped(task: AuditTask, stop: Stopped<Cause<LineFault>>) -> Ended
    ensures { result.outcome ≡ InputOutcome.Lines (Err stop) }
{
    Ended {
        outcome: InputOutcome::Lines(Err(stop)),
        ending: task.ending(),
        task,
        packets: None,
    }
}

/// What goes out before anything is read.
fn write_head<W: Write>(head: &str, output: &mut Counted<W>) -> Result<(), LineFault>
    ensures written { MatchResult result
        (λ _. Appends (W.contents (device_of output.old)) (W.contents (device_of output.new)) head.now)
        (λ fault. (head.now ≢ []) × (fault ≡ LineFault.Write)) }
    ensures failures { MatchResult result
        (λ _. HasNotFailed output.old output.new)
        (λ fault. HasFailed output.old output.new) }
{
    if head.is_empty() {
        Ok(())
    } else {
        write_text(head, output)
    }
}

/// Whether an LF is among these octets.
fn has_lf(octets: &[u8]) -> bool
    ensures some { IsTrue result → 0 < lfs_in octets.now }
    ensures none { IsFalse result → All (λ x. x ≢ 10) octets.now }
{
    octets.contains(&b'\n')
}

/// Gives the datagrams and the results of an input to a task. Where results stand in front, what is behind them is lines, or a capture.
pub(crate) fn audit<R: Read, W: Write, E: Write>(
    alloc: Global,
    head: &str,
    task: AuditTask,
    input: &mut Counted<R>,
    output: &mut Counted<W>,
    errors: &mut E,
) -> Ended
    requires { (s : Audited) × IsAt task s }
    ensures answered { (s : Audited) → IsAt task s → AnswersAudit head.now s R.remaining W.contents result.outcome result.ending
        input.old input.new output.old output.new }
    ensures failures { OutcomeFailed audit_rules result.outcome input.old input.new output.old output.new }
{
    let mut task = task;
    if let Err(fault) = write_head(head, output) {
        let what = Cause::Task(fault);
        return stopped(task, Stopped { line: 0, what });
    }
    let (beginning, count) = match take_front(&mut task, input, output, errors) {
        Ok(front) => front,
        Err(stop) => return stopped(task, stop),
    };
    let start = beginning.octets();
    if beginning.is_capture() {
        return audit_capture(alloc, task, start, input, output, errors);
    }
    if has_lf(start) {
        let what = Cause::Task(LineFault::Field);
        let line = count.saturating_add(1);
        return stopped(task, Stopped { line, what });
    }
    audit_lines(task, count, start, input, output, errors)
}

/// Gives the datagrams of a capture to a task, of which these octets were read.
fn audit_capture<R: Read, W: Write, E: Write>(
    alloc: Global,
    task: AuditTask,
    start: &[u8],
    input: &mut Counted<R>,
    output: &mut Counted<W>,
    errors: &mut E,
) -> Ended
    requires most { length start.now ≤ 4 }
    requires stands { (s : Audited) × IsAt task s }
    ensures answered { (s : Audited) → IsAt task s → ForSome (R.remaining (device_of input.old)) (λ octets.
        CaptureAnswers s (start.now ++ octets) (R.remaining (device_of input.new))
        (W.contents (device_of output.old)) (W.contents (device_of output.new)) result.outcome result.ending) }
    ensures failures { OutcomeFailed audit_rules result.outcome input.old input.new output.old output.new }
{
    let (answer, task, packets) = answer_capture_behind(alloc, task, start, input, output, errors);
    Ended {
        outcome: InputOutcome::Capture(answer),
        ending: task.ending(),
        task,
        packets: Some(packets),
    }
}

/// What came of lines, behind so many.
fn answer_behind(
    count: u64,
    given: Result<Finished, Stopped<Cause<LineFault>>>,
) -> Result<u64, Stopped<Cause<LineFault>>>
    ensures { result ≡ answer_behind count given }
{
    match given {
        Ok(finished) => Ok(finished.lines),
        Err(stop) => Err(Stopped {
            line: stop.line.saturating_add(count),
            what: stop.what,
        }),
    }
}

/// What is told of results: what is known at the end of the lines, or what the task knows where they stopped.
fn ending_of(given: &Result<Finished, Stopped<Cause<LineFault>>>, task: &AuditTask) -> Ending
    ensures { IfOk given.now (λ finished. result ≡ finished.ending) }
{
    match given {
        Ok(finished) => finished.ending,
        Err(_) => task.ending(),
    }
}

/// Gives the datagrams and the results of lines to a task, behind so many lines, and of which these octets were read.
fn audit_lines<R: Read, W: Write, E: Write>(
    task: AuditTask,
    count: u64,
    start: &[u8],
    input: &mut Counted<R>,
    output: &mut Counted<W>,
    errors: &mut E,
) -> Ended
    requires unended { All (λ x. x ≢ 10) start.now }
    requires within { length start.now ≤ line_limit }
    requires stands { (s : Audited) × IsAt task s }
    ensures answered { (s : Audited) → IsAt task s → ForSome (R.remaining (device_of input.old)) (λ octets.
        LinesAnswer (record { count = count; state = s }) (start.now ++ octets) (R.remaining (device_of input.new))
        (W.contents (device_of output.old)) (W.contents (device_of output.new)) result.outcome result.ending) }
    ensures failures { OutcomeFailed audit_rules result.outcome input.old input.new output.old output.new }
{
    let mut lines = AuditLines {
        task,
        count,
        errors,
    };
    let given = answer_lines_behind(start, &mut lines, input, output);
    Ended {
        outcome: InputOutcome::Lines(answer_behind(count, given)),
        ending: ending_of(&given, &lines.task),
        task: lines.task,
        packets: None,
    }
}
