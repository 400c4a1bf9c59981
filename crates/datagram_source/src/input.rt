//! An input of datagrams: lines, or a capture.
ghost use Rattle.std.specs.Prelude.{◌≡◌, ◌≢◌, ◌≤◌, ◌<◌, ◌++◌, [], length, MatchResult, Err, IsTrue, IsFalse};
ghost use Rattle.std.specs.List.{All};
ghost use Rattle.std.specs.Option.{ForSome};
ghost use Rattle.std.specs.Io.KnownBytes.{Appends};
ghost use Rattle.text_lines.specs.Counted.{device_of, HasFailed, HasNotFailed};
ghost use Rattle.text_lines.specs.Lines.{line_limit, lfs_in};
ghost use Rattle.datagram_source.specs.Input.{AnswersInput, OutcomeFailed};
ghost use Rattle.capture_file.specs.Task.{Answers, FailedAt};
ghost use Rattle.datagram_source.specs.Left.{LeavesCapture, LeavesInput};
ghost use Rattle.datagram_source.specs.Rules.{packet_rules};
ghost use Rattle.datagram_source.specs.Inner.Outcomes.{LinesAnswer, PacketsAnswer, LinesLeave, PacketsLeave};

use crate::lines::LineSource;
use crate::packet_counts::PacketCounts;
use crate::packets::PacketSource;
use crate::task::DatagramTask;
use capture_file::{Beginning, CaptureStop, answer_packets_behind};
use std::alloc::Global;
use std::io::{Read, Write};
use text_lines::{
    Cause, Counted, LineFault, ReadingFault, Stopped, answer_lines_behind, write_text,
};

/// What came of an input.
#[derive(Clone, Copy, Debug)]
pub enum InputOutcome<F> {
    /// It was lines: how many there were, or at which one it stopped, and why.
    Lines(Result<u64, Stopped<Cause<F>>>),
    /// It was a capture: how many packets there were, or where it stopped, and why.
    Capture(Result<u64, CaptureStop<F>>),
}

/// Gives all datagrams of an input to a task in turn, and ends after the last. An input whose first four octets are a magic of a
/// capture is one, and each packet that carries a datagram of PTP gives it, as one that was met at its interface, unless the task asks
/// for another. Any other is lines, each of the form that the task reads. The head goes out before anything is read.
///
/// Answers what came of the input; the task, as its calls left it; and of a capture how many packets there were of each kind.
///
/// What a datagram brings goes out before an octet behind its line or packet is read, but for a first line that is refused: where a
/// magic begins with the first octet, four are read.
///
/// The faults are those of reading and of a capture, those of the task, and as the task has them 802 (the head can't be written) and 806
/// (a line that tells no datagram).
pub fn answer_datagrams<T: DatagramTask, R: Read, W: Write, E: Write>(
    alloc: Global,
    head: &'static str,
    task: T,
    input: &mut Counted<R>,
    output: &mut Counted<W>,
    errors: &mut E,
) -> (InputOutcome<T::Fault>, T, Option<PacketCounts>)
    requires { (start : T.State) × T.is_at task start }
    ensures answered { (start : T.State) → T.is_at task start → AnswersInput T.rules head.now start R.remaining W.contents result.0
        input.old input.new output.old output.new }
    ensures left { (start : T.State) → T.is_at task start → ForSome (R.remaining (device_of input.old)) (λ octets.
        LeavesInput T.rules start octets result.0 (T.is_at result.1)) }
    ensures failures { OutcomeFailed T.rules result.0 input.old input.new output.old output.new }
{
    if let Err(fault) = write_head(head, output) {
        return stopped(task, 0, Cause::Task(T::fault_of(fault)));
    }
    let Ok(beginning) = Beginning::read(input) else {
        return stopped(task, 1, Cause::Reading(ReadingFault::Read));
    };
    let start = beginning.octets();
    if beginning.is_capture() {
        return capture_outcome(alloc, task, start, input, output, errors);
    }
    if has_lf(start) {
        return stopped(task, 1, Cause::Task(T::fault_of(LineFault::Field)));
    }
    answer_lines(task, start, input, output, errors)
}

/// What goes out before anything is read.
fn write_head<W: Write>(head: &str, output: &mut Counted<W>) -> Result<(), LineFault>
    ensures written { MatchResult result
        (λ _. Appends (W.contents (device_of output.old)) (W.contents (device_of output.new)) head.now)
        (λ fault. (head.now ≢ []) × (fault ≡ LineFault.Write)) }
    ensures failures { MatchResult result
        (λ _. HasNotFailed output.old output.new)
        (λ fault. HasFailed output.old output.new) }
{
    if head.is_empty() {
        Ok(())
    } else {
        write_text(head, output)
    }
}

/// Whether an LF is among these octets.
fn has_lf(octets: &[u8]) -> bool
    ensures some { IsTrue result → 0 < lfs_in octets.now }
    ensures none { IsFalse result → All (λ x. x ≢ 10) octets.now }
{
    octets.contains(&b'\n')
}

/// What came of lines where one stops them before anything is given to the task.
fn stopped<T: DatagramTask>(
    task: T,
    line: u64,
    what: Cause<T::Fault>,
) -> (InputOutcome<T::Fault>, T, Option<PacketCounts>)
    ensures outcome { result.0 ≡ InputOutcome.Lines (Err (record { line = line; what = what })) }
    ensures task { result.1 ≡ task }
{
    (InputOutcome::Lines(Err(Stopped { line, what })), task, None)
}

/// Gives the datagrams of lines to a task, of which these octets were read.
fn answer_lines<T: DatagramTask, R: Read, W: Write, E: Write>(
    task: T,
    start: &[u8],
    input: &mut Counted<R>,
    output: &mut Counted<W>,
    errors: &mut E,
) -> (InputOutcome<T::Fault>, T, Option<PacketCounts>)
    requires unended { All (λ x. x ≢ 10) start.now }
    requires within { length start.now ≤ line_limit }
    requires stands { (state : T.State) × T.is_at task state }
    ensures answered { (state : T.State) → T.is_at task state → ForSome (R.remaining (device_of input.old)) (λ octets.
        LinesAnswer T.rules state (start.now ++ octets) (R.remaining (device_of input.new))
        (W.contents (device_of output.old)) (W.contents (device_of output.new)) result.0) }
    ensures left { (state : T.State) → T.is_at task state → ForSome (R.remaining (device_of input.old)) (λ octets.
        LinesLeave T.rules state (start.now ++ octets) result.0 (T.is_at result.1)) }
    ensures failures { OutcomeFailed T.rules result.0 input.old input.new output.old output.new }
{
    let mut source = LineSource {
        task,
        count: 0,
        errors,
    };
    let answer = answer_lines_behind(start, &mut source, input, output);
    (InputOutcome::Lines(answer), source.task, None)
}

/// What came of a capture of which these octets were read.
fn capture_outcome<T: DatagramTask, R: Read, W: Write, E: Write>(
    alloc: Global,
    task: T,
    start: &[u8],
    input: &mut Counted<R>,
    output: &mut Counted<W>,
    errors: &mut E,
) -> (InputOutcome<T::Fault>, T, Option<PacketCounts>)
    requires most { length start.now ≤ 4 }
    requires stands { (state : T.State) × T.is_at task state }
    ensures answered { (state : T.State) → T.is_at task state → ForSome (R.remaining (device_of input.old)) (λ octets.
        PacketsAnswer T.rules state (start.now ++ octets) (R.remaining (device_of input.new))
        (W.contents (device_of output.old)) (W.contents (device_of output.new)) result.0) }
    ensures left { (state : T.State) → T.is_at task state → ForSome (R.remaining (device_of input.old)) (λ octets.
        PacketsLeave T.rules state (start.now ++ octets) result.0 (T.is_at result.1)) }
    ensures failures { OutcomeFailed T.rules result.0 input.old input.new output.old output.new }
{
    let (answer, task, counts) = answer_capture_behind(alloc, task, start, input, output, errors);
    (InputOutcome::Capture(answer), task, Some(counts))
}

/// Gives the datagrams of a capture to a task, of which these octets were read.
pub fn answer_capture_behind<T: DatagramTask, R: Read, W: Write, E: Write>(
    alloc: Global,
    task: T,
    start: &[u8],
    input: &mut Counted<R>,
    output: &mut Counted<W>,
    errors: &mut E,
) -> (Result<u64, CaptureStop<T::Fault>>, T, PacketCounts)
    requires most { length start.now ≤ 4 }
    requires stands { (state : T.State) × T.is_at task state }
    ensures answered { (state : T.State) → T.is_at task state → ForSome (R.remaining (device_of input.old)) (λ octets.
        Answers (packet_rules T.rules) state (start.now ++ octets) (R.remaining (device_of input.new))
        (W.contents (device_of output.old)) (W.contents (device_of output.new)) result.0) }
    ensures left { (state : T.State) → T.is_at task state → ForSome (R.remaining (device_of input.old)) (λ octets.
        LeavesCapture T.rules state (start.now ++ octets) result.0 (T.is_at result.1)) }
    ensures failures { MatchResult result.0
        (λ _. HasNotFailed input.old input.new × HasNotFailed output.old output.new)
        (λ stop. FailedAt (packet_rules T.rules) stop.what input.old input.new output.old output.new) }
{
    let counts = PacketCounts::new(task.asked());
    let mut source = PacketSource {
        task,
        counts,
        errors,
    };
    let answer = answer_packets_behind(alloc, start, &mut source, input, output);
    (answer, source.task, source.counts)
}

/// Gives the datagrams of a capture to a task in turn, and ends after the last: those of packets at the interface that the task asks
/// for, or at any. What a datagram brings goes out before an octet behind its packet is read.
///
/// Answers how many packets there were, or where it stopped and why; the task, as its calls left it; and how many packets there were of
/// each kind. The faults are those of a capture, among them that it is none, and those of the task.
pub fn answer_capture<T: DatagramTask, R: Read, W: Write, E: Write>(
    alloc: Global,
    task: T,
    input: &mut Counted<R>,
    output: &mut Counted<W>,
    errors: &mut E,
) -> (Result<u64, CaptureStop<T::Fault>>, T, PacketCounts)
    requires { (start : T.State) × T.is_at task start }
    ensures answered { (start : T.State) → T.is_at task start → ForSome (R.remaining (device_of input.old)) (λ octets.
        Answers (packet_rules T.rules) start octets (R.remaining (device_of input.new))
        (W.contents (device_of output.old)) (W.contents (device_of output.new)) result.0) }
    ensures left { (start : T.State) → T.is_at task start → ForSome (R.remaining (device_of input.old)) (λ octets.
        LeavesCapture T.rules start octets result.0 (T.is_at result.1)) }
    ensures failures { MatchResult result.0
        (λ _. HasNotFailed input.old input.new × HasNotFailed output.old output.new)
        (λ stop. FailedAt (packet_rules T.rules) stop.what input.old input.new output.old output.new) }
{
    answer_capture_behind(alloc, task, &[], input, output, errors)
}
