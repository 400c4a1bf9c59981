//! Results in front of all else.

ghost use Rattle.std.specs.Prelude.{◌≡◌, ◌≤◌, length, MatchResult, OnOk};
ghost use Rattle.std.specs.Option.{ForSome};
ghost use Rattle.text_lines.specs.Counted.{device_of, HasNotFailed};
ghost use Rattle.text_lines.specs.Lines.{line_limit, without_cr, IsFromReading};
ghost use Rattle.text_lines.specs.Task.{FailedAt};
ghost use Rattle.text_lines.specs.Inner.Reading.{IsUnended};
ghost use Rattle.audit_command.specs.Audit.{Audited};
ghost use Rattle.audit_command.specs.AuditLines.{line_rules};
ghost use Rattle.audit_command.specs.Inner.Front.{ReadsRest, LeavesFront, StopsFront};
ghost use Rattle.audit_command.specs.Inner.Task.{IsAt};

use crate::lines::{LINES_MOST, RESULT, begins_result};
use crate::task::AuditTask;
use arrayvec::ArrayVec;
use capture_file::Beginning;
use std::io::{Read, Write};
use text_lines::{Cause, Counted, LINE_LIMIT, LineFault, ReadingFault, Stopped};

/// A line that is read.
type Line = ArrayVec<u8, LINE_LIMIT>;

/// Reads what is left of a line, behind what was read of it.
fn read_rest<R: Read>(input: &mut Counted<R>, line: &mut Line) -> Result<(), ReadingFault>
    requires within { length line.old.items ≤ line_limit }
    requires unended { IsUnended line.old.items }
    ensures read { ReadsRest result line.old.items line.new.items (R.remaining (device_of input.old)) (R.remaining (device_of input.new)) }
    ensures failures { MatchResult result
        (λ _. HasNotFailed input.old input.new)
        (λ fault. IsFromReading fault input.old input.new) }
{
    let mut octet = [0];
    loop {
        match input.read(&mut octet) {
            Err(_) => return Err(ReadingFault::Read),
            Ok(0) => return Ok(()),
            Ok(_) if octet[0] == b'\n' => return Ok(()),
            Ok(_) if line.is_full() => return Err(ReadingFault::LineTooLong),
            Ok(_) => line.push(octet[0]),
        }
    }
}

/// A line without the CR at its end.
fn without_cr(line: &[u8]) -> &[u8]
    ensures line { result.now ≡ without_cr line.now }
    ensures within { length result.now ≤ length line.now }
{
    match line {
        [line @ .., b'\r'] => line,
        line => line,
    }
}

/// Takes the results in front, and answers what begins behind them, and how many there were.
pub(crate) fn take_front<R: Read, W: Write, E: Write>(
    task: &mut AuditTask,
    input: &mut Counted<R>,
    output: &mut Counted<W>,
    errors: &mut E,
) -> Result<(Beginning, u64), Stopped<Cause<LineFault>>>
    requires { (s : Audited) × IsAt task.old s }
    ensures taken { (s : Audited) → IsAt task.old s → ForSome (R.remaining (device_of input.old)) (λ octets.
        let left = R.remaining (device_of input.new) in
        let before = W.contents (device_of output.old) in
        let after = W.contents (device_of output.new) in
        MatchResult result
        (λ front. LeavesFront s octets front.0 front.1 task.new left before after)
        (λ stop. StopsFront s octets left before after stop)) }
    ensures stands { OnOk result ((s : Audited) × IsAt task.new s) }
    ensures failures { MatchResult result
        (λ _. HasNotFailed input.old input.new × HasNotFailed output.old output.new)
        (λ stop. FailedAt line_rules stop.what input.old input.new output.old output.new) }
{
    let mut line = Line::new();
    let mut count = 0;
    loop {
        let Ok(beginning) = Beginning::read(input) else {
            return Err(stop_at(count + 1, Cause::Reading(ReadingFault::Read)));
        };
        if !begins_result(beginning.octets()) {
            return Ok((beginning, count));
        }
        if count == LINES_MOST {
            return Err(stop_at(count + 1, Cause::Reading(ReadingFault::TooManyLines)));
        }
        line.clear();
        line.push(RESULT);
        if let Err(fault) = read_rest(input, &mut line) {
            return Err(stop_at(count + 1, Cause::Reading(fault)));
        }
        let told = without_cr(line.as_slice());
        if let Err(fault) = task.take_line(told, count + 1, output, errors) {
            return Err(stop_at(count + 1, Cause::Task(fault)));
        }
        count += 1;
    }
}

/// Why lines stopped, at this one.
fn stop_at(line: u64, what: Cause<LineFault>) -> Stopped<Cause<LineFault>>
    ensures { result ≡ record { line = line; what = what } }
{
    Stopped { line, what }
}
