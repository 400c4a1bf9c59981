//! Lines, each of which tells a time and a datagram, or a result.

ghost use Rattle.std.specs.Prelude.{◌≡◌, ◌+◌, MatchResult};
ghost use Rattle.audit_command.specs.AuditLines.{LinesRead, line_rules, is_told};
ghost use Rattle.audit_command.specs.Inner.Task.{IsAt};

use crate::ending::Ending;
use crate::task::AuditTask;
use datagram_source::{DATAGRAM_LIMIT, DatagramTask, LineForm, read_datagram, tell_compressed};
use std::io::Write;
use text_lines::{Counted, LineFault, LineTask};

/// The most lines of an input.
pub(crate) const LINES_MOST: u64 = u64::MAX - 1;

/// With what a line begins that tells a result.
pub(crate) const RESULT: u8 = b'{';

/// Whether a line tells a result: it begins as an object does.
pub(crate) fn begins_result(line: &[u8]) -> bool
    ensures { result ≡ is_told line.now }
{
    !line.is_empty() && line[0] == RESULT
}

/// The number of the line behind so many. One that can't be counted would be want of memory.
fn next_number(count: u64) -> Result<u64, LineFault>
    ensures { MatchResult result (λ number. number ≡ count + 1) (λ fault. fault ≡ LineFault.Memory) }
{
    match count.checked_add(1) {
        Some(number) => Ok(number),
        None => Err(LineFault::Memory),
    }
}

/// What is known at the end of lines.
#[derive(Clone, Copy)]
pub(crate) struct Finished {
    /// How many lines there were.
    pub(crate) lines: u64,
    /// What is told of results.
    pub(crate) ending: Ending,
}

/// Gives the datagrams and the results of lines to a task.
#[derive(Drop)]
pub(crate) struct AuditLines<'errors, E> {
    pub(crate) task: AuditTask,
    /// How many lines were taken.
    pub(crate) count: u64,
    /// What can't be written here is lost.
    pub(crate) errors: &'errors mut E,
}

impl<E: Write> LineTask for AuditLines<'_, E> {
    type Answer = Finished;

    type Fault = LineFault;

    ghost State = { LinesRead };

    ghost rules = { line_rules };

    ghost is_at = { λ source r. (source.count ≡ r.count) × IsAt source.task r.state };

    fn lines_limit() -> u64 {
        LINES_MOST
    }

    fn take<W: Write>(&mut self, line: &[u8], output: &mut Counted<W>) -> Result<(), LineFault> {
        if begins_result(line) {
            let number = next_number(self.count)?;
            self.task.take_line(line, number, output, self.errors)?;
            self.count = number;
            return Ok(());
        }
        tell_compressed(line, AuditTask::subcommand(), self.errors);
        let mut room = [0; DATAGRAM_LIMIT];
        match read_datagram(LineForm::Timed, self.count, line, &mut room) {
            Ok(datagram) => {
                self.task.take(&datagram, output, self.errors)?;
                self.count = datagram.number;
                Ok(())
            }
            Err(fault) => Err(fault),
        }
    }

    fn finish<W: Write>(
        &mut self,
        _lines: u64,
        output: &mut Counted<W>,
    ) -> Result<Finished, LineFault> {
        self.task.finish(output, self.errors)?;
        Ok(Finished {
            lines: self.count,
            ending: self.task.ending(),
        })
    }
}
