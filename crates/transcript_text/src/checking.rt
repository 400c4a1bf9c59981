//! A transcript that is checked line by line.
ghost use Rattle.std.specs.Prelude.{◌≡◌};
ghost use Rattle.schedule_reading.specs.Transcript.{Recorded};
ghost use Rattle.transcript_text.specs.Fault.{FailedWith};
ghost use Rattle.transcript_text.specs.CheckText.{check_rules, ChecksAnswer};
ghost use Rattle.text_lines.specs.Lines.{input_limit, lines_limit, GivesWithin};

use crate::fault::Fault;
use exchange_check::Verdict;
use schedule_reading::{TaskFault, Transcript, push_verdict};
use std::alloc::Global;
use std::io::{Read, Write};
use text_lines::{Counted, LINES_LIMIT, LineTask, answer_lines, write_text};

/// Checks each line of a transcript.
#[derive(Drop)]
struct Checking {
    alloc: Global,
    transcript: Transcript,
}

impl LineTask for Checking {
    type Answer = Verdict;

    type Fault = TaskFault;

    ghost State = { Recorded };

    ghost rules = { check_rules };

    ghost is_at = { λ task state. task.transcript ≡ state };

    fn lines_limit() -> u64 {
        LINES_LIMIT
    }

    fn take<W: Write>(&mut self, line: &[u8], _output: &mut Counted<W>) -> Result<(), TaskFault> {
        self.transcript.take(line)?;
        Ok(())
    }

    /// The verdict on all events, which is written.
    fn finish<W: Write>(
        &mut self,
        _lines: u64,
        output: &mut Counted<W>,
    ) -> Result<Verdict, TaskFault> {
        let verdict = self.transcript.verdict()?;
        let mut text = String::new(self.alloc);
        push_verdict(&mut text, verdict)?;
        write_text::<W, TaskFault>(text.as_str(), output)?;
        Ok(verdict)
    }
}

/// Checks a transcript: lines of nodes and then of events with what was recorded of them, each a
/// JSON object, of whatever origin. After the last line one line is written, `accepted` with the
/// number of report lines where each is sound, or `refused event` with the number of the first that
/// isn't and the number of the reason. Answers the verdict.
///
/// The faults are 801 to 804; 805 for a line that is no JSON; 806 for a line that is neither a node
/// nor a recorded event, a node after an event, or an event whose number isn't its place among the
/// events, from 0; 807 where the nodes are no network; and 808. What the nodes are refused for
/// stands at the line of the first event, or after the last line where there is none. A fault comes
/// in place of the verdict.
pub fn check_text<R: Read, W: Write>(
    alloc: Global,
    input: &mut Counted<R>,
    output: &mut Counted<W>,
) -> Result<Verdict, Fault>
    ensures checked { ChecksAnswer R.remaining W.contents result input.old input.new output.old output.new }
    // Of any reader only so much is read, whatever the writer is.
    ensures bounded { GivesWithin R.remaining (input_limit lines_limit) input.old input.new }
    ensures failures { FailedWith result input.old input.new output.old output.new }
{
    let mut task = Checking {
        alloc,
        transcript: Transcript::new(alloc),
    };
    Ok(answer_lines(&mut task, input, output)?)
}
