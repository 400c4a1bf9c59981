//! A transcript whose reports are judged, a line of JSON each.
ghost use Rattle.std.specs.Prelude.{◌≡◌, MatchResult};
ghost use Rattle.text_lines.specs.Counted.{HasNotFailed};
ghost use Rattle.text_lines.specs.Lines.{input_limit, lines_limit, GivesWithin};
ghost use Rattle.text_lines.specs.Task.{FailedAt};
ghost use Rattle.explain_transcript.specs.Judgements.{Told, is_told, judgement_rules, JudgesAnswer};
ghost use Rattle.explain_transcript.specs.Inner.Noting.{IsNotedIn};

use crate::details::{details_of, note};
use crate::json::push_judged;
use exchange_check::Evidence;
use explain_input::{FoundInput, Input};
use schedule_reading::TaskFault;
use std::alloc::Global;
use std::io::{Read, Write};
use text_lines::{Cause, Counted, LINES_LIMIT, LineTask, Stopped, answer_lines, write_text};

/// Judges each report of a transcript.
#[derive(Drop)]
struct Judging {
    alloc: Global,
    input: Input,
    /// What was noted of the events of a transcript.
    evidence: Evidence,
    /// Whether only the first report that is refused is told.
    first: bool,
    /// The line of the last report, in the one text that all share.
    text: String,
}

impl LineTask for Judging {
    type Answer = FoundInput;

    type Fault = TaskFault;

    ghost State = { Told };

    ghost rules = { judgement_rules };

    ghost is_at = { λ task told. (told ≡ record { first = task.first; input = task.input })
        × IsNotedIn task.evidence task.input };

    fn lines_limit() -> u64 {
        LINES_LIMIT
    }

    /// Takes one more line, and writes what its report is judged to be, in one write.
    fn take<W: Write>(&mut self, line: &[u8], output: &mut Counted<W>) -> Result<(), TaskFault> {
        let taken = self.input.take(self.alloc, line)?;
        note(&mut self.evidence, &self.input, &taken)?;
        let reported = taken.judged;
        let Some(judged) = reported else {
            return Ok(());
        };
        if !self.is_told(judged.event) {
            return Ok(());
        }
        let details = details_of(&self.evidence, &self.input, &judged.report);
        self.text.clear();
        push_judged(&mut self.text, &judged, &details)?;
        write_text(self.text.as_str(), output)
    }

    /// What the input is; nothing is written.
    fn finish<W: Write>(
        &mut self,
        _lines: u64,
        _output: &mut Counted<W>,
    ) -> Result<FoundInput, TaskFault> {
        self.input.found()
    }
}

impl Judging {
    /// Whether the report of the event of this number is told.
    fn is_told(&self, event: u64) -> bool
        ensures { result ≡ is_told self.now.first event self.now.input }
    {
        !self.first || self.input.is_first_refused(event)
    }
}

/// Judges each report of a transcript, which is read as `ptpx check` reads it; where `first` is asked
/// for, only the first that is refused is told. For each report one line is written, before the next
/// line is read: a JSON object with all reasons against the report, in their order, with what the results are by the
/// readings and by the messages, how wrong the report is, and when it was. A schedule has no reports, and is read as
/// `ptpx replay` reads it. Answers the verdict, or how many events the schedule has. The lines before a fault were
/// answered then.
///
/// The faults are those of reading; `Json` for a line that is no JSON; `Field` for one that is neither
/// a node nor an event, a node after an event, or a recorded event whose number isn't its place among the
/// events, from 0; `World` where the nodes are no network, or an event of a schedule can't happen in it; `Write`, and
/// `Memory`.
pub fn write_judgements<R: Read, W: Write>(
    alloc: Global,
    first: bool,
    input: &mut Counted<R>,
    output: &mut Counted<W>,
) -> Result<FoundInput, Stopped<Cause<TaskFault>>>
    ensures judged { JudgesAnswer first R.remaining W.contents result input.old input.new output.old output.new }
    // Of any reader only so much is read, whatever the writer is.
    ensures bounded { GivesWithin R.remaining (input_limit lines_limit) input.old input.new }
    ensures failures { MatchResult result
        (λ _. HasNotFailed input.old input.new × HasNotFailed output.old output.new)
        (λ stop. FailedAt judgement_rules stop.what input.old input.new output.old output.new) }
{
    let mut task = Judging {
        alloc,
        input: Input::new(alloc),
        evidence: Evidence::new(alloc),
        first,
        text: String::new(alloc),
    };
    answer_lines(&mut task, input, output)
}
