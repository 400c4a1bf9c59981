//! What is wrong with a transcript or a schedule, for a person.
ghost use Rattle.std.specs.Prelude.{◌≡◌, ◌+◌, [], ◌∷◌, ◌++◌, List, ℕ, MatchResult, OnOk, Some, None, string_bytes};
ghost use Rattle.std.specs.Io.KnownBytes.{Appends};
ghost use Rattle.trace_model.specs.declared.verdict.Why.{Why};
ghost use Rattle.schedule_reading.specs.declared.fault.TaskFault.TheVariants.{World};
ghost use Rattle.schedule_reading.specs.Fault.{is_write};
ghost use Rattle.explain_story.specs.Counts.{counts_of};
ghost use Rattle.explain_story.specs.Report.{TellsReport};
ghost use Rattle.explain_input.specs.Input.{lines_in};
ghost use Rattle.explain_transcript.specs.declared.explaining.Explained.TheVariants.{Flawed};
ghost use Rattle.text_lines.specs.Counted.{device_of, failures_of, HasFailedIf, HasNotFailed};
ghost use Rattle.text_lines.specs.Lines.{input_limit, lines_limit, GivesWithin};
ghost use Rattle.explain_transcript.specs.Explained.{Seen, Sees, EndsIn, TellsEnd, TellsFound, TellsIf, TellsLine};
ghost use Rattle.explain_transcript.specs.Explained.{explain_rules, reported_of, with_report};
ghost use Rattle.explain_transcript.specs.Explained.{ExplainsAnswer, ExplainFailedWith, WritesMore};
ghost use Rattle.explain_transcript.specs.Judgements.{is_told};
ghost use Rattle.explain_transcript.specs.Inner.Explaining.{IsExplaining, IsKeptAlike, IsSeenAlike, HasEvent, HasEventFor};

use crate::flaws::{Flaws, push_foreign};
use crate::found::push_found;
use crate::refusal::{Before, push_clash};
use exchange_check::Results;
use explain_findings::Reported;
use explain_flaws::Foreign;
use explain_input::{FoundInput, Input, Taken};
use explain_story::{Story, ToldReasons};
use network_model::WorldRefusal;
use schedule_lines::TranscriptLine;
use schedule_reading::{Judged, TaskFault};
use std::alloc::{AllocError, Global};
use std::io::{Read, Write};
use text_lines::{
    Cause, Counted, LINES_LIMIT, LineTask, ReadingFault, Stopped, answer_lines, write_text,
};

/// What an input is found to be.
#[derive(Clone, Copy, Debug, PartialEq, Eq)]
pub enum Explained {
    /// It is a whole transcript or a whole schedule.
    Whole(FoundInput),
    /// It is neither.
    Flawed {
        /// The line of its first fault, counted from 1.
        line: u64,
        /// This fault.
        what: TaskFault,
    },
}

/// Tells of each line what is wrong with it, and what its report is judged to be.
#[derive(Drop)]
struct Explaining {
    alloc: Global,
    input: Input,
    /// The first fault, and what was seen of lines from there on.
    flaws: Option<Flaws>,
    /// Whether only the first report that is refused is told.
    first: bool,
    /// What was recorded of the lines, and what came of the reports.
    story: Story,
    /// What was told of reasons.
    told: ToldReasons,
    /// What is told of the last line, in the one text that all share.
    text: String,
    /// The kind of another input that the line begins with which can't be read.
    begins: Option<Foreign>,
}

impl LineTask for Explaining {
    type Answer = Explained;

    type Fault = TaskFault;

    ghost State = { Seen };

    ghost rules = { explain_rules };

    ghost is_at = { IsExplaining };

    fn lines_limit() -> u64 {
        LINES_LIMIT
    }

    /// Takes one more line, and writes what there is to tell of it, in one write.
    fn take<W: Write>(&mut self, line: &[u8], output: &mut Counted<W>) -> Result<(), TaskFault> {
        self.text.clear();
        self.tell_line(line)?;
        self.write(output)
    }

    /// Keeps which kind of another input a line begins with that can't be read.
    fn leave(&mut self, start: &[u8]) {
        self.begins = match Foreign::of(start) {
            // Its first line was to be seen whole.
            Some(Foreign::ObjectOverLines) => None,
            kind => kind,
        };
    }

    /// What the input is or its first fault, and what there is to tell at the end, in one write.
    fn finish<W: Write>(
        &mut self,
        _lines: u64,
        output: &mut Counted<W>,
    ) -> Result<Explained, TaskFault> {
        self.text.clear();
        let found = self.tell_end()?;
        self.write(output)?;
        Ok(found)
    }
}

impl Explaining {
    /// Writes what is to be told, where there is something.
    fn write<W: Write>(&self, output: &mut Counted<W>) -> Result<(), TaskFault>
        ensures written { MatchResult result
            (λ _. Appends (W.contents (device_of output.old)) (W.contents (device_of output.new)) (string_bytes self.now.text))
            (λ fault. fault ≡ TaskFault.Write) }
        ensures failures { MatchResult result
            (λ _. HasNotFailed output.old output.new)
            (λ fault. HasFailedIf (is_write fault) output.old output.new) }
    {
        match self.text.as_str() {
            "" => Ok(()),
            text => write_text(text, output),
        }
    }

    /// Tells what there is to tell of one more line.
    fn tell_line(&mut self, line: &[u8]) -> Result<(), TaskFault>
        ensures { (seen : Seen) → IsExplaining self.old seen → string_bytes self.old.text ≡ [] → MatchResult result
            (λ _. (later : Seen) × IsExplaining self.new later
            × Sees line.now seen.fault seen later (string_bytes self.new.text))
            (λ fault. fault ≡ TaskFault.Memory) }
    {
        match &mut self.flaws {
            Some(flaws) => Ok(flaws.look(self.alloc, line, &mut self.text)?),
            None => self.take_line(line),
        }
    }

    /// Takes a line where none before it has a fault, and tells its report, or its fault.
    fn take_line(&mut self, line: &[u8]) -> Result<(), TaskFault>
        ensures { (seen : Seen) → IsExplaining self.old seen → self.old.flaws ≡ None → string_bytes self.old.text ≡ []
            → MatchResult result
            (λ _. (later : Seen) × IsExplaining self.new later
            × Sees line.now None seen later (string_bytes self.new.text))
            (λ fault. fault ≡ TaskFault.Memory) }
    {
        match self.input.take(self.alloc, line) {
            Ok(taken) => Ok(self.tell_taken(taken)?),
            Err(TaskFault::Memory) => Err(TaskFault::Memory),
            Err(fault) => self.tell_fault(fault, line),
        }
    }

    /// Keeps what was recorded of a line that the input took, and tells its report.
    fn tell_taken(&mut self, taken: Taken) -> Result<(), AllocError>
        ensures alike { IsSeenAlike self.old self.new }
        ensures told { (reports : List (List Why)) → self.old.story ≡ counts_of reports
            → HasEventFor self.old.input taken.judged → string_bytes self.old.text ≡ []
            → OnOk result ((self.new.story ≡ counts_of (with_report taken.judged reports))
            × TellsLine self.old.first self.old.input taken.judged (string_bytes self.new.text)) }
    {
        let Taken { entry, judged } = taken;
        self.keep(entry)?;
        match judged {
            Some(judged) => self.tell_report(&reported(judged)),
            None => Ok(()),
        }
    }

    /// Keeps what was recorded of a line that a transcript took.
    fn keep(&mut self, entry: Option<TranscriptLine>) -> Result<(), AllocError>
        ensures { IsKeptAlike self.old self.new }
    {
        let Input::Transcript(transcript) = &self.input else {
            return Ok(());
        };
        match entry {
            Some(TranscriptLine::Node(node)) => self.story.push_node(node),
            Some(TranscriptLine::Event { line, .. }) => match transcript.checker() {
                Some(checker) => self.story.push_event(line, checker),
                None => Ok(()),
            },
            None => Ok(()),
        }
    }

    /// Counts a report, and tells what it is judged to be, where it is told.
    fn tell_report(&mut self, reported: &Reported) -> Result<(), AllocError>
        ensures alike { IsSeenAlike self.old self.new }
        ensures told { (reports : List (List Why)) → self.old.story ≡ counts_of reports
            → HasEvent self.old.input → string_bytes self.old.text ≡ []
            → OnOk result ((self.new.story ≡ counts_of (reported.now.judgement.reasons ∷ reports))
            × TellsIf (is_told self.old.first reported.now.event self.old.input) reported.now
            (string_bytes self.new.text)) }
    {
        let by_messages = self.by_messages(reported);
        self.count(reported, by_messages)?;
        if !self.is_told(reported.event) {
            return Ok(());
        }
        self.push_report(reported, by_messages)
    }

    /// The results of a report by the messages.
    fn by_messages(&self, reported: &Reported) -> Option<Results> {
        let Input::Transcript(transcript) = &self.input else {
            return None;
        };
        self.story.by_messages(reported, transcript.checker()?)
    }

    /// Counts a report, with its results by the messages.
    fn count(&mut self, reported: &Reported, by_messages: Option<Results>) -> Result<(), AllocError>
        ensures alike { IsSeenAlike self.old self.new }
        ensures text { self.new.text ≡ self.old.text }
        ensures counts { (reports : List (List Why)) → self.old.story ≡ counts_of reports
            → OnOk result (self.new.story ≡ counts_of (reported.now.judgement.reasons ∷ reports)) }
    {
        let checker = match &self.input {
            Input::Transcript(transcript) => transcript.checker(),
            Input::Schedule(_) => None,
        };
        self.story.count(reported, checker, by_messages)
    }

    /// Whether the report of the event of this number is told.
    fn is_told(&self, event: u64) -> bool
        ensures { result ≡ is_told self.now.first event self.now.input }
    {
        !self.first || self.input.is_first_refused(event)
    }

    /// Appends what a report is judged to be, which has these results by the messages, and where it is refused its exchange.
    fn push_report(
        &mut self,
        reported: &Reported,
        by_messages: Option<Results>,
    ) -> Result<(), AllocError>
        ensures alike { IsSeenAlike self.old self.new }
        ensures counts { self.new.story ≡ self.old.story }
        ensures told { HasEvent self.old.input → OnOk result ((told : List ℕ) × TellsReport reported.now told
            × (string_bytes self.new.text ≡ string_bytes self.old.text ++ told)) }
    {
        let Input::Transcript(transcript) = &self.input else {
            return Ok(());
        };
        match transcript.checker() {
            Some(checker) => {
                let story = &self.story;
                story.push_report(
                    &mut self.told,
                    &mut self.text,
                    checker,
                    reported,
                    by_messages,
                )
            }
            None => Ok(()),
        }
    }

    /// Tells the first fault, which is at this line.
    fn tell_fault(&mut self, fault: TaskFault, line: &[u8]) -> Result<(), TaskFault>
        ensures { (seen : Seen) → seen.first ≡ self.old.first → seen.input ≡ self.old.input
            → self.old.story ≡ counts_of seen.reports → MatchResult result
            (λ _. IsExplaining self.new (record seen { fault = Some (lines_in seen.input + 1, fault) }))
            (λ stop. stop ≡ TaskFault.Memory) }
    {
        let mut flaws = Flaws::new(self.input.next_line()?, fault, &self.input);
        let before = Before {
            nodes: self.story.nodes(),
            events: self.input.events(),
        };
        flaws.begin(self.alloc, before, line, &mut self.text)?;
        self.flaws = Some(flaws);
        Ok(())
    }

    /// Tells what there is to tell at the end.
    fn tell_end(&mut self) -> Result<Explained, TaskFault>
        ensures { (seen : Seen) → IsExplaining self.old seen → string_bytes self.old.text ≡ [] → MatchResult result
            (λ answer. EndsIn seen.input seen.fault answer
            × TellsEnd answer seen.reports (string_bytes self.new.text))
            (λ fault. fault ≡ TaskFault.Memory) }
    {
        if let Some(flaws) = &self.flaws {
            flaws.push_end(self.alloc, &mut self.text)?;
            return Ok(Explained::Flawed {
                line: flaws.first.line,
                what: flaws.first.what,
            });
        }
        match self.input.found() {
            Ok(found) => {
                self.tell_found(found)?;
                Ok(Explained::Whole(found))
            }
            Err(TaskFault::World(why)) => self.tell_no_network(why),
            Err(_) => Err(TaskFault::Memory),
        }
    }

    /// Tells what the input is; of a transcript first how many of its reports fail which conditions.
    fn tell_found(&mut self, found: FoundInput) -> Result<(), AllocError>
        ensures { (reports : List (List Why)) → self.old.story ≡ counts_of reports → string_bytes self.old.text ≡ []
            → OnOk result (TellsFound found reports (string_bytes self.new.text)) }
    {
        match found {
            FoundInput::Transcript(_) => {
                self.story.push_tally(&mut self.text)?;
                push_found(&mut self.text, found)
            }
            FoundInput::Schedule(_) => push_found(&mut self.text, found),
        }
    }

    /// Tells why the nodes, after which there is no event, are no network.
    fn tell_no_network(&mut self, why: WorldRefusal) -> Result<Explained, TaskFault>
        ensures { MatchResult result
            (λ answer. answer ≡ Flawed (lines_in self.old.input + 1) (World why))
            (λ fault. fault ≡ TaskFault.Memory) }
    {
        let line = self.input.next_line()?;
        push_clash(self.alloc, &mut self.text, self.story.nodes(), why)?;
        Ok(Explained::Flawed {
            line,
            what: TaskFault::World(why),
        })
    }

    /// Writes why a line can't be read. What can't be written is lost.
    fn tell_unread<W: Write>(&mut self, line: u64, what: ReadingFault, output: &mut Counted<W>)
        ensures { WritesMore (W.contents (device_of output.old)) (W.contents (device_of output.new))
            (failures_of output.old) (failures_of output.new) }
    {
        self.text.clear();
        let _ = self.push_unread(line, what);
        let _ = self.write(output);
    }

    /// Appends why a line can't be read; of an input of another kind, which it is.
    fn push_unread(&mut self, line: u64, what: ReadingFault) -> Result<(), AllocError> {
        if let Some(flaws) = &self.flaws {
            if flaws.is_foreign() {
                return Ok(());
            }
            flaws.push_untold(self.alloc, &mut self.text)?;
        }
        match (line, what, self.begins) {
            (1, ReadingFault::LineTooLong, Some(kind)) => push_foreign(&mut self.text, kind),
            _ => push_unread(&mut self.text, line, what),
        }
    }
}

/// A report, for its story.
fn reported(judged: Judged) -> Reported
    ensures { result ≡ reported_of judged }
{
    Reported {
        line: judged.line,
        event: judged.event,
        node: judged.node,
        report: judged.report,
        judgement: judged.judgement,
    }
}

/// Appends why a line can't be read.
fn push_unread(text: &mut String, line: u64, what: ReadingFault) -> Result<(), AllocError> {
    match what {
        ReadingFault::Read => write!(text, "line {line}: the input can't be read\n"),
        ReadingFault::LineTooLong => write!(
            text,
            "line {line}: more than 4096 octets; wanted is an LF after each node and each event\n"
        ),
        ReadingFault::TooManyLines => write!(
            text,
            "line {line}: an octet after the last of 1048576 lines; a longer input is to be cut\n"
        ),
    }
}

/// Says for a person what is wrong with a transcript or a schedule: of each line that isn't read, of the first 20 of
/// them, what is wrong with it; of an input of another kind, which it is; of each report that is refused, or where
/// `first` is asked for of the first alone, what stands against it; of an event of a schedule that the network
/// refuses, why; and at the end how many reports there are, and the verdict. What is told of a line is written
/// before the next one is read. After the first fault no report is judged. Answers what the input is, or its first
/// fault with its line.
///
/// The faults at which it stops are those of reading, `Write` and `Memory`.
pub fn explain<R: Read, W: Write>(
    alloc: Global,
    first: bool,
    input: &mut Counted<R>,
    output: &mut Counted<W>,
) -> Result<Explained, Stopped<Cause<TaskFault>>>
    ensures explained { ExplainsAnswer first R.remaining W.contents result input.old input.new output.old output.new }
    // Of any reader only so much is read, whatever the writer is.
    ensures bounded { GivesWithin R.remaining (input_limit lines_limit) input.old input.new }
    ensures failures { ExplainFailedWith result input.old input.new output.old output.new }
{
    let mut task = Explaining {
        alloc,
        input: Input::new(alloc),
        flaws: None,
        first,
        story: Story::new(alloc),
        told: ToldReasons::new(alloc),
        text: String::new(alloc),
        begins: None,
    };
    match answer_lines(&mut task, input, output) {
        Ok(answer) => Ok(answer),
        Err(stop) => match stop.what {
            Cause::Reading(what) => {
                task.tell_unread(stop.line, what, output);
                Err(stop)
            }
            Cause::Task(_) => Err(stop),
        },
    }
}
