//! A transcript, read and judged line by line.
ghost use Rattle.std.specs.Prelude.{◌≡◌, ◌≢◌, ◌⊎◌, ◌+◌, [], length, reverse, MatchOption, MatchResult, None, Ok};
ghost use Rattle.network_model.specs.Clash.{first_clash};
ghost use Rattle.trace_model.specs.Verdict.{verdict};
ghost use Rattle.schedule_lines.specs.declared.reading.transcript.TranscriptLine.TheVariants as recorded;
ghost use Rattle.schedule_reading.specs.Entry.{recorded_in, IsOwnFault};
ghost use Rattle.schedule_reading.specs.Transcript.{FaultsInTranscript, HasNoChecker, StopsAt, Takes, TakesAt};
ghost use Rattle.schedule_reading.specs.Inner.Transcript.{Judges};

use crate::fault::TaskFault;
use crate::reader::LineReader;
use crate::stage::Stage;
use exchange_check::{Checker, Judgement, Verdict};
use network_model::{Name, NodeSpec, Nodes, Report};
use schedule_lines::TranscriptLine;
use std::alloc::Global;
use std::marker::Model;
use trace_model::{TraceLine, TraceOut};

/// A report of a transcript, and what it is judged to be.
#[derive(Debug, Drop)]
pub struct Judged {
    /// The line of the input, counted from 1.
    pub line: u64,
    /// The event's place among the events, from 0.
    pub event: u64,
    /// The slave.
    pub node: Name,
    /// Its report.
    pub report: Report,
    /// What the report is judged to be.
    pub judgement: Judgement,
}

/// A transcript so far: its nodes, and a checker that begins with the first event.
#[derive(Drop)]
pub struct Transcript {
    alloc: Global,
    reader: LineReader,
    stage: Stage<Checker>,
    /// How many nodes there are.
    nodes: u64,
}

impl Model for Transcript {
    ghost use Rattle.schedule_reading.specs.Transcript.{Recorded};
    ghost use Rattle.schedule_reading.specs.Inner.Transcript.{recorded_of, IsReading};

    ghost Value = { Recorded };

    ghost view = { λ t. recorded_of t.stage };

    ghost invariant = { λ t. IsReading t.stage t.nodes };
}

impl Transcript {
    /// A transcript of which no line was taken yet.
    pub fn new(alloc: Global) -> Transcript
        ensures { result ≡ record { nodes = []; lines = [] } }
    {
        Transcript {
            alloc,
            reader: LineReader::new(alloc),
            stage: Stage::new(alloc),
            nodes: 0,
        }
    }

    /// Takes one more line, and answers the report of the line with what it is judged to be; none where
    /// the line has no report. `Json` for a line that is no JSON; `Field` for one that is neither a node
    /// nor a recorded event, a node after an event, or an event whose number isn't its place among the
    /// events, from 0; `World` where the nodes are no network; and `Memory`. The transcript is then as it
    /// was.
    pub fn take(&mut self, line: &[u8]) -> Result<Option<Judged>, TaskFault>
        ensures { MatchResult result
            (λ judged. Takes line.now self.old self.new judged)
            (λ fault. (self.new ≡ self.old) × FaultsInTranscript fault self.old.nodes self.old.lines line.now) }
    {
        let entry = self.read(line)?;
        self.take_entry(&entry)
    }

    /// What a line is, which isn't taken: a node, or an event with what was recorded of it. `Json` for a line that is no
    /// JSON, `Field` for one that is neither, and `Memory`.
    pub fn read(&mut self, line: &[u8]) -> Result<TranscriptLine, TaskFault>
        ensures same { self.new ≡ self.old }
        ensures read { MatchResult result
            (λ entry. recorded_in line.now ≡ Ok entry)
            (λ fault. (fault ≡ TaskFault.Memory) ⊎ IsOwnFault recorded_in fault line.now) }
    {
        self.reader.read_recorded(line)
    }

    /// Takes what one more line is, as [`take`](Transcript::take) does: for those who use more of it than its report.
    /// `Field` for a node after an event, or an event whose number isn't its place among the events, from 0; `World`
    /// where the nodes are no network; and `Memory`. The transcript is then as it was.
    pub fn take_entry(&mut self, entry: &TranscriptLine) -> Result<Option<Judged>, TaskFault>
        ensures { MatchResult result
            (λ judged. TakesAt entry.now self.old self.new judged)
            (λ fault. (self.new ≡ self.old) × StopsAt fault self.old entry.now) }
    {
        match entry {
            TranscriptLine::Node(node) => {
                self.push(*node)?;
                Ok(None)
            }
            TranscriptLine::Event { number, line } => self.feed(*number, line),
        }
    }

    /// Takes one more node, which stands before all events.
    fn push(&mut self, node: NodeSpec) -> Result<(), TaskFault>
        ensures { MatchResult result
            (λ _. TakesAt (recorded.Node node) self.old self.new None)
            (λ fault. (self.new ≡ self.old) × StopsAt fault self.old (recorded.Node node)) }
    {
        self.stage.push(node)?;
        self.nodes += 1;
        Ok(())
    }

    /// Takes what was recorded of one more event, whose number has to be its place among the events.
    fn feed(&mut self, number: u64, line: &TraceLine) -> Result<Option<Judged>, TaskFault>
        ensures { MatchResult result
            (λ judged. TakesAt (recorded.Event number line.now) self.old self.new judged)
            (λ fault. (self.new ≡ self.old) × StopsAt fault self.old (recorded.Event number line.now)) }
    {
        if number != self.events() {
            return Err(TaskFault::Field);
        }
        let at = line_number(self.nodes, number)?;
        let (Some(judgement), TraceOut::Report(report)) = (self.judge(line)?, &line.out) else {
            return Ok(None);
        };
        Ok(Some(Judged {
            line: at,
            event: number,
            node: line.event.node(),
            report: *report,
            judgement,
        }))
    }

    /// Judges one more line, by a checker that begins with the first event.
    fn judge(&mut self, line: &TraceLine) -> Result<Option<Judgement>, TaskFault>
        ensures { MatchResult result
            (λ judgement. Judges line.now self.old self.new judgement)
            (λ fault. (self.new ≡ self.old) × HasNoChecker fault self.old) }
    {
        match &mut self.stage {
            Stage::Nodes(_) => self.judge_first(line),
            Stage::Events(checker) => Ok(checker.feed_judged(line)?),
        }
    }

    /// The same of the first event. It stands apart since room for a whole checker would else be cleared for each line.
    #[inline(never)]
    fn judge_first(&mut self, line: &TraceLine) -> Result<Option<Judgement>, TaskFault>
        requires { self.old.lines ≡ [] }
        ensures { MatchResult result
            (λ judgement. Judges line.now self.old self.new judgement)
            (λ fault. (self.new ≡ self.old) × HasNoChecker fault self.old) }
    {
        let Stage::Nodes(nodes) = &self.stage else {
            unreachable!()
        };
        let mut checker = begin(self.alloc, nodes.as_slice())?;
        let judgement = checker.feed_judged(line)?;
        self.stage = Stage::Events(checker);
        Ok(judgement)
    }

    /// How many nodes there were.
    pub fn nodes(&self) -> u64
        ensures { result ≡ length self.now.nodes }
    {
        self.nodes
    }

    /// How many events there were.
    pub fn events(&self) -> u64
        ensures { result ≡ length self.now.lines }
    {
        match &self.stage {
            Stage::Nodes(_) => 0,
            Stage::Events(checker) => checker.len(),
        }
    }

    /// The nodes, where there was no event yet.
    pub fn nodes_alone(&self) -> Option<&[NodeSpec]>
        ensures { MatchOption result
            (self.now.lines ≢ [])
            (λ nodes. (nodes.now ≡ self.now.nodes) × (self.now.lines ≡ [])) }
    {
        match &self.stage {
            Stage::Nodes(nodes) => Some(nodes.as_slice()),
            Stage::Events(_) => None,
        }
    }

    /// The checker that the events were fed to; none where there was no event yet.
    pub fn checker(&self) -> Option<&Checker>
        ensures { MatchOption result
            (self.now.lines ≡ [])
            (λ checker. (checker.now.network ≡ self.now.nodes) × (reverse checker.now.lines ≡ self.now.lines)) }
    {
        match &self.stage {
            Stage::Nodes(_) => None,
            Stage::Events(checker) => Some(checker),
        }
    }

    /// The verdict on all events. Where there is none and the nodes are no network `World`, or `Memory`.
    pub fn verdict(&self) -> Result<Verdict, TaskFault>
        ensures { MatchResult result
            (λ answer. (answer ≡ verdict self.now.nodes self.now.lines) × (first_clash self.now.nodes ≡ None))
            (λ fault. (self.now.lines ≡ []) × HasNoChecker fault self.now) }
    {
        match &self.stage {
            Stage::Nodes(nodes) => Ok(begin(self.alloc, nodes.as_slice())?.verdict()),
            Stage::Events(checker) => Ok(checker.verdict()),
        }
    }
}

/// The line of the input, counted from 1, of the event of this number after so many nodes. More lines
/// than can be counted are refused as want of memory.
fn line_number(nodes: u64, event: u64) -> Result<u64, TaskFault>
    ensures { MatchResult result
        (λ line. line ≡ nodes + event + 1)
        (λ fault. fault ≡ TaskFault.Memory) }
{
    match nodes.checked_add(event) {
        Some(earlier) => earlier.checked_add(1).ok_or(TaskFault::Memory),
        None => Err(TaskFault::Memory),
    }
}

/// A checker of these nodes, which was fed nothing yet.
fn begin(alloc: Global, nodes: &[NodeSpec]) -> Result<Checker, TaskFault>
    ensures { MatchResult result
        (λ checker. (checker ≡ record { network = nodes.now; lines = [] }) × (first_clash nodes.now ≡ None))
        (λ fault. HasNoChecker fault (record { nodes = nodes.now; lines = [] })) }
{
    let network = Nodes::new(alloc, nodes)?;
    Ok(Checker::new(alloc, network)?)
}
