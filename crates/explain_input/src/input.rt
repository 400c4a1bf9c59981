//! What the lines of an input are: a transcript or a schedule.
ghost use Rattle.std.specs.Prelude.{◌≡◌, ◌≢◌, ◌≤◌, ◌⊎◌, ◌+◌, [], reverse, MatchOption, MatchResult, None};
ghost use Rattle.network_model.specs.declared.event.Event.{Event};
ghost use Rattle.world_model.specs.State.{new_state};
ghost use Rattle.schedule_reading.specs.Schedule.{FaultsIn};
ghost use Rattle.schedule_reading.specs.Transcript as transcripts;
ghost use Rattle.explain_input.specs.declared.input.Input.TheVariants as inputs;
ghost use Rattle.explain_input.specs.Input.{nothing, lines_in, run_in, is_first_refused, BeginsSchedule, Happens};
ghost use Rattle.explain_input.specs.Input.{Takes, Enters, Faults, IsFound, FaultsAtEnd};
ghost use Rattle.explain_input.specs.Inner.Refused.{IsNoneOf};

use crate::schedule::Scheduled;
use exchange_check::Verdict;
use network_model::Event;
use schedule_lines::{Line, TranscriptLine};
use schedule_reading::{Judged, TaskFault, Transcript, read_entry};
use std::alloc::Global;

/// What an input is, where it is whole.
#[derive(Clone, Copy, Debug, PartialEq, Eq)]
pub enum FoundInput {
    /// A transcript, with this verdict.
    Transcript(Verdict),
    /// A schedule of so many events, which all happen.
    Schedule(u64),
}

/// What the lines of an input are so far. Nodes alone are a transcript; where the first event has no record of what came
/// of it, the input is a schedule from there on.
#[derive(Drop)]
pub enum Input {
    /// A transcript, whose reports are judged.
    Transcript(Transcript),
    /// A schedule, whose events happen.
    Schedule(Scheduled),
}

/// A line that was taken.
#[derive(Drop)]
pub struct Taken {
    /// What a line of a transcript is; none of a schedule.
    pub entry: Option<TranscriptLine>,
    /// The report of the line with what it is judged to be; none where it has none.
    pub judged: Option<Judged>,
}

impl Taken {
    /// A line of a schedule, which has no report.
    fn nothing() -> Taken
        ensures { (result.entry ≡ None) × (result.judged ≡ None) }
    {
        Taken {
            entry: None,
            judged: None,
        }
    }
}

impl Input {
    /// No line was read.
    pub fn new(alloc: Global) -> Input
        ensures { result ≡ nothing }
    {
        Input::Transcript(Transcript::new(alloc))
    }

    /// Takes one more line, given without its end. Answers what it is, and the report of the line with what it is judged to
    /// be; none where the line has no report.
    ///
    /// Refused with `Json` (805) for a line that is no JSON; `Field` (806) for one that is neither a node nor an event, a
    /// node after an event, a recorded event whose number isn't its place among the events, from 0, or one of the other
    /// kind than the events before; `World` (807) where the nodes are no network, or an event of a schedule can't happen
    /// in it; and `Memory` (808). The input is then as it was.
    pub fn take(&mut self, alloc: Global, line: &[u8]) -> Result<Taken, TaskFault>
        ensures { MatchResult result
            (λ taken. Takes line.now self.old self.new taken.judged × Enters taken.entry self.old self.new)
            (λ fault. (self.new ≡ self.old) × Faults fault self.old line.now) }
    {
        match self {
            Input::Transcript(transcript) => match take_line(transcript, line) {
                Ok(taken) => Ok(taken),
                Err(TaskFault::Memory) => Err(TaskFault::Memory),
                Err(fault) => self.begin(alloc, line, fault),
            },
            Input::Schedule(scheduled) => {
                scheduled.take(alloc, line)?;
                Ok(Taken::nothing())
            }
        }
    }

    /// Takes a line that is none of a transcript, for this reason, where a schedule begins with it. That needs room, which a line of
    /// a transcript is spared.
    fn begin(&mut self, alloc: Global, line: &[u8], fault: TaskFault) -> Result<Taken, TaskFault>
        requires { IsNoneOf fault self.old line.now }
        ensures { MatchResult result
            (λ taken. Takes line.now self.old self.new taken.judged × Enters taken.entry self.old self.new)
            (λ fault. (self.new ≡ self.old) × Faults fault self.old line.now) }
    {
        let Input::Transcript(transcript) = self else {
            return Err(fault);
        };
        match begun(alloc, transcript, line) {
            Ok(Some(scheduled)) => {
                *self = Input::Schedule(scheduled);
                Ok(Taken::nothing())
            }
            Ok(None) => Err(fault),
            Err(fault) => Err(fault),
        }
    }

    /// Whether the event of this number, counted from 0, gave the first report that is refused. No event of a schedule did.
    pub fn is_first_refused(&self, event: u64) -> bool
        ensures { result ≡ is_first_refused event self.now }
    {
        match self {
            Input::Transcript(transcript) => match transcript.verdict() {
                Ok(Verdict::Refused { line, .. }) => line == event,
                _ => false,
            },
            Input::Schedule(_) => false,
        }
    }

    /// The number of the next line, counted from 1. More lines than can be counted are refused as want of memory (808).
    pub fn next_line(&self) -> Result<u64, TaskFault>
        ensures { MatchResult result
            (λ line. line ≡ lines_in self.now + 1)
            (λ fault. (fault ≡ TaskFault.Memory) × (18446744073709551615 ≤ lines_in self.now)) }
    {
        let (nodes, events) = match self {
            Input::Transcript(transcript) => (transcript.nodes(), transcript.events()),
            Input::Schedule(scheduled) => (scheduled.nodes(), scheduled.len()),
        };
        let lines = nodes.checked_add(events).ok_or(TaskFault::Memory)?;
        lines.checked_add(1).ok_or(TaskFault::Memory)
    }

    /// The events of a schedule so far, the oldest first; none of a transcript.
    pub fn events(&self) -> &[Event]
        ensures { reverse result.now ≡ run_in self.now }
    {
        match self {
            Input::Transcript(_) => &[],
            Input::Schedule(scheduled) => scheduled.events(),
        }
    }

    /// What the whole input is. Refused where there was no event: with `World` (807) if the nodes are no network, and with
    /// `Memory` (808).
    pub fn found(&self) -> Result<FoundInput, TaskFault>
        ensures { MatchResult result
            (λ found. IsFound self.now found)
            (λ fault. FaultsAtEnd fault self.now) }
    {
        match self {
            Input::Transcript(transcript) => Ok(FoundInput::Transcript(transcript.verdict()?)),
            Input::Schedule(scheduled) => Ok(FoundInput::Schedule(scheduled.len())),
        }
    }
}

/// One more line of a transcript.
fn take_line(transcript: &mut Transcript, line: &[u8]) -> Result<Taken, TaskFault>
    ensures { MatchResult result
        (λ taken. transcripts.Takes line.now transcript.old transcript.new taken.judged
        × Enters taken.entry (inputs.Transcript transcript.old) (inputs.Transcript transcript.new))
        (λ fault. (transcript.new ≡ transcript.old)
        × transcripts.FaultsInTranscript fault transcript.old.nodes transcript.old.lines line.now) }
{
    let entry = transcript.read(line)?;
    let judged = transcript.take_entry(&entry)?;
    Ok(Taken {
        entry: Some(entry),
        judged,
    })
}

/// The schedule that begins with this line, where no event stands before it and it is an event without what came of it.
fn begun(
    alloc: Global,
    transcript: &Transcript,
    line: &[u8],
) -> Result<Option<Scheduled>, TaskFault>
    ensures { MatchResult result
        (λ begun. MatchOption begun
        ((event : Event) → BeginsSchedule line.now transcript.now event → ⊥)
        (λ scheduled. (event : Event) × BeginsSchedule line.now transcript.now event
        × Happens event (new_state transcript.now.nodes) scheduled))
        (λ fault. (fault ≢ TaskFault.Write) × ((fault ≡ TaskFault.Memory)
        ⊎ ((event : Event) × BeginsSchedule line.now transcript.now event
        × FaultsIn fault transcript.now.nodes [] line.now))) }
{
    let Some(nodes) = transcript.nodes_alone() else {
        return Ok(None);
    };
    let event = match read_entry(alloc, line) {
        Ok(Line::Event(event)) => event,
        Err(TaskFault::Memory) => return Err(TaskFault::Memory),
        _ => return Ok(None),
    };
    Ok(Some(Scheduled::begin(alloc, nodes, event)?))
}
