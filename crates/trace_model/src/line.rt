ghost use Rattle.std.specs.Prelude.{◌≡◌};
ghost use Rattle.network_model.specs.Truth.{copy_of};
ghost use Rattle.trace_model.specs.Told.{TellsAnswer, TellsOutcome, TellsMade, heard_out};

use arrayvec::ArrayVec;
use network_model::{CopyOctets, Event, Heard, Outcome, Report, Stepped};
use ptp_units::ScaledTime;

/// What a line says that its event brought about.
#[derive(Debug, PartialEq, Eq, Drop)]
pub enum TraceOut {
    /// It is done, and there is nothing else to say of it.
    Done,
    /// It made a message with these octets.
    Made(ArrayVec<u8, 54>),
    /// A message entered a transparent clock.
    Entered,
    /// A slave holds the message.
    Held,
    /// The message completed a pair at a slave.
    Completed,
    /// The message completed a pair at a slave, which reported.
    Report(Report),
    /// A slave ignored the message, with the number of the reason.
    Ignored(u16),
    /// A port or a clock refused, with the number of the refusal.
    Refused(u16),
}

/// A line of a transcript: what was recorded of one event. It may be of any origin.
#[derive(Debug, PartialEq, Eq, Drop)]
pub struct TraceLine {
    /// The event.
    pub event: Event,
    /// What the node's clock is said to have read, in units of 2^-16 ns.
    pub reading: Option<ScaledTime>,
    /// What the event is said to have brought about.
    pub out: TraceOut,
}

impl TraceLine {
    /// The line that tells what became of an event of a run: its reading and its outcome, and where
    /// it sent a message, the octets of that copy, as a world has them, none where it has none. It
    /// takes no memory.
    pub fn of<C: CopyOctets>(event: &Event, stepped: &Stepped, world: &C) -> TraceLine
        ensures { TellsAnswer (C.network world.now) (C.run world.now) event.now stepped.now result }
    {
        TraceLine {
            event: *event,
            reading: stepped.reading,
            out: out_of(stepped, world),
        }
    }
}

/// What a line has of an outcome.
fn out_of<C: CopyOctets>(stepped: &Stepped, world: &C) -> TraceOut
    ensures { TellsOutcome (copy_of (C.network world.now) (C.run world.now) stepped.now.tag) stepped.now.outcome
        result }
{
    match &stepped.outcome {
        Outcome::Done => TraceOut::Done,
        Outcome::Made => made(stepped.tag, world),
        Outcome::Entered => TraceOut::Entered,
        Outcome::Heard(heard) => heard_out(heard),
        Outcome::Refused(code) => TraceOut::Refused(*code),
    }
}

/// What a line has of a slave's answer.
fn heard_out(heard: &Heard) -> TraceOut
    ensures { result ≡ heard_out heard.now }
{
    match heard {
        Heard::Held => TraceOut::Held,
        Heard::Completed => TraceOut::Completed,
        Heard::Report(report) => TraceOut::Report(*report),
        Heard::Ignored(reason) => TraceOut::Ignored(reason.code()),
    }
}

/// What a line has of the copy of this tag.
fn made<C: CopyOctets>(tag: u64, world: &C) -> TraceOut
    ensures { TellsMade (copy_of (C.network world.now) (C.run world.now) tag) result }
{
    let mut copy = ArrayVec::new();
    if let Some(octets) = world.octets(tag) {
        let _ = copy.try_extend_from_slice(octets);
    }
    TraceOut::Made(copy)
}
