//! Which keys a line has, by its kind and its outcome: by these readers count, and refusals are explained.
ghost use Rattle.std.specs.Prelude.{◌≡◌, ◌∷◌, ◌++◌, [], option_map};
ghost use Rattle.schedule_lines.specs.Line.{event_keys};
ghost use Rattle.schedule_lines.specs.Needed.{node_keys, outcome_keys, own_keys, reading_keys};
ghost use Rattle.schedule_lines.specs.TranscriptLine.{line_keys, out_keys};
ghost use Rattle.line_object.specs.declared.key.Key.TheVariants.{Out};

use crate::event_kind::EventKind;
use line_object::Key;
use network_model::Event;
use trace_model::{TraceLine, TraceOut};

/// The keys of a node that has a port.
pub(crate) const OF_PORTS: &[Key] = &[
    Key::Kind,
    Key::Node,
    Key::Id,
    Key::Port,
    Key::Domain,
    Key::Log,
    Key::First,
];

/// The keys of a clock.
pub(crate) const OF_CLOCKS: &[Key] = &[Key::Kind, Key::Node];

/// The key of a message that was made.
const OF_MESSAGES: &[Key] = &[Key::Hex];

/// The keys of a report.
const OF_REPORTS: &[Key] = &[Key::Offset2, Key::Path2, Key::Tags];

/// The key of a reason or a refusal.
const OF_REASONS: &[Key] = &[Key::Code];

/// The keys of a kind of node, by its word at `kind`; None where it names none.
pub fn node_keys(kind: &str) -> Option<&'static [Key]>
    ensures { option_map (λ keys. keys.now) result ≡ node_keys kind.now }
{
    match kind {
        "master" | "slave" => Some(OF_PORTS),
        "clock" => Some(OF_CLOCKS),
        _ => None,
    }
}

impl EventKind {
    /// The keys of such an event in a schedule, beside `ev` and `node`.
    pub fn own_keys(self) -> &'static [Key]
        ensures { result.now ≡ own_keys self }
    {
        match self {
            EventKind::Sync | EventKind::SyncOne | EventKind::Request => &[Key::At],
            EventKind::Follow | EventKind::Stamped | EventKind::Tick => &[],
            EventKind::Enter | EventKind::Arrive => &[Key::CopyTag, Key::At],
            EventKind::Leave => &[Key::TransitTag, Key::At],
            EventKind::Hear => &[Key::CopyTag],
            EventKind::SetMaster => &[Key::Master],
            EventKind::StepClock => &[Key::Diff],
        }
    }

    /// The keys by which a transcript tells of such an event, beside those of its outcome and `n`: the reading, where it has a
    /// true moment, and `out`.
    pub fn reading_and_out(self) -> &'static [Key]
        ensures { result.now ≡ reading_keys self ++ (Out ∷ []) }
    {
        match self {
            EventKind::Sync
            | EventKind::SyncOne
            | EventKind::Enter
            | EventKind::Leave
            | EventKind::Arrive
            | EventKind::Request => &[Key::Reading, Key::Out],
            EventKind::Follow
            | EventKind::Hear
            | EventKind::Stamped
            | EventKind::Tick
            | EventKind::SetMaster
            | EventKind::StepClock => &[Key::Out],
        }
    }
}

/// The keys that tell an outcome, beside `out`, by its word there; None where it names none.
pub fn outcome_keys(out: &str) -> Option<&'static [Key]>
    ensures { option_map (λ keys. keys.now) result ≡ outcome_keys out.now }
{
    match out {
        "done" | "entered" | "held" | "completed" => Some(&[]),
        "made" => Some(OF_MESSAGES),
        "report" => Some(OF_REPORTS),
        "ignored" | "refused" => Some(OF_REASONS),
        _ => None,
    }
}

/// How many keys tell an outcome, beside `out`.
fn out_keys(out: &TraceOut) -> usize
    ensures { result ≡ out_keys out.now }
{
    match out {
        TraceOut::Done | TraceOut::Entered | TraceOut::Held | TraceOut::Completed => 0,
        TraceOut::Made(_) => OF_MESSAGES.len(),
        TraceOut::Report(_) => OF_REPORTS.len(),
        TraceOut::Ignored(_) | TraceOut::Refused(_) => OF_REASONS.len(),
    }
}

/// How many keys an event has in a schedule: `ev`, `node`, and those of its kind.
pub(crate) fn event_keys(event: &Event) -> usize
    ensures { result ≡ event_keys event.now }
{
    2 + EventKind::of(event).own_keys().len()
}

/// How many keys the line of an event has in a transcript: `ev`, `node`, `n`, and those of the
/// event's kind and of its outcome.
pub(crate) fn line_keys(line: &TraceLine) -> usize
    ensures { result ≡ line_keys line.now }
{
    let recorded = EventKind::of(&line.event).reading_and_out().len() + out_keys(&line.out);
    event_keys(&line.event) + recorded + 1
}
