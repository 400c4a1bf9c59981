//! Lines of transcripts, read: nodes, and events with what was recorded of them.
ghost use Rattle.std.specs.Prelude.{◌≡◌, ◌∷◌, ◌++◌, false, Err, length, option_and_then, codes, IfOk, MatchResult, MatchOption, IfSome, Some, None, true, unwrap_or, []};
ghost use Rattle.serde_json.specs.Find.{get, as_str};
ghost use Rattle.line_object.specs.Key.{key_text};
ghost use Rattle.line_object.specs.declared.key.Key.TheVariants.{Code, Hex, Offset2, Out, Path2, Tags};
ghost use Rattle.schedule_lines.specs.Json.{field};
ghost use Rattle.schedule_lines.specs.TranscriptLine.{transcript_line_of, traced_in};
ghost use Rattle.schedule_lines.specs.TranscriptLine.{reading_in, out_of, out_keys, made_in, code_in, report_in};
ghost use Rattle.schedule_lines.specs.TranscriptLine.{report_of, follow_in};
ghost use Rattle.schedule_lines.specs.Json.{item_at, whole_in, octets_in};
ghost use Rattle.schedule_lines.specs.Needed.{keys_of_event, kind_in, outcome_keys, outcome_keys_in, recorded_keys, told_keys};
ghost use Rattle.schedule_lines.specs.Refusal.{Answers, HasEach, IsSoOf};
ghost use Rattle.schedule_lines.specs.Inner.Asked.{Asks, reading_key};
ghost use Rattle.schedule_lines.specs.Wanted.{array_of, is_wanted_part, part_wanted, place_of, HasWrong};

use crate::needed::line_keys;
use crate::reading::asked::{below_at, difference_at, moment_at, octets_at, value_at, whole_at};
use crate::reading::schedule::{event_in, just, node_spec_in};
use crate::refusal::Refusal;
use crate::wanted::{Part, Wanted};
use line_object::{Key, LineMembers, LineValue};
use network_model::{NodeSpec, Report};
use ptp_units::ScaledTime;
use trace_model::{TraceLine, TraceOut};

/// A line of a transcript.
#[derive(Debug, PartialEq, Eq, Drop)]
pub enum TranscriptLine {
    /// A node of the network.
    Node(NodeSpec),
    /// An event with what was recorded of it.
    Event {
        /// The number that the line gives its event.
        number: u64,
        /// What was recorded of the event.
        line: TraceLine,
    },
}

impl TranscriptLine {
    /// The node, or the event with its number, that a line's value is: with the key `ev` it is an
    /// event, without it and with `kind` a node. Else why it is none: a key is
    /// missing, one is there that has no place, or a key's value isn't what is asked for. It takes no
    /// memory.
    pub fn of<M: LineMembers>(members: &M) -> Result<TranscriptLine, Refusal>
        ensures { Answers (transcript_line_of (M.as_data members.now)) (M.as_data members.now) (told_keys (M.as_data members.now)) result }
    {
        match members.get(Key::Ev) {
            Some(ev) => traced_in(ev, members),
            None => Ok(TranscriptLine::Node(node_spec_in(members)?)),
        }
    }
}

/// The event's line that an object is, with just its keys.
fn traced_in<M: LineMembers>(ev: &M::Value, members: &M) -> Result<TranscriptLine, Refusal>
    requires { get (codes "ev") (M.as_data members.now) ≡ Some (M.Value.as_data ev.now) }
    ensures { Answers (traced_in (M.as_data members.now)) (M.as_data members.now)
        (keys_of_event (kind_in (M.as_data members.now)) ++ recorded_keys (kind_in (M.as_data members.now)) (M.as_data members.now)) result }
{
    let event = event_in(ev, members)?;
    let reading = reading_in(event.true_moment(), members)?;
    let out = out_in(members)?;
    let number = whole_at(members, Key::Number)?;
    let line = TraceLine {
        event,
        reading,
        out,
    };
    let count = line_keys(&line);
    just(members, count, TranscriptLine::Event { number, line })
}

/// What the node's clock is said to have read, for an event that has a true moment and for no other.
fn reading_in<M: LineMembers>(
    at: Option<ScaledTime>,
    members: &M,
) -> Result<Option<ScaledTime>, Refusal>
    ensures { Asks (reading_in at (M.as_data members.now)) (M.as_data members.now) (reading_key at) result }
{
    match at {
        Some(_) => Ok(Some(moment_at(members, Key::Reading)?)),
        None => Ok(None),
    }
}

/// What an event is said to have brought about, by `out`.
fn out_in<M: LineMembers>(members: &M) -> Result<TraceOut, Refusal>
    ensures asks { Asks (option_and_then (λ text. out_of text (M.as_data members.now)) (field as_str (codes "out") (M.as_data members.now)))
        (M.as_data members.now) (Out ∷ outcome_keys_in (M.as_data members.now)) result }
    ensures many { IfOk result (λ out. out_keys out ≡ length (outcome_keys_in (M.as_data members.now))) }
{
    match value_at(members, Key::Out)?.as_str() {
        Some(text) => out_of(text, members),
        None => Err(Refusal::Wrong { key: Key::Out }),
    }
}

/// What an event is said to have brought about, from the text of `out`.
fn out_of<M: LineMembers>(text: &str, members: &M) -> Result<TraceOut, Refusal>
    ensures asks { MatchOption (outcome_keys text.now)
        ((out_of text.now (M.as_data members.now) ≡ None) × (result ≡ Err (Refusal.Wrong Out)))
        (λ keys. Asks (out_of text.now (M.as_data members.now)) (M.as_data members.now) keys result) }
    ensures many { IfOk result (λ out. MatchOption (outcome_keys text.now) ⊥ (λ keys. out_keys out ≡ length keys)) }
{
    match text {
        "done" => Ok(TraceOut::Done),
        "made" => made_in(members),
        "entered" => Ok(TraceOut::Entered),
        "held" => Ok(TraceOut::Held),
        "completed" => Ok(TraceOut::Completed),
        "report" => Ok(TraceOut::Report(report_in(members)?)),
        "ignored" => Ok(TraceOut::Ignored(code_in(members)?)),
        "refused" => Ok(TraceOut::Refused(code_in(members)?)),
        _ => Err(Refusal::Wrong { key: Key::Out }),
    }
}

/// The octets of the message that was made.
fn made_in<M: LineMembers>(members: &M) -> Result<TraceOut, Refusal>
    ensures { Asks (made_in (M.as_data members.now)) (M.as_data members.now) (Hex ∷ []) result }
{
    Ok(TraceOut::Made(octets_at(members, Key::Hex)?))
}

/// The number of a reason or a refusal.
fn code_in<M: LineMembers>(members: &M) -> Result<u16, Refusal>
    ensures { Asks (code_in (M.as_data members.now)) (M.as_data members.now) (Code ∷ []) result }
{
    Ok(below_at(members, Key::Code, 65_536)? as u16)
}

/// The report that a slave gave.
fn report_in<M: LineMembers>(members: &M) -> Result<Report, Refusal>
    ensures { Asks (report_in (M.as_data members.now)) (M.as_data members.now) (Offset2 ∷ Path2 ∷ Tags ∷ []) result }
{
    let offset2 = difference_at(members, Key::Offset2)?;
    let path2 = difference_at(members, Key::Path2)?;
    match report_of(offset2, path2, value_at(members, Key::Tags)?) {
        Ok(report) => Ok(report),
        Err(None) => Err(Refusal::Wrong { key: Key::Tags }),
        Err(Some(part)) => Err(Refusal::WrongPart {
            key: Key::Tags,
            part,
        }),
    }
}

/// A report with the tags in an array: sync, follow, request, response. Else the part that isn't what is wanted, where it
/// has so many.
fn report_of<V: LineValue>(offset2: i128, path2: i128, tags: &V) -> Result<Report, Option<Part>>
    ensures { MatchResult result
        (λ report. report_of offset2 path2 (V.as_data tags.now) ≡ Some report)
        (λ part. (report_of offset2 path2 (V.as_data tags.now) ≡ None)
        × IfSome part (λ part. (array_of part ≡ Wanted.Tags) × HasWrong part (V.as_data tags.now))) }
{
    if !tags.has_items(4) {
        return Err(None);
    }
    let sync_tag = tag_in(tags, Part::SyncTag)?;
    let follow_tag = follow_in(tags)?;
    let request_tag = tag_in(tags, Part::RequestTag)?;
    let response_tag = tag_in(tags, Part::ResponseTag)?;
    Ok(Report {
        offset2,
        path2,
        sync_tag,
        follow_tag,
        request_tag,
        response_tag,
    })
}

/// The tag at the place of a part.
fn tag_in<V: LineValue>(tags: &V, part: Part) -> Result<u64, Part>
    requires { part_wanted part ≡ Wanted.Tag }
    ensures { MatchResult result
        (λ tag. item_at whole_in (place_of part) (V.as_data tags.now) ≡ Some tag)
        (λ wrong. (wrong ≡ part) × (item_at whole_in (place_of part) (V.as_data tags.now) ≡ None)
        × (is_wanted_part part (V.as_data tags.now) ≡ false)) }
{
    tags.u64_at(part.place()).ok_or(part)
}

/// The tag of a Follow_Up, which stands second, or null after a one-step Sync.
fn follow_in<V: LineValue>(tags: &V) -> Result<Option<u64>, Part>
    ensures { MatchResult result
        (λ tag. item_at follow_in 1 (V.as_data tags.now) ≡ Some tag)
        (λ wrong. (wrong ≡ Part.FollowTag) × (item_at follow_in 1 (V.as_data tags.now) ≡ None)
        × (is_wanted_part wrong (V.as_data tags.now) ≡ false)) }
{
    if tags.is_null_at(1) {
        return Ok(None);
    }
    match tags.u64_at(1) {
        Some(tag) => Ok(Some(tag)),
        None => Err(Part::FollowTag),
    }
}
