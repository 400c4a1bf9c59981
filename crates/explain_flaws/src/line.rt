//! The flaw of a line.
ghost use Rattle.std.specs.Prelude.{◌≡◌, ◌==◌, IfOk, IfSome, MatchResult, Some, None, is_none};
ghost use Rattle.serde_json.specs.Data.{Data};
ghost use Rattle.serde_json.specs.View.{view};
ghost use Rattle.schedule_lines.specs.Json.{value_in};
ghost use Rattle.explain_flaws.specs.declared.flaw.FileForm.{FileForm};
ghost use Rattle.explain_flaws.specs.declared.flaw.FileForm.TheVariants.{Schedule, Transcript};
ghost use Rattle.explain_flaws.specs.Sound.{is_schedule_line, is_transcript_line};
ghost use Rattle.explain_flaws.specs.Sound.{is_schedule_value, is_transcript_value};
ghost use Rattle.explain_flaws.specs.Truth.{IsSo, IsSoOfOctets, IsSoOfValue, IsNodeLine, IsEventLine};

use crate::flaw::{FileForm, Flaw};
use crate::json_fault::json_flaw;
use crate::search::flaw_of;
use schedule_lines::{Line, TranscriptLine, line_value};
use serde_json::Value;
use std::alloc::{AllocError, Global};

/// The JSON value that a line is, or why it is none.
fn read_value<'a>(alloc: Global, line: &'a [u8]) -> Result<Result<Value, Flaw<'a>>, AllocError>
    ensures { IfOk result (λ read. MatchResult read
        (λ value. value_in line.now ≡ Some (view value))
        (λ flaw. (value_in line.now ≡ None) × IsSoOfOctets line.now flaw)) }
{
    match line_value(alloc, line) {
        Ok(value) => Ok(Ok(value)),
        Err(error) if error.is_memory() => Err(AllocError),
        Err(error) => Ok(Err(json_flaw(line, error.column()))),
    }
}

/// The flaw of a line of a schedule that stands after so many events; None just where `replay` reads
/// it there. The line has no LF, and no CR that belongs to one. Memory fails by `AllocError`.
pub fn schedule_flaw<'a>(
    alloc: Global,
    line: &'a [u8],
    events: u64,
) -> Result<Option<Flaw<'a>>, AllocError>
    ensures flawless { IfOk result (λ flaw. is_none flaw ≡ is_schedule_line events line.now) }
    ensures so { IfOk result (λ flaw. IfSome flaw (IsSo Schedule events line.now (value_in line.now))) }
{
    let value = match read_value(alloc, line)? {
        Ok(value) => value,
        Err(flaw) => return Ok(Some(flaw)),
    };
    Ok(scheduled_flaw(line, &value, events))
}

/// The flaw of a line of a schedule, by its value.
fn scheduled_flaw<'a>(line: &'a [u8], value: &Value, events: u64) -> Option<Flaw<'a>>
    ensures flawless { is_none result ≡ is_schedule_value events (view value.now) }
    ensures so { IfSome result (IsSoOfValue Schedule events (view value.now)) }
{
    match Line::of(value) {
        Ok(Line::Event(_)) => None,
        Ok(Line::Node(_)) => misplaced_node(events),
        Err(refusal) => Some(flaw_of(FileForm::Schedule, line, value, refusal)),
    }
}

/// The flaw of a line of a transcript that stands after so many events; None just where `check` reads
/// it there. The line has no LF, and no CR that belongs to one. Memory fails by `AllocError`.
pub fn transcript_flaw<'a>(
    alloc: Global,
    line: &'a [u8],
    events: u64,
) -> Result<Option<Flaw<'a>>, AllocError>
    ensures flawless { IfOk result (λ flaw. is_none flaw ≡ is_transcript_line events line.now) }
    ensures so { IfOk result (λ flaw. IfSome flaw (IsSo Transcript events line.now (value_in line.now))) }
{
    let value = match read_value(alloc, line)? {
        Ok(value) => value,
        Err(flaw) => return Ok(Some(flaw)),
    };
    Ok(told_flaw(line, &value, events))
}

/// The flaw of a line of a transcript, by its value.
fn told_flaw<'a>(line: &'a [u8], value: &Value, events: u64) -> Option<Flaw<'a>>
    ensures flawless { is_none result ≡ is_transcript_value events (view value.now) }
    ensures so { IfSome result (IsSoOfValue Transcript events (view value.now)) }
{
    match TranscriptLine::of(value) {
        Ok(TranscriptLine::Event { number, .. }) => misplaced_event(number, events),
        Ok(TranscriptLine::Node(_)) => misplaced_node(events),
        Err(refusal) => Some(flaw_of(FileForm::Transcript, line, value, refusal)),
    }
}

/// The flaw of a node after so many events.
fn misplaced_node<'a>(events: u64) -> Option<Flaw<'a>>
    ensures flawless { is_none result ≡ (events == 0) }
    ensures so { (form : FileForm) (d : Data) → IsNodeLine d → IfSome result (IsSoOfValue form events d) }
{
    if events == 0 {
        None
    } else {
        Some(Flaw::NodeAfterEvent)
    }
}

/// The flaw of an event of this number after so many events.
fn misplaced_event<'a>(number: u64, events: u64) -> Option<Flaw<'a>>
    ensures flawless { is_none result ≡ (number == events) }
    ensures so { (form : FileForm) (d : Data) → IsEventLine number d → IfSome result (IsSoOfValue form events d) }
{
    if number == events {
        None
    } else {
        Some(Flaw::OutOfPlace {
            number,
            place: events,
        })
    }
}
