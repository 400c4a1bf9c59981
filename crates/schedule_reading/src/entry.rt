//! What a line is: a node, or an event with or without what was recorded of it. `serde_json` says what a line means.
ghost use Rattle.std.specs.Prelude.{◌≡◌, ◌⊎◌, MatchResult, Ok, Some, None};
ghost use Rattle.serde_json.specs.View.{view};
ghost use Rattle.schedule_lines.specs.Json.{value_in};
ghost use Rattle.schedule_reading.specs.Entry.{entry_in, recorded_in, IsOwnFault};

use crate::fault::TaskFault;
use schedule_lines::{Line, TranscriptLine, line_value};
use serde_json::Value;
use std::alloc::Global;

/// The JSON value that a line is.
fn read_value(alloc: Global, line: &[u8]) -> Result<Value, TaskFault>
    ensures { MatchResult result
        (λ value. value_in line.now ≡ Some (view value))
        (λ fault. (fault ≡ TaskFault.Memory) ⊎ ((fault ≡ TaskFault.Json) × (value_in line.now ≡ None))) }
{
    match line_value(alloc, line) {
        Ok(value) => Ok(value),
        Err(error) if error.is_memory() => Err(TaskFault::Memory),
        Err(_) => Err(TaskFault::Json),
    }
}

/// The node or the event of a schedule that a line is. `Json` where it is no JSON, `Field` where it is neither, and
/// `Memory`.
pub fn read_entry(alloc: Global, line: &[u8]) -> Result<Line, TaskFault>
    ensures { MatchResult result
        (λ entry. entry_in line.now ≡ Ok entry)
        (λ fault. (fault ≡ TaskFault.Memory) ⊎ IsOwnFault entry_in fault line.now) }
{
    let value = read_value(alloc, line)?;
    match Line::of(&value) {
        Ok(entry) => Ok(entry),
        Err(_) => Err(TaskFault::Field),
    }
}

/// The node, or the event with what was recorded of it, that a line of a transcript is. `Json` where it is no JSON,
/// `Field` where it is neither, and `Memory`.
pub fn read_recorded(alloc: Global, line: &[u8]) -> Result<TranscriptLine, TaskFault>
    ensures { MatchResult result
        (λ entry. recorded_in line.now ≡ Ok entry)
        (λ fault. (fault ≡ TaskFault.Memory) ⊎ IsOwnFault recorded_in fault line.now) }
{
    let value = read_value(alloc, line)?;
    match TranscriptLine::of(&value) {
        Ok(entry) => Ok(entry),
        Err(_) => Err(TaskFault::Field),
    }
}
