//! The JSON value of a line.
ghost use Rattle.std.specs.Prelude.{◌≡◌, ◌≢◌, MatchResult, Some, None};
ghost use Rattle.serde_json.specs.View.{view};
ghost use Rattle.serde_json.specs.Errors.{IsMemory};
ghost use Rattle.schedule_lines.specs.Json.{value_in};

use serde_json::{Error, Value};
use std::alloc::Global;

/// The JSON value that a line is. The error says that memory was refused, or where the line isn't UTF-8 or isn't JSON.
pub fn line_value(alloc: Global, line: &[u8]) -> Result<Value, Error>
    ensures { MatchResult result
        (λ value. value_in line.now ≡ Some (view value))
        (λ error. (IsMemory error → ⊥) → value_in line.now ≡ None) }
{
    match Value::from_slice(alloc, line) {
        Ok(value) => Ok(value),
        Err(error) => Err(error),
    }
}
