//! Lines, read one by one. Almost all are objects whose values hold no others but a few in an array, and are read in
//! place. Of what is left the value is read.
ghost use Rattle.std.specs.Prelude.{◌≡◌, ◌⊎◌, MatchResult, IfOk, IsTrue, Ok, Some};
ghost use Rattle.line_object.specs.Object.{object_data};
ghost use Rattle.schedule_lines.specs.Json.{value_in};
ghost use Rattle.schedule_reading.specs.Entry.{entry_in, recorded_in, IsOwnFault};

use crate::entry::{read_entry, read_recorded};
use crate::fault::TaskFault;
use json::Scratch;
use line_object::LineObject;
use schedule_lines::{Line, TranscriptLine};
use std::alloc::{AllocError, Global};
use std::str;

/// A reader of lines that keeps buffers. What a line is doesn't depend on those before it.
#[derive(Drop)]
pub struct LineReader {
    alloc: Global,
    scratch: Scratch,
}

impl LineReader {
    /// A reader of lines that has read nothing yet.
    pub fn new(alloc: Global) -> LineReader {
        LineReader {
            alloc,
            scratch: Scratch::new(alloc),
        }
    }

    /// The node or the event of a schedule that a line is, as [`read_entry`] says.
    pub fn read_entry(&mut self, line: &[u8]) -> Result<Line, TaskFault>
        ensures { MatchResult result
            (λ entry. entry_in line.now ≡ Ok entry)
            (λ fault. (fault ≡ TaskFault.Memory) ⊎ IsOwnFault entry_in fault line.now) }
    {
        let alloc = self.alloc;
        let mut members = LineObject::new();
        if self.parse(line, &mut members)? {
            if let Ok(entry) = Line::of(&members) {
                return Ok(entry);
            }
        }
        read_entry(alloc, line)
    }

    /// The node, or the event with what was recorded of it, that a line of a transcript is, as [`read_recorded`] says.
    pub fn read_recorded(&mut self, line: &[u8]) -> Result<TranscriptLine, TaskFault>
        ensures { MatchResult result
            (λ entry. recorded_in line.now ≡ Ok entry)
            (λ fault. (fault ≡ TaskFault.Memory) ⊎ IsOwnFault recorded_in fault line.now) }
    {
        let alloc = self.alloc;
        let mut members = LineObject::new();
        if self.parse(line, &mut members)? {
            if let Ok(entry) = TranscriptLine::of(&members) {
                return Ok(entry);
            }
        }
        read_recorded(alloc, line)
    }

    /// Reads the members of a line, and answers whether they are read in place.
    fn parse<'l>(
        &'l mut self,
        line: &'l [u8],
        members: &mut LineObject<'l>,
    ) -> Result<bool, AllocError>
        ensures { IfOk result (λ is_read. IsTrue is_read → value_in line.now ≡ Some (object_data members.new)) }
    {
        match str::from_utf8(line) {
            Ok(text) => members.parse(self.alloc, &mut self.scratch, text),
            Err(_) => Ok(false),
        }
    }
}
