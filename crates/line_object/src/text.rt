//! A line, read.
ghost use Rattle.std.specs.Prelude.{◌≡◌, IfOk, IsTrue, Some};
ghost use Rattle.serde_json.specs.Read.{read};

use crate::object::LineObject;
use json::{Error, Scratch, Tape};
use std::alloc::{AllocError, Global};

impl<'a> LineObject<'a> {
    ghost use Rattle.line_object.specs.Object.{object_data};

    /// Reads a line as this object, and answers whether it did: else the line's value is to be read, and which lines these
    /// are no clause says. Memory fails by `AllocError`. Where it didn't, what the object is afterwards has no meaning.
    pub fn parse(
        &mut self,
        alloc: Global,
        scratch: &'a mut Scratch,
        text: &'a str,
    ) -> Result<bool, AllocError>
        ensures { IfOk result (λ is_read. IsTrue is_read → read text.now ≡ Some (object_data self.new)) }
    {
        match Tape::parse(text, scratch, Vec::new(alloc)) {
            Ok(tape) => Ok(self.fill(&tape.root()).is_some()),
            Err(Error::OutOfMemory) => Err(AllocError),
            Err(_) => Ok(false),
        }
    }
}
