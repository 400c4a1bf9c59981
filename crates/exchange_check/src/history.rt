//! The lines that a checker was fed, for contracts alone.

ghost use Rattle.std.specs.Prelude.{◌≡◌, ◌∷◌, [], MatchResult};
ghost use Rattle.trace_model.specs.declared.line.TraceLine.{TraceLine};
ghost use Rattle.trace_model.specs.Line.{Lines};
ghost use Rattle.exchange_check.specs.declared.refusal.CheckFault.TheVariants.{Memory};

use crate::refusal::CheckFault;
use std::alloc::Global;
use std::marker::Model;
use std::snapshot::Snapshot;
use trace_model::TraceLine;

/// Lines, newest first. Contracts alone read them: a value of this type has none of their octets.
#[derive(Drop)]
pub(crate) struct History {
    oldest_first: Vec<Snapshot<TraceLine>>,
}

impl Model for History {
    ghost use Rattle.std.specs.Prelude.{reverse, map};
    ghost use Rattle.trace_model.specs.Line.{Lines};

    ghost Value = { Lines };

    ghost view = { λ h. reverse (map (λ line. line.value) h.oldest_first.items) };
}

impl History {
    /// No line.
    pub(crate) fn new(alloc: Global) -> History
        ensures { result ≡ [] }
    {
        History {
            oldest_first: Vec::new(alloc),
        }
    }

    /// One more line. Refused where there is no room for it.
    pub(crate) fn push(&mut self, line: &TraceLine) -> Result<(), CheckFault>
        ensures { MatchResult result
            (λ _. self.new ≡ line.now ∷ self.old)
            (λ fault. (fault ≡ Memory) × (self.new ≡ self.old)) }
    {
        match self.oldest_first.push(Snapshot::of(line)) {
            Ok(()) => Ok(()),
            Err(_) => Err(CheckFault::Memory),
        }
    }

    /// Forgets the last line.
    pub(crate) fn pop(&mut self)
        ensures { (line : TraceLine) (earlier : Lines) → self.old ≡ line ∷ earlier → self.new ≡ earlier }
    {
        let _ = self.oldest_first.pop();
    }
}
