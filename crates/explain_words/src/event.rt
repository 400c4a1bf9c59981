//! Events in words.
ghost use Rattle.std.specs.Prelude.{Some};
ghost use Rattle.explain_words.specs.Words.{event_words};

use network_model::Event;
use std::fmt;
use std::fmt::{Display, Formatter};

/// What an event is, as its line calls it, with an article.
#[derive(Clone, Copy)]
pub struct AnEvent<'a>(pub &'a Event);

impl Display for AnEvent<'_> {
    ghost output = { λ event. Some (event_words event.0.now) };

    fn fmt<W: fmt::Write>(&self, f: &mut Formatter<W>) -> fmt::Result {
        f.write_str(match self.0 {
            Event::Sync { .. } => "a sync",
            Event::SyncOne { .. } => "a syncone",
            Event::Follow { .. } => "a follow",
            Event::Enter { .. } => "an enter",
            Event::Leave { .. } => "a leave",
            Event::Arrive { .. } => "an arrive",
            Event::Hear { .. } => "a hear",
            Event::Request { .. } => "a request",
            Event::Stamped { .. } => "a stamped",
            Event::Tick { .. } => "a tick",
            Event::SetMaster { .. } => "a setmaster",
            Event::StepClock { .. } => "a stepclock",
        })
    }
}
