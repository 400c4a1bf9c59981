//! Nodes and numbers of events in words, and which events happen where.

use network_model::{Event, NodeKind};
use std::fmt;
use std::fmt::{Display, Formatter};

/// What a node is, with an article.
#[derive(Clone, Copy)]
pub(crate) struct AKind<'a>(pub(crate) &'a NodeKind);

impl Display for AKind<'_> {
    fn fmt<W: fmt::Write>(&self, f: &mut Formatter<W>) -> fmt::Result {
        f.write_str(match self.0 {
            NodeKind::Master { .. } => "a master",
            NodeKind::Slave { .. } => "a slave",
            NodeKind::Clock => "a clock",
        })
    }
}

/// The nodes at which events of this kind happen.
pub(crate) fn needed_kind(event: &Event) -> &'static str {
    match event {
        Event::Sync { .. } | Event::SyncOne { .. } | Event::Follow { .. } => "a master",
        Event::Enter { .. } | Event::Leave { .. } => "a clock",
        Event::Arrive { .. } => "a master or a slave",
        Event::Hear { .. }
        | Event::Request { .. }
        | Event::Stamped { .. }
        | Event::Tick { .. }
        | Event::SetMaster { .. } => "a slave",
        Event::StepClock { .. } => "any node",
    }
}

/// How many events there are, by their numbers.
#[derive(Clone, Copy)]
pub(crate) struct Numbers(pub(crate) usize);

impl Display for Numbers {
    fn fmt<W: fmt::Write>(&self, f: &mut Formatter<W>) -> fmt::Result {
        match self.0.checked_sub(1) {
            None => f.write_str("there is no event before it"),
            Some(0) => f.write_str("there is event 0"),
            Some(last) => write!(f, "there are events 0 to {last}"),
        }
    }
}
