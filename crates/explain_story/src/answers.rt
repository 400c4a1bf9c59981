//! What all slaves of a transcript are said to make of what came to them, beside what a port here makes of the same.
//! Nothing is promised of it.

use crate::outcome::SlaveOutcome;
use crate::played::Played;
use exchange_check::{Checker, Evidence, TraceLine, TraceOut};
use network_model::{Event, Heard, Name, NodeKind};
use std::alloc::{AllocError, Global};
use std::collections::BTreeMap;

/// An outcome that isn't that of a port here.
#[derive(Clone, Copy, Debug, PartialEq, Eq)]
pub(crate) struct OtherOutcome {
    /// The event, by its place among the events.
    pub(crate) event: u64,
    /// Its line, counted from 1.
    pub(crate) line: u64,
    /// What is said to have come of the message.
    pub(crate) said: SlaveOutcome,
    /// What a port here makes of it.
    pub(crate) answered: SlaveOutcome,
}

/// What came to the slaves of a transcript, by the places of the slaves among the nodes, and how many outcomes are others than a
/// port here has for it.
#[derive(Drop)]
pub(crate) struct SlaveAnswers {
    by_slave: BTreeMap<u64, Played>,
    /// How many messages came to slaves, at most 2^64 - 1.
    came: u64,
    others: u64,
    first: Option<OtherOutcome>,
}

/// Whether an event may be one of a slave that its port is played along with.
fn is_of_slave(event: &Event) -> bool {
    matches!(
        event,
        Event::Arrive { .. }
            | Event::Hear { .. }
            | Event::Request { .. }
            | Event::Stamped { .. }
            | Event::Tick { .. }
            | Event::SetMaster { .. }
    )
}

/// What a port makes of the message that came by an event; none where none came, or no reading is told.
fn answer(played: &mut Played, octets: &[u8], line: &TraceLine, number: u64) -> Option<Heard> {
    match line.event {
        Event::Arrive { .. } => Some(played.arrive(octets, line.reading?, number)),
        Event::Hear { .. } => Some(played.hear(octets, number)),
        _ => None,
    }
}

/// What else happens at a slave: what it was told, did and learned.
fn happen(played: &mut Played, checker: &Checker, line: &TraceLine, number: u64) {
    match (&line.event, &line.out) {
        (Event::SetMaster { master, .. }, TraceOut::Done) => {
            if let Some(node) = checker.nodes().get(master)
                && let NodeKind::Master { config, .. } = node.kind
            {
                played.set_master(config.identity);
            }
        }
        (Event::Tick { .. }, TraceOut::Done) => played.tick(),
        (Event::Request { .. }, TraceOut::Made(octets)) => {
            if let Some(at) = line.reading {
                played.request(octets.as_slice(), at, number);
            }
        }
        (Event::Stamped { .. }, TraceOut::Done) => played.stamped(),
        _ => {}
    }
}

/// The line of an event.
fn line_of(checker: &Checker, number: u64) -> u64 {
    (checker.nodes().len() as u64)
        .saturating_add(number)
        .saturating_add(1)
}

/// A slave's port before any event; none of another node.
fn port_of(checker: &Checker, name: &Name) -> Option<Played> {
    match checker.nodes().get(name)?.kind {
        NodeKind::Slave { config, first } => Some(Played::new(config, first)),
        _ => None,
    }
}

impl SlaveAnswers {
    /// Nothing came yet.
    pub(crate) fn new(alloc: Global) -> SlaveAnswers {
        SlaveAnswers {
            by_slave: BTreeMap::new(alloc),
            came: 0,
            others: 0,
            first: None,
        }
    }

    /// Takes what was recorded of one more event, the last that this checker was fed and that was noted.
    pub(crate) fn take(
        &mut self,
        checker: &Checker,
        evidence: &Evidence,
        line: &TraceLine,
    ) -> Result<(), AllocError> {
        if !is_of_slave(&line.event) {
            return Ok(());
        }
        let name = line.event.node();
        let Some((slave, number)) = checker
            .nodes()
            .index_of(&name)
            .zip(checker.len().checked_sub(1))
        else {
            return Ok(());
        };
        let slave = slave as u64;
        if self.by_slave.get(&slave).is_none() && !self.add(slave, checker, &name)? {
            return Ok(());
        }
        match line.event.heard_copy() {
            Some(copy) => self.hear(slave, evidence, checker, copy, line, number),
            None => {
                if let Some(played) = self.by_slave.get_mut(&slave) {
                    happen(played, checker, line, number);
                }
            }
        }
        Ok(())
    }

    /// Plays the port of a slave from now on, which needs room. Answers whether the node is one.
    fn add(&mut self, slave: u64, checker: &Checker, name: &Name) -> Result<bool, AllocError> {
        let Some(played) = port_of(checker, name) else {
            return Ok(false);
        };
        self.by_slave.insert(slave, played)?;
        Ok(true)
    }

    /// A message comes to a slave, with the octets of this copy.
    fn hear(
        &mut self,
        slave: u64,
        evidence: &Evidence,
        checker: &Checker,
        copy: u64,
        line: &TraceLine,
        number: u64,
    ) {
        let Some(octets) = evidence.octets_at(checker, copy) else {
            return;
        };
        let Some(played) = self.by_slave.get_mut(&slave) else {
            return;
        };
        let Some(heard) = answer(played, octets.as_slice(), line, number) else {
            return;
        };
        self.came = self.came.saturating_add(1);
        let said = SlaveOutcome::said(&line.out);
        let answered = SlaveOutcome::answered(&heard);
        if said == answered {
            return;
        }
        self.others = self.others.saturating_add(1);
        if self.first.is_none() {
            self.first = Some(OtherOutcome {
                event: number,
                line: line_of(checker, number),
                said,
                answered,
            });
        }
    }

    /// How many messages came to slaves, with octets and where one has to be with a reading.
    pub(crate) fn came(&self) -> u64 {
        self.came
    }

    /// How many outcomes are others than a port here has for what came.
    pub(crate) fn others(&self) -> u64 {
        self.others
    }

    /// The first of these.
    pub(crate) fn first(&self) -> Option<OtherOutcome> {
        self.first
    }
}
