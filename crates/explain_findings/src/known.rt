//! What is known of the lines of a transcript: by its checker of those that count, and by its evidence of others.
ghost use Rattle.std.specs.Prelude.{◌≡◌, ◌+◌, ◌-◌, ◌^◌, min, Some};
ghost use Rattle.explain_findings.specs.Known.{IsNoted, came_at, came_in, domain_of, event_in, line_uncounted, named_if_at};
ghost use Rattle.explain_findings.specs.Known.{event_at, lines_of, named_at, named_text};
ghost use Rattle.explain_findings.specs.Known.{outcome_text, place_at, place_text, port_at, port_text, silent};

use exchange_check::{Came, Checker, Evidence, KeptLine, Uncounted};
use explain_words::AnEvent;
use network_model::{Event, Name, NodeKind, NodeSpec};
use std::fmt;
use std::fmt::{Display, Formatter};

/// A checker, and what was noted of the lines that it was fed.
#[derive(Clone, Copy)]
pub struct Known<'a> {
    /// The checker.
    pub checker: &'a Checker,
    /// What was noted.
    pub evidence: &'a Evidence,
}

/// An event's number and the line of the input, counted from 1.
#[derive(Clone, Copy)]
pub struct Place {
    number: u64,
    line: u64,
}

impl Display for Place {
    ghost output = { λ place. Some (place_text place) };

    fn fmt<W: fmt::Write>(&self, f: &mut Formatter<W>) -> fmt::Result {
        write!(f, "event {}, line {}", self.number, self.line)
    }
}

/// What came of an event; nothing of one that counts.
#[derive(Clone, Copy)]
struct Outcome(Option<Came>);

impl Display for Outcome {
    ghost output = { λ outcome. Some (outcome_text outcome.0) };

    fn fmt<W: fmt::Write>(&self, f: &mut Formatter<W>) -> fmt::Result {
        match self.0 {
            None => Ok(()),
            Some(Came::Refused(code)) => write!(f, ", which was refused with {code}"),
            Some(Came::Ignored(code)) => write!(f, ", which was ignored with {code}"),
            Some(Came::Otherwise) => f.write_str(", which can't have come out so"),
        }
    }
}

/// The event that a number names: where it stands, what it is, at which node, and what came of it where it doesn't count.
#[derive(Clone, Copy)]
pub struct Named {
    place: Place,
    pub(crate) event: Option<Event>,
    came: Option<Came>,
}

impl Named {
    /// The same without what came of it.
    pub(crate) fn without_outcome(self) -> Named
        ensures { result ≡ silent self }
    {
        Named { came: None, ..self }
    }
}

impl Display for Named {
    ghost output = { λ named. Some (named_text named) };

    fn fmt<W: fmt::Write>(&self, f: &mut Formatter<W>) -> fmt::Result {
        match &self.event {
            None => write!(
                f,
                "event {}, which comes behind the report or isn't there",
                self.place.number
            ),
            Some(event) => write!(
                f,
                "{}, {} at {}{}",
                self.place,
                AnEvent(event),
                event.node().text(),
                Outcome(self.came)
            ),
        }
    }
}

impl Known<'_> {
    /// The line of this number, where it doesn't count.
    fn uncounted(&self, number: u64) -> Option<Uncounted>
        ensures { IsNoted self.now → result ≡ line_uncounted (lines_of self.now) number }
    {
        self.evidence.uncounted_at(number)
    }

    /// The event of this number, whether it counts or not.
    pub fn event_at(&self, number: u64) -> Option<Event>
        ensures { IsNoted self.now → result ≡ event_at (lines_of self.now) number }
    {
        event_in(self.checker.line_at(number), self.uncounted(number))
    }

    /// What came of the event of this number, where it doesn't count.
    fn came_at(&self, number: u64) -> Option<Came>
        ensures { IsNoted self.now → result ≡ came_at (lines_of self.now) number }
    {
        came_in(self.uncounted(number))
    }

    /// Where an event stands.
    pub fn place(&self, number: u64) -> Place
        ensures { result ≡ place_at (lines_of self.now) number }
    {
        Place {
            number,
            line: line_behind(self.checker.nodes().len(), number),
        }
    }

    /// The event of this number, to be told.
    pub fn named(&self, number: u64) -> Named
        ensures { IsNoted self.now → result ≡ named_at (lines_of self.now) number }
    {
        Named {
            place: self.place(number),
            event: self.event_at(number),
            came: self.came_at(number),
        }
    }

    /// The event of a number that there may be, to be told.
    pub(crate) fn named_if(&self, number: Option<u64>) -> Option<Named>
        ensures { IsNoted self.now → result ≡ named_if_at (lines_of self.now) number }
    {
        match number {
            Some(number) => Some(self.named(number)),
            None => None,
        }
    }

    /// A port, by its name.
    pub(crate) fn port(&self, name: Name) -> Port
        ensures { result ≡ port_at (lines_of self.now) name }
    {
        let domain = match self.checker.nodes().get(&name) {
            Some(node) => domain_of(node),
            None => None,
        };
        Port { name, domain }
    }
}

/// The event of a line, by what is known of it where it counts, and where it doesn't.
fn event_in(line: Option<KeptLine>, uncounted: Option<Uncounted>) -> Option<Event>
    ensures { result ≡ event_in line uncounted }
{
    match (line, uncounted) {
        (Some(line), _) => Some(line.event),
        (None, Some(uncounted)) => Some(uncounted.event),
        (None, None) => None,
    }
}

/// What came of a line that doesn't count.
fn came_in(uncounted: Option<Uncounted>) -> Option<Came>
    ensures { result ≡ came_in uncounted }
{
    match uncounted {
        Some(uncounted) => Some(uncounted.came),
        None => None,
    }
}

/// The line of an event behind so many nodes, counted from 1.
fn line_behind(nodes: usize, number: u64) -> u64
    ensures { result ≡ min (nodes + number + 1) (2 ^ 64 - 1) }
{
    (nodes as u64).saturating_add(number).saturating_add(1)
}

/// The place of a node, from 0.
pub fn index_of(checker: &Checker, name: &Name) -> Option<u64> {
    Some(checker.nodes().index_of(name)? as u64)
}

/// The domain of a node's port; a transparent clock has none.
fn domain_of(node: &NodeSpec) -> Option<u8>
    ensures { result ≡ domain_of node.now }
{
    match &node.kind {
        NodeKind::Master { config, .. } | NodeKind::Slave { config, .. } => Some(config.domain),
        NodeKind::Clock => None,
    }
}

/// The name of a port, and its domain.
#[derive(Clone, Copy)]
pub struct Port {
    name: Name,
    domain: Option<u8>,
}

impl Display for Port {
    ghost output = { λ port. Some (port_text port) };

    fn fmt<W: fmt::Write>(&self, f: &mut Formatter<W>) -> fmt::Result {
        match self.domain {
            Some(domain) => write!(f, "{}, domain {domain}", self.name.text()),
            None => f.write_str(self.name.text()),
        }
    }
}
