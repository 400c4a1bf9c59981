//! Which halves of a report are there at a slave, by the completions that are told, and completions that have no report though
//! both are.
ghost use Rattle.std.specs.Prelude.{◌≡◌, ◌++◌, OnOk};
ghost use Rattle.std.specs.String.{string_bytes};
ghost use Rattle.explain_story.specs.Counts.{completions_text, unreported_text};

use exchange_check::KeptLine;
use explain_findings::{Known, index_of};
use network_model::Event;
use std::alloc::{AllocError, Global};
use std::collections::BTreeMap;

/// A half of a report.
#[derive(Clone, Copy, Debug, PartialEq, Eq)]
enum Half {
    /// What a Sync gives.
    Sync,
    /// What a Delay_Resp gives.
    Response,
}

/// How many ticks came since a half completed: it outlives one.
#[derive(Clone, Copy, Debug, PartialEq, Eq)]
enum Age {
    Fresh,
    Ticked,
}

/// Which halves are there.
#[derive(Clone, Copy, Debug)]
struct Halves {
    sync: Option<Age>,
    response: Option<Age>,
}

/// What a line changes of the halves at its slave.
#[derive(Clone, Copy, Debug)]
enum Change {
    /// The slave is told its master.
    Begins,
    Ticks,
    /// A half completes, and there is a report or none.
    Completes { half: Half, reports: bool },
}

/// Which halves are there at slaves, by the places of the slaves among the nodes.
#[derive(Drop)]
pub(crate) struct Completions {
    by_slave: BTreeMap<u64, Halves>,
    /// How many completions had no report though both halves of one were there, at most 2^64 - 1.
    unreported: u64,
}

/// The age at the next tick.
fn ticked(age: Option<Age>) -> Option<Age> {
    match age {
        Some(Age::Fresh) => Some(Age::Ticked),
        Some(Age::Ticked) | None => None,
    }
}

/// Which half of a report a message gives that this event sent.
fn half_sent(sender: &Event) -> Option<Half> {
    if sender.is_follow() {
        return Some(Half::Sync);
    }
    if sender.is_arrival() {
        return Some(Half::Response);
    }
    None
}

/// Which half of a report a message gives that completes by an event.
fn half_of(known: Known<'_>, event: &Event) -> Option<Half> {
    if event.is_arrival() {
        return Some(Half::Sync);
    }
    match known.event_at(event.heard_copy()?) {
        Some(sender) => half_sent(&sender),
        None => None,
    }
}

impl Halves {
    /// None is there.
    fn none() -> Halves {
        Halves {
            sync: None,
            response: None,
        }
    }

    /// They change. Answers whether a completion has no report though both are there.
    fn change(&mut self, change: Change) -> bool {
        match change {
            Change::Begins => *self = Halves::none(),
            Change::Ticks => {
                self.sync = ticked(self.sync);
                self.response = ticked(self.response);
            }
            Change::Completes { half, reports } => return self.complete(half) && !reports,
        }
        false
    }

    /// A half completes. Answers whether both are there now.
    fn complete(&mut self, half: Half) -> bool {
        match half {
            Half::Sync => self.sync = Some(Age::Fresh),
            Half::Response => self.response = Some(Age::Fresh),
        }
        self.sync.is_some() && self.response.is_some()
    }
}

impl Change {
    /// What a line changes that has a report or none.
    fn of(known: Known<'_>, line: &KeptLine, reports: bool) -> Option<Change> {
        match &line.event {
            Event::SetMaster { .. } => return Some(Change::Begins),
            Event::Tick { .. } => return Some(Change::Ticks),
            _ if line.completes => {}
            _ => return None,
        }
        Some(Change::Completes {
            half: half_of(known, &line.event)?,
            reports,
        })
    }
}

impl Completions {
    /// Nothing completed yet.
    pub(crate) fn new(alloc: Global) -> Completions {
        Completions {
            by_slave: BTreeMap::new(alloc),
            unreported: 0,
        }
    }

    /// One more line that counts, and that has a report or none.
    pub(crate) fn count(
        &mut self,
        known: Known<'_>,
        line: &KeptLine,
        reports: bool,
    ) -> Result<(), AllocError> {
        let Some(change) = Change::of(known, line, reports) else {
            return Ok(());
        };
        match index_of(known.checker, &line.event.node()) {
            Some(slave) => self.change(slave, change),
            None => Ok(()),
        }
    }

    /// The halves at a slave change.
    fn change(&mut self, slave: u64, change: Change) -> Result<(), AllocError> {
        let mut halves = match self.by_slave.get(&slave) {
            Some(halves) => *halves,
            None => Halves::none(),
        };
        if halves.change(change) {
            self.unreported = self.unreported.saturating_add(1);
        }
        self.by_slave.insert(slave, halves)?;
        Ok(())
    }

    /// How many completions had no report though both halves of one were there.
    pub(crate) fn unreported(&self) -> u64 {
        self.unreported
    }
}

/// The word for so many completions.
fn noun(count: u64) -> &'static str
    ensures { result.now ≡ completions_text count }
{
    if count == 1 {
        "completion"
    } else {
        "completions"
    }
}

/// Appends how many completions had no report though both halves of one were there; nothing where none had none.
pub(crate) fn push_unreported(text: &mut String, count: u64) -> Result<(), AllocError>
    ensures { OnOk result (string_bytes text.new ≡ string_bytes text.old ++ unreported_text count) }
{
    if count == 0 {
        return Ok(());
    }
    write!(
        text,
        "{count} {} had no report, though both halves of one were there; the verdict says nothing of these\n",
        noun(count)
    )
}
