ghost use Rattle.std.specs.Prelude.{◌≡◌, ◌-◌, List, [], ◌∷◌, Option};
ghost use Rattle.std.specs.List.{cons_option};
ghost use Rattle.statistics.specs.Series.{IsSeries};
ghost use Rattle.statistics.specs.Flow.{IsFlow, is_late, skipped_by, interval_by, intervals};

use crate::counting::count_if;
use crate::series::{Point, Series};
use ptp_units::{ScaledTime, Seq};

/// A message of a port, by its number.
#[derive(Clone, Copy)]
pub struct Sent {
    /// The number of its line.
    pub line: u64,
    /// Its sequenceId.
    pub number: Seq,
    /// The time of its line.
    pub time: ScaledTime,
    /// Whether the port begins its numbers anew with it.
    pub begins: bool,
}

/// What the numbers and times of a port's messages of one kind tell. Each count stays at 2^64 - 1.
#[derive(Clone, Copy)]
pub struct Flow {
    /// How many came.
    pub count: u64,
    /// How many numbers lie between those of neighbours.
    pub skipped: u64,
    /// How many came behind one with a newer number.
    pub late: u64,
    /// The first.
    pub first: Option<Sent>,
    /// The last that didn't come late.
    pub newest: Option<Sent>,
    /// How long after the message before each came whose number is the next one, in 2^-17 ns.
    pub intervals: Series,
}

/// Whether a message comes late: it has no newer number than this one, and doesn't begin anew.
fn is_late(sent: &Sent, newest: &Option<Sent>) -> bool
    ensures { result ≡ is_late sent.now newest.now }
{
    match newest {
        Some(newest) => !sent.begins && !sent.number.newer_than(newest.number),
        None => false,
    }
}

/// How many numbers lie between a message and the one before it.
fn skipped_by(sent: &Sent, newest: &Option<Sent>) -> u16
    ensures { result ≡ skipped_by sent.now newest.now }
{
    match newest {
        Some(newest) if !sent.begins && sent.number.newer_than(newest.number) => {
            sent.number.0.wrapping_sub(newest.number.0) - 1
        }
        _ => 0,
    }
}

/// How long a message came after the one before it, where its number is the next one.
fn interval_by(sent: &Sent, newest: &Option<Sent>) -> Option<Point>
    ensures { result ≡ interval_by sent.now newest.now }
{
    let Some(newest) = newest else {
        return None;
    };
    if sent.begins || sent.number != newest.number.next() {
        return None;
    }
    Some(Point {
        line: sent.line,
        time: sent.time.value(),
        value: 2 * (sent.time.signed_units() - newest.time.signed_units()),
    })
}

impl Flow {
    /// No message came.
    pub fn new() -> Flow
        ensures { IsFlow [] result }
    {
        Flow {
            count: 0,
            skipped: 0,
            late: 0,
            first: None,
            newest: None,
            intervals: Series::new(),
        }
    }

    /// Takes the next message.
    pub fn take(&mut self, sent: &Sent)
        ensures { (earlier : List Sent) → IsFlow earlier self.old → IsFlow (sent.now ∷ earlier) self.new }
    {
        let skipped = u64::from(skipped_by(sent, &self.newest));
        let is_late = is_late(sent, &self.newest);
        self.intervals.take_some(interval_by(sent, &self.newest));
        self.count = self.count.saturating_add(1);
        self.skipped = self.skipped.saturating_add(skipped);
        self.late = count_if(self.late, is_late);
        self.first = self.first.or(Some(*sent));
        if !is_late {
            self.newest = Some(*sent);
        }
    }

    /// Takes the next message, if there is one.
    pub fn take_some(&mut self, sent: Option<Sent>)
        ensures { (earlier : List Sent) → IsFlow earlier self.old → IsFlow (cons_option sent earlier) self.new }
    {
        if let Some(sent) = sent {
            self.take(&sent);
        }
    }

    /// How many messages are missing: numbers that were passed over, less those that came late.
    pub fn missing(&self) -> u64
        ensures { result ≡ self.now.skipped - self.now.late }
    {
        self.skipped.saturating_sub(self.late)
    }
}
