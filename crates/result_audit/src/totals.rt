//! How many results there are of each verdict, and the worst.

ghost use Rattle.std.specs.Prelude.{◌≡◌};
ghost use Rattle.result_audit.specs.Totals.{no_answers, counted, lesser, greater, off_of, noticed, worst_with, with_answer};

use crate::answer::Answer;
use result_verdict::{Difference, Judged, Verdict};

/// How many results there are of each verdict, and how many that aren't judged. 2^64 - 1 stands for more, too.
#[derive(Clone, Copy, Debug)]
pub struct Counts {
    pub exact: u64,
    pub within: u64,
    pub filtered: u64,
    pub older: u64,
    pub wrong: u64,
    pub unjudged: u64,
}

/// A wrong result.
#[derive(Clone, Copy, Debug)]
pub struct Worst {
    /// Its line, counted from 1.
    pub line: u64,
    /// By how many nanoseconds it is off at the least, without sign.
    pub off: Difference,
}

/// What all results come to that were answered.
#[derive(Clone, Copy, Debug)]
pub struct Totals {
    pub counts: Counts,
    /// The first of the wrong ones that are off the farthest.
    pub worst: Option<Worst>,
}

/// The lesser of two.
fn lesser(first: Difference, second: Difference) -> Difference
    ensures { result ≡ lesser first second }
{
    if first.is_below(second) {
        first
    } else {
        second
    }
}

/// The greater of two.
fn greater(first: Difference, second: Difference) -> Difference
    ensures { result ≡ greater first second }
{
    if first.is_below(second) {
        second
    } else {
        first
    }
}

/// By how much a result is off at the least: by its own path delay and how far this lies from the newest ones, or by the newest delay.
fn off_of(judged: &Judged) -> Difference
    ensures { result ≡ off_of judged.now }
{
    let by_path = greater(judged.sum_error.size(), judged.beyond);
    let by_newest = greater(judged.offset_error.size(), judged.path_error.size());
    lesser(by_path, by_newest)
}

impl Counts {
    /// One more has this verdict, or isn't judged.
    fn count(&mut self, verdict: Option<Verdict>)
        ensures { self.new ≡ counted verdict self.old }
    {
        match verdict {
            Some(Verdict::Exact) => self.exact = self.exact.saturating_add(1),
            Some(Verdict::Within) => self.within = self.within.saturating_add(1),
            Some(Verdict::Filtered) => self.filtered = self.filtered.saturating_add(1),
            Some(Verdict::Older) => self.older = self.older.saturating_add(1),
            Some(Verdict::Wrong) => self.wrong = self.wrong.saturating_add(1),
            None => self.unjudged = self.unjudged.saturating_add(1),
        }
    }
}

impl Totals {
    /// None was answered.
    pub fn new() -> Totals
        ensures { result ≡ no_answers }
    {
        Totals {
            counts: Counts {
                exact: 0,
                within: 0,
                filtered: 0,
                older: 0,
                wrong: 0,
                unjudged: 0,
            },
            worst: None,
        }
    }

    /// One more was answered.
    pub fn take(&mut self, answer: &Answer)
        ensures { self.new ≡ with_answer answer.now self.old }
    {
        self.counts.count(answer.verdict);
        if let Some(found) = &answer.found
            && answer.is_wrong()
        {
            self.notice(answer.told.line, off_of(&found.judged));
        }
    }

    /// One more is wrong, by so much.
    fn notice(&mut self, line: u64, off: Difference)
        ensures { self.new ≡ record self.old { worst = Some (noticed line off self.old.worst) } }
    {
        match &self.worst {
            Some(worst) if !worst.off.is_below(off) => {}
            _ => self.worst = Some(Worst { line, off }),
        }
    }
}
