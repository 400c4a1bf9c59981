//! What a slave's readings tell at its newest Sync, and at the newest response behind that.

ghost use Rattle.std.specs.Prelude.{◌≡◌, ◌≤◌, ◌+◌, min, length, Some, None, MatchOption, option_map};
ghost use Rattle.result_audit.specs.Course.{gap_between, gap_to_other, with_delay, known_of, without_newest, delays_at_sync, delays_with, since_with, delays_at_other, since_at_other, delays_behind_other, since_behind_other, newest_behind_other};
ghost use Rattle.result_audit.specs.Course.{delays_at_exchange, since_at_exchange, bracket2_of, IsTooFar, IsAtReport, IsUntold, at_with, sync_gaps, exchange_gap, other_sync, TakesSync};
ghost use Rattle.result_audit.specs.Course.{TakesExchange, TakesReport};

use crate::report_at::ReportAt;
use arrayvec::ArrayVec;
use ptp_units::Seq;
use recording_lines::Half;
use result_verdict::{Exact, Known, NEWEST};

/// So many numbers may be missing between two messages of one life of their sender.
const NEAR: u16 = 256;

/// What lies between a message and the last of its kind.
#[derive(Clone, Copy, Debug, PartialEq, Eq)]
pub(crate) enum Gap {
    /// Nothing.
    None,
    /// Messages, of which this is the first.
    Missing(Seq),
    /// Their sender began anew.
    Anew,
}

impl Gap {
    /// What lies between two numbers.
    pub(crate) fn between(last: Option<Seq>, number: Seq) -> Gap
        ensures { result ≡ gap_between last number }
    {
        let Some(last) = last else {
            return Gap::None;
        };
        let ahead = number.0.wrapping_sub(last.0);
        if ahead == 1 {
            Gap::None
        } else if 1 < ahead {
            if NEAR < ahead {
                Gap::Anew
            } else {
                Gap::Missing(last.next())
            }
        } else {
            Gap::Anew
        }
    }

    /// What lies between the last number and that of a report, where it is another one; none where it is the same, or the first.
    fn to_other(last: Option<Seq>, number: Seq) -> Option<Gap>
        ensures { result ≡ gap_to_other last number }
    {
        let last = last?;
        if last.0 == number.0 {
            None
        } else {
            Some(Gap::between(Some(last), number))
        }
    }
}

/// What lies before the messages of a report that are new: before its exchange, and before its Sync.
#[derive(Clone, Copy, Debug)]
pub(crate) struct Gaps {
    pub(crate) exchange: Option<Gap>,
    pub(crate) sync: Option<Gap>,
}

/// The delays at the last responses, the newest in front; none where messages are missing.
#[derive(Drop)]
pub(crate) struct Delays {
    delays: ArrayVec<Option<Exact>, NEWEST>,
}

/// Those that are known.
fn known_of(delays: &[Option<Exact>]) -> ArrayVec<Exact, NEWEST>
    requires { length delays.now ≤ 16 }
    ensures { result.items ≡ known_of delays.now }
{
    let mut known = ArrayVec::new();
    for delay in delays {
        if let Some(delay) = delay {
            known.push(*delay);
        }
    }
    known
}

/// Those behind the newest ones, which one mark stands for.
fn without_newest(count: usize, delays: &[Option<Exact>]) -> ArrayVec<Option<Exact>, NEWEST>
    requires { length delays.now ≤ 16 }
    ensures { result.items ≡ without_newest count delays.now }
{
    let mut left = ArrayVec::new();
    let skipped = count.min(delays.len());
    if 0 < count {
        left.push(None);
    }
    for delay in &delays[skipped..] {
        left.push(*delay);
    }
    left
}

impl Delays {
    /// One more.
    fn take(&mut self, delay: Option<Exact>)
        ensures { self.new.delays.items ≡ with_delay delay self.old.delays.items }
    {
        self.delays.truncate(NEWEST - 1);
        self.delays.insert(0, delay);
    }

    /// What lies between two Syncs, behind the first of which so many came, leaves these.
    fn meet_sync(&mut self, gap: Gap, since: usize)
        ensures { self.new.delays.items ≡ delays_at_sync gap since self.old.delays.items }
    {
        match gap {
            Gap::None => {}
            Gap::Missing(_) => self.delays = without_newest(since, self.delays.as_slice()),
            Gap::Anew => self.delays.clear(),
        }
    }

    /// What lies between two exchanges leaves these.
    fn meet_exchange(&mut self, gap: Gap)
        ensures { self.new.delays.items ≡ delays_at_exchange gap self.old.delays.items }
    {
        match gap {
            Gap::None => {}
            Gap::Missing(_) => self.take(None),
            Gap::Anew => self.delays.clear(),
        }
    }
}

/// What is known at a report.
#[derive(Drop)]
pub(crate) struct AtReport {
    /// The report at it.
    pub(crate) at: ReportAt,
    /// The bracket and the delays.
    pub(crate) known: Known,
    /// Whether each delay at the last responses is known.
    pub(crate) is_whole: bool,
    /// What lies before the exchanges behind it, once one came.
    pub(crate) behind_exchange: Option<Gap>,
}

impl AtReport {
    /// By the report at it, and the delays until then. The bracket has to be less than 2^110 ns, either way.
    fn new(at: &ReportAt, delays: &Delays) -> Option<AtReport>
        ensures { MatchOption result (IsTooFar at.now) (IsAtReport at.now delays.now.delays.items) }
    {
        let report = &at.report;
        let bracket2 = report.offset2.checked_add(report.path2)?;
        let responses = known_of(delays.delays.as_slice());
        let is_whole = responses.is_full();
        Some(AtReport {
            at: *at,
            known: Known {
                bracket: Exact::from_twice(bracket2),
                latest: Exact::from_twice(report.path2),
                responses,
            },
            is_whole,
            behind_exchange: None,
        })
    }

    /// One more exchange behind it came, and this lies before it. What is missing stays.
    fn learn_behind(&mut self, gap: Gap)
        ensures { self.new ≡ at_with gap self.old }
    {
        match self.behind_exchange {
            None | Some(Gap::None) => self.behind_exchange = Some(gap),
            Some(Gap::Missing(_) | Gap::Anew) => {}
        }
    }
}

/// What a slave's readings told so far.
#[derive(Drop)]
pub(crate) struct Course {
    /// At the newest Sync.
    pub(crate) newest: Option<AtReport>,
    /// At the newest response, if it came behind that.
    pub(crate) behind: Option<AtReport>,
    /// The number of the Sync of the last report.
    pub(crate) sync: Option<Seq>,
    /// The number of its exchange.
    request: Option<Seq>,
    delays: Delays,
    /// So many delays came behind the newest Sync.
    since: usize,
}

/// How many delays came, with one more; no more are looked at than 16.
fn one_more(since: usize) -> usize
    ensures { result ≡ min (since + 1) 16 }
{
    if since < NEWEST { since + 1 } else { NEWEST }
}

/// How many delays came behind a Sync, where this lies between the last exchange and the next.
fn since_at_exchange(gap: Gap, since: usize) -> usize
    ensures { result ≡ since_at_exchange gap since }
{
    match gap {
        Gap::None => since,
        Gap::Missing(_) => one_more(since),
        Gap::Anew => 0,
    }
}

impl Course {
    /// Nothing was told.
    pub(crate) fn new() -> Course
        ensures { IsUntold result }
    {
        Course {
            newest: None,
            behind: None,
            sync: None,
            request: None,
            delays: Delays {
                delays: ArrayVec::new(),
            },
            since: 0,
        }
    }

    /// Takes a report. Answers what lies before its messages that are new.
    pub(crate) fn take(&mut self, at: &ReportAt) -> Gaps
        ensures { TakesReport at.now self.old self.new result }
    {
        match at.by {
            Half::Sync => self.take_sync(at),
            Half::Response => self.take_exchange(at),
        }
    }

    /// Takes a report at a Sync.
    fn take_sync(&mut self, at: &ReportAt) -> Gaps
        ensures gaps { result ≡ sync_gaps at.now self.old }
        ensures taken { TakesSync at.now self.old self.new }
    {
        let gap = Gap::between(self.sync, at.exchange.sync_number);
        let other = Gap::to_other(self.request, at.exchange.request_number);
        self.add_other(other);
        self.delays.meet_sync(gap, self.since);
        self.since = 0;
        self.sync = Some(at.exchange.sync_number);
        self.request = Some(at.exchange.request_number);
        self.newest = AtReport::new(at, &self.delays);
        self.behind = None;
        Gaps {
            exchange: other,
            sync: Some(gap),
        }
    }

    /// This lies before an exchange of which no report was made at its response, where there is one.
    fn add_other(&mut self, gap: Option<Gap>)
        ensures delays { self.new.delays.delays.items ≡ delays_at_other gap self.old.delays.delays.items }
        ensures others { self.new ≡ record self.old { delays = self.new.delays; since = since_at_other gap self.old.since } }
    {
        if let Some(gap) = gap {
            self.add_exchange(gap, None);
        }
    }

    /// This lies before an exchange, and this is the delay at its response, where it is known.
    fn add_exchange(&mut self, gap: Gap, delay: Option<Exact>)
        ensures delays { self.new.delays.delays.items ≡ delays_with delay gap self.old.delays.delays.items }
        ensures others { self.new ≡ record self.old { delays = self.new.delays; since = since_with gap self.old.since } }
    {
        self.delays.meet_exchange(gap);
        self.delays.take(delay);
        self.since = one_more(since_at_exchange(gap, self.since));
    }

    /// Takes a report at a response.
    fn take_exchange(&mut self, at: &ReportAt) -> Gaps
        ensures gaps { result ≡ record { exchange = Some (exchange_gap at.now self.old); sync = other_sync at.now self.old } }
        ensures taken { TakesExchange at.now self.old self.new }
    {
        let gap = Gap::between(self.request, at.exchange.request_number);
        let other = Gap::to_other(self.sync, at.exchange.sync_number);
        self.leave_sync(other);
        self.add_exchange(gap, Some(Exact::from_twice(at.report.path2)));
        self.sync = Some(at.exchange.sync_number);
        self.request = Some(at.exchange.request_number);
        self.learn_behind(gap);
        self.behind = AtReport::new(at, &self.delays);
        Gaps {
            exchange: Some(gap),
            sync: other,
        }
    }

    /// This lies before a Sync at which no report was made, where there is one.
    fn leave_sync(&mut self, gap: Option<Gap>)
        ensures delays { self.new.delays.delays.items ≡ delays_behind_other gap self.old.since self.old.delays.delays.items }
        ensures others { self.new ≡ record self.old {
          delays = self.new.delays;
          since = since_behind_other gap self.old.since;
          newest = newest_behind_other gap self.old.newest;
        } }
    {
        if let Some(gap) = gap {
            self.delays.meet_sync(gap, self.since);
            self.since = 0;
            self.newest = None;
        }
    }

    /// The exchange behind the newest Sync came, and this lies before it.
    fn learn_behind(&mut self, gap: Gap)
        ensures { self.new ≡ record self.old { newest = option_map (at_with gap) self.old.newest } }
    {
        if let Some(newest) = &mut self.newest {
            newest.learn_behind(gap);
        }
    }
}
