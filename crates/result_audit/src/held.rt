//! A result that is judged, and held while what is missing beside its messages may still show.

ghost use Rattle.std.specs.Prelude.{◌≡◌};
ghost use Rattle.result_audit.specs.Held.{held_without_sync, held_at, held_by, held_for, path_of, why_wrong, seconds_off, is_beyond_doubt, doubted, awaits, learned, with_doubt, with_gap, is_of_offset, rank_of, better};
ghost use Rattle.result_audit.specs.Held.{is_decided, last_word};

use crate::answer::{Answer, Found};
use crate::course::{AtReport, Gap};
use crate::told::Told;
use crate::why::Why;
use recording_lines::Half;
use result_verdict::{Exact, Judged, Known, Verdict, judge};

/// A result that is judged.
#[derive(Clone, Copy, Debug)]
pub(crate) struct Held {
    pub(crate) answer: Answer,
    /// Whether the next Sync may still show that one is missing.
    awaits_sync: bool,
    /// Whether the next exchange may.
    awaits_exchange: bool,
}

/// The path delay of a result: where none is read, that by which its offset is.
fn path_of(told: &Told, known: &Known) -> Option<Exact>
    ensures { result ≡ path_of told.now known.now }
{
    match told.path {
        Some(path) => Some(path),
        None => known.bracket.checked_minus(told.offset),
    }
}

/// So many whole seconds its offset is off by, from that by its path delay or else from that by the newest delay.
fn seconds_off(judged: &Judged, tolerance: Exact) -> Option<u128>
    ensures { result ≡ seconds_off judged.now tolerance }
{
    match judged.sum_error.whole_seconds(tolerance) {
        Some(seconds) => Some(seconds),
        None => judged.offset_error.whole_seconds(tolerance),
    }
}

/// Why a wrong result is wrong.
fn why_wrong(told: &Told, judged: &Judged, tolerance: Exact) -> Why
    ensures { result ≡ why_wrong told.now judged.now tolerance }
{
    if told.path.is_none() {
        let seconds = judged.offset_error.whole_seconds(tolerance);
        Why::NoDelay(judged.offset_error, seconds)
    } else if tolerance.is_at_least(judged.sum_error.size()) {
        Why::PathBeyond(judged.beyond)
    } else if tolerance.is_at_least(judged.offset_error.size()) {
        Why::PathOff(judged.path_error)
    } else {
        let seconds = seconds_off(judged, tolerance);
        Why::OffsetOff(judged.sum_error, judged.offset_error, seconds)
    }
}

/// Whether a result is wrong for this reason whatever the delays were that aren't known.
fn is_beyond_doubt(why: &Why) -> bool
    ensures { result ≡ is_beyond_doubt why.now }
{
    matches!(why, Why::OffsetOff(..))
}

/// Whether an offset alone is wrong, which may be that of another Sync.
fn is_of_offset(why: &Option<Why>) -> bool
    ensures { result ≡ is_of_offset why.now }
{
    matches!(why, Some(Why::OffsetOff(..) | Why::NoDelay(..)))
}

impl Held {
    /// One of which no Sync is known.
    pub(crate) fn without_sync(told: Told, why: Why) -> Held
        ensures { result ≡ held_without_sync told why }
    {
        Held::of(Answer::without_sync(told, why))
    }

    /// One that waits for nothing.
    fn of(answer: Answer) -> Held
        ensures { result ≡ held_for answer }
    {
        Held {
            answer,
            awaits_sync: false,
            awaits_exchange: false,
        }
    }

    /// One of this report.
    pub(crate) fn at(told: Told, at: &AtReport, tolerance: Exact) -> Held
        ensures { result ≡ held_at told at.now tolerance }
    {
        let Some(path) = path_of(&told, &at.known) else {
            return Held::without_sync(told, Why::TooFar);
        };
        let judged = judge(&at.known, told.offset, path, tolerance);
        Held::by(told, at, tolerance, &judged)
    }

    /// One of this report, by which it is this.
    fn by(told: Told, at: &AtReport, tolerance: Exact, judged: &Judged) -> Held
        ensures { result ≡ held_by told at.now tolerance judged.now }
    {
        let mut held = Held::of(Answer {
            told,
            found: Some(Found {
                at: at.at,
                judged: *judged,
            }),
            verdict: Some(judged.verdict),
            why: None,
        });
        match judged.verdict {
            Verdict::Wrong => held.doubt(at, why_wrong(&told, judged, tolerance)),
            Verdict::Exact | Verdict::Within | Verdict::Filtered | Verdict::Older => {}
        }
        held
    }

    /// How good its verdict is: 0 is best, and none is better than a wrong one.
    fn rank(&self) -> u8
        ensures { result ≡ rank_of self.now.answer.verdict }
    {
        match self.answer.verdict {
            Some(Verdict::Exact) => 0,
            Some(Verdict::Within) => 1,
            Some(Verdict::Filtered) => 2,
            Some(Verdict::Older) => 3,
            None => 4,
            Some(Verdict::Wrong) => 5,
        }
    }

    /// The better of the same result by two reports, and of equal ones the first.
    pub(crate) fn or_better(self, other: Held) -> Held
        ensures { result ≡ better self other }
    {
        if other.rank() < self.rank() {
            other
        } else {
            self
        }
    }

    /// It is wrong, unless a message is missing.
    fn doubt(&mut self, at: &AtReport, why: Why)
        ensures { self.new ≡ doubted at.now why self.old }
    {
        if !at.is_whole && !is_beyond_doubt(&why) {
            self.answer.excuse(Why::Unknown);
            return;
        }
        self.answer.why = Some(why);
        self.awaits_sync = true;
        self.awaits_exchange = true;
        if let Some(gap) = at.behind_exchange {
            self.meet(Half::Response, gap);
        }
    }

    /// Takes what lies between its message of a half and the next one, if it waits for that.
    fn learn(&mut self, half: Half, gap: Gap)
        ensures { self.new ≡ learned half gap self.old }
    {
        if !self.awaits(half) {
            return;
        }
        match half {
            Half::Sync => self.awaits_sync = false,
            Half::Response => self.awaits_exchange = false,
        }
        self.meet(half, gap);
    }

    /// This lies beside its message of a half.
    fn meet(&mut self, half: Half, gap: Gap)
        ensures { self.new ≡ with_gap half gap self.old }
    {
        match gap {
            Gap::None => {}
            Gap::Missing(number) => self.doubt_wrong(Why::Missing(half, number)),
            Gap::Anew => self.doubt_wrong(Why::BeganAnew(half)),
        }
    }

    /// What it is once it took that.
    pub(crate) fn learned(self, half: Half, gap: Gap) -> Held
        ensures { result ≡ learned half gap self }
    {
        let mut held = self;
        held.learn(half, gap);
        held
    }

    /// It isn't judged for this reason, if it is wrong.
    fn doubt_wrong(&mut self, why: Why)
        ensures { self.new ≡ with_doubt why self.old }
    {
        if self.answer.is_wrong() {
            self.answer.excuse(why);
        }
    }

    /// What is said of it when it is handed out: where no Sync came behind its own, an offset alone accuses nobody, and where no exchange did,
    /// nothing does.
    pub(crate) fn last_word(&self) -> Answer
        ensures { result ≡ last_word self.now }
    {
        let mut answer = self.answer;
        if self.awaits_sync && answer.is_wrong() && is_of_offset(&answer.why) {
            answer.excuse(Why::NothingBehind(Half::Sync));
        } else if self.awaits_exchange && answer.is_wrong() {
            answer.excuse(Why::NothingBehind(Half::Response));
        }
        answer
    }

    /// Whether it waits for the next message of a half.
    fn awaits(&self, half: Half) -> bool
        ensures { result ≡ awaits half self.now }
    {
        match half {
            Half::Sync => self.awaits_sync,
            Half::Response => self.awaits_exchange,
        }
    }

    /// Whether nothing may change what is said of it.
    pub(crate) fn is_decided(&self) -> bool
        ensures { result ≡ is_decided self.now }
    {
        !self.answer.is_wrong() || (!self.awaits_sync && !self.awaits_exchange)
    }
}
