//! Results that wait for their Syncs, and those that are judged.

ghost use Rattle.std.specs.Prelude.{◌≡◌, Some, [], ◌∷◌, ◌++◌, map, OnOk};
ghost use Rattle.result_audit.specs.Auditor.{Begins, TakesReportAt, HandsOut, auditing_of, passed_by, with_told, at_end, settled, with_judged, all_learned, learned_gaps};
ghost use Rattle.result_audit.specs.Course.{first_of};
ghost use Rattle.result_audit.specs.Auditor.{is_ready, stand_behind, stand_of_number, stand_of, stand, held_of_newest, held_as, held_now};
ghost use Rattle.result_audit.specs.Coverage.{without_result};
ghost use Rattle.result_audit.specs.Held.{learned};
ghost use Rattle.result_audit.specs.Inner.Turning.{turned, with_held_as};

use crate::answer::Answer;
use crate::course::{AtReport, Course, Gap, Gaps};
use crate::coverage::Coverage;
use crate::held::Held;
use crate::report_at::ReportAt;
use crate::told::{Of, Told};
use crate::why::Why;
use ptp_units::Seq;
use recording_lines::Half;
use result_verdict::Exact;
use std::alloc::{AllocError, Global};
use std::collections::VecDeque;

/// So many results are held at the most.
const HELD_MOST: usize = 1024;

/// Where the Sync of a result stands.
#[derive(Clone, Copy)]
pub(crate) enum Stand {
    /// It is the newest one.
    Newest,
    /// It may come yet.
    Later,
    /// There is none.
    Nowhere(Why),
}

/// Judges results by the reports that are measured, in order.
#[derive(Drop)]
pub struct Auditor {
    tolerance: Exact,
    course: Course,
    /// Those whose Sync may come yet.
    awaiting: VecDeque<Told>,
    /// Those that are judged, and weren't handed out.
    held: VecDeque<Held>,
    /// Up to which line or packet all was taken.
    passed: u64,
    has_ended: bool,
    coverage: Coverage,
}

/// Where the newest Sync stands that came at this line or in front of it.
fn stand_behind(line: u64, course: &Course) -> Stand
    ensures { result ≡ stand_behind line (first_of course.now) }
{
    match (&course.newest, &course.behind) {
        (Some(at), _) | (None, Some(at)) => stand_at(line, at),
        (None, None) => Stand::Nowhere(Why::NothingCame),
    }
}

/// Where the Sync of a report stands that came at this line or in front of it.
fn stand_at(line: u64, at: &AtReport) -> Stand
    ensures { result ≡ stand_behind line (Some at.now) }
{
    if line < at.at.line {
        Stand::Nowhere(Why::Passed(line))
    } else {
        Stand::Newest
    }
}

/// Where the Sync of a sequenceId stands.
fn stand_of_number(newest: Option<Seq>, number: Seq, has_ended: bool) -> Stand
    ensures { result ≡ stand_of_number newest number has_ended }
{
    let Some(newest) = newest else {
        return if has_ended {
            Stand::Nowhere(Why::NoSync(number))
        } else {
            Stand::Later
        };
    };
    if newest.0 == number.0 {
        Stand::Newest
    } else if !has_ended && number.newer_than(newest) {
        Stand::Later
    } else {
        Stand::Nowhere(Why::NoSync(number))
    }
}

/// Appends one more.
fn push_back<T: Drop>(queue: &mut VecDeque<T>, value: T) -> Result<(), AllocError>
    ensures { OnOk result (queue.new.items ≡ queue.old.items ++ value ∷ []) }
{
    queue.reserve(1)?;
    queue.push_back_reserved(value);
    Ok(())
}

impl Auditor {
    /// Nothing was told.
    pub fn new(alloc: Global, tolerance: Exact) -> Auditor
        ensures { Begins tolerance (auditing_of result) }
    {
        Auditor {
            tolerance,
            course: Course::new(),
            awaiting: VecDeque::new(alloc),
            held: VecDeque::new(alloc),
            passed: 0,
            has_ended: false,
            coverage: Coverage::new(),
        }
    }

    /// Takes a report.
    pub fn take(&mut self, at: &ReportAt) -> Result<(), AllocError>
        ensures { OnOk result (TakesReportAt at.now (auditing_of self.old) (auditing_of self.new)) }
    {
        self.pass(at.line.saturating_sub(1))?;
        let gaps = self.course.take(at);
        self.learn_gaps(gaps)?;
        self.coverage.take(at.by, gaps.sync);
        self.settle()
    }

    /// Takes a result.
    pub fn take_told(&mut self, told: Told) -> Result<(), AllocError>
        ensures { OnOk result (auditing_of self.new ≡ with_told told (auditing_of self.old)) }
    {
        match told.of {
            None => {
                let held = self.held_of_newest(&told);
                self.hold(held, true)
            }
            Some(_) => {
                push_back(&mut self.awaiting, told)?;
                self.settle()
            }
        }
    }

    /// All was taken up to this line or packet.
    pub fn pass(&mut self, number: u64) -> Result<(), AllocError>
        ensures { OnOk result (auditing_of self.new ≡ passed_by number (auditing_of self.old)) }
    {
        self.passed = self.passed.max(number);
        self.settle()
    }

    /// Nothing comes any more.
    pub fn end(&mut self) -> Result<(), AllocError>
        ensures { OnOk result (auditing_of self.new ≡ at_end (auditing_of self.old)) }
    {
        self.has_ended = true;
        self.settle()
    }

    /// What is said of the next result, once nothing may change it.
    pub fn next_answer(&mut self) -> Option<Answer>
        ensures { HandsOut (auditing_of self.old) result (auditing_of self.new) (auditing_of self.old).held }
    {
        let is_ready = self.is_ready(self.held.front()?);
        if is_ready {
            Some(self.held.pop_front()?.last_word())
        } else {
            None
        }
    }

    /// How many reports at Syncs have no result.
    pub fn without_result(&self) -> u64
        ensures { result ≡ without_result (auditing_of self.now).coverage }
    {
        self.coverage.without_result()
    }

    /// Whether the first of those that are held may be handed out.
    fn is_ready(&self, held: &Held) -> bool
        ensures { result ≡ is_ready (auditing_of self.now) held.now }
    {
        held.is_decided() || self.has_ended || HELD_MOST < self.held.len()
    }

    /// One more is held. One that is judged now counts as a result of its Sync.
    fn hold(&mut self, held: Held, is_new: bool) -> Result<(), AllocError>
        ensures { OnOk result (auditing_of self.new ≡ with_held_as is_new held (auditing_of self.old)) }
    {
        self.coverage = match &held.answer.found {
            Some(_) if is_new => self.coverage.with_result(),
            _ => self.coverage,
        };
        push_back(&mut self.held, held)
    }

    /// Those that are held learn what lies before the messages of a report.
    fn learn_gaps(&mut self, gaps: Gaps) -> Result<(), AllocError>
        ensures { OnOk result (auditing_of self.new ≡ record (auditing_of self.old) { held = learned_gaps gaps self.old.held.items }) }
    {
        self.learn_if(Half::Response, gaps.exchange)?;
        self.learn_if(Half::Sync, gaps.sync)
    }

    /// Those that are held learn what lies before a message of this half, where one came.
    fn learn_if(&mut self, half: Half, gap: Option<Gap>) -> Result<(), AllocError>
        ensures { OnOk result (auditing_of self.new ≡ record (auditing_of self.old) { held = all_learned half gap self.old.held.items }) }
    {
        match gap {
            Some(gap) => self.learn(half, gap),
            None => Ok(()),
        }
    }

    /// Those that are held learn what lies before a message of this half.
    fn learn(&mut self, half: Half, gap: Gap) -> Result<(), AllocError>
        ensures { OnOk result (auditing_of self.new ≡ record (auditing_of self.old) { held = map (learned half gap) self.old.held.items }) }
    {
        let count = self.held.len();
        for _ in 0..count {
            self.learn_first(half, gap)?;
        }
        Ok(())
    }

    /// The first of those that are held, if there is any, learns what lies before a message of this half, and becomes the last.
    fn learn_first(&mut self, half: Half, gap: Gap) -> Result<(), AllocError>
        ensures { OnOk result (auditing_of self.new ≡ record (auditing_of self.old) { held = turned half gap self.old.held.items }) }
    {
        match self.held.pop_front() {
            Some(held) => self.hold(held.learned(half, gap), false),
            None => Ok(()),
        }
    }

    /// Where the Sync of a result stands.
    fn stand(&self, told: &Told) -> Stand
        ensures { result ≡ stand (auditing_of self.now) told.now.of }
    {
        match told.of {
            None => Stand::Newest,
            Some(of) => self.stand_of(of),
        }
    }

    /// Where the Sync stands that a result names.
    fn stand_of(&self, of: Of) -> Stand
        ensures { result ≡ stand_of (auditing_of self.now) of }
    {
        match of {
            Of::Line(line) if !self.has_ended && self.passed < line => Stand::Later,
            Of::Line(line) => stand_behind(line, &self.course),
            Of::Sequence(number) => { stand_of_number(self.course.sync, number, self.has_ended) }
        }
    }

    /// What is said of a result by the report at the newest Sync, or by that behind it.
    fn held_of_newest(&self, told: &Told) -> Held
        ensures { result ≡ held_of_newest (auditing_of self.now) told.now }
    {
        match (&self.course.newest, &self.course.behind) {
            (Some(at), Some(behind)) => Held::at(*told, at, self.tolerance).or_better(Held::at(
                *told,
                behind,
                self.tolerance,
            )),
            (Some(at), None) | (None, Some(at)) => Held::at(*told, at, self.tolerance),
            (None, None) => Held::without_sync(*told, Why::NothingCame),
        }
    }

    /// What is said of a result whose Sync is the newest one, or nowhere.
    fn held_now(&self, told: &Told) -> Option<Held>
        ensures { result ≡ held_now (auditing_of self.now) told.now }
    {
        match self.stand(told) {
            Stand::Newest => Some(self.held_of_newest(told)),
            Stand::Later => None,
            Stand::Nowhere(why) => Some(Held::without_sync(*told, why)),
        }
    }

    /// The results are judged whose Sync is the newest one or nowhere, up to the first whose Sync may come yet.
    fn settle(&mut self) -> Result<(), AllocError>
        ensures { OnOk result (auditing_of self.new ≡ settled (auditing_of self.old)) }
    {
        while let Some(told) = self.awaiting.pop_front() {
            let Some(held) = self.held_now(&told) else {
                self.awaiting.push_front(told)?;
                break;
            };
            self.hold(held, true)?;
        }
        Ok(())
    }
}
