ghost use Rattle.std.specs.Prelude.{◌≡◌, List, [], ◌∷◌, OnOk, MatchResult, ⊤, map};
ghost use Rattle.tap_crossing.specs.Crossing.{IsWithin};
ghost use Rattle.tap_crossing.specs.declared.crossing.Crossing.{Crossing};
ghost use Rattle.tap_sums.specs.Sums.{of_kind, value_of};
ghost use Rattle.tap_sums.specs.Course.{IsCourse};
ghost use Rattle.tap_sums.specs.Figures.{AreFigures, AreKept, point_of};
ghost use Rattle.statistics.specs.Median.{IsMedian, IsRecent, last};

use crate::changed::Changed;
use crate::course::Course;
use crate::spread::Quantity;
use crate::total::RAISED;
use statistics::{Middle, Point, Recent, Series, Trend};
use std::alloc::{AllocError, Global};
use tap_crossing::{Crossing, Kind};

/// The last crossings of a kind, and the course of all.
#[derive(Drop)]
pub(crate) struct KindFigures {
    pub(crate) taken: Recent,
    pub(crate) corrected: Recent,
    pub(crate) rest: Recent,
    pub(crate) course: Course,
}

/// What people are told of crossings beside their sums.
#[derive(Drop)]
pub struct Figures {
    alloc: Global,
    pub(crate) syncs: KindFigures,
    pub(crate) requests: KindFigures,
    /// The rests of Syncs, doubled, by their corrections, which are raised by 2^97 and stand in the place of times.
    pub rests: Series,
    /// The sums of these beside, by which a line through them is drawn.
    pub trend: Trend,
    /// How many messages had other fields changed between the taps than their corrections.
    pub changed: Changed,
}

/// The rest of a crossing, doubled, by its correction.
fn point_of(crossing: &Crossing) -> Point
    requires { IsWithin crossing.now }
    ensures { result ≡ point_of crossing.now }
{
    Point {
        line: crossing.first_line,
        time: (crossing.corrected + RAISED) as u128,
        value: 2 * crossing.rest,
    }
}

impl KindFigures {
    /// There is no crossing.
    fn new(alloc: Global) -> KindFigures
        ensures { AreKept [] result }
    {
        KindFigures {
            taken: Recent::new(alloc),
            corrected: Recent::new(alloc),
            rest: Recent::new(alloc),
            course: Course::new(),
        }
    }

    /// Takes one more crossing.
    fn take(&mut self, crossing: &Crossing) -> Result<(), AllocError>
        requires { IsWithin crossing.now }
        ensures { (earlier : List Crossing) → AreKept earlier self.old
            → OnOk result (AreKept (crossing.now ∷ earlier) self.new) }
    {
        self.course.take(crossing);
        self.taken.take(crossing.taken)?;
        self.corrected.take(crossing.corrected)?;
        self.rest.take(crossing.rest)?;
        Ok(())
    }

    /// The last values of what each has.
    fn recent(&self, quantity: Quantity) -> &Recent
        ensures { (all : List Crossing) → AreKept all self.now → IsRecent (map (value_of quantity) all) result.now }
    {
        match quantity {
            Quantity::Taken => &self.taken,
            Quantity::Corrected => &self.corrected,
            Quantity::Rest => &self.rest,
        }
    }
}

impl Figures {
    /// Figures of no crossings.
    pub fn new(alloc: Global) -> Figures
        ensures { AreFigures [] result }
    {
        Figures {
            alloc,
            syncs: KindFigures::new(alloc),
            requests: KindFigures::new(alloc),
            rests: Series::new(),
            trend: Trend::new(),
            changed: Changed::new(),
        }
    }

    /// Takes one more crossing. Nothing more is promised after want of memory.
    pub fn take(&mut self, crossing: &Crossing) -> Result<(), AllocError>
        requires { IsWithin crossing.now }
        ensures { (earlier : List Crossing) → AreFigures earlier self.old
            → OnOk result (AreFigures (crossing.now ∷ earlier) self.new) }
    {
        self.changed.take(&crossing.event_changes);
        self.changed.take(&crossing.other_changes);
        match crossing.kind {
            Kind::Sync => {
                let point = point_of(crossing);
                self.rests.take(point);
                self.trend.take(point);
                self.syncs.take(crossing)?;
            }
            Kind::DelayReq => self.requests.take(crossing)?,
        }
        Ok(())
    }

    /// The last crossings of a kind.
    fn of_kind(&self, kind: Kind) -> &KindFigures
        ensures { (all : List Crossing) → AreFigures all self.now → AreKept (of_kind kind all) result.now }
    {
        match kind {
            Kind::Sync => &self.syncs,
            Kind::DelayReq => &self.requests,
        }
    }

    /// The median of what the last 4,096 crossings of a kind have, if there are any: the two values in the
    /// middle.
    pub fn median(&self, kind: Kind, quantity: Quantity) -> Result<Option<Middle>, AllocError>
        ensures { (all : List Crossing) → AreFigures all self.now
            → MatchResult result (IsMedian (last (map (value_of quantity) (of_kind kind all)))) (λ _. ⊤) }
    {
        self.of_kind(kind).recent(quantity).median(self.alloc)
    }

    /// How the rests of a kind go over time, and which of its crossings are as none should be.
    pub fn course(&self, kind: Kind) -> Course
        ensures { (all : List Crossing) → AreFigures all self.now → IsCourse (of_kind kind all) result }
    {
        self.of_kind(kind).course
    }
}
