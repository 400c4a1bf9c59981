//! What speaks against the numbers of crossings.
ghost use Rattle.std.specs.Prelude.{◌≡◌, IfSome, List};
ghost use Rattle.tap_crossing.specs.declared.crossing.Crossing.{Crossing};
ghost use Rattle.tap_sums.specs.Beware.{count_of, are_most, takes_below, rests_below, taken_below, rest_below, is_lasting, is_step};
ghost use Rattle.tap_sums.specs.Beware.{step, is_drift, drift, moves, move_of, uncorrected, are_uncorrected, is_steep, steep_rate};
ghost use Rattle.tap_sums.specs.Beware.{is_beyond_half, is_beyond_ways, is_too_great, are_exchanged, clocks_differ, bewares, told_rate, told_asymmetry, told_mean_rest, AreWays, IsWay};
ghost use Rattle.tap_sums.specs.Held.{AreSums};
ghost use Rattle.tap_sums.specs.Figures.{AreFigures};
ghost use Rattle.tap_sums.specs.Shown.{AreShown, AreToldShown, AreBothShown, AreWaysShown, IsShown};

use crate::course::Course;
use crate::figures::Figures;
use crate::spread::{BothWays, Spread, Statistics};
use crate::sums::Sums;
use statistics::{Cases, Change, Growth, Shift, Signed, shift_of, slope};
use tap_crossing::Kind;

/// From how many crossings of a kind on it is told what speaks against them.
const CROSSINGS: u64 = 16;

/// From how many crossings on, before and behind it, a step lasts.
const LASTING: u64 = 4;

/// From how many thousandths of a nanosecond on a step is told: 100 ns.
const STEP: u128 = 100_000;

/// From how many thousand-millionths of time on a drift is told: 0.1 ppm.
const DRIFT: u128 = 100;

/// From how many thousand-millionths on it is told that rests grow with corrections: 1 ppm.
const RATE: u128 = 1000;

/// Up to how many thousand-millionths a clock is fast or slow: 100 ppm.
const CLOCK_RATE: u128 = 100_000;

/// Up to how many units of 2^-16 ns an asymmetry is taken as one, however long both ways are: 100 us.
const ASYMMETRY: u128 = 6_553_600_000;

/// Up to how many units of 2^-16 ns it is taken as one, however short they are: 100 ns.
const SMALL_ASYMMETRY: u128 = 6_553_600;

/// What the crossings of a kind come to.
#[derive(Clone, Copy)]
pub struct Way {
    /// How many there are, and the least, the mean and the greatest of what they have.
    pub statistics: Statistics,
    /// How their rests go over time.
    pub course: Course,
    /// What one step in their rests comes to, at the greatest change from one to the next, rounded.
    pub shift: Option<Shift>,
    /// How much their rests grow by time, rounded.
    pub growth: Option<Growth>,
}

/// What the crossings of both kinds come to.
#[derive(Clone, Copy)]
pub struct Ways {
    /// Those of Syncs.
    pub syncs: Way,
    /// Those of Delay_Reqs.
    pub requests: Way,
    /// What both tell together.
    pub both: BothWays,
    /// How much the rests of Syncs grow by their corrections, rounded.
    pub rate: Option<Growth>,
}

/// Crossings of a kind that are as most should not be.
#[derive(Clone, Copy)]
pub struct Below {
    /// The kind.
    pub kind: Kind,
    /// How many are so, and the first of them.
    pub cases: Cases,
    /// How many crossings of this kind there are.
    pub of: u64,
    /// Whether most of the other kind are so, too.
    pub is_of_both: bool,
}

/// What speaks against the numbers of crossings. Of a kind it is told from 16 crossings on, and most are more than three of four.
#[derive(Clone, Copy)]
pub enum Beware {
    /// Most crossings of a kind took less than 0.
    TakenBelow(Below),
    /// Most crossings of a kind took 0 or more, and less than 0 rests of most.
    RestBelow(Below),
    /// One step of 100 ns or more explains most of how the rests of a kind vary, and more than a line does, with 4 crossings or more before
    /// it and behind it: by how much, in thousandths of a nanosecond, and the line or packet of the first behind it.
    Step { kind: Kind, by: Signed, line: u64 },
    /// A line over time, of 0.1 ppm or more, explains half of how the rests of a kind vary, or more: by how much they grow, in
    /// thousand-millionths of time.
    Drift { kind: Kind, rate: Signed },
    /// All crossings of a kind took more than 0 and were corrected by 0.
    Uncorrected { kind: Kind, cases: Cases },
    /// The rests of Syncs grow by more of their corrections than a clock is fast or slow, which is 100 ppm, and that explains half of how
    /// they vary, or more: by how many thousand-millionths.
    SteepRate(Signed),
    /// The mean rest of Syncs differs from that of Delay_Reqs by more than 100 us, or by more than 100 ns and the mean of what
    /// both took: the asymmetry, in units of 2^-16 ns.
    ClocksDiffer(i128),
}

/// How many bewares there can be.
pub const BEWARES: usize = 9;

/// Whether so many are most of 16 or more: more than three of four.
fn are_most(count: u64, of: u64) -> bool
    ensures { result ≡ are_most count of }
{
    of >= CROSSINGS && 3 * u128::from(of) < 4 * u128::from(count)
}

/// Whether a step at this change lasts: so many crossings are before it, and so many behind it.
fn is_lasting(change: &Change, of: u64) -> bool
    ensures { result ≡ is_lasting change.now of }
{
    change.before.count >= LASTING && of.saturating_sub(change.before.count) >= LASTING
}

/// Whether an asymmetry is beyond half of this, which isn't below 0.
fn is_beyond_half(asymmetry: i128, taken: i128) -> bool
    requires asymmetry { IsShown asymmetry }
    ensures { result ≡ is_beyond_half asymmetry taken }
{
    !(taken < 0) && taken.unsigned_abs() < 2 * asymmetry.unsigned_abs()
}

/// Whether the asymmetry is beyond the mean of what both ways took, where that isn't below 0.
fn is_beyond_ways(asymmetry: i128, syncs: &Option<Spread>, requests: &Option<Spread>) -> bool
    requires asymmetry { IsShown asymmetry }
    requires syncs { IfSome syncs.now AreShown }
    requires requests { IfSome requests.now AreShown }
    ensures { result ≡ is_beyond_ways asymmetry syncs.now requests.now }
{
    match (syncs, requests) {
        (Some(syncs), Some(requests)) => { is_beyond_half(asymmetry, syncs.mean + requests.mean) }
        _ => false,
    }
}

/// Whether rests grow by more of their corrections than a clock is fast or slow.
fn is_steep(rate: &Growth) -> bool
    ensures { result ≡ is_steep rate.now }
{
    rate.explains_half && rate.rate.size > CLOCK_RATE
}

impl Way {
    /// What the crossings of a kind come to.
    fn new(kind: Kind, sums: &Sums, figures: &Figures) -> Way
        ensures way { (all : List Crossing) → AreSums all sums.now → AreFigures all figures.now → IsWay kind all result }
        ensures shown { AreToldShown result.statistics }
    {
        let course = figures.course(kind);
        let (shift, growth) = (
            shift_of(&course.rests, &course.trend),
            slope(&course.rests.all, &course.trend),
        );
        Way {
            statistics: sums.statistics(kind),
            course,
            shift,
            growth,
        }
    }

    /// How many crossings there are.
    fn count(&self) -> u64
        ensures { result ≡ count_of self.now }
    {
        self.course.rests.all.count
    }

    /// Whether most took less than 0.
    fn takes_below(&self) -> bool
        ensures { result ≡ takes_below self.now }
    {
        are_most(self.course.taken_below.count, self.count())
    }

    /// Whether less than 0 rests of most.
    fn rests_below(&self) -> bool
        ensures { result ≡ rests_below self.now }
    {
        are_most(self.course.rest_below.count, self.count())
    }

    fn taken_below(&self, other: &Way) -> Option<Beware>
        ensures { result ≡ taken_below self.now other.now }
    {
        if self.takes_below() {
            Some(Beware::TakenBelow(Below {
                kind: self.statistics.kind,
                cases: self.course.taken_below,
                of: self.count(),
                is_of_both: other.takes_below(),
            }))
        } else {
            None
        }
    }

    fn rest_below(&self, other: &Way) -> Option<Beware>
        ensures { result ≡ rest_below self.now other.now }
    {
        if self.rests_below() && !self.takes_below() {
            Some(Beware::RestBelow(Below {
                kind: self.statistics.kind,
                cases: self.course.rest_below,
                of: self.count(),
                is_of_both: other.rests_below(),
            }))
        } else {
            None
        }
    }

    /// Whether one step at this change is told.
    fn is_step(&self, change: &Change, shift: &Shift) -> bool
        ensures { result ≡ is_step self.now change.now shift.now }
    {
        self.count() >= CROSSINGS
            && is_lasting(change, self.count())
            && shift.explains_most
            && shift.by.size >= STEP
    }

    fn step(&self) -> Option<Beware>
        ensures { result ≡ step self.now }
    {
        match (&self.course.rests.greatest, &self.shift) {
            (Some(change), Some(shift)) if self.is_step(change, shift) => Some(Beware::Step {
                kind: self.statistics.kind,
                by: shift.by,
                line: change.to.line,
            }),
            _ => None,
        }
    }

    /// Whether a line over time is told.
    fn is_drift(&self, growth: &Growth) -> bool
        ensures { result ≡ is_drift self.now growth.now }
    {
        self.count() >= CROSSINGS && growth.explains_half && growth.rate.size >= DRIFT
    }

    fn drift(&self) -> Option<Beware>
        ensures { result ≡ drift self.now }
    {
        match &self.growth {
            Some(growth) if self.is_drift(growth) => Some(Beware::Drift {
                kind: self.statistics.kind,
                rate: growth.rate,
            }),
            _ => None,
        }
    }

    /// A step, or else a drift.
    fn moves(&self) -> Option<Beware>
        ensures { result ≡ move_of self.now }
    {
        match self.step() {
            Some(step) => Some(step),
            None => self.drift(),
        }
    }

    fn are_uncorrected(&self) -> bool
        ensures { result ≡ are_uncorrected self.now }
    {
        self.count() >= CROSSINGS && self.course.uncorrected.count == self.count()
    }

    fn uncorrected(&self) -> Option<Beware>
        ensures { result ≡ uncorrected self.now }
    {
        if self.are_uncorrected() {
            Some(Beware::Uncorrected {
                kind: self.statistics.kind,
                cases: self.course.uncorrected,
            })
        } else {
            None
        }
    }
}

impl Ways {
    /// What the crossings of both kinds come to.
    pub fn new(sums: &Sums, figures: &Figures) -> Ways
        ensures ways { (all : List Crossing) → AreSums all sums.now → AreFigures all figures.now → AreWays all result }
        ensures shown { AreWaysShown result }
    {
        Ways {
            syncs: Way::new(Kind::Sync, sums, figures),
            requests: Way::new(Kind::DelayReq, sums, figures),
            both: sums.both_ways(),
            rate: slope(&figures.rests, &figures.trend),
        }
    }

    /// The step or the drift of the rests of Syncs, or else of those of Delay_Reqs.
    fn moves(&self) -> Option<Beware>
        ensures { result ≡ moves self.now }
    {
        match self.syncs.moves() {
            Some(of_syncs) => Some(of_syncs),
            None => self.requests.moves(),
        }
    }

    fn steep_rate(&self) -> Option<Beware>
        ensures { result ≡ steep_rate self.now }
    {
        if self.moves().is_some() || self.syncs.count() < CROSSINGS {
            return None;
        }
        match &self.rate {
            Some(rate) if is_steep(rate) => Some(Beware::SteepRate(rate.rate)),
            _ => None,
        }
    }

    /// Whether an asymmetry is too great to be one.
    fn is_too_great(&self, asymmetry: i128) -> bool
        requires asymmetry { IsShown asymmetry }
        requires shown { AreWaysShown self.now }
        ensures { result ≡ is_too_great self.now asymmetry }
    {
        let (syncs, requests) = (
            &self.syncs.statistics.taken,
            &self.requests.statistics.taken,
        );
        let size = asymmetry.unsigned_abs();
        size > ASYMMETRY || (size > SMALL_ASYMMETRY && is_beyond_ways(asymmetry, syncs, requests))
    }

    /// Whether both kinds look as if the taps were exchanged.
    fn are_exchanged(&self) -> bool
        ensures { result ≡ are_exchanged self.now }
    {
        self.syncs.takes_below() && self.requests.takes_below()
    }

    fn clocks_differ(&self) -> Option<Beware>
        requires shown { AreWaysShown self.now }
        ensures { result ≡ clocks_differ self.now }
    {
        if self.moves().is_some() || self.are_exchanged() {
            return None;
        }
        match self.both.asymmetry {
            Some(asymmetry) if self.is_too_great(asymmetry) => {
                Some(Beware::ClocksDiffer(asymmetry))
            }
            _ => None,
        }
    }

    /// What speaks against the numbers, in the order in which it is told.
    pub fn bewares(&self) -> [Option<Beware>; BEWARES]
        requires shown { AreWaysShown self.now }
        ensures { result ≡ bewares self.now }
    {
        [
            self.syncs.taken_below(&self.requests),
            self.requests.taken_below(&self.syncs),
            self.syncs.rest_below(&self.requests),
            self.requests.rest_below(&self.syncs),
            self.moves(),
            self.clocks_differ(),
            self.syncs.uncorrected(),
            self.requests.uncorrected(),
            self.steep_rate(),
        ]
    }

    /// How much the rests of Syncs grow by their corrections, from 16 Syncs and 1 ppm on, where nothing speaks against that.
    pub fn told_rate(&self) -> Option<Growth>
        ensures { result ≡ told_rate self.now }
    {
        if self.moves().is_some() || self.syncs.count() < CROSSINGS {
            return None;
        }
        match &self.rate {
            Some(rate) if rate.rate.size >= RATE && !is_steep(rate) => Some(*rate),
            _ => None,
        }
    }

    /// The mean rest of both kinds, in units of 2^-16 ns, where rests don't move and the taps aren't exchanged.
    pub fn told_mean_rest(&self) -> Option<i128>
        ensures { result ≡ told_mean_rest self.now }
    {
        if self.moves().is_some() || self.are_exchanged() {
            return None;
        }
        self.both.mean_rest
    }

    /// The asymmetry, in units of 2^-16 ns, where nothing speaks against that.
    pub fn told_asymmetry(&self) -> Option<i128>
        requires shown { AreWaysShown self.now }
        ensures { result ≡ told_asymmetry self.now }
    {
        if self.moves().is_some() || self.syncs.takes_below() || self.requests.takes_below() {
            return None;
        }
        match self.both.asymmetry {
            Some(asymmetry) if !self.is_too_great(asymmetry) => Some(asymmetry),
            _ => None,
        }
    }
}
