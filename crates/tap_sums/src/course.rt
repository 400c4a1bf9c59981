//! How the rests of crossings go over time, and which crossings are as none should be.
ghost use Rattle.std.specs.Prelude.{◌≡◌, List, [], ◌∷◌};
ghost use Rattle.tap_crossing.specs.Crossing.{IsWithin};
ghost use Rattle.tap_crossing.specs.declared.crossing.Crossing.{Crossing};
ghost use Rattle.tap_sums.specs.Course.{IsCourse, rest_of, taken_below_of, rest_below_of, uncorrected_of};

use statistics::{Cases, Point, Step, Trend};
use tap_crossing::Crossing;

/// How the rests of crossings of a kind go over time, and which crossings are as none should be. Each is told by the line of its event
/// message at its first tap, and by the time there, in 2^-16 ns.
#[derive(Clone, Copy)]
pub struct Course {
    /// The rests, in 2^-17 ns, and the greatest change from one to the next.
    pub rests: Step,
    /// What a line through these over their times is drawn by.
    pub trend: Trend,
    /// Those that took less than 0, with what they took, in 2^-16 ns.
    pub taken_below: Cases,
    /// Those of which less than 0 rests, with their rest, in 2^-16 ns.
    pub rest_below: Cases,
    /// Those that took more than 0 and were corrected by 0, with what they took, in 2^-16 ns.
    pub uncorrected: Cases,
}

/// The rest of a crossing, doubled.
fn rest_of(crossing: &Crossing) -> Point
    requires { IsWithin crossing.now }
    ensures { result ≡ rest_of crossing.now }
{
    Point {
        line: crossing.first_line,
        time: crossing.time.value(),
        value: 2 * crossing.rest,
    }
}

/// What a crossing took, where that is less than 0.
fn taken_below_of(crossing: &Crossing) -> Option<Point>
    ensures { result ≡ taken_below_of crossing.now }
{
    if crossing.taken < 0 {
        Some(Point {
            line: crossing.first_line,
            time: crossing.time.value(),
            value: crossing.taken,
        })
    } else {
        None
    }
}

/// What rests of a crossing, where that is less than 0.
fn rest_below_of(crossing: &Crossing) -> Option<Point>
    ensures { result ≡ rest_below_of crossing.now }
{
    if crossing.rest < 0 {
        Some(Point {
            line: crossing.first_line,
            time: crossing.time.value(),
            value: crossing.rest,
        })
    } else {
        None
    }
}

/// What a crossing took, where that is more than 0 and nothing was corrected.
fn uncorrected_of(crossing: &Crossing) -> Option<Point>
    ensures { result ≡ uncorrected_of crossing.now }
{
    if crossing.corrected == 0 && crossing.taken > 0 {
        Some(Point {
            line: crossing.first_line,
            time: crossing.time.value(),
            value: crossing.taken,
        })
    } else {
        None
    }
}

impl Course {
    /// Of no crossings.
    pub(crate) fn new() -> Course
        ensures { IsCourse [] result }
    {
        Course {
            rests: Step::new(),
            trend: Trend::new(),
            taken_below: Cases::new(),
            rest_below: Cases::new(),
            uncorrected: Cases::new(),
        }
    }

    /// Takes one more crossing.
    pub(crate) fn take(&mut self, crossing: &Crossing)
        requires { IsWithin crossing.now }
        ensures { (earlier : List Crossing) → IsCourse earlier self.old → IsCourse (crossing.now ∷ earlier) self.new }
    {
        let rest = rest_of(crossing);
        self.rests.take(rest);
        self.trend.take(rest);
        self.taken_below.take_some(taken_below_of(crossing));
        self.rest_below.take_some(rest_below_of(crossing));
        self.uncorrected.take_some(uncorrected_of(crossing));
    }
}
