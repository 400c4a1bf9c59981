ghost use Rattle.std.specs.Prelude.{◌≡◌, List, [], ◌∷◌};
ghost use Rattle.statistics.specs.Trend.{IsTrend};

use crate::series::{Point, size_above, size_below};
use crate::wide::Wide;

/// What a line through values over their times is drawn by, in least squares: the sums beside those of a series. Each stays at
/// 2^256 - 1.
#[derive(Clone, Copy)]
pub struct Trend {
    /// The sum of the times.
    pub times: Wide,
    /// The sum of the squares of the times.
    pub squares: Wide,
    /// The sum of the products of time and value, where the value is above 0.
    pub above: Wide,
    /// The sum of the products of time and the value's size, where the value is below 0.
    pub below: Wide,
}

impl Trend {
    /// Sums over no values.
    pub fn new() -> Trend
        ensures { IsTrend [] result }
    {
        Trend {
            times: Wide::new(),
            squares: Wide::new(),
            above: Wide::new(),
            below: Wide::new(),
        }
    }

    /// Takes one more value: into the sums by which a line through values over their times is drawn.
    pub fn take(&mut self, point: Point)
        ensures { (points : List Point) → IsTrend points self.old → IsTrend (point ∷ points) self.new }
    {
        self.times.add_product(point.time, 1);
        self.squares.add_product(point.time, point.time);
        self.above.add_product(point.time, size_above(point.value));
        self.below.add_product(point.time, size_below(point.value));
    }
}
