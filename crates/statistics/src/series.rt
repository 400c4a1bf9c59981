ghost use Rattle.std.specs.Prelude.{◌≡◌, List, [], ◌∷◌};
ghost use Rattle.std.specs.List.{cons_option};
ghost use Rattle.statistics.specs.Series.{IsSeries, IsSpread, above, below, lesser, greater};

use crate::counting::count_if;
use crate::wide::Wide;

/// What was measured at a line.
#[derive(Clone, Copy)]
pub struct Point {
    /// The number of the line.
    pub line: u64,
    /// Its time.
    pub time: u128,
    /// What was measured.
    pub value: i128,
}

/// What is told of values that were measured. Each count stays at 2^64 - 1, and each sum at 2^256 - 1.
#[derive(Clone, Copy)]
pub struct Series {
    /// How many there are.
    pub count: u64,
    /// The sum of those that are above 0.
    pub above: Wide,
    /// The sum of the sizes of those that are below 0.
    pub below: Wide,
    /// The sum of the squares of all.
    pub squares: Wide,
    /// How many are below 0.
    pub negatives: u64,
    /// How many are 0.
    pub zeros: u64,
    /// The least, the first of those that are equal.
    pub least: Option<Point>,
    /// The greatest, the first of those that are equal.
    pub greatest: Option<Point>,
}

/// The least and the greatest of values that were measured.
#[derive(Clone, Copy)]
pub struct Spread {
    /// The least, the first of those that are equal.
    pub least: Option<Point>,
    /// The greatest, the first of those that are equal.
    pub greatest: Option<Point>,
}

/// A value above 0, or else 0.
pub(crate) fn size_above(value: i128) -> u128
    ensures { result ≡ above value }
{
    if value < 0 { 0 } else { value.unsigned_abs() }
}

/// The size of a value below 0, or else 0.
pub(crate) fn size_below(value: i128) -> u128
    ensures { result ≡ below value }
{
    if value < 0 { value.unsigned_abs() } else { 0 }
}

/// The lesser of two, the earlier one where they are equal.
fn lesser(point: Point, least: Option<Point>) -> Option<Point>
    ensures { result ≡ lesser point least }
{
    match least {
        Some(least) if !(point.value < least.value) => Some(least),
        _ => Some(point),
    }
}

/// The greater of two, the earlier one where they are equal.
fn greater(point: Point, greatest: Option<Point>) -> Option<Point>
    ensures { result ≡ greater point greatest }
{
    match greatest {
        Some(greatest) if !(greatest.value < point.value) => Some(greatest),
        _ => Some(point),
    }
}

impl Spread {
    /// The least and the greatest of no values.
    pub fn new() -> Spread
        ensures { IsSpread [] result }
    {
        let (least, greatest) = (None, None);
        Spread { least, greatest }
    }

    /// Takes one more value, for the least and the greatest.
    pub fn take(&mut self, point: Point)
        ensures { (points : List Point) → IsSpread points self.old → IsSpread (point ∷ points) self.new }
    {
        *self = Spread {
            least: lesser(point, self.least),
            greatest: greater(point, self.greatest),
        };
    }

    /// Takes one more value, if there is one.
    pub fn take_some(&mut self, point: Option<Point>)
        ensures { (points : List Point) → IsSpread points self.old → IsSpread (cons_option point points) self.new }
    {
        if let Some(point) = point {
            self.take(point);
        }
    }
}

impl Series {
    /// A series of no values.
    pub fn new() -> Series
        ensures { IsSeries [] result }
    {
        Series {
            count: 0,
            above: Wide::new(),
            below: Wide::new(),
            squares: Wide::new(),
            negatives: 0,
            zeros: 0,
            least: None,
            greatest: None,
        }
    }

    /// Takes one more value: into the count, the sums, the sum of squares, the least and the greatest.
    pub fn take(&mut self, point: Point)
        ensures { (points : List Point) → IsSeries points self.old → IsSeries (point ∷ points) self.new }
    {
        let size = point.value.unsigned_abs();
        self.count = self.count.saturating_add(1);
        self.above.add_product(size_above(point.value), 1);
        self.below.add_product(size_below(point.value), 1);
        self.squares.add_product(size, size);
        self.negatives = count_if(self.negatives, point.value < 0);
        self.zeros = count_if(self.zeros, size == 0);
        self.least = lesser(point, self.least);
        self.greatest = greater(point, self.greatest);
    }

    /// Takes one more value, if there is one.
    pub fn take_some(&mut self, point: Option<Point>)
        ensures { (points : List Point) → IsSeries points self.old → IsSeries (cons_option point points) self.new }
    {
        if let Some(point) = point {
            self.take(point);
        }
    }
}
