ghost use Rattle.std.specs.Prelude.{◌≡◌, int_lt, List, [], ◌∷◌};
ghost use Rattle.statistics.specs.Step.{IsStep, AreAlike, greatest, size};

use crate::series::{Point, Series};

/// A change from one value of a series to the next.
#[derive(Clone, Copy)]
pub struct Change {
    /// The value before it.
    pub from: Point,
    /// The value behind it.
    pub to: Point,
    /// All values before it.
    pub before: Series,
}

/// Values in their order, and the greatest change from one to the next.
#[derive(Clone, Copy)]
pub struct Step {
    /// All values.
    pub all: Series,
    /// The newest.
    pub newest: Option<Point>,
    /// The greatest change, whether up or down, the first of those that are equal.
    pub greatest: Option<Change>,
}

impl Change {
    /// How great it is, without its sign.
    pub fn size(&self) -> u128
        ensures { result ≡ size self.now.from self.now.to }
    {
        self.to.value.abs_diff(self.from.value)
    }

    /// Whether it is downwards.
    pub fn is_fall(&self) -> bool
        ensures { result ≡ int_lt self.now.to.value self.now.from.value }
    {
        self.to.value < self.from.value
    }
}

impl Step {
    /// Of no values.
    pub fn new() -> Step
        ensures { IsStep [] result }
    {
        Step {
            all: Series::new(),
            newest: None,
            greatest: None,
        }
    }

    /// The greatest change, once there is one more value.
    fn greatest_with(&self, to: Point) -> Option<Change>
        ensures { (points : List Point) → IsStep points self.now → AreAlike (greatest (to ∷ points)) result }
    {
        let Some(from) = self.newest else {
            return self.greatest;
        };
        let change = Change {
            from,
            to,
            before: self.all,
        };
        match self.greatest {
            Some(greatest) if !(greatest.size() < change.size()) => Some(greatest),
            _ => Some(change),
        }
    }

    /// Takes one more value.
    pub fn take(&mut self, point: Point)
        ensures { (points : List Point) → IsStep points self.old → IsStep (point ∷ points) self.new }
    {
        self.greatest = self.greatest_with(point);
        self.newest = Some(point);
        self.all.take(point);
    }
}
