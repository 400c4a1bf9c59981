ghost use Rattle.std.specs.Prelude.{◌≡◌, List, [], ◌∷◌};
ghost use Rattle.std.specs.List.{cons_option};
ghost use Rattle.statistics.specs.Cases.{AreCases};

use crate::series::Point;

/// How many of many are so, and the first of them. The count stays at 2^64 - 1.
#[derive(Clone, Copy)]
pub struct Cases {
    /// How many are.
    pub count: u64,
    /// The first.
    pub first: Option<Point>,
}

impl Cases {
    /// None is so.
    pub fn new() -> Cases
        ensures { AreCases [] result }
    {
        Cases {
            count: 0,
            first: None,
        }
    }

    /// Takes one more that is so, if there is one.
    pub fn take_some(&mut self, point: Option<Point>)
        ensures { (points : List Point) → AreCases points self.old → AreCases (cons_option point points) self.new }
    {
        if let Some(point) = point {
            self.count = self.count.saturating_add(1);
            self.first = self.first.or(Some(point));
        }
    }
}
