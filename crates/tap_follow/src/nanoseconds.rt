//! Numbers of units of 2^-16 ns as nanoseconds, rounded to a thousandth.
ghost use Rattle.std.specs.Prelude.{◌≡◌, Some};
ghost use Rattle.tap_follow.specs.Words.{rounded_text, of_units, of_halves, units_text, halves_text, size_text, half_size_text, middle_text, word_text};

use rounded_text::Thousandths;
use statistics::{Middle, Signed};
use std::fmt;
use std::fmt::{Display, Formatter};

/// A number of thousandths.
#[derive(Clone, Copy)]
pub(crate) struct Rounded(pub(crate) Signed);

#[tactic(auto, unfolding(crate::specs::Words::rounded_text))]
impl Display for Rounded {
    ghost output = { λ value. Some (rounded_text value.0) };

    fn fmt<W: fmt::Write>(&self, f: &mut Formatter<W>) -> fmt::Result {
        write!(f, "{}", Thousandths(self.0))
    }
}

/// Units in a nanosecond.
const UNITS: u128 = 65_536;

/// Halves of units in a nanosecond.
const HALVES: u128 = 131_072;

/// A size in units as thousandths of a nanosecond, to the nearest, a half upwards.
fn of_units(size: u128) -> u128
    ensures { result ≡ of_units size }
{
    size / UNITS * 1000 + (size % UNITS * 1000 + UNITS / 2) / UNITS
}

/// A size in halves of units as thousandths of a nanosecond, to the nearest, a half upwards.
fn of_halves(size: u128) -> u128
    ensures { result ≡ of_halves size }
{
    size / HALVES * 1000 + (size % HALVES * 1000 + HALVES / 2) / HALVES
}

/// A number of units.
#[derive(Clone, Copy)]
pub(crate) struct Units(pub(crate) i128);

#[tactic(auto, unfolding(crate::specs::Words::units_text))]
impl Display for Units {
    ghost output = { λ units. Some (units_text units.0) };

    fn fmt<W: fmt::Write>(&self, f: &mut Formatter<W>) -> fmt::Result {
        let rounded = Signed {
            is_negative: self.0 < 0,
            size: of_units(self.0.unsigned_abs()),
        };
        write!(f, "{}", Thousandths(rounded))
    }
}

/// A number of halves of units.
#[derive(Clone, Copy)]
struct Halves(i128);

#[tactic(auto, unfolding(crate::specs::Words::halves_text))]
impl Display for Halves {
    ghost output = { λ halves. Some (halves_text halves.0) };

    fn fmt<W: fmt::Write>(&self, f: &mut Formatter<W>) -> fmt::Result {
        let rounded = Signed {
            is_negative: self.0 < 0,
            size: of_halves(self.0.unsigned_abs()),
        };
        write!(f, "{}", Thousandths(rounded))
    }
}

/// The mean of the two values in the middle, in units.
#[derive(Clone, Copy)]
pub(crate) struct Median(pub(crate) Middle);

#[tactic(auto, unfolding(crate::specs::Words::middle_text))]
impl Display for Median {
    ghost output = { λ middle. Some (middle_text middle.0) };

    fn fmt<W: fmt::Write>(&self, f: &mut Formatter<W>) -> fmt::Result {
        let Middle { lower, upper } = self.0;
        write!(f, "{}", Halves(lower.saturating_add(upper)))
    }
}

/// A number of units without its sign.
#[derive(Clone, Copy)]
pub(crate) struct Size(pub(crate) i128);

#[tactic(auto, unfolding(crate::specs::Words::size_text))]
impl Display for Size {
    ghost output = { λ units. Some (size_text units.0) };

    fn fmt<W: fmt::Write>(&self, f: &mut Formatter<W>) -> fmt::Result {
        let rounded = Signed {
            is_negative: false,
            size: of_units(self.0.unsigned_abs()),
        };
        write!(f, "{}", Thousandths(rounded))
    }
}

/// Half of a number of units, without its sign.
#[derive(Clone, Copy)]
pub(crate) struct HalfSize(pub(crate) i128);

#[tactic(auto, unfolding(crate::specs::Words::half_size_text))]
impl Display for HalfSize {
    ghost output = { λ units. Some (half_size_text units.0) };

    fn fmt<W: fmt::Write>(&self, f: &mut Formatter<W>) -> fmt::Result {
        let rounded = Signed {
            is_negative: false,
            size: of_halves(self.0.unsigned_abs()),
        };
        write!(f, "{}", Thousandths(rounded))
    }
}

/// Which of two words fits an asymmetry.
#[derive(Clone, Copy)]
pub(crate) struct Word {
    pub(crate) asymmetry: i128,
    pub(crate) below: &'static str,
    pub(crate) above: &'static str,
}

#[tactic(auto, unfolding(crate::specs::Words::word_text))]
impl Display for Word {
    ghost output = { λ x. Some (word_text x.asymmetry x.below.now x.above.now) };

    fn fmt<W: fmt::Write>(&self, f: &mut Formatter<W>) -> fmt::Result {
        f.write_str(if self.asymmetry < 0 {
            self.below
        } else {
            self.above
        })
    }
}
