ghost use Rattle.std.specs.Prelude.{◌≡◌, ◌+ℤ◌, ◌-ℤ◌, ◌^◌, int_le, pos, Some};
ghost use Rattle.result_verdict.specs.Exact.{IsWithin, of_twice, exact_within, exact_text, exact_in};

use crate::difference::Difference;
use crate::spelled::exact_in;
use std::fmt;
use std::fmt::{Display, Formatter};
use std::marker::Model;

/// A signed number of nanoseconds with up to 17 decimals, exactly: less than 2^111 ns from 0.
#[derive(Clone, Copy, Debug)]
pub struct Exact {
    value: Difference,
}

impl Model for Exact {
    ghost use Rattle.std.specs.Prelude.{ℤ, ◌^◌};
    ghost use Rattle.result_verdict.specs.Exact.{IsWithin};

    ghost Value = { ℤ };

    ghost view = { λ e. e.value };

    ghost invariant = { λ e. IsWithin (2 ^ 111) e.value };

    ghost inverse = { λ exact. record { value = exact } };
}

impl Exact {
    /// The result of which this is twice the number of units of 2^-16 ns, as a slave reports it (IEEE 1588-2019, 11.2 and 11.3). Each number is
    /// taken.
    pub fn from_twice(twice: i128) -> Exact
        ensures { result ≡ of_twice twice }
    {
        Exact {
            value: Difference::from_twice(twice),
        }
    }

    /// The number that a text is, in nanoseconds: 1 to 24 digits without zeros in front, and then nothing, or a point and 1 to 16 digits;
    /// a minus may stand in front. None of anything else.
    pub fn from_text(text: &str) -> Option<Exact>
        ensures { result ≡ exact_in text.now }
    {
        let value = exact_in(text)?;
        Some(Exact { value })
    }

    /// The number, as a sum or a difference of such.
    pub fn value(self) -> Difference
        ensures value { result ≡ self }
        ensures within { IsWithin (2 ^ 111) self }
    {
        self.value
    }

    /// The difference of both, where it is less than 2^111 ns from 0.
    pub fn checked_minus(self, other: Exact) -> Option<Exact>
        ensures { result ≡ exact_within (self -ℤ other) }
    {
        let value = self.value().minus(other.value());
        if value.size().is_below(Difference::most()) {
            Some(Exact { value })
        } else {
            None
        }
    }

    /// Whether it is at least a difference.
    pub fn is_at_least(self, difference: Difference) -> bool
        ensures { result ≡ int_le difference self }
    {
        !self.value().is_below(difference)
    }

    /// The sum of both.
    pub fn sum(self, other: Exact) -> Difference
        ensures value { result ≡ self +ℤ other }
        ensures within { IsWithin (2 ^ 112) result }
    {
        self.value().plus(other.value())
    }

    /// The difference of both.
    pub fn difference(self, other: Exact) -> Difference
        ensures value { result ≡ self -ℤ other }
        ensures within { IsWithin (2 ^ 112) result }
    {
        self.value().minus(other.value())
    }
}

impl Default for Exact {
    ghost is_default = { λ e. e ≡ pos 0 };

    /// 0 ns.
    fn default() -> Self {
        Exact {
            value: Difference::zero(),
        }
    }
}

impl Display for Exact {
    ghost output = { λ e. Some (exact_text e) };

    fn fmt<W: fmt::Write>(&self, f: &mut Formatter<W>) -> fmt::Result {
        self.value.fmt(f)
    }
}
