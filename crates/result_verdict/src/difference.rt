ghost use Rattle.std.specs.Prelude.{◌≡◌, ◌==◌, ◌<◌, ◌^◌, ◌*◌, ◌+ℤ◌, ◌-ℤ◌, neg_ℤ, int_lt, pos, unsigned_abs, Some};
ghost use Rattle.std.specs.Int.{int_max};
ghost use Rattle.result_verdict.specs.Exact.{of_twice, decimals, exact_text, nanosecond, IsWithin};
ghost use Rattle.result_verdict.specs.Inner.Normal.{with_parts};
ghost use Rattle.result_verdict.specs.Seconds.{nearest_seconds, from_seconds, whole_seconds};

use crate::delays::is_within;
use crate::exact::Exact;
use std::fmt;
use std::fmt::{Display, Formatter};
use std::marker::Model;

/// A nanosecond in units of 10^-17 ns.
const NANOSECOND: u64 = 100_000_000_000_000_000;

/// 2^-17 ns in units of 10^-17 ns: 5^17.
const UNIT: u64 = 762_939_453_125;

/// A second in nanoseconds.
const SECOND: u128 = 1_000_000_000;

/// Decimals of nanoseconds, at most.
const PLACES: u32 = 17;

/// What is left of a nanosecond, in units of 10^-17 ns, as decimals.
#[derive(Clone, Copy)]
struct Decimals {
    parts: u64,
    ghost below: { parts < 10 ^ 17 },
}

impl Display for Decimals {
    ghost output = { λ left. Some (decimals 17 left.parts) };

    fn fmt<W: fmt::Write>(&self, f: &mut Formatter<W>) -> fmt::Result {
        let mut parts = self.parts;
        for _place in 0..PLACES {
            if parts == 0 {
                break;
            }
            write!(f, "{}", parts * 10 / NANOSECOND)?;
            parts = parts * 10 % NANOSECOND;
        }
        Ok(())
    }
}

/// A sum or a difference of exact numbers of nanoseconds, less than 2^120 ns from 0.
#[derive(Clone, Copy, Debug)]
pub struct Difference {
    nanoseconds: i128,
    parts: u64,
}

impl Model for Difference {
    ghost use Rattle.std.specs.Prelude.{ℤ};
    ghost use Rattle.result_verdict.specs.Inner.Normal.{IsNormal, with_parts, whole_of, parts_of};

    ghost Value = { ℤ };

    ghost view = { λ d. with_parts d.nanoseconds d.parts };

    ghost invariant = { λ d. IsNormal d.nanoseconds d.parts };

    ghost inverse = { λ exact. record { nanoseconds = whole_of exact; parts = parts_of exact } };

    ghost inverse_ok = { λ d normal i. record {
      nanoseconds = normal.whole_found i;
      parts = normal.parts_found i;
    } };
}

/// So many whole nanoseconds, rounded down, and what is left of one.
pub(crate) fn joined(nanoseconds: i128, parts: u64) -> Difference
    requires below { parts < 10 ^ 17 }
    requires near { IsWithin (2 ^ 120) (with_parts nanoseconds parts) }
    ensures { result ≡ with_parts nanoseconds parts }
{
    Difference { nanoseconds, parts }
}

impl Difference {
    /// The result of which this is twice the number of units of 2^-16 ns: 2^110 ns from 0 at the most.
    pub(crate) fn from_twice(twice: i128) -> Difference
        ensures value { result ≡ of_twice twice }
        ensures within { IsWithin (2 ^ 111) result }
    {
        let parts = twice.rem_euclid(131_072) as u64 * UNIT;
        joined(twice.div_euclid(131_072), parts)
    }

    /// 2^111 ns.
    pub(crate) fn most() -> Difference
        ensures { result ≡ pos (2 ^ 111 * nanosecond) }
    {
        joined(1 << 111, 0)
    }

    /// 0 ns.
    pub(crate) fn zero() -> Difference
        ensures { result ≡ pos 0 }
    {
        joined(0, 0)
    }

    /// Whether it is 0.
    pub(crate) fn is_zero(self) -> bool
        ensures { result ≡ (unsigned_abs self == 0) }
    {
        self.nanoseconds == 0 && self.parts == 0
    }

    /// Whether it is below another one.
    pub fn is_below(self, other: Difference) -> bool
        ensures { result ≡ int_lt self other }
    {
        self.nanoseconds < other.nanoseconds
            || (self.nanoseconds == other.nanoseconds && self.parts < other.parts)
    }

    /// With the other sign.
    pub(crate) fn negated(self) -> Difference
        ensures { result ≡ neg_ℤ self }
    {
        if self.parts == 0 {
            joined(-self.nanoseconds, 0)
        } else {
            joined(-1 - self.nanoseconds, NANOSECOND - self.parts)
        }
    }

    /// Without a sign.
    pub fn size(self) -> Difference
        ensures { result ≡ pos (unsigned_abs self) }
    {
        if self.nanoseconds < 0 {
            self.negated()
        } else {
            self
        }
    }

    /// How many seconds it is without its sign, rounded to the nearest number.
    fn nearest_seconds(self) -> u128
        ensures value { result ≡ nearest_seconds self }
        ensures within { result < 2 ^ 91 }
    {
        (self.size().nanoseconds.unsigned_abs() + SECOND / 2) / SECOND
    }

    /// How far it is from so many seconds, less than 2^91 of them.
    fn from_seconds(self, seconds: u128) -> Difference
        requires few { seconds < 2 ^ 91 }
        requires near { IsWithin (2 ^ 120) (from_seconds self seconds) }
        ensures { result ≡ from_seconds self seconds }
    {
        let size = self.size();
        joined(size.nanoseconds - (seconds * SECOND) as i128, size.parts)
    }

    /// The whole number of seconds that it is within the tolerance, without its sign; none where that is 0.
    pub fn whole_seconds(self, tolerance: Exact) -> Option<u128>
        ensures { result ≡ whole_seconds tolerance self }
    {
        let seconds = self.nearest_seconds();
        if 1 <= seconds && is_within(tolerance.value(), self.from_seconds(seconds)) {
            Some(seconds)
        } else {
            None
        }
    }

    /// The greater of both.
    pub(crate) fn max(self, other: Difference) -> Difference
        ensures { result ≡ int_max self other }
    {
        if other.is_below(self) { self } else { other }
    }

    /// The sum, which is less than 2^120 ns from 0.
    pub(crate) fn plus(self, other: Difference) -> Difference
        requires { IsWithin (2 ^ 120) (self +ℤ other) }
        ensures { result ≡ self +ℤ other }
    {
        let parts = self.parts + other.parts;
        let nanoseconds = self.nanoseconds + other.nanoseconds;
        if parts < NANOSECOND {
            joined(nanoseconds, parts)
        } else {
            joined(nanoseconds + 1, parts - NANOSECOND)
        }
    }

    /// The difference, which is less than 2^120 ns from 0.
    pub(crate) fn minus(self, other: Difference) -> Difference
        requires { IsWithin (2 ^ 120) (self -ℤ other) }
        ensures { result ≡ self -ℤ other }
    {
        self.plus(other.negated())
    }
}

impl Display for Difference {
    ghost output = { λ d. Some (exact_text d) };

    fn fmt<W: fmt::Write>(&self, f: &mut Formatter<W>) -> fmt::Result {
        let sign = if self.nanoseconds < 0 { "-" } else { "" };
        let size = self.size();
        let whole = size.nanoseconds.unsigned_abs();
        let parts = size.parts;
        let point = if parts == 0 { "" } else { "." };
        write!(f, "{sign}{whole}{point}{}", Decimals { parts })
    }
}
