ghost use Rattle.std.specs.Prelude.{◌≡◌, ◌+◌, ◌*◌, ◌^◌, ◌<◌, ◌+ℤ◌, pos, ℕ, ℤ, List, [], ◌∷◌};
ghost use Rattle.tap_crossing.specs.declared.crossing.Crossing.{Crossing};
ghost use Rattle.tap_sums.specs.Sums.{lesser, greater};
ghost use Rattle.tap_sums.specs.Inner.Bounded.{IsValue, IsBounded};
ghost use Rattle.tap_sums.specs.KindHeld.{IsTotal, raised};
ghost use Rattle.tap_sums.specs.Inner.Quotients.{IsQuotient};

/// What a value is raised by, so that none is below 0: 2^97.
pub(crate) const RAISED: i128 = 1 << 97;

/// 2^64.
const LIMB: u128 = 1 << 64;

/// A sum of values, each raised, and the least and the greatest of them.
#[derive(Clone, Copy)]
pub(crate) struct Total {
    /// The sum of what each has from 2^64 on.
    pub(crate) high: u128,
    /// The sum of what each has below 2^64.
    pub(crate) low: u128,
    pub(crate) least: Option<i128>,
    pub(crate) greatest: Option<i128>,
}

/// A quotient and its remainder.
#[derive(Clone, Copy)]
pub(crate) struct Quotient {
    pub(crate) whole: u128,
    pub(crate) rest: u128,
}

/// The lesser of a value and the least before it.
fn lesser(value: i128, least: Option<i128>) -> i128
    ensures { result ≡ lesser value least }
{
    match least {
        Some(least) if !(value < least) => least,
        _ => value,
    }
}

/// The greater of a value and the greatest before it.
fn greater(value: i128, greatest: Option<i128>) -> i128
    ensures { result ≡ greater value greatest }
{
    match greatest {
        Some(greatest) if !(greatest < value) => greatest,
        _ => value,
    }
}

/// A value, raised.
fn raise(value: i128) -> u128
    requires { IsValue value }
    ensures value { pos result ≡ value +ℤ pos (2 ^ 97) }
    ensures within { result < 2 ^ 98 }
{
    (value + RAISED) as u128
}

impl Total {
    /// Of no values.
    pub(crate) fn new() -> Total
        ensures total { (of : Crossing → ℤ) → IsTotal of [] result }
        ensures bounded { IsBounded 0 result }
    {
        Total {
            high: 0,
            low: 0,
            least: None,
            greatest: None,
        }
    }

    /// Takes one more value.
    pub(crate) fn take(&mut self, value: i128)
        requires value { IsValue value }
        requires high { self.old.high < 2 ^ 98 }
        requires low { self.old.low < 2 ^ 127 }
        ensures total { (of : Crossing → ℤ) (x : Crossing) (earlier : List Crossing) → value ≡ of x → IsTotal of earlier self.old
            → IsTotal of (x ∷ earlier) self.new }
        ensures bounded { (count : ℕ) → IsBounded count self.old → IsBounded (count + 1) self.new }
    {
        let raised = raise(value);
        self.high += raised / LIMB;
        self.low += raised % LIMB;
        self.least = Some(lesser(value, self.least));
        self.greatest = Some(greater(value, self.greatest));
    }

    /// The sum, divided.
    pub(crate) fn divided(&self, count: u128) -> Quotient
        requires some { 0 < count }
        requires few { count < 2 ^ 63 }
        requires bounded { IsBounded count self.now }
        ensures exact { raised self.now ≡ result.whole * count + result.rest }
        ensures within { IsQuotient count result }
    {
        let high = self.high + self.low / LIMB;
        let below = high % count * LIMB + self.low % LIMB;
        Quotient {
            whole: high / count * LIMB + below / count,
            rest: below % count,
        }
    }
}
