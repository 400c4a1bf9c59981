//! Means, and what two of them make, rounded.
ghost use Rattle.std.specs.Prelude.{◌≡◌, ◌<◌, ◌*◌, ◌^◌, ◌+ℤ◌, ◌-ℤ◌, ◌*ℤ◌, pos, ℤ, List, length};
ghost use Rattle.tap_crossing.specs.declared.crossing.Crossing.{Crossing};
ghost use Rattle.tap_sums.specs.Rounded.{rounded};
ghost use Rattle.tap_sums.specs.Sums.{mean};
ghost use Rattle.tap_sums.specs.Inner.Bounded.{IsBounded};
ghost use Rattle.tap_sums.specs.KindHeld.{IsTotal};
ghost use Rattle.tap_sums.specs.Inner.Quotients.{IsQuotient, IsSumOf};
ghost use Rattle.tap_sums.specs.Shown.{IsShown};

use crate::rounding::next_to;
use crate::total::{Quotient, RAISED, Total};

/// The mean of so many values, rounded.
pub(crate) fn mean(total: &Total, count: u128) -> i128
    requires some { 0 < count }
    requires few { count < 2 ^ 63 }
    requires bounded { IsBounded count total.now }
    ensures value { (of : Crossing → ℤ) (all : List Crossing) → IsTotal of all total.now → count ≡ length all
        → result ≡ mean of all }
    ensures shown { IsShown result }
{
    let Quotient { whole, rest } = total.divided(count);
    next_to(whole as i128 - RAISED, rest, count)
}

/// The difference of two means, rounded.
pub(crate) fn difference(one: Quotient, count: u128, other: Quotient, others: u128) -> i128
    requires one { IsQuotient count one }
    requires other { IsQuotient others other }
    ensures value { (n m : ℤ) → IsSumOf n one count → IsSumOf m other others
        → result ≡ rounded (n *ℤ pos others -ℤ m *ℤ pos count) (count * others) }
    ensures shown { IsShown result }
{
    let divisor = count * others;
    let more = one.rest * others;
    let less = other.rest * count;
    let whole = one.whole as i128 - other.whole as i128;
    if more < less {
        next_to(whole - 1, divisor - (less - more), divisor)
    } else {
        next_to(whole, more - less, divisor)
    }
}

/// Half of the sum of two means, rounded.
pub(crate) fn half_of_sum(one: Quotient, count: u128, other: Quotient, others: u128) -> i128
    requires one { IsQuotient count one }
    requires other { IsQuotient others other }
    ensures value { (n m : ℤ) → IsSumOf n one count → IsSumOf m other others
        → result ≡ rounded (n *ℤ pos others +ℤ m *ℤ pos count) (2 * (count * others)) }
    ensures shown { IsShown result }
{
    let single = count * others;
    let divisor = 2 * single;
    let both = one.whole + other.whole;
    let parts = one.rest * others + other.rest * count;
    let rest = both % 2 * single + parts;
    let whole = (both / 2) as i128 - RAISED;
    if rest < divisor {
        next_to(whole, rest, divisor)
    } else {
        next_to(whole + 1, rest - divisor, divisor)
    }
}
