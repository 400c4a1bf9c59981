ghost use Rattle.std.specs.Prelude.{◌≡◌, ◌<◌, ◌^◌, ◌<ℤ◌, pos, negsuc};
ghost use Rattle.tap_sums.specs.Rounded.{is_odd, next_to};
ghost use Rattle.tap_sums.specs.Shown.{IsShown};

/// Whether a number is odd.
fn is_odd(number: i128) -> bool
    ensures { result ≡ is_odd number }
{
    number.unsigned_abs() % 2 == 1
}

/// The whole number next to one with a remainder, of two that are as near the even one.
pub(crate) fn next_to(whole: i128, rest: u128, divisor: u128) -> i128
    requires above { negsuc (2 ^ 101) <ℤ whole }
    requires below { whole <ℤ pos (2 ^ 101) }
    requires rest { rest < 2 ^ 127 }
    ensures value { result ≡ next_to whole rest divisor }
    ensures shown { IsShown result }
{
    let twice = 2 * rest;
    if divisor < twice || (twice == divisor && is_odd(whole)) {
        whole + 1
    } else {
        whole
    }
}
