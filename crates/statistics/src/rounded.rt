//! Means, deviations, slopes and steps, rounded. Each is None where a sum is too big to divide.

ghost use Rattle.std.specs.Prelude.{◌≡◌, ◌+◌, ◌*◌, ◌/◌, ◌-◌, ◌<◌, ◌≤◌, ◌^◌, ◌⊎◌, nat_lt, unsigned_abs, MatchOption};
ghost use Rattle.statistics.specs.Mean.{apart, total, in_nanoseconds, HasNoMean, IsMean, both, IsRoundedMedian, HasNoDeviation};
ghost use Rattle.statistics.specs.Mean.{IsDeviation};
ghost use Rattle.statistics.specs.Wide.{wide};

use crate::recent::Middle;
use crate::series::Series;
use crate::step::Step;
use crate::trend::Trend;
use crate::wide::Wide;
use std::fmt;
use std::fmt::{Display, Formatter};

/// The parts of a nanosecond that are told: a thousand.
const PARTS: u128 = 1000;

/// Values are in this part of a nanosecond, 2^-17.
const NANOSECOND: u128 = 131_072;

/// The base of the digits in which numbers are divided.
const DIGIT: u128 = 1 << 64;

/// The parts in which slopes are told: a thousand million.
const MILLIONTHS: u128 = 1_000_000_000;

/// Below this a number is multiplied by a thousand million without passing 2^128.
const SMALL: u128 = 1 << 90;

/// A number and its sign.
#[derive(Clone, Copy)]
pub struct Signed {
    /// Whether it is below 0, or is rounded from below.
    pub is_negative: bool,
    /// Its size.
    pub size: u128,
}

/// A number of thousandths, which shows with three decimals.
#[derive(Clone, Copy)]
pub struct Thousandths(pub Signed);

/// How much values grow by their times.
#[derive(Clone, Copy)]
pub struct Growth {
    /// In thousand-millionths.
    pub rate: Signed,
    /// Whether a line of this slope explains half of how the values vary, or more.
    pub explains_half: bool,
}

/// What one step in a series comes to.
#[derive(Clone, Copy)]
pub struct Shift {
    /// By how much the mean of the values behind the step is above that of those before, in thousandths of a nanosecond.
    pub by: Signed,
    /// Whether a step explains more than half of how the values vary, and more than a line over their times does.
    pub explains_most: bool,
}

impl Display for Thousandths {
    fn fmt<W: fmt::Write>(&self, f: &mut Formatter<W>) -> fmt::Result {
        let Signed { is_negative, size } = self.0;
        let sign = if is_negative && size > 0 { "-" } else { "" };
        write!(f, "{sign}{}.{:03}", size / 1000, size % 1000)
    }
}

/// A sum of two, where it is below 2^256.
fn sum(one: Wide, other: Wide) -> Option<Wide> {
    let low = one.low.wrapping_add(other.low);
    let carry = u128::from(low < one.low);
    let high = one.high.checked_add(other.high)?.checked_add(carry)?;
    Some(Wide { low, high })
}

/// A difference of two, and whether it is below 0.
fn difference(one: Wide, other: Wide) -> (bool, Wide)
    ensures sign { result.0 ≡ nat_lt (wide one) (wide other) }
    ensures size { wide result.1 ≡ apart (wide one) (wide other) }
{
    let is_negative = one.high < other.high || (one.high == other.high && one.low < other.low);
    let (more, less) = if is_negative {
        (other, one)
    } else {
        (one, other)
    };
    let low = more.low.wrapping_sub(less.low);
    let borrow = u128::from(more.low < less.low);
    let high = more.high.wrapping_sub(less.high).wrapping_sub(borrow);
    (is_negative, Wide { low, high })
}

/// A product of two.
fn product(one: u128, other: u128) -> Wide
    ensures { wide result ≡ one * other }
{
    let (low, high) = one.carrying_mul(other, 0);
    Wide { low, high }
}

/// A number so many times, where it is below 2^256.
fn times(one: Wide, count: u64) -> Option<Wide>
    ensures { MatchOption result (2 ^ 256 ≤ wide one * count) (λ it. wide it ≡ wide one * count) }
{
    let (low, up) = one.low.carrying_mul(u128::from(count), 0);
    let high = one.high.checked_mul(u128::from(count))?.checked_add(up)?;
    Some(Wide { low, high })
}

/// A number where it is below 2^128.
fn narrow(number: Wide) -> Option<u128>
    ensures { MatchOption result (2 ^ 128 ≤ wide number) (λ it. it ≡ wide number) }
{
    if number.high == 0 {
        Some(number.low)
    } else {
        None
    }
}

/// Half of it.
fn half(wide: Wide) -> Wide {
    let odd = if wide.high % 2 == 0 { 0 } else { 1 << 127 };
    Wide {
        low: wide.low / 2 | odd,
        high: wide.high / 2,
    }
}

/// The sum of all values of a series.
fn total(series: &Series) -> Option<Signed>
    ensures { MatchOption result
        (2 ^ 128 ≤ total series.now)
        (λ it. (it.is_negative ≡ nat_lt (wide series.now.above) (wide series.now.below)) × (it.size ≡ total series.now)) }
{
    let (is_negative, size) = difference(series.above, series.below);
    Some(Signed {
        is_negative,
        size: narrow(size)?,
    })
}

/// A size in units of 2^-17 ns to the nearest nanosecond, a half upwards.
fn in_nanoseconds(size: u128) -> u128
    ensures { result ≡ in_nanoseconds size }
{
    size / NANOSECOND + size % NANOSECOND / (NANOSECOND / 2)
}

/// The mean of a series, in thousandths of a nanosecond.
#[tactic(auto, using(crate::proofs::Rounding::rounded_once))]
pub fn mean(series: &Series) -> Option<Signed>
    ensures { MatchOption result (HasNoMean series.now) (IsMean series.now) }
{
    let count = u128::from(series.count);
    let total = total(series)?;
    let fine = total.size.checked_mul(PARTS)?;
    Some(Signed {
        is_negative: total.is_negative,
        size: in_nanoseconds(fine.checked_div(count)?),
    })
}

/// The median of values whose middle this is, in thousandths of a nanosecond.
pub fn median(middle: &Middle) -> Option<Signed>
    ensures { MatchOption result (2 ^ 128 ≤ 1000 * unsigned_abs (both middle.now)) (IsRoundedMedian middle.now) }
{
    let both = middle.lower.checked_add(middle.upper)?;
    let fine = both.unsigned_abs().checked_mul(PARTS)?;
    Some(Signed {
        is_negative: both < 0,
        size: fine / (2 * NANOSECOND) + fine % (2 * NANOSECOND) / NANOSECOND,
    })
}

/// How much so many values of this sum and of squares of this sum vary: their variance, times their number, times one less.
fn spread(count: u64, total: u128, squares: Wide) -> Option<Wide>
    ensures { MatchOption result
        ((2 ^ 256 ≤ wide squares * count) ⊎ (wide squares * count < total * total))
        (λ it. wide it ≡ wide squares * count - total * total) }
{
    let (is_negative, spread) = difference(times(squares, count)?, product(total, total));
    if is_negative { None } else { Some(spread) }
}

/// The upper and the lower 64 bits of a number.
fn digits(number: u128) -> (u64, u64)
    ensures { number ≡ result.0 * 2 ^ 64 + result.1 }
{
    ((number / DIGIT) as u64, (number % DIGIT) as u64)
}

/// What is left of a division and one digit more, divided: the next digit of the quotient, and what is left then.
fn divide_digit(left: u64, digit: u64, divisor: u64) -> (u64, u64)
    requires { left < divisor }
    ensures quotient { left * 2 ^ 64 + digit ≡ result.0 * divisor + result.1 }
    ensures left { result.1 < divisor }
{
    let number = u128::from(left) * DIGIT + u128::from(digit);
    let divisor = u128::from(divisor);
    ((number / divisor) as u64, (number % divisor) as u64)
}

/// A quotient, rounded down.
fn divide(dividend: Wide, divisor: u64) -> Wide
    requires { 0 < divisor }
    ensures { wide result ≡ wide dividend / divisor }
{
    let (first, second) = digits(dividend.high);
    let (third, fourth) = digits(dividend.low);
    let (one, left) = divide_digit(0, first, divisor);
    let (two, left) = divide_digit(left, second, divisor);
    let (three, left) = divide_digit(left, third, divisor);
    let (four, _) = divide_digit(left, fourth, divisor);
    Wide {
        low: u128::from(three) * DIGIT + u128::from(four),
        high: u128::from(one) * DIGIT + u128::from(two),
    }
}

/// The standard deviation of a series, in thousandths of a nanosecond; None of fewer than two values, and from 39 hours on.
pub fn deviation(series: &Series) -> Option<u128>
    ensures { MatchOption result (HasNoDeviation series.now) (IsDeviation series.now) }
{
    if series.count < 2 {
        return None;
    }
    let spread = spread(series.count, total(series)?.size, series.squares)?;
    let variance = divide(divide(spread, series.count), series.count - 1);
    Some(in_nanoseconds(PARTS * narrow(variance)?.isqrt()))
}

/// A number by its front, which is below 2^63, and how many of its bits are left out behind that.
#[derive(Clone, Copy)]
struct Front {
    bits: u128,
    behind: u32,
}

/// The front of a number.
fn front_of(mut wide: Wide) -> Front {
    let mut behind: u32 = 0;
    for _place in 0..256 {
        if wide.high == 0 && wide.low < 1 << 63 {
            break;
        }
        wide = half(wide);
        behind = behind.saturating_add(1);
    }
    Front {
        bits: wide.low,
        behind,
    }
}

/// The front of a product, by the fronts of its factors.
fn front_of_product(one: Front, other: Front) -> Front {
    let Front { bits, behind } = front_of(product(one.bits, other.bits));
    let left_out = one.behind.saturating_add(other.behind);
    Front {
        bits,
        behind: behind.saturating_add(left_out),
    }
}

/// So many times doubled, as far as 2^128 - 1.
fn doubled(mut number: u128, times: u32) -> u128 {
    for _time in 0..times {
        number = number.saturating_mul(2);
    }
    number
}

/// Whether a number is below another one, by their fronts.
fn is_below(one: Front, other: Front) -> bool {
    doubled(one.bits, one.behind.saturating_sub(other.behind))
        < doubled(other.bits, other.behind.saturating_sub(one.behind))
}

/// A line through values over their times, by least squares, each number times the square of how many there are.
#[derive(Clone, Copy)]
struct Line {
    /// Whether the values fall.
    is_negative: bool,
    /// How much values and times vary together, without its sign.
    rise: Wide,
    /// How much the times vary.
    run: Wide,
    /// How much the values vary.
    varied: Wide,
}

/// The line through a series.
fn line_of(series: &Series, trend: &Trend) -> Option<Line> {
    let count = series.count;
    let span = narrow(trend.times)?;
    let total = total(series)?;
    let straight = product(span, total.size);
    let above = times(trend.above, count)?;
    let below = times(trend.below, count)?;
    let (is_negative, rise) = if total.is_negative {
        difference(sum(above, straight)?, below)
    } else {
        difference(above, sum(below, straight)?)
    };
    Some(Line {
        is_negative,
        rise,
        run: spread(count, span, trend.squares)?,
        varied: spread(count, total.size, series.squares)?,
    })
}

/// Whether a line explains half of how values vary: twice the square of the rise isn't below the product of the others.
fn explains_half(line: &Line) -> bool {
    let rise = front_of(line.rise);
    let explained = front_of_product(rise, rise);
    let twice = Front {
        bits: explained.bits.saturating_mul(2),
        behind: explained.behind,
    };
    !is_below(
        twice,
        front_of_product(front_of(line.run), front_of(line.varied)),
    )
}

/// How much the values of a series, in halves of the unit of their times, grow by these; None of fewer than two values, and where all
/// times are one.
pub fn slope(series: &Series, trend: &Trend) -> Option<Growth> {
    let line = line_of(series, trend)?;
    let size = rounded_quotient(line.rise, line.run)?;
    let is_negative = line.is_negative;
    Some(Growth {
        rate: Signed { is_negative, size },
        explains_half: explains_half(&line),
    })
}

/// A number so many times, and its sign, less another one so many times.
fn signed_difference(one: Signed, count: u64, other: Signed, others: u64) -> Option<(bool, Wide)> {
    let minuend = product(one.size, u128::from(count));
    let subtrahend = product(other.size, u128::from(others));
    if one.is_negative != other.is_negative {
        return Some((one.is_negative, sum(minuend, subtrahend)?));
    }
    let (is_less, size) = difference(minuend, subtrahend);
    Some((is_less != one.is_negative, size))
}

/// Whether a step explains more than half of how values vary, and more than a line does. The sum of the values of so many pairs, one
/// before the step and one behind it, changes by `jump`.
fn explains_most(line: &Line, jump: Wide, pairs: u128) -> bool {
    let jump = front_of(jump);
    let pairs = front_of(product(pairs, 1));
    let explained = front_of_product(jump, jump);
    let twice = Front {
        bits: explained.bits.saturating_mul(2),
        behind: explained.behind,
    };
    let rise = front_of(line.rise);
    let by_line = front_of_product(front_of_product(rise, rise), pairs);
    let by_step = front_of_product(explained, front_of(line.run));
    let has_no_line = line.run.low == 0 && line.run.high == 0;
    is_below(front_of_product(pairs, front_of(line.varied)), twice)
        && (has_no_line || is_below(by_line, by_step))
}

/// What a step at the greatest change from one value to the next comes to; None of fewer than two values.
pub fn shift_of(step: &Step, trend: &Trend) -> Option<Shift> {
    let before = step.greatest?.before;
    let count = step.all.count;
    let behind = count.checked_sub(before.count)?;
    let pairs = u128::from(before.count) * u128::from(behind);
    let (is_negative, jump) = signed_difference(
        total(&step.all)?,
        before.count,
        total(&before)?,
        count,
    )?;
    let fine = narrow(jump)?.checked_mul(PARTS)?.checked_div(pairs)?;
    let size = fine.checked_add(NANOSECOND / 2)? / NANOSECOND;
    Some(Shift {
        by: Signed { is_negative, size },
        explains_most: explains_most(&line_of(&step.all, trend)?, jump, pairs),
    })
}

/// Half of a quotient, in thousand-millionths.
fn rounded_quotient(mut rise: Wide, mut run: Wide) -> Option<u128> {
    for _place in 0..256 {
        if run.high == 0 && run.low < SMALL && rise.high == 0 && rise.low < SMALL {
            break;
        }
        rise = half(rise);
        run = half(run);
    }
    let twice = narrow(rise)?
        .checked_mul(MILLIONTHS)?
        .checked_div(narrow(run)?)?;
    Some(twice.checked_add(1)? / 2)
}
