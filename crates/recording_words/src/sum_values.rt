//! Values of the sums in JSON: what isn't there is null.
ghost use Rattle.std.specs.Prelude.{◌≡◌, Some, option_map};
ghost use Rattle.datagram_text.specs.Shown.{nine_digits};
ghost use Rattle.recording_words.specs.SumValues.{value_or_null, line_or_null, thousandths_or_null, size_or_null, log_or_null};
ghost use Rattle.recording_words.specs.SumValues.{port_or_null, domain_or_null, ends_text, doubled, spread_text};
ghost use Rattle.recording_words.specs.SumValues.{sign_text, seconds_text, length_text, length_or_null};

use datagram_text::Identity;
use event_codec::PortIdentity;
use ptp_units::{Nanoseconds, ScaledTime};
use recording_summary::Known;
use rounded_text::Thousandths;
use statistics::{Point, Signed, Spread};
use std::fmt;
use std::fmt::{Display, Formatter};

/// A second, in units of 2^-16 ns.
const SECOND: u128 = 65_536_000_000_000;

/// A nanosecond, in units of 2^-16 ns.
const NANOSECOND: u128 = 65_536;

/// A value in 2^-17 ns, if there is one.
#[derive(Clone, Copy)]
struct ValueOrNull(Option<Point>);

#[tactic(auto, unfolding(crate::specs::SumValues::value_or_null))]
impl Display for ValueOrNull {
    ghost output = { λ value. Some (value_or_null value.0) };

    fn fmt<W: fmt::Write>(&self, f: &mut Formatter<W>) -> fmt::Result {
        match self.0 {
            Some(point) => write!(f, "\"{}\"", Nanoseconds(point.value)),
            None => f.write_str("null"),
        }
    }
}

/// The line or packet of a value, if there is one.
#[derive(Clone, Copy)]
struct LineOrNull(Option<Point>);

#[tactic(auto, unfolding(crate::specs::SumValues::line_or_null))]
impl Display for LineOrNull {
    ghost output = { λ value. Some (line_or_null value.0) };

    fn fmt<W: fmt::Write>(&self, f: &mut Formatter<W>) -> fmt::Result {
        match self.0 {
            Some(point) => write!(f, "{}", point.line),
            None => f.write_str("null"),
        }
    }
}

/// A number of thousandths of a nanosecond, if there is one.
#[derive(Clone, Copy)]
pub(crate) struct ThousandthsOrNull(pub(crate) Option<Signed>);

#[tactic(auto, unfolding(crate::specs::SumValues::thousandths_or_null))]
impl Display for ThousandthsOrNull {
    ghost output = { λ value. Some (thousandths_or_null value.0) };

    fn fmt<W: fmt::Write>(&self, f: &mut Formatter<W>) -> fmt::Result {
        match self.0 {
            Some(value) => write!(f, "\"{}\"", Thousandths(value)),
            None => f.write_str("null"),
        }
    }
}

/// A number of thousandths of a nanosecond that is never below 0, if there is one.
#[derive(Clone, Copy)]
pub(crate) struct SizeOrNull(pub(crate) Option<u128>);

#[tactic(auto, unfolding(crate::specs::SumValues::size_or_null))]
impl Display for SizeOrNull {
    ghost output = { λ size. Some (size_or_null size.0) };

    fn fmt<W: fmt::Write>(&self, f: &mut Formatter<W>) -> fmt::Result {
        let Some(size) = self.0 else {
            return f.write_str("null");
        };
        let value = Signed {
            is_negative: false,
            size,
        };
        write!(f, "\"{}\"", Thousandths(value))
    }
}

/// A logMessageInterval, if there is one.
#[derive(Clone, Copy)]
pub(crate) struct LogOrNull(pub(crate) Option<i8>);

#[tactic(auto, unfolding(crate::specs::SumValues::log_or_null))]
impl Display for LogOrNull {
    ghost output = { λ log. Some (log_or_null log.0) };

    fn fmt<W: fmt::Write>(&self, f: &mut Formatter<W>) -> fmt::Result {
        match self.0 {
            Some(log) => write!(f, "{log}"),
            None => f.write_str("null"),
        }
    }
}

/// A port, if it is known.
#[derive(Clone, Copy)]
pub(crate) struct PortOrNull(pub(crate) Option<Known<PortIdentity>>);

#[tactic(auto, unfolding(crate::specs::SumValues::port_or_null))]
impl Display for PortOrNull {
    ghost output = { λ port. Some (port_or_null port.0) };

    fn fmt<W: fmt::Write>(&self, f: &mut Formatter<W>) -> fmt::Result {
        match &self.0 {
            Some(known) => write!(f, "\"{}\"", Identity(&known.value)),
            None => f.write_str("null"),
        }
    }
}

/// A domain, if it is known.
#[derive(Clone, Copy)]
pub(crate) struct DomainOrNull(pub(crate) Option<Known<u8>>);

#[tactic(auto, unfolding(crate::specs::SumValues::domain_or_null))]
impl Display for DomainOrNull {
    ghost output = { λ domain. Some (domain_or_null domain.0) };

    fn fmt<W: fmt::Write>(&self, f: &mut Formatter<W>) -> fmt::Result {
        match self.0 {
            Some(known) => write!(f, "{}", known.value),
            None => f.write_str("null"),
        }
    }
}

/// The least and the greatest of values in 2^-17 ns, and their lines or packets, as members.
#[derive(Clone, Copy)]
pub(crate) struct Ends {
    pub(crate) least: Option<Point>,
    pub(crate) greatest: Option<Point>,
}

#[tactic(auto, unfolding(crate::specs::SumValues::ends_text))]
impl Display for Ends {
    ghost output = { λ ends. Some (ends_text ends.least ends.greatest) };

    fn fmt<W: fmt::Write>(&self, f: &mut Formatter<W>) -> fmt::Result {
        let (greatest, greatest_line) = (ValueOrNull(self.greatest), LineOrNull(self.greatest));
        let (least, least_line) = (ValueOrNull(self.least), LineOrNull(self.least));
        write!(
            f,
            "\"greatest\":{greatest},\"greatest_line\":{greatest_line},\"least\":{least},\"least_line\":{least_line}"
        )
    }
}

/// A value in 2^-16 ns as one in 2^-17 ns.
fn doubled(point: Option<Point>) -> Option<Point>
    ensures { result ≡ option_map doubled point }
{
    match point {
        Some(Point { line, time, value }) => Some(Point {
            line,
            time,
            value: value.saturating_add(value),
        }),
        None => None,
    }
}

/// The least and the greatest of values in 2^-16 ns, and their lines or packets, as an object.
#[derive(Clone, Copy)]
pub(crate) struct SpreadObject(pub(crate) Spread);

#[tactic(auto, unfolding(crate::specs::SumValues::spread_text))]
impl Display for SpreadObject {
    ghost output = { λ spread. Some (spread_text spread.0) };

    fn fmt<W: fmt::Write>(&self, f: &mut Formatter<W>) -> fmt::Result {
        let ends = Ends {
            least: doubled(self.0.least),
            greatest: doubled(self.0.greatest),
        };
        write!(f, "{{{ends}}}")
    }
}

/// A number below 10^9 in nine digits.
#[derive(Clone, Copy)]
struct NineDigits(u128);

impl Display for NineDigits {
    ghost output = { λ number. Some (nine_digits number.0) };

    fn fmt<W: fmt::Write>(&self, f: &mut Formatter<W>) -> fmt::Result {
        write!(f, "{:09}", self.0)
    }
}

/// Units of 2^-16 ns in seconds with nine decimals, rounded down.
#[derive(Clone, Copy)]
struct Seconds(u128);

#[tactic(auto, unfolding(crate::specs::SumValues::seconds_text))]
impl Display for Seconds {
    ghost output = { λ units. Some (seconds_text units.0) };

    fn fmt<W: fmt::Write>(&self, f: &mut Formatter<W>) -> fmt::Result {
        let decimals = NineDigits(self.0 % SECOND / NANOSECOND);
        write!(f, "{}.{decimals}", self.0 / SECOND)
    }
}

/// The sign of the time from the first to the last.
fn sign_of(first: ScaledTime, last: ScaledTime) -> &'static str
    ensures { result.now ≡ sign_text first last }
{
    if last.value() < first.value() {
        "-"
    } else {
        ""
    }
}

/// The time from the first to the last, which may be before it.
#[derive(Clone, Copy)]
struct Length {
    first: ScaledTime,
    last: ScaledTime,
}

#[tactic(auto, unfolding(crate::specs::SumValues::length_text))]
impl Display for Length {
    ghost output = { λ length. Some (length_text length.first length.last) };

    fn fmt<W: fmt::Write>(&self, f: &mut Formatter<W>) -> fmt::Result {
        let seconds = Seconds(self.last.value().abs_diff(self.first.value()));
        write!(f, "{}{seconds}", sign_of(self.first, self.last))
    }
}

/// How long a recording is, if it has any time.
#[derive(Clone, Copy)]
pub(crate) struct LengthOrNull {
    pub(crate) first: Option<ScaledTime>,
    pub(crate) last: Option<ScaledTime>,
}

#[tactic(auto, unfolding(crate::specs::SumValues::length_or_null))]
impl Display for LengthOrNull {
    ghost output = { λ length. Some (length_or_null length.first length.last) };

    fn fmt<W: fmt::Write>(&self, f: &mut Formatter<W>) -> fmt::Result {
        match (self.first, self.last) {
            (Some(first), Some(last)) => write!(f, "\"{}\"", Length { first, last }),
            _ => f.write_str("null"),
        }
    }
}
