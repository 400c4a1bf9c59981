//! Times and values, with their lines or packets.
ghost use Rattle.std.specs.Prelude.{Some};
ghost use Rattle.recording_words.specs.Times.{seconds_text, tenths_text, place_text, value_text};

use crate::unit::InputUnit;
use ptp_units::Nanoseconds;
use rounded_text::Thousandths;
use statistics::{Point, Signed};
use std::fmt;
use std::fmt::{Display, Formatter};

/// A millisecond, in units of 2^-16 ns.
const MILLISECOND: u128 = 65_536_000_000;

/// A time in seconds with three decimals, of units of 2^-16 ns, rounded down.
#[derive(Clone, Copy)]
pub(crate) struct Seconds(pub(crate) u128);

#[tactic(auto, unfolding(crate::specs::Times::seconds_text))]
impl Display for Seconds {
    ghost output = { λ time. Some (seconds_text time.0) };

    fn fmt<W: fmt::Write>(&self, f: &mut Formatter<W>) -> fmt::Result {
        let seconds = Thousandths(Signed {
            is_negative: false,
            size: self.0 / MILLISECOND,
        });
        write!(f, "{seconds} s")
    }
}

/// A number of tenths, with one decimal.
#[derive(Clone, Copy)]
pub(crate) struct Tenths(pub(crate) u128);

#[tactic(auto, unfolding(crate::specs::Times::tenths_text))]
impl Display for Tenths {
    ghost output = { λ number. Some (tenths_text number.0) };

    fn fmt<W: fmt::Write>(&self, f: &mut Formatter<W>) -> fmt::Result {
        write!(f, "{}.{}", self.0 / 10, self.0 % 10)
    }
}

/// A line or packet, by its number.
#[derive(Clone, Copy)]
pub(crate) struct Place {
    pub(crate) unit: InputUnit,
    pub(crate) number: u64,
}

#[tactic(auto, unfolding(crate::specs::Times::place_text))]
impl Display for Place {
    ghost output = { λ place. Some (place_text place.unit place.number) };

    fn fmt<W: fmt::Write>(&self, f: &mut Formatter<W>) -> fmt::Result {
        write!(f, "at {} {}", self.unit, self.number)
    }
}

/// A value in 2^-17 ns that was measured, and the line or packet of which it is.
#[derive(Clone, Copy)]
pub(crate) struct Value {
    pub(crate) unit: InputUnit,
    pub(crate) point: Point,
}

#[tactic(auto, unfolding(crate::specs::Times::value_text))]
impl Display for Value {
    ghost output = { λ value. Some (value_text value.unit value.point) };

    fn fmt<W: fmt::Write>(&self, f: &mut Formatter<W>) -> fmt::Result {
        let Point { value, line, .. } = self.point;
        let place = Place {
            unit: self.unit,
            number: line,
        };
        write!(f, "{} ns {place}", Nanoseconds(value))
    }
}
