//! What several bewares tell: the first of some cases, and when somebody began anew.
ghost use Rattle.std.specs.Prelude.{Some};
ghost use Rattle.datagram_text.specs.Shown.{nine_digits};
ghost use Rattle.recording_words.specs.Bewares.{moment_text, first_text, often_text, begun_text, anew_text};

use crate::times::Place;
use crate::unit::InputUnit;
use statistics::{Cases, Point};
use std::fmt;
use std::fmt::{Display, Formatter};

/// A nanosecond, in units of 2^-16 ns.
pub(crate) const NANOSECOND: u128 = 65_536;

/// A second, in nanoseconds.
const SECOND: u128 = 1_000_000_000;

/// A number of nanoseconds below a second in nine digits.
#[derive(Clone, Copy)]
struct NineDigits(u128);

impl Display for NineDigits {
    ghost output = { λ nanoseconds. Some (nine_digits nanoseconds.0) };

    fn fmt<W: fmt::Write>(&self, f: &mut Formatter<W>) -> fmt::Result {
        write!(f, "{:09}", self.0)
    }
}

/// A time in seconds with nine decimals, of units of 2^-16 ns, rounded down.
#[derive(Clone, Copy)]
struct Moment(u128);

#[tactic(auto, unfolding(crate::specs::Bewares::moment_text))]
impl Display for Moment {
    ghost output = { λ time. Some (moment_text time.0) };

    fn fmt<W: fmt::Write>(&self, f: &mut Formatter<W>) -> fmt::Result {
        let nanoseconds = self.0 / NANOSECOND;
        let rest = NineDigits(nanoseconds % SECOND);
        write!(f, "{}.{rest}", nanoseconds / SECOND)
    }
}

/// The first of some cases, by its line or packet.
#[derive(Clone, Copy)]
pub(crate) struct First {
    pub(crate) unit: InputUnit,
    pub(crate) point: Option<Point>,
}

#[tactic(auto, unfolding(crate::specs::Bewares::first_text))]
impl Display for First {
    ghost output = { λ first. Some (first_text first.unit first.point) };

    fn fmt<W: fmt::Write>(&self, f: &mut Formatter<W>) -> fmt::Result {
        match self.point {
            Some(point) => {
                let place = Place {
                    unit: self.unit,
                    number: point.line,
                };
                write!(f, "the first {place}")
            }
            None => f.write_str("none of them known"),
        }
    }
}

/// How often somebody began anew.
#[derive(Clone, Copy)]
struct Often(u64);

#[tactic(auto, unfolding(crate::specs::Bewares::often_text))]
impl Display for Often {
    ghost output = { λ count. Some (often_text count.0) };

    fn fmt<W: fmt::Write>(&self, f: &mut Formatter<W>) -> fmt::Result {
        match self.0 {
            1 => f.write_str("once, "),
            count => write!(f, "{count} times, first "),
        }
    }
}

/// When somebody began anew, as far as that is known.
#[derive(Clone, Copy)]
struct Begun {
    unit: InputUnit,
    point: Option<Point>,
}

#[tactic(auto, unfolding(crate::specs::Bewares::begun_text))]
impl Display for Begun {
    ghost output = { λ x. Some (begun_text x.unit x.point) };

    fn fmt<W: fmt::Write>(&self, f: &mut Formatter<W>) -> fmt::Result {
        match self.point {
            Some(point) => {
                let place = Place {
                    unit: self.unit,
                    number: point.line,
                };
                write!(f, "{place}, at {}", Moment(point.time))
            }
            None => Ok(()),
        }
    }
}

/// Somebody who began anew, how often, and why else it may look so.
#[derive(Clone, Copy)]
pub(crate) struct Anew {
    pub(crate) unit: InputUnit,
    pub(crate) cases: Cases,
    pub(crate) what: &'static str,
    pub(crate) why: &'static str,
}

#[tactic(auto, unfolding(crate::specs::Bewares::anew_text))]
impl Display for Anew {
    ghost output = { λ x. Some (anew_text x.unit x.cases x.what.now x.why.now) };

    fn fmt<W: fmt::Write>(&self, f: &mut Formatter<W>) -> fmt::Result {
        let Cases { count, first } = self.cases;
        let begun = Begun {
            unit: self.unit,
            point: first,
        };
        write!(
            f,
            "{} anew {}{begun}: it was started anew, or {}",
            self.what,
            Often(count),
            self.why
        )
    }
}
