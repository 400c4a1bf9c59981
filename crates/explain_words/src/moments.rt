//! Moments and lengths of time as text.
ghost use Rattle.std.specs.Prelude.{◌≡◌, ◌-◌, ◌^◌, min, pos, Some};
ghost use Rattle.explain_words.specs.Words.{fraction_text, length_text, moment_text};

use ptp_units::{Nanoseconds, ScaledTime};
use std::fmt;
use std::fmt::{Display, Formatter};

/// The fraction of a nanosecond, where there is one.
#[derive(Clone, Copy)]
struct Fraction(u16);

impl Display for Fraction {
    ghost output = { λ fraction. Some (fraction_text fraction.0) };

    fn fmt<W: fmt::Write>(&self, f: &mut Formatter<W>) -> fmt::Result {
        match self.0 {
            0 => Ok(()),
            fraction => write!(f, " + {fraction}/65536 ns"),
        }
    }
}

/// A moment: seconds with nine decimals, and the fraction of a nanosecond where there is one.
#[derive(Clone, Copy)]
pub struct Moment(pub ScaledTime);

impl Display for Moment {
    ghost output = { λ moment. Some (moment_text moment.0) };

    fn fmt<W: fmt::Write>(&self, f: &mut Formatter<W>) -> fmt::Result {
        let (timestamp, fraction) = self.0.split();
        write!(
            f,
            "{}.{:09}{}",
            timestamp.seconds(),
            timestamp.nanos(),
            Fraction(fraction)
        )
    }
}

/// A length of time in units of 2^-16 ns, or its negative, as nanoseconds with all decimals.
#[derive(Clone, Copy)]
pub struct Length(pub i128);

impl Display for Length {
    ghost output = { λ length. Some (length_text length.0) };

    fn fmt<W: fmt::Write>(&self, f: &mut Formatter<W>) -> fmt::Result {
        write!(f, "{} ns", Nanoseconds(self.0.saturating_mul(2)))
    }
}

/// A number of units as a signed one, at most 2^127 - 1.
pub fn signed(units: u128) -> i128
    ensures { result ≡ pos (min units (2 ^ 127 - 1)) }
{
    i128::try_from(units).unwrap_or(i128::MAX)
}
