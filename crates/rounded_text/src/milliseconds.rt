//! Times in milliseconds.
ghost use Rattle.std.specs.Prelude.{◌≡◌, Some};
ghost use Rattle.rounded_text.specs.Rounded.{milliseconds_of, milliseconds_of_thousandths, milliseconds_text};

use crate::thousandths::Thousandths;
use statistics::Signed;
use std::fmt;
use std::fmt::{Display, Formatter};

/// Units of 2^-17 ns in a microsecond.
const MICROSECOND: u128 = 131_072_000;

/// Thousandths of a nanosecond in a microsecond.
const THOUSANDTHS: u128 = 1_000_000;

/// A time in milliseconds with three decimals: a number of microseconds.
#[derive(Clone, Copy)]
pub struct Milliseconds(pub Signed);

impl Milliseconds {
    /// Of units of 2^-17 ns, rounded towards 0.
    pub fn of(value: i128) -> Milliseconds
        ensures { result.0 ≡ milliseconds_of value }
    {
        Milliseconds(Signed {
            is_negative: value < 0,
            size: value.unsigned_abs() / MICROSECOND,
        })
    }

    /// Of thousandths of a nanosecond, rounded towards 0.
    pub fn of_thousandths(value: Signed) -> Milliseconds
        ensures { result.0 ≡ milliseconds_of_thousandths value }
    {
        Milliseconds(Signed {
            is_negative: value.is_negative,
            size: value.size / THOUSANDTHS,
        })
    }
}

impl Display for Milliseconds {
    ghost output = { λ time. Some (milliseconds_text time.0) };

    fn fmt<W: fmt::Write>(&self, f: &mut Formatter<W>) -> fmt::Result {
        write!(f, "{} ms", Thousandths(self.0))
    }
}
