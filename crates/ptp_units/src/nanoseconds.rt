ghost use Rattle.std.specs.Prelude.{◌<◌, Some};
ghost use Rattle.ptp_units.specs.Nanoseconds.{decimals, nanoseconds_text};

use std::fmt;
use std::fmt::{Display, Formatter};

/// A nanosecond in halves of 2^-16 ns.
const NANOSECOND: u32 = 131_072;

/// Decimals of nanoseconds, at most.
const PLACES: u32 = 17;

/// What is left of a nanosecond, in halves of 2^-16 ns, as decimals.
#[derive(Clone, Copy)]
struct Decimals {
    rest: u32,
    ghost below: { rest < 131072 },
}

impl Display for Decimals {
    ghost output = { λ left. Some (decimals 17 left.rest) };

    fn fmt<W: fmt::Write>(&self, f: &mut Formatter<W>) -> fmt::Result {
        let mut rest = self.rest;
        for _place in 0..PLACES {
            if rest == 0 {
                break;
            }
            write!(f, "{}", rest * 10 / NANOSECOND)?;
            rest = rest * 10 % NANOSECOND;
        }
        Ok(())
    }
}

/// A number of halves of 2^-16 ns, which shows as nanoseconds with all the decimals that it has.
#[derive(Clone, Copy, Debug, PartialEq, Eq)]
pub struct Nanoseconds(pub i128);

impl Display for Nanoseconds {
    ghost output = { λ value. Some (nanoseconds_text value.0) };

    fn fmt<W: fmt::Write>(&self, f: &mut Formatter<W>) -> fmt::Result {
        let size = self.0.unsigned_abs();
        let sign = if self.0 < 0 { "-" } else { "" };
        let rest = (size % u128::from(NANOSECOND)) as u32;
        let point = if rest == 0 { "" } else { "." };
        let whole = size / u128::from(NANOSECOND);
        write!(f, "{sign}{whole}{point}{}", Decimals { rest })
    }
}
