//! Times in milliseconds.

use crate::rounded::Signed;
use std::fmt;
use std::fmt::{Display, Formatter};

/// Units of 2^-17 ns in a microsecond.
const MICROSECOND: u128 = 131_072_000;

/// Thousandths of a nanosecond in a microsecond.
const THOUSANDTHS: u128 = 1_000_000;

/// A time in milliseconds with three decimals, of whole microseconds.
#[derive(Clone, Copy)]
pub struct Milliseconds {
    /// Whether it is below 0.
    pub is_negative: bool,
    /// Its size.
    pub microseconds: u128,
}

impl Milliseconds {
    /// Of units of 2^-17 ns, rounded towards 0.
    pub fn of(value: i128) -> Milliseconds {
        Milliseconds {
            is_negative: value < 0,
            microseconds: value.unsigned_abs() / MICROSECOND,
        }
    }

    /// Of thousandths of a nanosecond, rounded towards 0.
    pub fn of_thousandths(value: Signed) -> Milliseconds {
        Milliseconds {
            is_negative: value.is_negative,
            microseconds: value.size / THOUSANDTHS,
        }
    }
}

impl Display for Milliseconds {
    fn fmt<W: fmt::Write>(&self, f: &mut Formatter<W>) -> fmt::Result {
        let sign = if self.is_negative && self.microseconds > 0 {
            "-"
        } else {
            ""
        };
        write!(
            f,
            "{sign}{}.{:03} ms",
            self.microseconds / 1000,
            self.microseconds % 1000
        )
    }
}
