//! Thousandths.
ghost use Rattle.std.specs.Prelude.{◌≡◌, Some};
ghost use Rattle.rounded_text.specs.Rounded.{sign_text, three_digits, thousandths_text};

use statistics::Signed;
use std::fmt;
use std::fmt::{Display, Formatter};

/// A number of thousandths, which shows with three decimals.
#[derive(Clone, Copy)]
pub struct Thousandths(pub Signed);

/// The sign of a number, where it isn't rounded to 0.
fn sign_of(value: &Signed) -> &'static str
    ensures { result.now ≡ sign_text value.now }
{
    if value.is_negative {
        if value.size == 0 { "" } else { "-" }
    } else {
        ""
    }
}

/// A number below 1,000 in three digits.
#[derive(Clone, Copy)]
struct Decimals(u128);

impl Display for Decimals {
    ghost output = { λ value. Some (three_digits value.0) };

    fn fmt<W: fmt::Write>(&self, f: &mut Formatter<W>) -> fmt::Result {
        write!(f, "{:03}", self.0)
    }
}

impl Display for Thousandths {
    ghost output = { λ value. Some (thousandths_text value.0) };

    fn fmt<W: fmt::Write>(&self, f: &mut Formatter<W>) -> fmt::Result {
        let Signed { size, .. } = self.0;
        write!(
            f,
            "{}{}.{}",
            sign_of(&self.0),
            size / 1000,
            Decimals(size % 1000)
        )
    }
}
