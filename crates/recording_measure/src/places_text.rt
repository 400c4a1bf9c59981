//! Where datagrams were measured, and where not, in JSON.

use crate::measuring::Measuring;
use crate::place::InQuotes;
use std::fmt;
use std::fmt::{Display, Formatter};

/// The members `place` and `places`: where it was measured, and how many datagrams were met at each of the other places.
#[derive(Clone, Copy)]
pub(crate) struct PlacesText<'a>(pub(crate) &'a Measuring);

/// What stands in front of an element of an array.
fn comma(is_first: bool) -> &'static str {
    if is_first { "" } else { "," }
}

impl Display for PlacesText<'_> {
    fn fmt<W: fmt::Write>(&self, f: &mut Formatter<W>) -> fmt::Result {
        let (places, measured) = (self.0.places(), self.0.measured());
        f.write_str("\"place\":")?;
        match measured {
            Some(index) if index < places.len() => write!(f, "{}", InQuotes(&places[index].place))?,
            _ => f.write_str("null")?,
        }
        let mut is_first = true;
        f.write_str(",\"places\":[")?;
        for (index, other) in places.iter().enumerate() {
            if Some(index) != measured {
                let (count, name) = (self.0.count_at(index), InQuotes(&other.place));
                write!(
                    f,
                    "{}{{\"datagrams\":{count},\"name\":{name}}}",
                    comma(is_first)
                )?;
                is_first = false;
            }
        }
        let rest = self.0.count_elsewhere();
        if rest > 0 {
            write!(
                f,
                "{}{{\"datagrams\":{rest},\"name\":null}}",
                comma(is_first)
            )?;
        }
        f.write_str("]")
    }
}
