ghost use Rattle.std.specs.Prelude.{Some};

use std::fmt;
use std::fmt::{Display, Formatter};

/// Which delay a path delay is, within the tolerance: the first that fits.
#[derive(Clone, Copy, Debug, PartialEq, Eq)]
pub enum PathIs {
    /// That by the Sync and the newest exchange.
    Latest,
    /// That at a response: 1 is the newest.
    Response(usize),
    /// The median of so many newest ones at responses, 2 or more.
    Median(usize),
    /// The mean of so many newest ones at responses, 2 or more.
    Mean(usize),
    /// None of them; it lies between the least and the greatest.
    Between,
    /// None of them; it lies outside.
    Outside,
}

impl Display for PathIs {
    ghost use Rattle.result_verdict.specs.Verdict.{path_text};

    ghost output = { λ p. Some (path_text p) };

    fn fmt<W: fmt::Write>(&self, f: &mut Formatter<W>) -> fmt::Result {
        match self {
            PathIs::Latest => f.write_str("latest"),
            PathIs::Response(k) => write!(f, "response {k}"),
            PathIs::Median(n) => write!(f, "median {n}"),
            PathIs::Mean(n) => write!(f, "mean {n}"),
            PathIs::Between => f.write_str("between"),
            PathIs::Outside => f.write_str("outside"),
        }
    }
}
