ghost use Rattle.std.specs.Prelude.{Some};

use std::fmt;
use std::fmt::{Display, Formatter};

/// What a result is: the first of these that holds.
#[derive(Clone, Copy, Debug, PartialEq, Eq)]
pub enum Verdict {
    /// Both numbers are those by the latest delay.
    Exact,
    /// Both are within the tolerance of those.
    Within,
    /// The offset is by the path delay, and this lies among the known delays, as a filter's does.
    Filtered,
    /// The offset is by the latest delay, and the path delay is one at an earlier response.
    Older,
    /// None of these.
    Wrong,
}

impl Display for Verdict {
    ghost use Rattle.result_verdict.specs.Verdict.{verdict_text};

    ghost output = { λ v. Some (verdict_text v) };

    fn fmt<W: fmt::Write>(&self, f: &mut Formatter<W>) -> fmt::Result {
        f.write_str(match self {
            Verdict::Exact => "exact",
            Verdict::Within => "within",
            Verdict::Filtered => "filtered",
            Verdict::Older => "older",
            Verdict::Wrong => "wrong",
        })
    }
}
