//! What crossings come to, for people.
ghost use Rattle.std.specs.Prelude.{Some};
ghost use Rattle.tap_follow.specs.Words.{numbers_text, median_text, spread_text, crossed_text, kind_text, meaning_text, rate_text};
ghost use Rattle.tap_follow.specs.Words.{greater_text, values_text, too_text, reads_text, asymmetry_text, mean_text};

use crate::ending::KindEnding;
use crate::names::{Many, Tap};
use crate::nanoseconds::{HalfSize, Median, Rounded, Units, Word};
use statistics::{Growth, Middle, RECENT_MOST};
use std::fmt;
use std::fmt::{Display, Formatter};
use tap_choice::TapName;
use tap_crossing::Kind;
use tap_sums::Spread;

/// What the numbers below are of.
#[derive(Clone, Copy)]
struct Numbers(u64);

#[tactic(auto, unfolding(crate::specs::Words::numbers_text))]
impl Display for Numbers {
    ghost output = { λ count. Some (numbers_text count.0) };

    fn fmt<W: fmt::Write>(&self, f: &mut Formatter<W>) -> fmt::Result {
        match self.0 {
            0 => Ok(()),
            count if count > RECENT_MOST as u64 => {
                f.write_str("; in ns, rounded, medians of the last 4096:")
            }
            _ => f.write_str("; in ns, rounded:"),
        }
    }
}

/// How many messages of a kind crossed, from its first tap to its second.
#[derive(Clone, Copy)]
struct CrossedLine {
    kind: Kind,
    count: u64,
    first: TapName,
    second: TapName,
}

#[tactic(auto, unfolding(crate::specs::Words::crossed_text))]
impl Display for CrossedLine {
    ghost output = { λ x. Some (crossed_text x.kind x.count x.first x.second) };

    fn fmt<W: fmt::Write>(&self, f: &mut Formatter<W>) -> fmt::Result {
        let many = Many {
            kind: self.kind,
            count: self.count,
        };
        write!(
            f,
            "ptpx: {many} crossed from {} to {}{}\n",
            Tap(self.first),
            Tap(self.second),
            Numbers(self.count)
        )
    }
}

/// A median, where there is one.
#[derive(Clone, Copy)]
struct MedianPart(Option<Middle>);

#[tactic(auto, unfolding(crate::specs::Words::median_text))]
impl Display for MedianPart {
    ghost output = { λ median. Some (median_text median.0) };

    fn fmt<W: fmt::Write>(&self, f: &mut Formatter<W>) -> fmt::Result {
        match self.0 {
            Some(middle) => write!(f, ", median {}", Median(middle)),
            None => Ok(()),
        }
    }
}

/// The mean and the greatest.
#[derive(Clone, Copy)]
struct Greater(Spread);

#[tactic(auto, unfolding(crate::specs::Words::greater_text))]
impl Display for Greater {
    ghost output = { λ spread. Some (greater_text spread.0) };

    fn fmt<W: fmt::Write>(&self, f: &mut Formatter<W>) -> fmt::Result {
        write!(
            f,
            ", mean {}, greatest {}",
            Units(self.0.mean),
            Units(self.0.greatest)
        )
    }
}

/// The least, the median, the mean and the greatest.
#[derive(Clone, Copy)]
struct Values {
    spread: Spread,
    median: Option<Middle>,
}

#[tactic(auto, unfolding(crate::specs::Words::values_text))]
impl Display for Values {
    ghost output = { λ values. Some (values_text values.spread values.median) };

    fn fmt<W: fmt::Write>(&self, f: &mut Formatter<W>) -> fmt::Result {
        let (median, greater) = (MedianPart(self.median), Greater(self.spread));
        write!(f, "least {}{median}{greater}", Units(self.spread.least))
    }
}

/// These with their name, where there are any.
#[derive(Clone, Copy)]
struct SpreadLine {
    name: &'static str,
    spread: Option<Spread>,
    median: Option<Middle>,
}

#[tactic(auto, unfolding(crate::specs::Words::spread_text))]
impl Display for SpreadLine {
    ghost output = { λ line. Some (spread_text line.name.now line.spread line.median) };

    fn fmt<W: fmt::Write>(&self, f: &mut Formatter<W>) -> fmt::Result {
        let Some(spread) = self.spread else {
            return Ok(());
        };
        let values = Values {
            spread,
            median: self.median,
        };
        write!(f, "ptpx:   {}: {values}\n", self.name)
    }
}

/// What the crossings of a kind come to, from its first tap to its second.
#[derive(Clone, Copy)]
pub(crate) struct KindLines {
    pub(crate) kind: KindEnding,
    pub(crate) first: TapName,
    pub(crate) second: TapName,
}

#[tactic(auto, unfolding(crate::specs::Words::kind_text))]
impl Display for KindLines {
    ghost output = { λ lines. Some (kind_text lines.kind lines.first lines.second) };

    fn fmt<W: fmt::Write>(&self, f: &mut Formatter<W>) -> fmt::Result {
        let KindEnding {
            statistics,
            taken,
            corrected,
            rest,
            ..
        } = self.kind;
        let crossed = CrossedLine {
            kind: statistics.kind,
            count: statistics.count,
            first: self.first,
            second: self.second,
        };
        let taken = SpreadLine {
            name: "taken",
            spread: statistics.taken,
            median: taken,
        };
        let corrected = SpreadLine {
            name: "corrected",
            spread: statistics.corrected,
            median: corrected,
        };
        let rest = SpreadLine {
            name: "rest",
            spread: statistics.rest,
            median: rest,
        };
        write!(f, "{crossed}{taken}{corrected}{rest}")
    }
}

/// What a rate means.
#[derive(Clone, Copy)]
struct Meaning(Growth);

#[tactic(auto, unfolding(crate::specs::Words::meaning_text))]
impl Display for Meaning {
    ghost output = { λ growth. Some (meaning_text growth.0) };

    fn fmt<W: fmt::Write>(&self, f: &mut Formatter<W>) -> fmt::Result {
        f.write_str(if !self.0.explains_half {
            "less than half of how it varies: stamps or the load of a clock are a likelier reason than its rate"
        } else if self.0.rate.is_negative {
            "half of how it varies, or more: by so much a clock between the taps tells its residences too long, where its rate is the \
             reason"
        } else {
            "half of how it varies, or more: by so much a clock between the taps tells its residences too short, where its rate is the \
             reason"
        })
    }
}

/// How much the rests of Syncs grow with their corrections, by least squares, where that is told.
#[derive(Clone, Copy)]
pub(crate) struct RateLine(pub(crate) Option<Growth>);

#[tactic(auto, unfolding(crate::specs::Words::rate_text))]
impl Display for RateLine {
    ghost output = { λ line. Some (rate_text line.0) };

    fn fmt<W: fmt::Write>(&self, f: &mut Formatter<W>) -> fmt::Result {
        let Some(growth) = self.0 else {
            return Ok(());
        };
        write!(
            f,
            "ptpx: rate: rest of Syncs grows by {} ppm of corrected, by least squares (rounded), which explains {}\n",
            Rounded(growth.rate),
            Meaning(growth)
        )
    }
}

/// By how much a slave reads offsets too low or too high.
#[derive(Clone, Copy)]
struct Too(i128);

#[tactic(auto, unfolding(crate::specs::Words::too_text))]
impl Display for Too {
    ghost output = { λ asymmetry. Some (too_text asymmetry.0) };

    fn fmt<W: fmt::Write>(&self, f: &mut Formatter<W>) -> fmt::Result {
        let which = Word {
            asymmetry: self.0,
            below: "low",
            above: "high",
        };
        write!(f, "{} ns too {which}", HalfSize(self.0))
    }
}

/// What an asymmetry does to a slave.
#[derive(Clone, Copy)]
struct Reads {
    to: TapName,
    asymmetry: i128,
}

#[tactic(auto, unfolding(crate::specs::Words::reads_text))]
impl Display for Reads {
    ghost output = { λ x. Some (reads_text x.to x.asymmetry) };

    fn fmt<W: fmt::Write>(&self, f: &mut Formatter<W>) -> fmt::Result {
        write!(
            f,
            "If both taps share a clock, a slave behind {} reads offsets {}",
            Tap(self.to),
            Too(self.asymmetry)
        )
    }
}

/// The asymmetry and what it means, where that is told.
#[derive(Clone, Copy)]
pub(crate) struct AsymmetryLine {
    pub(crate) asymmetry: Option<i128>,
    pub(crate) to: TapName,
}

#[tactic(auto, unfolding(crate::specs::Words::asymmetry_text))]
impl Display for AsymmetryLine {
    ghost output = { λ line. Some (asymmetry_text line.asymmetry line.to) };

    fn fmt<W: fmt::Write>(&self, f: &mut Formatter<W>) -> fmt::Result {
        let Some(asymmetry) = self.asymmetry else {
            return Ok(());
        };
        let reads = Reads {
            to: self.to,
            asymmetry,
        };
        write!(f, "ptpx: asymmetry {} ns. {reads}\n", Units(asymmetry))
    }
}

/// The mean rest of both directions, where that is told.
#[derive(Clone, Copy)]
pub(crate) struct MeanLine(pub(crate) Option<i128>);

#[tactic(auto, unfolding(crate::specs::Words::mean_text))]
impl Display for MeanLine {
    ghost output = { λ line. Some (mean_text line.0) };

    fn fmt<W: fmt::Write>(&self, f: &mut Formatter<W>) -> fmt::Result {
        let Some(mean) = self.0 else {
            return Ok(());
        };
        write!(
            f,
            "ptpx: mean rest of both directions, in which the difference of the taps' clocks cancels: {} ns\n",
            Units(mean)
        )
    }
}
