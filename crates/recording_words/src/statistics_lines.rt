//! What the offsets, path delays and corrections of reports come to.
ghost use Rattle.std.specs.Prelude.{◌≡◌, Some};
ghost use Rattle.recording_words.specs.Statistics.{IsOfSeries, AreStatisticsLines, are_zero, mean_text, deviation_text, ends_text, values_text, series_text};
ghost use Rattle.recording_words.specs.Statistics.{correction_text, correction_ends_text, spread_text, corrections_text, statistics_text};

use crate::figures::Figures;
use crate::times::{Place, Value};
use crate::unit::InputUnit;
use ptp_units::Nanoseconds;
use recording_summary::Statistics;
use rounded_text::Thousandths;
use statistics::{Point, Series, Signed, Spread};
use std::fmt;
use std::fmt::{Display, Formatter};

/// What values in units of 2^-17 ns come to.
#[derive(Clone, Copy)]
pub struct SeriesEnding {
    /// How many there are: 2^64 - 1 stands for more, too.
    pub count: u64,
    /// Their mean and standard deviation.
    pub figures: Figures,
    /// The least.
    pub least: Option<Point>,
    /// The greatest.
    pub greatest: Option<Point>,
}

impl SeriesEnding {
    /// Of this series.
    fn of(series: &Series) -> SeriesEnding
        ensures { IsOfSeries series.now result }
    {
        SeriesEnding {
            count: series.count,
            figures: Figures::of(series),
            least: series.least,
            greatest: series.greatest,
        }
    }
}

/// A mean, where there is one.
#[derive(Clone, Copy)]
struct Mean(Option<Signed>);

#[tactic(auto, unfolding(crate::specs::Statistics::mean_text))]
impl Display for Mean {
    ghost output = { λ mean. Some (mean_text mean.0) };

    fn fmt<W: fmt::Write>(&self, f: &mut Formatter<W>) -> fmt::Result {
        match self.0 {
            Some(mean) => write!(f, ", mean {} ns", Thousandths(mean)),
            None => Ok(()),
        }
    }
}

/// A standard deviation in thousandths of a nanosecond, where there is one.
#[derive(Clone, Copy)]
struct Deviation(Option<u128>);

#[tactic(auto, unfolding(crate::specs::Statistics::deviation_text))]
impl Display for Deviation {
    ghost output = { λ deviation. Some (deviation_text deviation.0) };

    fn fmt<W: fmt::Write>(&self, f: &mut Formatter<W>) -> fmt::Result {
        let Some(size) = self.0 else {
            return Ok(());
        };
        let deviation = Thousandths(Signed {
            is_negative: false,
            size,
        });
        write!(f, ", standard deviation {deviation} ns")
    }
}

/// The least and the greatest value.
#[derive(Clone, Copy)]
struct Ends {
    unit: InputUnit,
    least: Point,
    greatest: Point,
}

#[tactic(auto, unfolding(crate::specs::Statistics::ends_text))]
impl Display for Ends {
    ghost output = { λ x. Some (ends_text x.unit x.least x.greatest) };

    fn fmt<W: fmt::Write>(&self, f: &mut Formatter<W>) -> fmt::Result {
        let unit = self.unit;
        let least = Value {
            unit,
            point: self.least,
        };
        let greatest = Value {
            unit,
            point: self.greatest,
        };
        write!(f, "least {least}, greatest {greatest}")
    }
}

/// What values come to, where there are any.
#[derive(Clone, Copy)]
struct Values {
    unit: InputUnit,
    count: u64,
    figures: Figures,
    least: Point,
    greatest: Point,
}

#[tactic(auto, unfolding(crate::specs::Statistics::values_text))]
impl Display for Values {
    ghost output = { λ x. Some (values_text x.unit x.count x.figures x.least x.greatest) };

    fn fmt<W: fmt::Write>(&self, f: &mut Formatter<W>) -> fmt::Result {
        let mean = Mean(self.figures.mean);
        let deviation = Deviation(self.figures.deviation);
        let ends = Ends {
            unit: self.unit,
            least: self.least,
            greatest: self.greatest,
        };
        write!(f, "{}{mean}{deviation} (rounded), {ends}", self.count)
    }
}

/// What values come to, by their name. Shows as a line, where there are any.
#[derive(Clone, Copy)]
struct SeriesLine {
    unit: InputUnit,
    name: &'static str,
    series: SeriesEnding,
}

#[tactic(auto, unfolding(crate::specs::Statistics::series_text))]
impl Display for SeriesLine {
    ghost output = { λ x. Some (series_text x.unit x.name.now x.series) };

    fn fmt<W: fmt::Write>(&self, f: &mut Formatter<W>) -> fmt::Result {
        let SeriesEnding {
            count,
            figures,
            least,
            greatest,
        } = self.series;
        let (Some(least), Some(greatest)) = (least, greatest) else {
            return Ok(());
        };
        let values = Values {
            unit: self.unit,
            count,
            figures,
            least,
            greatest,
        };
        write!(f, "ptpx: {}: {values}\n", self.name)
    }
}

/// A correction in units of 2^-16 ns, and of which line or packet it is.
#[derive(Clone, Copy)]
struct Correction {
    unit: InputUnit,
    point: Point,
}

#[tactic(auto, unfolding(crate::specs::Statistics::correction_text))]
impl Display for Correction {
    ghost output = { λ x. Some (correction_text x.unit x.point) };

    fn fmt<W: fmt::Write>(&self, f: &mut Formatter<W>) -> fmt::Result {
        let doubled = Nanoseconds(self.point.value.saturating_mul(2));
        let place = Place {
            unit: self.unit,
            number: self.point.line,
        };
        write!(f, "{doubled} ns {place}")
    }
}

/// The least and the greatest correction.
#[derive(Clone, Copy)]
struct CorrectionEnds {
    unit: InputUnit,
    least: Point,
    greatest: Point,
}

#[tactic(auto, unfolding(crate::specs::Statistics::correction_ends_text))]
impl Display for CorrectionEnds {
    ghost output = { λ x. Some (correction_ends_text x.unit x.least x.greatest) };

    fn fmt<W: fmt::Write>(&self, f: &mut Formatter<W>) -> fmt::Result {
        let unit = self.unit;
        let least = Correction {
            unit,
            point: self.least,
        };
        let greatest = Correction {
            unit,
            point: self.greatest,
        };
        write!(f, "least {least}, greatest {greatest}")
    }
}

/// The least and the greatest correction of some, by their name. Shows as a line, where there are any.
#[derive(Clone, Copy)]
struct SpreadLine {
    unit: InputUnit,
    name: &'static str,
    spread: Spread,
}

#[tactic(auto, unfolding(crate::specs::Statistics::spread_text))]
impl Display for SpreadLine {
    ghost output = { λ x. Some (spread_text x.unit x.name.now x.spread) };

    fn fmt<W: fmt::Write>(&self, f: &mut Formatter<W>) -> fmt::Result {
        let Spread { least, greatest } = self.spread;
        let (Some(least), Some(greatest)) = (least, greatest) else {
            return Ok(());
        };
        let ends = CorrectionEnds {
            unit: self.unit,
            least,
            greatest,
        };
        write!(f, "ptpx: {}: {ends}\n", self.name)
    }
}

/// Whether there are corrections, and all are 0.
fn are_zero(spread: &Spread) -> bool
    ensures { result ≡ are_zero spread.now }
{
    match (spread.least, spread.greatest) {
        (Some(least), Some(greatest)) => least.value == 0 && greatest.value == 0,
        _ => false,
    }
}

/// The corrections at a Sync, and those at a response.
#[derive(Clone, Copy)]
struct CorrectionLines {
    unit: InputUnit,
    syncs: Spread,
    responses: Spread,
}

#[tactic(auto, unfolding(crate::specs::Statistics::corrections_text))]
impl Display for CorrectionLines {
    ghost output = { λ x. Some (corrections_text x.unit x.syncs x.responses) };

    fn fmt<W: fmt::Write>(&self, f: &mut Formatter<W>) -> fmt::Result {
        if are_zero(&self.syncs) && are_zero(&self.responses) {
            return f.write_str("ptpx: all corrections are 0 ns\n");
        }
        let syncs = SpreadLine {
            unit: self.unit,
            name: "corrections at a Sync",
            spread: self.syncs,
        };
        let responses = SpreadLine {
            unit: self.unit,
            name: "corrections at a response",
            spread: self.responses,
        };
        write!(f, "{syncs}{responses}")
    }
}

/// What the offsets, path delays and corrections of reports come to. Shows as lines.
#[derive(Clone, Copy)]
pub struct StatisticsLines {
    /// What lines or packets are called.
    pub unit: InputUnit,
    /// The offsets of the reports that a Sync completed.
    pub offsets: SeriesEnding,
    /// The path delays of the reports that a Delay_Resp completed.
    pub paths: SeriesEnding,
    /// What Sync and Follow_Up were corrected by together, in units of 2^-16 ns.
    pub sync_corrections: Spread,
    /// What the Delay_Resp was corrected by, in units of 2^-16 ns.
    pub delay_corrections: Spread,
}

impl StatisticsLines {
    /// Of what was measured.
    pub fn of(statistics: &Statistics, unit: InputUnit) -> StatisticsLines
        ensures { AreStatisticsLines statistics.now unit result }
    {
        StatisticsLines {
            unit,
            offsets: SeriesEnding::of(&statistics.offsets.all),
            paths: SeriesEnding::of(&statistics.paths.all),
            sync_corrections: statistics.sync_corrections,
            delay_corrections: statistics.delay_corrections,
        }
    }
}

#[tactic(auto, unfolding(crate::specs::Statistics::statistics_text))]
impl Display for StatisticsLines {
    ghost output = { λ lines. Some (statistics_text lines) };

    fn fmt<W: fmt::Write>(&self, f: &mut Formatter<W>) -> fmt::Result {
        let unit = self.unit;
        let offsets = SeriesLine {
            unit,
            name: "offsets at a Sync",
            series: self.offsets,
        };
        let paths = SeriesLine {
            unit,
            name: "path delays at a response",
            series: self.paths,
        };
        let corrections = CorrectionLines {
            unit,
            syncs: self.sync_corrections,
            responses: self.delay_corrections,
        };
        write!(f, "{offsets}{paths}{corrections}")
    }
}
