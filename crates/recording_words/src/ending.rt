//! All that is told at the end of what was counted.
ghost use Rattle.std.specs.Prelude.{Some};
ghost use Rattle.recording_words.specs.Ending.{ending_text, IsEnding};

use crate::announces::AnnounceLines;
use crate::bewares::BewareLines;
use crate::flows::FlowLines;
use crate::statistics_lines::StatisticsLines;
use crate::unit::InputUnit;
use crate::unreported::{ReportsLine, UnreportedLines};
use recording_summary::Counts;
use std::fmt;
use std::fmt::{Display, Formatter};

/// What is told at the end of what was counted. Shows as lines.
#[derive(Clone, Copy)]
pub struct Ending<'a> {
    /// What speaks against the numbers.
    pub bewares: BewareLines,
    /// How many reports there are.
    pub reports: ReportsLine,
    /// How many datagrams gave none, and why.
    pub unreported: UnreportedLines<'a>,
    /// What the master announces.
    pub announces: AnnounceLines,
    /// What came, and what is missing.
    pub flows: FlowLines,
    /// What the reports come to.
    pub statistics: StatisticsLines,
}

impl<'a> Ending<'a> {
    /// What is told of these counts, where lines or packets were counted.
    pub fn of(counts: &'a Counts, unit: InputUnit) -> Ending<'a>
        ensures { IsEnding counts.now unit result }
    {
        Ending {
            bewares: BewareLines {
                unit,
                bewares: counts.bewares(),
                masters: counts.others.masters,
                slaves: counts.others.slaves,
                domains: counts.others.domains,
            },
            reports: ReportsLine(counts.reports),
            unreported: UnreportedLines(counts),
            announces: AnnounceLines {
                unit,
                announces: counts.announces,
            },
            flows: FlowLines::of(
                &counts.others.flows,
                counts.quality.statistics.ages.greatest,
                unit,
            ),
            statistics: StatisticsLines::of(&counts.quality.statistics, unit),
        }
    }
}

#[tactic(auto, unfolding(crate::specs::Ending::ending_text))]
impl Display for Ending<'_> {
    ghost output = { λ ending. Some (ending_text ending) };

    fn fmt<W: fmt::Write>(&self, f: &mut Formatter<W>) -> fmt::Result {
        let Ending {
            bewares,
            reports,
            unreported,
            announces,
            flows,
            statistics,
        } = *self;
        write!(
            f,
            "{bewares}{reports}{unreported}{announces}{flows}{statistics}"
        )
    }
}
