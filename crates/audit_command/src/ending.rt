//! What is told of results at the end.

ghost use Rattle.std.specs.Prelude.{◌≡◌, Some};
ghost use Rattle.result_audit.specs.declared.totals.Counts.{Counts};
ghost use Rattle.audit_command.specs.Ending.{answered, unanswered, is_wrong};
ghost use Rattle.audit_command.specs.Words.{several_text, counted_text, counts_text, results_text, worst_text};
ghost use Rattle.audit_command.specs.Words.{without_text, by_text, judged_by_text, ending_text};

use recording_measure::{Aside, AsideLines};
use result_audit::{Counts, Totals, Worst};
use std::fmt;
use std::fmt::{Display, Formatter};

/// What is told of results at the end: what came of them, and by what they were judged. Shows as lines.
#[derive(Clone, Copy)]
pub struct Ending {
    /// How many were told: 2^64 - 1 stands for more, too.
    pub results: u64,
    /// What those come to that were answered.
    pub totals: Totals,
    /// How many reports at Syncs have no result.
    pub without_result: u64,
    /// Whether a slave's own readings were measured.
    pub is_own: bool,
    /// How many datagrams were left aside, once a report was measured. Before that this is told of what was measured.
    pub aside: Option<Aside>,
}

impl Ending {
    /// Whether a result that was handed out is wrong.
    pub fn is_wrong(&self) -> bool
        ensures { result ≡ is_wrong self.now }
    {
        self.totals.counts.wrong > 0
    }
}

/// So many of one, in words.
#[derive(Clone, Copy)]
struct Several(u64, &'static str);

impl Display for Several {
    ghost output = { λ several. Some (several_text several.0 several.1.now) };

    fn fmt<W: fmt::Write>(&self, f: &mut Formatter<W>) -> fmt::Result {
        let plural = if self.0 == 1 { "" } else { "s" };
        write!(f, "{} {}{plural}", self.0, self.1)
    }
}

/// How many have a verdict, where any has.
#[derive(Clone, Copy)]
struct Counted(u64, &'static str);

impl Display for Counted {
    ghost output = { λ counted. Some (counted_text counted.0 counted.1.now) };

    fn fmt<W: fmt::Write>(&self, f: &mut Formatter<W>) -> fmt::Result {
        match self.0 {
            0 => Ok(()),
            count => write!(f, ", {count} {}", self.1),
        }
    }
}

/// How many have each verdict.
#[derive(Clone, Copy)]
struct CountsText(Counts);

impl Display for CountsText {
    ghost output = { λ counts. Some (counts_text counts.0) };

    #[tactic(auto, unfolding(crate::specs::Words::counts_text))]
    fn fmt<W: fmt::Write>(&self, f: &mut Formatter<W>) -> fmt::Result {
        write!(
            f,
            "{}{}{}{}{}{}",
            Counted(self.0.exact, "exact"),
            Counted(self.0.within, "within"),
            Counted(self.0.filtered, "filtered"),
            Counted(self.0.older, "older"),
            Counted(self.0.wrong, "wrong"),
            Counted(self.0.unjudged, "unjudged")
        )
    }
}

/// How many were answered.
fn answered(counts: &Counts) -> u64
    ensures { result ≡ answered counts.now }
{
    counts
        .exact
        .saturating_add(counts.within)
        .saturating_add(counts.filtered)
        .saturating_add(counts.older)
        .saturating_add(counts.wrong)
        .saturating_add(counts.unjudged)
}

/// How many weren't answered.
#[tactic(auto, unfolding(crate::specs::Ending::unanswered))]
fn unanswered(results: u64, counts: &Counts) -> u64
    ensures { result ≡ unanswered results counts.now }
{
    results.saturating_sub(answered(counts))
}

/// How many results there are, and of each verdict how many.
#[derive(Clone, Copy)]
struct ResultsText {
    results: u64,
    counts: Counts,
}

impl Display for ResultsText {
    ghost output = { λ text. Some (results_text text.results text.counts) };

    #[tactic(auto, unfolding(crate::specs::Words::results_text))]
    fn fmt<W: fmt::Write>(&self, f: &mut Formatter<W>) -> fmt::Result {
        write!(
            f,
            "ptpx: {}{}{}\n",
            Several(self.results, "result"),
            CountsText(self.counts),
            Counted(unanswered(self.results, &self.counts), "not answered")
        )
    }
}

/// The worst, where one is wrong.
#[derive(Clone, Copy)]
struct WorstText(Option<Worst>);

impl Display for WorstText {
    ghost output = { λ worst. Some (worst_text worst.0) };

    #[tactic(auto, unfolding(crate::specs::Words::worst_text))]
    fn fmt<W: fmt::Write>(&self, f: &mut Formatter<W>) -> fmt::Result {
        match &self.0 {
            Some(worst) => write!(
                f,
                "ptpx: the worst is that of line {}, which is {} ns off at the least\n",
                worst.line, worst.off
            ),
            None => Ok(()),
        }
    }
}

/// Of how many Syncs there is no result, where there are such.
#[derive(Clone, Copy)]
struct WithoutText(u64);

impl Display for WithoutText {
    ghost output = { λ count. Some (without_text count.0) };

    #[tactic(auto, unfolding(crate::specs::Words::without_text))]
    fn fmt<W: fmt::Write>(&self, f: &mut Formatter<W>) -> fmt::Result {
        match self.0 {
            0 => Ok(()),
            count => write!(f, "ptpx: no result of {}\n", Several(count, "Sync")),
        }
    }
}

/// By what results were judged.
fn by(is_own: bool) -> &'static str
    ensures { result.now ≡ by_text is_own }
{
    if is_own {
        "ptpx: by the slave's own readings\n"
    } else {
        "ptpx: beware: by what was captured, and not by the slave's own readings: a wrong result may be the fault of the capture's stamps\n"
    }
}

/// By what results were judged, once a report was measured, and how many datagrams were left aside.
#[derive(Clone, Copy)]
struct ByText {
    aside: Option<Aside>,
    is_own: bool,
}

impl Display for ByText {
    ghost output = { λ text. Some (judged_by_text text.is_own text.aside) };

    #[tactic(auto, unfolding(crate::specs::Words::judged_by_text))]
    fn fmt<W: fmt::Write>(&self, f: &mut Formatter<W>) -> fmt::Result {
        let is_own = self.is_own;
        match self.aside {
            Some(aside) => write!(f, "{}{}", by(is_own), AsideLines { aside, is_own }),
            None => Ok(()),
        }
    }
}

/// What is told where there is no result.
const NO_RESULT: &str =
    "ptpx: no result: a line as {\"offset\":\"-12.5\",\"path\":\"1000\"} is one\n";

impl Display for Ending {
    ghost output = { λ ending. Some (ending_text ending) };

    fn fmt<W: fmt::Write>(&self, f: &mut Formatter<W>) -> fmt::Result {
        if self.results == 0 {
            return f.write_str(NO_RESULT);
        }
        write!(
            f,
            "{}{}{}{}",
            ResultsText {
                results: self.results,
                counts: self.totals.counts
            },
            WorstText(self.totals.worst),
            WithoutText(self.without_result),
            ByText {
                aside: self.aside,
                is_own: self.is_own
            }
        )
    }
}
