//! What is told of a transcript's reports.
ghost use Rattle.std.specs.Prelude.{◌≡◌, [], ◌∷◌, ◌++◌, List, ℕ, OnOk};
ghost use Rattle.std.specs.String.{string_bytes};
ghost use Rattle.trace_model.specs.declared.verdict.Why.{Why};
ghost use Rattle.explain_story.specs.Counts.{counts_of, has_octets, TellsCounts};
ghost use Rattle.explain_fields.specs.Differing.{TellsMessages};
ghost use Rattle.explain_story.specs.Report.{TellsReport};

use crate::answers::SlaveAnswers;
use crate::completing::{Completions, push_unreported};
use crate::others::push_others;
use crate::past::Pasts;
use crate::refused::Refused;
use crate::report::{is_as_told, is_sound};
use crate::tally::Tally;
use crate::told_reasons::ToldReasons;
use exchange_check::{Checker, Evidence, KeptLine, Results, TraceLine, TraceOut};
use explain_fields::{Compared, Differing};
use explain_findings::{Case, Known, Reported, index_of};
use network_model::NodeSpec;
use std::alloc::{AllocError, Global};
use std::marker::Model;

/// What is out of the ordinary in a transcript so far, and how many of its reports are sound; of a schedule its nodes alone.
#[derive(Drop)]
pub struct Story {
    alloc: Global,
    /// The nodes, up to the first event that was recorded: from there on a checker has them.
    nodes: Vec<NodeSpec>,
    evidence: Evidence,
    /// How many messages have other octets than are written.
    differing: Differing,
    completions: Completions,
    /// What slaves are said to make of what came to them, beside what a port here makes of it.
    answers: SlaveAnswers,
    pasts: Pasts,
    tally: Tally,
}

/// Counts what a line made that counts: a message, which differs or not, or none.
fn count_octets(differing: &mut Differing, checker: &Checker, line: &KeptLine, out: &TraceOut) {
    let TraceOut::Made(octets) = out else {
        return;
    };
    if line.writes_right {
        return differing.count_right();
    }
    let Some(wanted) = checker.message_at(line.number) else {
        return;
    };
    if let Some(compared) = Compared::of(&wanted, octets.as_slice()) {
        differing.count(&compared);
    }
}

impl Model for Story {
    ghost use Rattle.explain_story.specs.Counts.{Counts};
    ghost use Rattle.explain_story.specs.Inner.Tally.{counts_in};

    ghost Value = { Counts };

    ghost view = { λ story. counts_in story.tally };
}

impl Story {
    /// A story of no nodes and no events.
    pub fn new(alloc: Global) -> Story
        ensures { result ≡ counts_of [] }
    {
        Story {
            alloc,
            nodes: Vec::new(alloc),
            evidence: Evidence::new(alloc),
            differing: Differing::new(),
            completions: Completions::new(alloc),
            answers: SlaveAnswers::new(alloc),
            pasts: Pasts::new(alloc),
            tally: Tally::new(),
        }
    }

    /// Takes one more node, before the first event.
    pub fn push_node(&mut self, node: NodeSpec) -> Result<(), AllocError>
        ensures { self.new ≡ self.old }
    {
        self.nodes.push(node)?;
        Ok(())
    }

    /// Takes what was recorded of one more event, the last that this checker was fed.
    pub fn push_event(&mut self, line: TraceLine, checker: &Checker) -> Result<(), AllocError>
        ensures { self.new ≡ self.old }
    {
        if self.evidence.note(checker, &line).is_err() {
            return Err(AllocError);
        }
        self.answers.take(checker, &self.evidence, &line)?;
        self.nodes = Vec::new(self.alloc);
        let Some(number) = checker.len().checked_sub(1) else {
            return Ok(());
        };
        match checker.line_at(number) {
            Some(kept) => self.count_line(&kept, &line.out, checker),
            None => Ok(()),
        }
    }

    /// Counts what a line is that counts, and of which this came.
    fn count_line(
        &mut self,
        line: &KeptLine,
        out: &TraceOut,
        checker: &Checker,
    ) -> Result<(), AllocError>
        ensures { self.new ≡ self.old }
    {
        let known = Known {
            checker,
            evidence: &self.evidence,
        };
        count_octets(&mut self.differing, checker, line, out);
        let reports = matches!(out, TraceOut::Report(_));
        self.completions.count(known, line, reports)
    }

    /// Counts one more report, that of the last event that this checker was fed, with its results by the messages.
    pub fn count(
        &mut self,
        reported: &Reported,
        checker: Option<&Checker>,
        by_messages: Option<Results>,
    ) -> Result<(), AllocError>
        ensures { (reports : List (List Why)) → self.old ≡ counts_of reports
            → OnOk result (self.new ≡ counts_of (reported.now.judgement.reasons ∷ reports)) }
    {
        let right = is_sound(reported) || is_as_told(&reported.report, by_messages);
        let slave = match checker {
            Some(checker) => index_of(checker, &reported.node),
            None => None,
        };
        self.pasts.push(slave, reported)?;
        self.tally.count(&reported.judgement.reasons, right);
        Ok(())
    }

    /// The results by the messages of a report that is refused, that of the last event that this checker was fed. A sound one
    /// has those: they are then those by the readings.
    pub fn by_messages(&self, reported: &Reported, checker: &Checker) -> Option<Results> {
        if is_sound(reported) {
            return None;
        }
        self.evidence.by_messages(checker, &reported.report)
    }

    /// The nodes, in their order; of a transcript up to its first event.
    pub fn nodes(&self) -> &[NodeSpec] {
        self.nodes.as_slice()
    }

    /// Appends what is told of the report of the last event, which has these results by the messages: nothing of a sound one; of one that is refused, what the reasons
    /// against it met, its exchange, and where the messages tell other results than the readings, these and which message
    /// does. Where a reason met just what was told of it last, that report is named in its place.
    pub fn push_report<'a>(
        &'a self,
        before: &mut ToldReasons,
        text: &mut String,
        checker: &'a Checker,
        reported: &'a Reported,
        by_messages: Option<Results>,
    ) -> Result<(), AllocError>
        ensures { OnOk result ((told : List ℕ) × TellsReport reported.now told
            × (string_bytes text.new ≡ string_bytes text.old ++ told)) }
    {
        if is_sound(reported) {
            return Ok(());
        }
        let exchange = checker.exchange(&reported.report);
        let refused = Refused {
            case: Case {
                alloc: self.alloc,
                known: Known {
                    checker,
                    evidence: &self.evidence,
                },
                reported,
                exchange: &exchange,
            },
            by_messages,
            past: match index_of(checker, &reported.node) {
                Some(slave) => self.pasts.of(slave),
                None => None,
            },
        };
        refused.push(before, text)
    }

    /// Appends what is told of all reports: how many there are, and how many fail which conditions. Where one isn't
    /// sound, that is how many are right by the messages, and how many by the readings, too; where octets stand against
    /// one, how many reports would be sound without that, or in how many messages a field differs that a slave or a
    /// master reads, and how many messages have other octets; how many completions had no report; and how many outcomes at
    /// slaves aren't those of a slave here for what came.
    pub fn push_tally(&self, text: &mut String) -> Result<(), AllocError>
        ensures { OnOk result ((told : List ℕ) × TellsCounts self.now told
            × (string_bytes text.new ≡ string_bytes text.old ++ told)) }
    {
        self.tally.push(text, self.differing.read())?;
        self.push_messages(text)?;
        push_unreported(text, self.completions.unreported())?;
        push_others(text, self.alloc, &self.answers)
    }

    /// Appends how many messages have other octets, where octets stand against a report.
    fn push_messages(&self, text: &mut String) -> Result<(), AllocError>
        ensures { OnOk result ((messages : List ℕ) × TellsMessages (has_octets self.now) messages
            × (string_bytes text.new ≡ string_bytes text.old ++ messages)) }
    {
        if !self.tally.has_octets() {
            return Ok(());
        }
        self.differing.push(self.alloc, text)
    }
}
