//! A report that is refused, with what each reason against it met.
ghost use Rattle.std.specs.Prelude.{◌≡◌, ◌++◌, List, ℕ, OnOk, codes, true};
ghost use Rattle.std.specs.String.{string_bytes};
ghost use Rattle.explain_words.specs.Lines.{are_lines};
ghost use Rattle.explain_story.specs.Report.{is_as_told, tells_otherwise, TellsReasons, TellsRefused, TellsWhich};

use crate::past::Past;
use crate::report::{is_as_told, push_begin, push_reason, push_results, tells_otherwise};
use crate::table::push_exchange;
use crate::told_reasons::ToldReasons;
use exchange_check::{Results, Why};
use explain_findings::{Case, push_otherwise};
use explain_words::push_lines;
use std::alloc::AllocError;

/// A report that is refused, and the transcript up to it.
#[derive(Clone, Copy)]
pub(crate) struct Refused<'a> {
    pub(crate) case: Case<'a>,
    /// Its results by the messages.
    pub(crate) by_messages: Option<Results>,
    /// What reports of the slave were like, up to this one.
    pub(crate) past: Option<&'a Past>,
}

impl Refused<'_> {
    /// Appends the reasons against the report, each with what it met, and then the report's lines and results, and which
    /// message tells otherwise than the readings.
    pub(crate) fn push(&self, before: &mut ToldReasons, text: &mut String) -> Result<(), AllocError>
        ensures { OnOk result ((told : List ℕ) × TellsRefused self.now.case.reported.now self.now.by_messages told
            × (string_bytes text.new ≡ string_bytes text.old ++ told)) }
    {
        push_begin(text, self.case.reported)?;
        self.push_reasons(before, text)?;
        self.push_moments(text)?;
        push_results(text, self.case.reported, self.by_messages)?;
        self.push_which(text)
    }

    /// Appends the reasons, each with what it met.
    fn push_reasons(&self, before: &mut ToldReasons, text: &mut String) -> Result<(), AllocError>
        ensures { OnOk result ((reasons : List ℕ)
            × TellsReasons (is_as_told self.now.case.reported.now.report self.now.by_messages) (codes "refused, ")
            self.now.case.reported.now.judgement.reasons reasons
            × (string_bytes text.new ≡ string_bytes text.old ++ reasons)) }
    {
        let reasons = self.case.reported.judgement.reasons.as_slice();
        let equal = is_as_told(&self.case.reported.report, self.by_messages);
        let mut met = String::new(self.case.alloc);
        let mut lead = "refused, ";
        for why in reasons {
            push_reason(text, lead, *why, equal)?;
            lead = "  and ";
            met.clear();
            self.push_met(&mut met, *why)?;
            before.keep(*why, self.case.reported, &mut met)?;
            push_lines(text, "    ", met.as_str())?;
        }
        Ok(())
    }

    /// Appends the moments and the stays of the report's exchange, where there is one.
    fn push_moments(&self, text: &mut String) -> Result<(), AllocError>
        ensures { OnOk result ((lines : List ℕ) × (are_lines (codes "  t") lines ≡ true)
            × (string_bytes text.new ≡ string_bytes text.old ++ lines)) }
    {
        let Some(exchange) = self.case.exchange else {
            return Ok(());
        };
        let mut lines = String::new(self.case.alloc);
        let report = &self.case.reported.report;
        push_exchange(&mut lines, self.case.known.checker, report, exchange)?;
        push_lines(text, "  t", lines.as_str())
    }

    /// Appends which message tells otherwise than the readings, where the results by the messages aren't those by these.
    fn push_which(&self, text: &mut String) -> Result<(), AllocError>
        ensures { OnOk result ((which : List ℕ) × (are_lines (codes "    ") which ≡ true)
            × TellsWhich (tells_otherwise self.now.case.reported.now.judgement.by_readings self.now.by_messages) which
            × (string_bytes text.new ≡ string_bytes text.old ++ which)) }
    {
        if !tells_otherwise(self.case.reported.judgement.by_readings, self.by_messages) {
            return Ok(());
        }
        let mut lines = String::new(self.case.alloc);
        if let Some(exchange) = self.case.exchange {
            push_otherwise(&self.case, &mut lines, exchange)?;
        }
        push_lines(text, "    ", lines.as_str())
    }

    /// Appends what a reason met.
    fn push_met(&self, text: &mut String, why: Why) -> Result<(), AllocError> {
        if why == Why::WrongValue {
            return self.push_values(text);
        }
        self.case.push_met(text, why)
    }
}
