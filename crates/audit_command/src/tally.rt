//! What results come to so far.

ghost use Rattle.std.specs.Prelude.{◌≡◌};
ghost use Rattle.result_audit.specs.Coverage.{one_more};
ghost use Rattle.result_audit.specs.Totals.{no_answers, with_answer};

use result_audit::{Answer, Totals};
use std::io::Write;

/// Results that were told and answered.
#[derive(Clone, Copy)]
pub(crate) struct Tally {
    /// How many were told: 2^64 - 1 stands for more, too.
    pub(crate) told: u64,
    /// What those come to that were answered.
    pub(crate) totals: Totals,
}

impl Tally {
    /// There was none.
    pub(crate) fn new() -> Tally
        ensures { result ≡ record { told = 0; totals = no_answers } }
    {
        Tally {
            told: 0,
            totals: Totals::new(),
        }
    }

    /// One more was told.
    pub(crate) fn count_told(&mut self)
        ensures { self.new ≡ record self.old { told = one_more self.old.told } }
    {
        self.told = self.told.saturating_add(1);
    }

    /// Counts a result, and tells why it is wrong or isn't judged. What can't be written is lost.
    pub(crate) fn take<E: Write>(&mut self, answer: &Answer, errors: &mut E)
        ensures { self.new ≡ record self.old { totals = with_answer answer.now self.old.totals } }
    {
        self.totals.take(answer);
        let line = answer.told.line;
        let _ = match (&answer.why, answer.verdict) {
            (Some(why), Some(verdict)) => writeln!(errors, "ptpx: line {line}: {verdict}: {why}"),
            (Some(why), None) => writeln!(errors, "ptpx: line {line}: unjudged: {why}"),
            (None, _) => Ok(()),
        };
    }
}
