//! What is said of a result.

ghost use Rattle.std.specs.Prelude.{◌≡◌};
ghost use Rattle.result_audit.specs.Held.{answer_without_sync, excused, is_wrong};

use crate::report_at::ReportAt;
use crate::told::Told;
use crate::why::Why;
use result_verdict::{Judged, Verdict};

/// What a result is by the report that it is of.
#[derive(Clone, Copy, Debug)]
pub struct Found {
    /// The report, at its Sync or at a Delay_Resp behind that.
    pub at: ReportAt,
    /// What the result is by that.
    pub judged: Judged,
}

/// What is said of a result.
#[derive(Clone, Copy, Debug)]
pub struct Answer {
    /// The result.
    pub told: Told,
    /// What it is by its report, where there is one.
    pub found: Option<Found>,
    /// Its verdict; none where it isn't judged.
    pub verdict: Option<Verdict>,
    /// Why it is wrong, or isn't judged.
    pub why: Option<Why>,
}

impl Answer {
    /// It isn't judged, since no Sync is known of which it is.
    pub(crate) fn without_sync(told: Told, why: Why) -> Answer
        ensures { result ≡ answer_without_sync told why }
    {
        Answer {
            told,
            found: None,
            verdict: None,
            why: Some(why),
        }
    }

    /// It isn't judged after all.
    pub(crate) fn excuse(&mut self, why: Why)
        ensures { self.new ≡ excused why self.old }
    {
        self.verdict = None;
        self.why = Some(why);
    }

    /// Whether it is wrong.
    pub fn is_wrong(&self) -> bool
        ensures { result ≡ is_wrong self.now }
    {
        matches!(self.verdict, Some(Verdict::Wrong))
    }
}
