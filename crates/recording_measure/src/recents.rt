//! The last numbers of reports.

ghost use Rattle.std.specs.Prelude.{◌≡◌, ◌∷◌, List, [], OnOk, MatchResult, ⊤};
ghost use Rattle.statistics.specs.Median.{last};
ghost use Rattle.statistics.specs.Percentile.{AreRanks};
ghost use Rattle.recording_measure.specs.Made.{Measured};
ghost use Rattle.recording_measure.specs.Inner.Handing.{begun_handing};
ghost use Rattle.recording_measure.specs.Recents.{AreRecents, offsets, paths};
ghost use Rattle.recording_measure.specs.Inner.Hearing.{made_of};

use crate::completion::Fresh;
use crate::form::Form;
use crate::reports::Made;
use recording_lines::Half;
use statistics::{Ranks, Recent};
use std::alloc::{AllocError, Global};

/// The last offsets of reports that a Sync completed, and the last path delays of those that a Delay_Resp completed, in 2^-17 ns, and the
/// reports that weren't handed on.
#[derive(Drop)]
pub(crate) struct Recents {
    offsets: Recent,
    paths: Recent,
    pub(crate) fresh: Fresh,
}

impl Recents {
    /// No report came yet.
    pub(crate) fn new(alloc: Global, form: Form) -> Recents
        ensures recents { AreRecents [] result }
        ensures handing { result.fresh.handing ≡ begun_handing form }
    {
        Recents {
            offsets: Recent::new(alloc),
            paths: Recent::new(alloc),
            fresh: Fresh::new(alloc, form),
        }
    }

    /// Takes one more report.
    pub(crate) fn take(&mut self, made: &Made<'_>) -> Result<(), AllocError>
        ensures recents { (earlier : List Measured) → AreRecents earlier self.old
            → OnOk result (AreRecents (made_of made.now ∷ earlier) self.new) }
        ensures handing { self.new.fresh.handing ≡ self.old.fresh.handing }
    {
        self.fresh.take(made)?;
        let report = &made.measured.report;
        match made.measured.by {
            Half::Sync => self.offsets.take(report.offset2),
            Half::Response => self.paths.take(report.path2),
        }
    }

    /// Ranks of the offsets, if there are any.
    pub(crate) fn offset_ranks(&self, alloc: Global) -> Result<Option<Ranks>, AllocError>
        ensures { (all : List Measured) → AreRecents all self.now
            → MatchResult result (AreRanks (last (offsets all))) (λ _. ⊤) }
    {
        self.offsets.ranks(alloc)
    }

    /// Ranks of the path delays, if there are any.
    pub(crate) fn path_ranks(&self, alloc: Global) -> Result<Option<Ranks>, AllocError>
        ensures { (all : List Measured) → AreRecents all self.now
            → MatchResult result (AreRanks (last (paths all))) (λ _. ⊤) }
    {
        self.paths.ranks(alloc)
    }
}
