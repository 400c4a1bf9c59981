//! How many Syncs have results.

ghost use Rattle.std.specs.Prelude.{◌≡◌};
ghost use Rattle.result_audit.specs.Coverage.{covers_nothing, with_half, with_result, without_result};

use crate::course::Gap;
use recording_lines::Half;

/// How many reports at Syncs there are, and of how many of these Syncs there is a result. 2^64 - 1 stands for more, too.
#[derive(Clone, Copy)]
pub(crate) struct Coverage {
    syncs: u64,
    with_result: u64,
    /// Whether there is a newest Sync, which has no result yet.
    is_open: bool,
}

impl Coverage {
    /// Nothing was counted.
    pub(crate) fn new() -> Coverage
        ensures { result ≡ covers_nothing }
    {
        Coverage {
            syncs: 0,
            with_result: 0,
            is_open: false,
        }
    }

    /// Counts a report by a message of this half; of a Sync of which nothing was told, this lies before that.
    pub(crate) fn take(&mut self, half: Half, other_sync: Option<Gap>)
        ensures { self.new ≡ with_half half other_sync self.old }
    {
        match (half, other_sync) {
            (Half::Sync, _) => {
                self.syncs = self.syncs.saturating_add(1);
                self.is_open = true;
            }
            (Half::Response, None) => {}
            (Half::Response, Some(_)) => self.is_open = false,
        }
    }

    /// With one more result of the newest Sync.
    pub(crate) fn with_result(self) -> Coverage
        ensures { result ≡ with_result self }
    {
        if self.is_open {
            Coverage {
                with_result: self.with_result.saturating_add(1),
                is_open: false,
                ..self
            }
        } else {
            self
        }
    }

    /// How many reports at Syncs have no result.
    pub(crate) fn without_result(self) -> u64
        ensures { result ≡ without_result self }
    {
        self.syncs.saturating_sub(self.with_result)
    }
}
