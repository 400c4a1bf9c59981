//! How many datagrams gave no report, by what they are and by why they gave none.

ghost use Rattle.std.specs.Prelude.{◌≡◌, ◌<◌};
ghost use Rattle.recording_summary.specs.Counts.{place_of, count_at, AreNone, with_unreported};

use crate::announces::Announces;
use crate::kind::{KINDS, Kind};
use crate::no_report::{NoReport, REASONS};
use crate::others::Others;
use crate::quality::Quality;

/// How many kinds and reasons there are together.
const PLACES: usize = KINDS * REASONS;

/// How many reports were written, and how many datagrams gave none, by what they are and by why. Each count stays at 2^64 - 1.
#[derive(Clone, Copy)]
pub struct Counts {
    /// How many reports were written.
    pub reports: u64,
    /// How many datagrams of each kind gave no report, for each reason: for a kind those of all reasons in order, and so kind by
    /// kind.
    pub unreported: [u64; PLACES],
    /// What the numbers of the reports are worth.
    pub quality: Quality,
    /// Who else is there.
    pub others: Others,
    /// What the Announces of the master tell.
    pub announces: Announces,
}

/// Where the count of a kind and a reason stands.
fn place_of(kind: Kind, why: NoReport) -> usize
    ensures value { result ≡ place_of kind why }
    ensures within { result < 140 }
{
    kind.number() * REASONS + why.number()
}

impl Counts {
    /// No datagram came.
    pub fn new() -> Counts
        ensures { AreNone result }
    {
        Counts {
            reports: 0,
            unreported: [0; PLACES],
            quality: Quality::new(),
            others: Others::new(),
            announces: Announces::new(),
        }
    }

    /// How many datagrams of this kind gave no report for this reason.
    pub fn at(&self, kind: Kind, why: NoReport) -> u64
        ensures { result ≡ count_at self.now kind why }
    {
        self.unreported[place_of(kind, why)]
    }

    /// Counts a datagram of this kind that gave no report for this reason.
    pub fn count(&mut self, kind: Kind, why: NoReport)
        ensures { self.new ≡ with_unreported kind why self.old }
    {
        let place = place_of(kind, why);
        self.unreported[place] = self.unreported[place].saturating_add(1);
    }
}
