ghost use Rattle.std.specs.Prelude.{◌≡◌, List, [], ◌∷◌, IfSome};
ghost use Rattle.tap_crossing.specs.Crossing.{IsWithin};
ghost use Rattle.tap_crossing.specs.declared.crossing.Crossing.{Crossing};
ghost use Rattle.tap_crossing.specs.declared.sighting.Kind.TheVariants as kinds;
ghost use Rattle.tap_sums.specs.Sums.{counted_of, is_beyond, statistics, both_ways, asymmetry_of, mean_rest_of};
ghost use Rattle.tap_sums.specs.Held.{AreSums};
ghost use Rattle.tap_sums.specs.Shown.{IsShown, AreToldShown, AreBothShown};

use crate::kind_sums::KindSums;
use crate::means::{difference, half_of_sum};
use crate::spread::{BothWays, Statistics};
use ptp_units::ScaledTime;
use tap_crossing::{Crossing, Kind};

/// The nanoseconds of a second.
const SECOND: u128 = 1_000_000_000;

/// Sums over crossings of both kinds. Of each kind the first 2^63 - 1 count.
#[derive(Clone, Copy)]
pub struct Sums {
    pub(crate) syncs: KindSums,
    pub(crate) requests: KindSums,
    /// The greatest rest without its sign.
    pub(crate) worst: u128,
}

impl Sums {
    /// Sums over no crossings.
    pub fn new() -> Sums
        ensures { AreSums [] result }
    {
        Sums {
            syncs: KindSums::new(),
            requests: KindSums::new(),
            worst: 0,
        }
    }

    /// Takes one more crossing.
    pub fn take(&mut self, crossing: &Crossing)
        requires { IsWithin crossing.now }
        ensures { (earlier : List Crossing) → AreSums earlier self.old → AreSums (crossing.now ∷ earlier) self.new }
    {
        match crossing.kind {
            Kind::Sync => self.syncs.take(crossing),
            Kind::DelayReq => self.requests.take(crossing),
        }
        self.worst = self.worst.max(crossing.rest.unsigned_abs());
    }

    /// How many crossings of a kind there are; of what each took, was corrected by and had as rest the least,
    /// the greatest and the mean; and the greatest change of the rest.
    pub fn statistics(&self, kind: Kind) -> Statistics
        ensures value { (all : List Crossing) → AreSums all self.now → result ≡ statistics kind (counted_of kind all) }
        ensures shown { AreToldShown result }
    {
        match kind {
            Kind::Sync => self.syncs.statistics(kind),
            Kind::DelayReq => self.requests.statistics(kind),
        }
    }

    /// Whether the rest of a crossing is greater than a limit, either way. The limit is so many seconds as it is to be nanoseconds.
    pub fn is_beyond(&self, limit: ScaledTime) -> bool
        ensures { (all : List Crossing) → AreSums all self.now → result ≡ is_beyond limit all }
    {
        limit.value() / SECOND < self.worst
    }

    /// What both kinds tell together: the asymmetry, and the mean rest.
    pub fn both_ways(&self) -> BothWays
        ensures value { (all : List Crossing) → AreSums all self.now
            → result ≡ both_ways (counted_of kinds.Sync all) (counted_of kinds.DelayReq all) }
        ensures shown { AreBothShown result }
    {
        BothWays {
            asymmetry: self.asymmetry(),
            mean_rest: self.mean_rest(),
        }
    }

    /// The mean rest of Syncs less that of Delay_Reqs, rounded.
    fn asymmetry(&self) -> Option<i128>
        ensures value { (all : List Crossing) → AreSums all self.now
            → result ≡ asymmetry_of (counted_of kinds.Sync all) (counted_of kinds.DelayReq all) }
        ensures shown { IfSome result IsShown }
    {
        let (syncs, requests) = (
            u128::from(self.syncs.count()),
            u128::from(self.requests.count()),
        );
        if syncs == 0 || requests == 0 {
            return None;
        }
        let one = self.syncs.rests();
        let other = self.requests.rests();
        Some(difference(one, syncs, other, requests))
    }

    /// Half of the sum of the mean rests of both kinds, rounded.
    fn mean_rest(&self) -> Option<i128>
        ensures value { (all : List Crossing) → AreSums all self.now
            → result ≡ mean_rest_of (counted_of kinds.Sync all) (counted_of kinds.DelayReq all) }
        ensures shown { IfSome result IsShown }
    {
        let (syncs, requests) = (
            u128::from(self.syncs.count()),
            u128::from(self.requests.count()),
        );
        if syncs == 0 || requests == 0 {
            return None;
        }
        let one = self.syncs.rests();
        let other = self.requests.rests();
        Some(half_of_sum(one, syncs, other, requests))
    }
}
