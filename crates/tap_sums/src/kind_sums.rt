use crate::means::mean;
use crate::spread::{Quantity, Spread, Statistics};
use crate::steps::longest;
use crate::total::{Quotient, Total};
use std::marker::Model;
use tap_crossing::{Crossing, Kind};

/// The most crossings of a kind that count: 2^63 - 1.
const MOST: u64 = 9_223_372_036_854_775_807;

/// Sums over crossings of one kind.
#[derive(Clone, Copy)]
pub(crate) struct KindSums {
    pub(crate) count: u64,
    pub(crate) taken: Total,
    pub(crate) corrected: Total,
    pub(crate) rest: Total,
    /// The rest of the newest.
    pub(crate) newest: Option<i128>,
    /// The greatest change of the rest from one to the next.
    pub(crate) step: Option<u128>,
}

impl Model for KindSums {
    ghost use Rattle.tap_sums.specs.Inner.Bounded.{HeldSums, AreBounded};

    ghost Value = { HeldSums };

    ghost view = { λ s. record {
      count = s.count;
      taken = s.taken;
      corrected = s.corrected;
      rest = s.rest;
      newest = s.newest;
      step = s.step;
    } };

    ghost invariant = { λ s. AreBounded (record {
      count = s.count;
      taken = s.taken;
      corrected = s.corrected;
      rest = s.rest;
      newest = s.newest;
      step = s.step;
    }) };

    ghost inverse = { λ s. record {
      count = s.count;
      taken = s.taken;
      corrected = s.corrected;
      rest = s.rest;
      newest = s.newest;
      step = s.step;
    } };
}

impl KindSums {
    ghost use Rattle.std.specs.Prelude.{◌≡◌, ◌+◌, ◌*◌, ◌^◌, ◌<◌, List, [], ◌∷◌, length, nat_lt, if◌then◌else◌, IfSome};
    ghost use Rattle.tap_crossing.specs.Crossing.{IsWithin};
    ghost use Rattle.tap_sums.specs.Sums.{most, value_of, spread, statistics};
    ghost use Rattle.tap_sums.specs.Inner.Bounded.{IsBounded};
    ghost use Rattle.tap_sums.specs.KindHeld.{AreKindSums, IsTotal, raised};
    ghost use Rattle.tap_sums.specs.Inner.Quotients.{IsQuotient};
    ghost use Rattle.tap_sums.specs.Shown.{AreShown, AreToldShown};

    /// Of no crossings.
    pub(crate) fn new() -> KindSums
        ensures { AreKindSums [] result }
    {
        KindSums {
            count: 0,
            taken: Total::new(),
            corrected: Total::new(),
            rest: Total::new(),
            newest: None,
            step: None,
        }
    }

    /// Takes one more crossing.
    pub(crate) fn take(&mut self, crossing: &Crossing)
        requires { IsWithin crossing.now }
        ensures { (earlier : List Crossing) → AreKindSums earlier self.old
            → AreKindSums (if nat_lt (length earlier) most then crossing.now ∷ earlier else earlier) self.new }
    {
        if self.count >= MOST {
            return;
        }
        self.step = longest(self.newest, crossing.rest, self.step);
        self.newest = Some(crossing.rest);
        self.taken.take(crossing.taken);
        self.corrected.take(crossing.corrected);
        self.rest.take(crossing.rest);
        self.count += 1;
    }

    /// How many crossings there were.
    pub(crate) fn count(&self) -> u64
        ensures value { result ≡ self.now.count }
        ensures few { result < 2 ^ 63 }
    {
        self.count
    }

    /// The sum of the rests, divided by their number.
    pub(crate) fn rests(&self) -> Quotient
        requires { 0 < self.now.count }
        ensures exact { raised self.now.rest ≡ result.whole * self.now.count + result.rest }
        ensures within { IsQuotient self.now.count result }
    {
        self.rest.divided(u128::from(self.count))
    }

    /// The sum of what each has.
    fn total(&self, quantity: Quantity) -> Total
        ensures total { (all : List Crossing) → AreKindSums all self.now → IsTotal (value_of quantity) all result }
        ensures bounded { IsBounded self.now.count result }
    {
        match quantity {
            Quantity::Taken => self.taken,
            Quantity::Corrected => self.corrected,
            Quantity::Rest => self.rest,
        }
    }

    /// The least, the greatest and the mean of what each has.
    pub(crate) fn spread(&self, quantity: Quantity) -> Option<Spread>
        ensures value { (all : List Crossing) → AreKindSums all self.now → result ≡ spread (value_of quantity) all }
        ensures shown { IfSome result AreShown }
    {
        if self.count == 0 {
            return None;
        }
        let total = self.total(quantity);
        let (Some(least), Some(greatest)) = (total.least, total.greatest) else {
            return None;
        };
        Some(Spread {
            least,
            greatest,
            mean: mean(&total, u128::from(self.count)),
        })
    }

    /// What they come to.
    pub(crate) fn statistics(&self, kind: Kind) -> Statistics
        ensures value { (all : List Crossing) → AreKindSums all self.now → result ≡ statistics kind all }
        ensures shown { AreToldShown result }
    {
        Statistics {
            kind,
            count: self.count,
            taken: self.spread(Quantity::Taken),
            corrected: self.spread(Quantity::Corrected),
            rest: self.spread(Quantity::Rest),
            step: self.step,
        }
    }
}
