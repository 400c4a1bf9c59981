//! The latest messages of a kind, by their numbers, and those with unicastFlag apart from the others.

ghost use Rattle.std.specs.Prelude.{◌≡◌, ◌≤◌, ℕ, Bool, List, []};
ghost use Rattle.pairing.specs.Marked.{Entry};
ghost use Rattle.sync_watch.specs.Told.{of_flag, known};
ghost use Rattle.sync_watch.specs.StandsFor.{HoldsKnown};

use crate::arrival::Arrival;
use pairing::PairTable;
use ptp_units::ScaledTime;
use std::marker::Model;

/// When the latest messages of a kind came, under their numbers.
#[derive(Drop)]
pub(crate) struct Known<T: PairTable<ScaledTime>> {
    multicast: T,
    unicast: T,
}

impl<T: PairTable<ScaledTime>> Model for Known<T> {
    ghost use Rattle.sync_watch.specs.StandsFor.{KnownTimes};

    ghost Value = { KnownTimes };

    ghost view = { λ k. record { multicast = T.marked k.multicast; unicast = T.marked k.unicast } };
}

impl<T: PairTable<ScaledTime>> Known<T> {
    /// No message came.
    pub(crate) fn new() -> Self
        requires { (1 ≤ T.CAPACITY) × (T.CAPACITY ≤ 256) }
        ensures { HoldsKnown T.CAPACITY (λ flag. []) result }
    {
        Known {
            multicast: T::empty(),
            unicast: T::empty(),
        }
    }

    /// When the message with this number and flag came, if it is known.
    pub(crate) fn time_of(&self, arrival: &Arrival) -> Option<ScaledTime>
        ensures { (entries : Bool → List (Entry ℕ)) → HoldsKnown T.CAPACITY entries self.now
            → result ≡ known T.CAPACITY arrival.now.number.0 (entries arrival.now.is_unicast) }
    {
        if arrival.is_unicast {
            self.unicast.find(arrival.number).copied()
        } else {
            self.multicast.find(arrival.number).copied()
        }
    }

    /// A message came.
    pub(crate) fn push(&mut self, arrival: &Arrival)
        ensures { (entries : Bool → List (Entry ℕ)) → HoldsKnown T.CAPACITY entries self.old
            → HoldsKnown T.CAPACITY (λ flag. of_flag flag arrival.now (entries flag)) self.new }
    {
        if arrival.is_unicast {
            self.unicast.push(arrival.number, arrival.time);
        } else {
            self.multicast.push(arrival.number, arrival.time);
        }
    }

    /// Forgets all that came.
    pub(crate) fn clear(&mut self)
        ensures { HoldsKnown T.CAPACITY (λ flag. []) self.new }
    {
        self.multicast.clear();
        self.unicast.clear();
    }
}
