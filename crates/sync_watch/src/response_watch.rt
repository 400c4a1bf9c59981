ghost use Rattle.std.specs.Prelude.{◌≡◌, ◌≤◌, ℕ, List, []};
ghost use Rattle.pairing.specs.Marked.{Entry};
ghost use Rattle.sync_watch.specs.Judged.{judged_response, after_response};
ghost use Rattle.sync_watch.specs.StandsFor.{StandsForResponses};

use crate::judgement::Judgement;
use pairing::PairTable;
use ptp_units::{ScaledTime, Seq};
use std::marker::Model;

/// When the latest Delay_Resps of a master to a slave came, under their numbers, since a port of the slave began.
/// No call allocates.
#[derive(Drop)]
pub struct ResponseWatch<T: PairTable<ScaledTime>> {
    responses: T,
}

impl<T: PairTable<ScaledTime>> Model for ResponseWatch<T> {
    ghost use Rattle.sync_watch.specs.StandsFor.{Responses};

    ghost Value = { Responses };

    ghost view = { λ w. record { capacity = T.CAPACITY; responses = T.marked w.responses } };
}

impl<T: PairTable<ScaledTime>> ResponseWatch<T> {
    /// A watch that knows of nothing. Its table has room for 1 to 256.
    pub fn new() -> Self
        requires { (1 ≤ T.CAPACITY) × (T.CAPACITY ≤ 256) }
        ensures { StandsForResponses T.CAPACITY result [] }
    {
        ResponseWatch {
            responses: T::empty(),
        }
    }

    /// A Delay_Resp came at this time: it is a repeat where its number is known. A repeat isn't known again.
    pub fn response(&mut self, number: Seq, time: ScaledTime) -> Judgement
        ensures judgement { (capacity : ℕ) (responses : List (Entry ℕ)) → StandsForResponses capacity self.old responses
            → result ≡ judged_response capacity number.0 responses }
        ensures stands { (capacity : ℕ) (responses : List (Entry ℕ)) → StandsForResponses capacity self.old responses
            → StandsForResponses capacity self.new (after_response capacity number.0 time responses) }
    {
        if self.responses.find(number).is_some() {
            return Judgement::Repeated;
        }
        self.responses.push(number, time);
        Judgement::Newer
    }

    /// A port of the slave began: nothing is known.
    pub fn forget(&mut self)
        ensures { (capacity : ℕ) (responses : List (Entry ℕ)) → StandsForResponses capacity self.old responses
            → StandsForResponses capacity self.new [] }
    {
        self.responses.clear();
    }
}
