ghost use Rattle.std.specs.Prelude.{◌≡◌, ◌≤◌, [], ◌∷◌};
ghost use Rattle.sync_watch.specs.Told.{Sync, FollowUp};
ghost use Rattle.sync_watch.specs.Judged.{sync_judgement, is_repeat, judged_sync, judged_follow_up, after_sync};
ghost use Rattle.sync_watch.specs.Judged.{after_follow_up};
ghost use Rattle.sync_watch.specs.StandsFor.{StandsFor, StandsAfter, IsJudged};

use crate::arrival::Arrival;
use crate::judgement::Judgement;
use crate::known::Known;
use crate::newest::{Newest, NewestSyncs, is_apart, is_far, is_of_life};
use pairing::PairTable;
use ptp_units::ScaledTime;
use std::marker::Model;

/// What is known of the Syncs and Follow_Ups of one master, since it began: of each kind, and of those with and
/// without unicastFlag apart, when the latest came, under their numbers, and which Sync is the newest. No call allocates.
#[derive(Drop)]
pub struct SyncWatch<T: PairTable<ScaledTime>> {
    syncs: Known<T>,
    follow_ups: Known<T>,
    newest: NewestSyncs,
}

impl<T: PairTable<ScaledTime>> Model for SyncWatch<T> {
    ghost use Rattle.sync_watch.specs.StandsFor.{Watch};

    ghost Value = { Watch };

    ghost view = { λ w. record {
      capacity = T.CAPACITY;
      syncs = w.syncs;
      follow_ups = w.follow_ups;
      newest = w.newest;
    } };
}

/// What a Sync says, where one and a Follow_Up of its number are known by these times, and this is the newest Sync.
fn sync_judgement(
    arrival: &Arrival,
    sync: Option<ScaledTime>,
    follow_up: Option<ScaledTime>,
    newest: Option<Newest>,
) -> Judgement
    ensures { result ≡ sync_judgement arrival.now sync follow_up newest }
{
    match (sync, follow_up, newest) {
        (Some(sync), _, _) if !is_apart(arrival.time, sync) => Judgement::Repeated,
        (Some(_), _, _) => Judgement::BeganAnew,
        (None, Some(follow_up), _) if is_apart(arrival.time, follow_up) => Judgement::BeganAnew,
        (None, _, Some(newest)) if !is_of_life(arrival, &newest) => Judgement::BeganAnew,
        (None, _, _) => Judgement::Newer,
    }
}

/// Whether a Follow_Up isn't to be heard, where a Sync and a Follow_Up of its number are known by these times, and this is
/// the newest Sync.
fn is_repeat(
    arrival: &Arrival,
    sync: Option<ScaledTime>,
    follow_up: Option<ScaledTime>,
    newest: Option<Newest>,
) -> bool
    ensures { result ≡ is_repeat arrival.now sync follow_up newest }
{
    follow_up.is_some()
        || sync.is_some_and(|sync| is_apart(arrival.time, sync))
        || newest.is_some_and(|newest| is_far(arrival.number, newest.number))
}

impl<T: PairTable<ScaledTime>> SyncWatch<T> {
    /// A watch that knows of nothing. Its tables have room for 1 to 256.
    pub fn new() -> Self
        requires { (1 ≤ T.CAPACITY) × (T.CAPACITY ≤ 256) }
        ensures { StandsFor T.CAPACITY result [] }
    {
        SyncWatch {
            syncs: Known::new(),
            follow_ups: Known::new(),
            newest: NewestSyncs::new(),
        }
    }

    /// A Sync of the master came, and no port heard it yet. A repeat isn't known again. Where the master began anew, all is
    /// forgotten but this Sync.
    pub fn sync(&mut self, arrival: &Arrival) -> Judgement
        ensures judgement { IsJudged (judged_sync arrival.now) self.old result }
        ensures stands { StandsAfter (after_sync arrival.now) self.old self.new }
    {
        let sync = self.syncs.time_of(arrival);
        let follow_up = self.follow_ups.time_of(arrival);
        let newest = self.newest.of(arrival.is_unicast);
        let judgement = sync_judgement(arrival, sync, follow_up, newest);
        match judgement {
            Judgement::Newer => self.know_sync(arrival),
            Judgement::Repeated => {}
            Judgement::BeganAnew => self.begin_anew(arrival),
        }
        judgement
    }

    /// A Follow_Up of the master came, and no port heard it yet. One that isn't to be heard isn't known.
    pub fn follow_up(&mut self, arrival: &Arrival) -> Judgement
        ensures judgement { IsJudged (judged_follow_up arrival.now) self.old result }
        ensures stands { StandsAfter (after_follow_up arrival.now) self.old self.new }
    {
        let sync = self.syncs.time_of(arrival);
        let follow_up = self.follow_ups.time_of(arrival);
        let newest = self.newest.of(arrival.is_unicast);
        if is_repeat(arrival, sync, follow_up, newest) {
            return Judgement::Repeated;
        }
        self.follow_ups.push(arrival);
        Judgement::Newer
    }

    /// A Sync is known from now on.
    fn know_sync(&mut self, arrival: &Arrival)
        ensures { StandsAfter (λ capacity told. Sync arrival.now ∷ told) self.old self.new }
    {
        self.syncs.push(arrival);
        self.newest.take(arrival);
    }

    /// This Sync is all that is known.
    fn begin_anew(&mut self, arrival: &Arrival)
        ensures { StandsAfter (λ capacity told. Sync arrival.now ∷ []) self.old self.new }
    {
        self.forget();
        self.know_sync(arrival);
    }

    /// Nothing is known.
    fn forget(&mut self)
        ensures { StandsAfter (λ capacity told. []) self.old self.new }
    {
        self.syncs.clear();
        self.follow_ups.clear();
        self.newest = NewestSyncs::new();
    }
}
