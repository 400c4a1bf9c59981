ghost use Rattle.std.specs.Prelude.{◌≡◌, ◌≤◌, length, option_map, IfSome, IfOk, IfErr, OnOk, OnErr, IsTrue, ◌↔◌, []};
ghost use Rattle.network_model.specs.declared.refusal.WorldRefusal.TheVariants.{Memory};
ghost use Rattle.network_model.specs.Network.{IsNetwork};
ghost use Rattle.network_model.specs.Truth.{TellsTruth, copy_of};
ghost use Rattle.network_model.specs.Outcome.{IsRun, IsStepped};
ghost use Rattle.network_model.specs.Premises.{IsWithinOneTurn, exact_limits};
ghost use Rattle.world_model.specs.State.{new_state, after, IsRefused};
ghost use Rattle.world_model.specs.Exact.{IsTimely, IsExactAnswer, RunsKeepLaws};

use crate::events::Events;
use crate::places::Recent;
use crate::station::{Station, stations_of};
use crate::stepping::step;
use network_model::{CopyOctets, Event, Nodes, Stepped, WorldRefusal};
use std::alloc::Global;
use std::marker::Model;

/// A network of real ports and clocks, and what happened in it: its run, the events that it
/// accepted, one after the other. What an event names is found by its tag or its name: no event
/// searches the run.
#[derive(Drop)]
pub struct World {
    nodes: Nodes,
    recent: Recent,
    stations: Vec<Station>,
    events: Events,
}

impl Model for World {
    ghost use Rattle.world_model.specs.State.{State};

    ghost Value = { State };

    ghost use Rattle.world_model.specs.Inner.Stands.{run_of};
    ghost use Rattle.world_model.specs.Inner.Kept.{entries_of, IsKeptWorld};

    ghost view = { λ w. record { network = w.nodes; run = run_of (entries_of w.events) } };

    ghost invariant = { λ w. IsKeptWorld w.nodes w.stations.items w.events };
}

impl World {
    /// A world of these nodes in which nothing happened yet. Refused with 609 where memory for it
    /// was refused; the nodes are then dropped.
    pub fn new(alloc: Global, nodes: Nodes) -> Result<World, WorldRefusal>
        ensures world { IfOk result (λ world. world ≡ new_state nodes) }
        ensures refused { IfErr result (λ why. why ≡ Memory) }
        ensures network { IsNetwork nodes }
    {
        let stations = stations_of(alloc, &nodes)?;
        Ok(World {
            nodes,
            recent: Recent::new(),
            stations,
            events: Events::new(alloc),
        })
    }

    /// One more event, at a true moment that may be earlier than those before it. Refused with the
    /// first of 603 to 608 that applies, or with 609 where memory for an event that would be
    /// accepted was refused; the world is then as it was, and the event took no tag.
    pub fn step(&mut self, event: &Event) -> Result<Stepped, WorldRefusal>
        ensures stepped { IfOk result (IsStepped self.old.network self.old.run event.now) }
        ensures after { OnOk result (self.new ≡ after event.now self.old) }
        ensures refused { IfErr result (IsRefused self.old event.now) }
        ensures unchanged { OnErr result (self.new ≡ self.old) }
        // No two nodes have one name and no two ports one identity, and every event of the run was accepted.
        ensures network { IsNetwork self.new.network }
        ensures run { IsRun self.new.network self.new.run }
        // A report is exact where its slave uses no message that is too old and ticks often enough, or where no number
        // came round.
        ensures exact { IfOk result (IsExactAnswer (IsTimely exact_limits) self.old event.now) }
        ensures exact_within_one_turn { IfOk result
            (IsExactAnswer (λ network slave run. IsWithinOneTurn run) self.old event.now) }
        ensures laws { RunsKeepLaws }
    {
        step(
            &self.nodes,
            &mut self.recent,
            &mut self.stations,
            &mut self.events,
            event,
        )
    }

    /// The octets of the copy that the event of this tag made, or None where it made none.
    pub fn octets(&self, copy: u64) -> Option<&[u8]>
        ensures truth { TellsTruth (copy_of self.now.network self.now.run copy)
            (option_map (λ octets. octets.now) result) }
        // A Delay_Resp is the longest message of a world.
        ensures fits { IfSome result (λ octets. length octets.now ≤ 54) }
        ensures network { IsNetwork self.now.network }
        ensures run { IsRun self.now.network self.now.run }
    {
        self.events.octets(copy)
    }

    /// How many events happened.
    pub fn len(&self) -> u64
        ensures value { result ≡ length self.now.run }
        ensures network { IsNetwork self.now.network }
        ensures run { IsRun self.now.network self.now.run }
    {
        self.events.len()
    }

    /// Whether nothing happened yet.
    pub fn is_empty(&self) -> bool
        ensures { IsTrue result ↔ (self.now.run ≡ []) }
    {
        self.len() == 0
    }

    /// Does nothing: says of any world that its nodes are a network and that its events were
    /// accepted.
    pub(crate) fn is_sound(&self)
        ensures network { IsNetwork self.now.network }
        ensures run { IsRun self.now.network self.now.run }
    {
        let _ = &self.nodes;
    }
}

impl CopyOctets for World {
    ghost network = { λ w. w.network };

    ghost run = { λ w. w.run };

    fn octets(&self, copy: u64) -> Option<&[u8]> {
        self.octets(copy)
    }
}
