//! A schedule, replayed event by event.
ghost use Rattle.std.specs.Prelude.{◌≡◌, ◌≢◌, [], ◌∷◌, IfOk, MatchOption, MatchResult, None, length, reverse};
ghost use Rattle.network_model.specs.declared.event.Event.{Event};
ghost use Rattle.network_model.specs.Clash.{first_clash};
ghost use Rattle.world_model.specs.State.{new_state};
ghost use Rattle.schedule_reading.specs.Schedule.{FaultsIn};
ghost use Rattle.explain_input.specs.Input.{Happens, TakesEvent};
ghost use Rattle.explain_input.specs.Inner.Schedule.{Refuses};

use network_model::{Event, NodeSpec, Nodes};
use schedule_lines::Line;
use schedule_reading::{TaskFault, read_entry};
use std::alloc::{AllocError, Global};
use std::marker::Model;
use world_model::World;

/// The world in which the events of a schedule happened so far. There is one event at least.
#[derive(Drop)]
pub struct Scheduled {
    world: World,
    /// How many nodes it has.
    nodes: u64,
    /// These events, the oldest first.
    events: Vec<Event>,
}

impl Model for Scheduled {
    ghost use Rattle.std.specs.Prelude.{◌≡◌, ◌≢◌, [], length, reverse, None};
    ghost use Rattle.network_model.specs.Clash.{first_clash};
    ghost use Rattle.world_model.specs.State.{State};

    ghost Value = { State };

    ghost view = { λ s. s.world };

    ghost invariant = { λ s. (first_clash s.world.network ≡ None) × (s.world.run ≢ [])
        × (s.nodes ≡ length s.world.network) × (reverse s.events.items ≡ s.world.run) };
}

impl Scheduled {
    /// The first event, in a world of these nodes.
    pub(crate) fn begin(
        alloc: Global,
        nodes: &[NodeSpec],
        event: Event,
    ) -> Result<Scheduled, TaskFault>
        ensures { MatchResult result
            (λ scheduled. Happens event (new_state nodes.now) scheduled)
            (λ fault. Refuses fault (new_state nodes.now) event) }
    {
        let world = first_world(alloc, nodes, &event)?;
        let events = one_event(alloc, event)?;
        Ok(Scheduled {
            world,
            nodes: nodes.len() as u64,
            events,
        })
    }

    /// One more event.
    fn happen(&mut self, event: Event) -> Result<(), TaskFault>
        ensures { MatchResult result
            (λ _. Happens event self.old self.new)
            (λ fault. (self.new ≡ self.old) × Refuses fault self.old event) }
    {
        self.events.push(event)?;
        match step(&mut self.world, &event) {
            None => Ok(()),
            Some(fault) => {
                self.events.pop();
                Err(fault)
            }
        }
    }

    /// The event of one more line.
    pub(crate) fn take(&mut self, alloc: Global, line: &[u8]) -> Result<(), TaskFault>
        ensures { MatchResult result
            (λ _. TakesEvent line.now self.old self.new)
            (λ fault. (self.new ≡ self.old) × FaultsIn fault self.old.network self.old.run line.now
            × (fault ≢ TaskFault.Write)) }
    {
        let _ = &self.world;
        match read_entry(alloc, line)? {
            Line::Event(event) => self.happen(event),
            Line::Node(_) => Err(TaskFault::Field),
        }
    }

    /// How many events happened.
    pub fn len(&self) -> u64
        ensures { result ≡ length self.now.run }
    {
        self.world.len()
    }

    /// How many nodes there are.
    pub(crate) fn nodes(&self) -> u64
        ensures { result ≡ length self.now.network }
    {
        self.nodes
    }

    /// These events, the oldest first.
    pub(crate) fn events(&self) -> &[Event]
        ensures { reverse result.now ≡ self.now.run }
    {
        self.events.as_slice()
    }
}

/// The world of these nodes after a first event.
fn first_world(alloc: Global, nodes: &[NodeSpec], event: &Event) -> Result<World, TaskFault>
    ensures { MatchResult result
        (λ world. Happens event.now (new_state nodes.now) world)
        (λ fault. Refuses fault (new_state nodes.now) event.now) }
{
    let mut world = new_world(alloc, nodes)?;
    match step(&mut world, event) {
        None => Ok(world),
        Some(fault) => Err(fault),
    }
}

/// The world of these nodes before any event.
fn new_world(alloc: Global, nodes: &[NodeSpec]) -> Result<World, TaskFault>
    ensures { MatchResult result
        (λ world. (world ≡ new_state nodes.now) × (first_clash nodes.now ≡ None))
        (λ fault. (event : Event) → Refuses fault (new_state nodes.now) event) }
{
    let network = Nodes::new(alloc, nodes)?;
    Ok(World::new(alloc, network)?)
}

/// One more event in a world, or why it doesn't happen.
fn step(world: &mut World, event: &Event) -> Option<TaskFault>
    requires { first_clash world.old.network ≡ None }
    ensures { MatchOption result
        (Happens event.now world.old world.new)
        (λ fault. (world.new ≡ world.old) × Refuses fault world.old event.now) }
{
    match world.step(event) {
        Ok(_) => None,
        Err(why) => Some(why.into()),
    }
}

/// One event alone.
fn one_event(alloc: Global, event: Event) -> Result<Vec<Event>, AllocError>
    ensures { IfOk result (λ events. events.items ≡ event ∷ []) }
{
    let mut events: Vec<Event> = Vec::new(alloc);
    events.push(event)?;
    Ok(events)
}
