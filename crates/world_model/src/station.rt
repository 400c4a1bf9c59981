ghost use Rattle.std.specs.Prelude.{◌≡◌, List, [], IfOk, IfErr};
ghost use Rattle.network_model.specs.Network.{Network, NodeName, IsNetwork};
ghost use Rattle.world_model.specs.Inner.Stands.{Entry, Stands, AllStand, left_stay};
ghost use Rattle.world_model.specs.Inner.Acts.{Acts, ActsIn, shown_at};
ghost use Rattle.world_model.specs.Inner.Kept.{lists, entries_of, AllStored, HasRoom};

use crate::clock::depart;
use crate::entry::{Happened, Left};
use crate::events::Events;
use master_port::MasterPort;
use network_model::{Event, Name, NodeKind, Nodes, Outcome, WorldRefusal};
use pairing::RingTable;
use ptp_units::{BOUND, ScaledTime, Seq};
use slave_port::{HeldFollow, HeldRequest, HeldSync, SlavePort};
use std::alloc::Global;

/// What holds the messages of a slave: at most 16 of each kind.
pub(crate) type Table<V> = RingTable<V, 16>;

/// What an event did at its node, or why it isn't accepted.
pub(crate) type Answer = Result<Happened, WorldRefusal>;

/// A message that waits for its departure time: its number, and what the clock showed as it left.
#[derive(Clone, Copy)]
pub(crate) struct Departure {
    pub(crate) number: Seq,
    pub(crate) at: ScaledTime,
}

/// A master, and its Sync that waits for the Follow_Up.
#[derive(Drop)]
pub(crate) struct Master {
    pub(crate) port: MasterPort,
    pub(crate) waiting: Option<Departure>,
}

/// A slave, and its Delay_Req that waits for its departure time.
#[derive(Drop)]
pub(crate) struct Slave {
    pub(crate) port: SlavePort<Table<HeldSync>, Table<HeldFollow>, Table<HeldRequest>>,
    pub(crate) waiting: Option<Departure>,
}

/// The port of a node.
#[derive(Drop)]
pub(crate) enum Port {
    Master(Master),
    Slave(Slave),
    /// A transparent clock has none.
    Clock,
}

/// What stands at a node.
#[derive(Drop)]
pub(crate) struct Station {
    /// How far the node's clock is ahead of the true time, in units of 2^-16 ns.
    pub(crate) difference: i128,
    pub(crate) port: Port,
}

/// What a clock that is so far ahead shows at this true moment. Refused with 607 where that is no
/// moment.
pub(crate) fn shown(at: ScaledTime, ahead: &i128) -> Result<ScaledTime, WorldRefusal>
    ensures { result ≡ shown_at at ahead.now }
{
    match at.shifted(*ahead) {
        Ok(now) => Ok(now),
        Err(_) => Err(WorldRefusal::ReadingOutOfRange),
    }
}

impl Station {
    /// What stands at a node of this kind before any event.
    pub(crate) fn new(kind: &NodeKind) -> Station
        ensures { (network : Network) (name : NodeName) → Stands network [] name kind.now result }
    {
        let port = match *kind {
            NodeKind::Master { config, first } => Port::Master(Master {
                port: MasterPort::new(config, first),
                waiting: None,
            }),
            NodeKind::Slave { config, first } => Port::Slave(Slave {
                port: SlavePort::new(config, first),
                waiting: None,
            }),
            NodeKind::Clock => Port::Clock,
        };
        Station {
            difference: 0,
            port,
        }
    }

    /// What an event does at its node, whose station this is. Where it isn't accepted, or there is
    /// no room for it among the events, the station stays as it was.
    pub(crate) fn act(&mut self, nodes: &Nodes, events: &Events, event: &Event) -> Answer
        requires { AllStored (lists events.now.stores) events.now.kept.items }
        ensures { ActsIn nodes.now event.now (entries_of events.now) self.old self.new (HasRoom events.now) result }
    {
        match event {
            Event::Sync { at, .. } => self.sync(*at, events),
            Event::SyncOne { at, .. } => self.one_step_sync(*at, events),
            Event::Follow { .. } => self.follow(events),
            Event::Enter { copy, at, .. } => self.enter(*copy, *at, events),
            Event::Leave { node, transit, at } => self.leave(node, *transit, *at, events),
            Event::Arrive { copy, at, .. } => self.arrive(*copy, *at, events),
            Event::Hear { copy, .. } => self.hear(*copy, events),
            Event::Request { at, .. } => self.request(*at, events),
            Event::Stamped { .. } => self.stamped(events),
            Event::Tick { .. } => self.tick(events),
            Event::SetMaster { master, .. } => self.set_master(nodes, master, events),
            Event::StepClock { diff, .. } => self.step_clock(diff, events),
        }
    }

    /// A master sends a Sync.
    fn sync(&mut self, at: ScaledTime, events: &Events) -> Answer
        ensures { (node : NodeName) (entries : List Entry)
            → Acts (Event.Sync node at) entries self.old self.new (HasRoom events.now) result }
    {
        let Port::Master(master) = &mut self.port else {
            return Err(WorldRefusal::WrongKind);
        };
        master.sync(at, &self.difference, events)
    }

    /// A master sends a one-step Sync.
    fn one_step_sync(&mut self, at: ScaledTime, events: &Events) -> Answer
        ensures { (node : NodeName) (entries : List Entry)
            → Acts (Event.SyncOne node at) entries self.old self.new (HasRoom events.now) result }
    {
        let Port::Master(master) = &mut self.port else {
            return Err(WorldRefusal::WrongKind);
        };
        master.one_step_sync(at, &self.difference, events)
    }

    /// A master sends the Follow_Up of the Sync that waits for it.
    fn follow(&mut self, events: &Events) -> Answer
        ensures { (node : NodeName) (entries : List Entry)
            → Acts (Event.Follow node) entries self.old self.new (HasRoom events.now) result }
    {
        let Port::Master(master) = &mut self.port else {
            return Err(WorldRefusal::WrongKind);
        };
        master.follow(events)
    }

    /// A copy of a message enters a transparent clock.
    fn enter(&self, copy: u64, at: ScaledTime, events: &Events) -> Answer
        ensures { (node : NodeName)
            → Acts (Event.Enter node copy at) (entries_of events.now) self.now self.now (HasRoom events.now) result }
    {
        let Port::Clock = &self.port else {
            return Err(WorldRefusal::WrongKind);
        };
        if events.octets(copy).is_none() {
            return Err(WorldRefusal::NoCopy);
        }
        let now = shown(at, &self.difference)?;
        events.room()?;
        Ok(Happened {
            reading: Some(now),
            outcome: Outcome::Entered,
            left: Left::Stay(now),
        })
    }

    /// A message leaves the transparent clock of this name.
    fn leave(&self, clock: &Name, transit: u64, at: ScaledTime, events: &Events) -> Answer
        requires { AllStored (lists events.now.stores) events.now.kept.items }
        ensures { Acts (Event.Leave clock.now transit at) (entries_of events.now) self.now self.now (HasRoom events.now) result }
    {
        let Port::Clock = &self.port else {
            return Err(WorldRefusal::WrongKind);
        };
        let Some(copy) = events.copy_inside(clock, transit) else {
            return Err(WorldRefusal::NoTransit);
        };
        let octets = match events.copy(copy) {
            Some(octets) => octets,
            None => return Err(WorldRefusal::NoTransit),
        };
        depart(transit, octets, at, &self.difference, events)
    }

    /// A copy of a message arrives at a master or a slave.
    fn arrive(&mut self, copy: u64, at: ScaledTime, events: &Events) -> Answer
        ensures { (node : NodeName)
            → Acts (Event.Arrive node copy at) (entries_of events.now) self.old self.new (HasRoom events.now) result }
    {
        let ahead = &self.difference;
        match &mut self.port {
            Port::Master(master) => master.arrive(events.octets(copy), at, ahead, events),
            Port::Slave(slave) => { slave.arrive(events.octets(copy), at, ahead, events) }
            Port::Clock => Err(WorldRefusal::WrongKind),
        }
    }

    /// A slave hears a copy of a general message.
    fn hear(&mut self, copy: u64, events: &Events) -> Answer
        ensures { (node : NodeName)
            → Acts (Event.Hear node copy) (entries_of events.now) self.old self.new (HasRoom events.now) result }
    {
        let Port::Slave(slave) = &mut self.port else {
            return Err(WorldRefusal::WrongKind);
        };
        slave.hear(events.octets(copy), events)
    }

    /// A slave sends a Delay_Req.
    fn request(&mut self, at: ScaledTime, events: &Events) -> Answer
        ensures { (node : NodeName)
            → Acts (Event.Request node at) (entries_of events.now) self.old self.new (HasRoom events.now) result }
    {
        let Port::Slave(slave) = &mut self.port else {
            return Err(WorldRefusal::WrongKind);
        };
        slave.request(at, &self.difference, events)
    }

    /// A slave learns when its waiting Delay_Req departed.
    fn stamped(&mut self, events: &Events) -> Answer
        ensures { (node : NodeName) (entries : List Entry)
            → Acts (Event.Stamped node) entries self.old self.new (HasRoom events.now) result }
    {
        let Port::Slave(slave) = &mut self.port else {
            return Err(WorldRefusal::WrongKind);
        };
        slave.stamped(events)
    }

    /// A slave's hold timer runs out.
    fn tick(&mut self, events: &Events) -> Answer
        ensures { (node : NodeName) (entries : List Entry)
            → Acts (Event.Tick node) entries self.old self.new (HasRoom events.now) result }
    {
        let Port::Slave(slave) = &mut self.port else {
            return Err(WorldRefusal::WrongKind);
        };
        slave.tick(events)
    }

    /// A slave is told its present master.
    fn set_master(&mut self, nodes: &Nodes, master: &Name, events: &Events) -> Answer
        ensures { (node : NodeName) (entries : List Entry)
            → ActsIn nodes.now (Event.SetMaster node master.now) entries self.old self.new (HasRoom events.now) result }
    {
        let Some(other) = nodes.get(master) else {
            return Err(WorldRefusal::NoNode);
        };
        let Port::Slave(slave) = &mut self.port else {
            return Err(WorldRefusal::WrongKind);
        };
        slave.set_master(other.kind, events)
    }

    /// The clock is set.
    fn step_clock(&mut self, difference: &i128, events: &Events) -> Answer
        ensures { (node : NodeName) (entries : List Entry)
            → Acts (Event.StepClock node difference.now) entries self.old self.new (HasRoom events.now) result }
    {
        if difference.unsigned_abs() >= BOUND {
            return Err(WorldRefusal::ReadingOutOfRange);
        }
        events.room()?;
        self.difference = *difference;
        Ok(Happened {
            reading: None,
            outcome: Outcome::Done,
            left: Left::Nothing,
        })
    }
}

/// What stands at each node before any event.
pub(crate) fn stations_of(alloc: Global, nodes: &Nodes) -> Result<Vec<Station>, WorldRefusal>
    ensures stand { IfOk result (λ stations. AllStand nodes.now [] stations.items) }
    ensures refused { IfErr result (λ why. why ≡ WorldRefusal.Memory) }
    ensures network { IsNetwork nodes.now }
{
    let mut stations = Vec::new(alloc);
    for index in 0..nodes.len() {
        let node = nodes.get_index(index).unwrap();
        stations.push(Station::new(&node.kind))?;
    }
    Ok(stations)
}
