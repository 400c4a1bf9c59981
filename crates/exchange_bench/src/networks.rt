use crate::{MASTER, SLAVE, Slave, moment};
use master_port::MasterPort;
use network_model::{Name, NodeKind, NodeSpec, Nodes};
use ptp_units::{ScaledTime, Seq};
use slave_port::Heard;
use std::alloc::Global;
use transparent_clock::enter;
use world_model::{Event, Outcome, World};

/// How many events an exchange has.
const EVENTS: u64 = 16;

/// A master, a clock near it, one near the slave, and the slave.
#[derive(Clone, Copy)]
pub struct Names {
    pub master: Name,
    pub near: Name,
    pub far: Name,
    pub slave: Name,
}

impl Names {
    pub fn new() -> Option<Names> {
        Some(Names {
            master: Name::new("M")?,
            near: Name::new("T1")?,
            far: Name::new("T2")?,
            slave: Name::new("S")?,
        })
    }
}

/// The slave is told its master.
pub fn set_master(names: &Names) -> Event {
    Event::SetMaster {
        node: names.slave,
        master: names.master,
    }
}

/// The nodes of these names.
pub fn nodes_of(names: &Names) -> [NodeSpec; 4] {
    let first = Seq(0);
    let master = NodeKind::Master {
        config: MASTER,
        first,
    };
    let slave = NodeKind::Slave {
        config: SLAVE,
        first,
    };
    [
        (names.master, master),
        (names.near, NodeKind::Clock),
        (names.far, NodeKind::Clock),
        (names.slave, slave),
    ]
    .map(|(name, kind)| NodeSpec { name, kind })
}

/// A world of these nodes, in which the slave follows the master.
fn world_of(alloc: Global, names: &Names) -> Option<World> {
    let nodes = Nodes::new(alloc, &nodes_of(names)).ok()?;
    let mut world = World::new(alloc, nodes).ok()?;
    match world.step(&set_master(names)) {
        Ok(_) => Some(world),
        Err(_) => None,
    }
}

/// What happens in an exchange.
#[derive(Clone, Copy)]
enum Kind {
    Sync,
    Follow,
    Enter,
    Leave,
    Arrive,
    Hear,
    Request,
    Stamped,
}

impl Kind {
    /// The event of this kind, where it takes the copy, or ends the stay, of this tag.
    fn event(self, node: Name, copy: u64, at: ScaledTime) -> Event {
        let transit = copy;
        match self {
            Kind::Sync => Event::Sync { node, at },
            Kind::Follow => Event::Follow { node },
            Kind::Enter => Event::Enter { node, copy, at },
            Kind::Leave => Event::Leave { node, transit, at },
            Kind::Arrive => Event::Arrive { node, copy, at },
            Kind::Hear => Event::Hear { node, copy },
            Kind::Request => Event::Request { node, at },
            Kind::Stamped => Event::Stamped { node },
        }
    }
}

/// One exchange, whose first event has this tag. An event names another by its place, and happens so many nanoseconds after the
/// beginning of the second.
pub fn exchange(names: &Names, first: u64, second: u64) -> [Event; 16] {
    let Names {
        master,
        near,
        far,
        slave,
    } = *names;
    [
        (Kind::Sync, master, 0, 0),
        (Kind::Follow, master, 0, 0),
        (Kind::Enter, near, 0, 500),
        (Kind::Leave, near, 2, 2_500),
        (Kind::Enter, far, 3, 3_000),
        (Kind::Leave, far, 4, 5_000),
        (Kind::Arrive, slave, 5, 5_500),
        (Kind::Hear, slave, 1, 0),
        (Kind::Request, slave, 0, 500_000),
        (Kind::Enter, far, 8, 500_500),
        (Kind::Leave, far, 9, 502_500),
        (Kind::Enter, near, 10, 503_000),
        (Kind::Leave, near, 11, 505_000),
        (Kind::Arrive, master, 12, 505_500),
        (Kind::Stamped, slave, 0, 0),
        (Kind::Hear, slave, 13, 0),
    ]
    .map(|(kind, node, place, nanoseconds)| {
        kind.event(node, first.wrapping_add(place), moment(second, nanoseconds))
    })
}

/// How many reports come of so many events of whole exchanges, in one world.
pub fn reports_in_world(alloc: Global, events: u64) -> Option<u64> {
    let names = Names::new()?;
    let mut world = world_of(alloc, &names)?;
    let mut reports: u64 = 0;
    for second in 0..events / EVENTS {
        for event in exchange(&names, world.len(), second) {
            let stepped = world.step(&event).ok()?;
            if matches!(stepped.outcome, Outcome::Heard(Heard::Report(_))) {
                reports = reports.saturating_add(1);
            }
        }
    }
    Some(reports)
}

/// A message stays in a clock.
fn pass(octets: &mut [u8], second: u64, entered: u32, left: u32) -> Option<()> {
    enter(moment(second, entered))
        .leave(octets, moment(second, left))
        .ok()
}

/// The same exchange by calls of the ports.
fn exchange_by_ports(master: &mut MasterPort, slave: &mut Slave, second: u64) -> Option<Heard> {
    let (mut sync, number) = master.next_sync();
    let follow_up = master.sync_left(number, moment(second, 0)).ok()?;
    pass(&mut sync, second, 500, 2_500)?;
    pass(&mut sync, second, 3_000, 5_000)?;
    slave.sync(&sync, moment(second, 5_500), second);
    slave.general(&follow_up, second);

    let (mut request, number) = slave.next_request(second);
    pass(&mut request, second, 500_500, 502_500)?;
    pass(&mut request, second, 503_000, 505_000)?;
    let response = master.delay_req(&request, moment(second, 505_500)).ok()?;
    slave.request_left(number, moment(second, 500_000)).ok()?;
    Some(slave.general(&response, second))
}

/// How many reports come of the same exchanges by calls of the ports.
pub fn reports_of_ports(events: u64) -> Option<u64> {
    let mut master = MasterPort::new(MASTER, Seq(0));
    let mut slave = Slave::new(SLAVE, Seq(0));
    slave.set_master(MASTER.identity);
    let mut reports: u64 = 0;
    for second in 0..events / EVENTS {
        if matches!(
            exchange_by_ports(&mut master, &mut slave, second)?,
            Heard::Report(_)
        ) {
            reports = reports.saturating_add(1);
        }
    }
    Some(reports)
}
