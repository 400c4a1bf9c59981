//! Nodes of networks, and an exchange through a transparent clock, worked by hand: its events, what comes of them, and the lines that tell it.
//! For the tests of worlds and of the checker.

use event_codec::{PortConfig, PortIdentity};
use network_model::{Name, NodeKind, NodeSpec};
use ptp_units::{ScaledTime, Seq, Timestamp, UnitRefusal};
use std::alloc::Global;
use std::test::Fail;
use trace_model::TraceLine;
use world_model::{Event, Heard, Nodes, Outcome, Report, Stepped, World, WorldRefusal, run};

/// The identity of a master.
pub(crate) const MASTER: PortIdentity = PortIdentity {
    clock: [0x00, 0x11, 0x22, 0xff, 0xfe, 0x33, 0x44, 0x55],
    port: 1,
};

/// The identity of a slave.
pub(crate) const SLAVE: PortIdentity = PortIdentity {
    clock: [0x00, 0xaa, 0xbb, 0xff, 0xfe, 0xcc, 0xdd, 0xee],
    port: 1,
};

/// The name that this text is.
pub(crate) fn name(text: &str) -> Result<Name, Fail> {
    Ok(Name::new(text).ok_or("no name")?)
}

fn config(identity: PortIdentity, domain: u8) -> PortConfig {
    PortConfig {
        identity,
        domain,
        log: 0,
    }
}

/// A master whose first number is 0.
pub(crate) fn master(text: &str, identity: PortIdentity, domain: u8) -> Result<NodeSpec, Fail> {
    Ok(NodeSpec {
        name: name(text)?,
        kind: NodeKind::Master {
            config: config(identity, domain),
            first: Seq(0),
        },
    })
}

/// A slave whose first number is 0.
pub(crate) fn slave(text: &str, identity: PortIdentity, domain: u8) -> Result<NodeSpec, Fail> {
    Ok(NodeSpec {
        name: name(text)?,
        kind: NodeKind::Slave {
            config: config(identity, domain),
            first: Seq(0),
        },
    })
}

/// A transparent clock.
pub(crate) fn clock(text: &str) -> Result<NodeSpec, Fail> {
    Ok(NodeSpec {
        name: name(text)?,
        kind: NodeKind::Clock,
    })
}

/// The moment of seconds, nanoseconds and units of 2^-16 ns.
pub(crate) fn moment(seconds: u64, nanos: u32, fraction: u16) -> Result<ScaledTime, UnitRefusal> {
    Ok(ScaledTime::join(Timestamp::new(seconds, nanos)?, fraction))
}

/// A world of these nodes.
pub(crate) fn world(alloc: Global, specs: &[NodeSpec]) -> Result<World, WorldRefusal> {
    World::new(alloc, Nodes::new(alloc, specs)?)
}

/// A master, a slave and a transparent clock.
pub(crate) fn specs() -> Result<[NodeSpec; 3], Fail> {
    Ok([master("M", MASTER, 0)?, slave("S", SLAVE, 0)?, clock("T")?])
}

/// How many events the exchange has.
pub(crate) const LENGTH: usize = 14;

/// What the slave reports.
pub(crate) const REPORT: Report = Report {
    offset2: 131_072_000,
    path2: 131_072_000,
    sync_tag: 5,
    follow_tag: Some(7),
    request_tag: 8,
    response_tag: 13,
};

/// An exchange through a clock, with a slave that is 1,000 ns ahead: the node of each event, the tag that it names and when
/// it happens, or zeros where it has none, and what comes of it where there is memory.
const EXCHANGE: [(&str, u64, (u64, u32, u16), Outcome); LENGTH] = [
    ("S", 0, (0, 0, 0), Outcome::Done),
    ("S", 0, (0, 0, 0), Outcome::Done),
    ("M", 0, (1, 0, 0), Outcome::Made),
    ("T", 2, (1, 500, 0), Outcome::Entered),
    ("T", 3, (1, 2_500, 0), Outcome::Made),
    ("S", 4, (1, 3_000, 0), Outcome::Heard(Heard::Held)),
    ("M", 0, (0, 0, 0), Outcome::Made),
    ("S", 6, (0, 0, 0), Outcome::Heard(Heard::Completed)),
    ("S", 0, (2, 0, 0), Outcome::Made),
    ("T", 8, (2, 500, 0), Outcome::Entered),
    ("T", 9, (2, 4_000, 16_384), Outcome::Made),
    ("M", 10, (2, 4_500, 16_384), Outcome::Made),
    ("S", 0, (0, 0, 0), Outcome::Done),
    ("S", 11, (0, 0, 0), Outcome::Heard(Heard::Report(REPORT))),
];

/// The event of this tag.
pub(crate) fn event(tag: usize) -> Result<Event, Fail> {
    let (node, copy, (seconds, nanos, fraction), _) = *EXCHANGE.get(tag).ok_or("no event")?;
    let (node, at) = (name(node)?, moment(seconds, nanos, fraction)?);
    let (master, diff, transit) = (name("M")?, 65_536_000, copy);
    Ok(match tag {
        0 => Event::StepClock { node, diff },
        1 => Event::SetMaster { node, master },
        2 => Event::Sync { node, at },
        3 | 9 => Event::Enter { node, copy, at },
        4 | 10 => Event::Leave { node, transit, at },
        5 | 11 => Event::Arrive { node, copy, at },
        6 => Event::Follow { node },
        8 => Event::Request { node, at },
        12 => Event::Stamped { node },
        _ => Event::Hear { node, copy },
    })
}

/// What comes of the event of this tag where there is memory.
pub(crate) fn ample(tag: usize) -> Option<Outcome> {
    EXCHANGE.get(tag).map(|(_, _, _, outcome)| *outcome)
}

/// All events of the exchange.
pub(crate) fn exchange() -> Result<[Event; LENGTH], Fail> {
    let mut events = [event(0)?; LENGTH];
    for tag in 0..LENGTH {
        events[tag] = event(tag)?;
    }
    Ok(events)
}

/// A world in which nothing happened, or None where memory was refused.
pub(crate) fn begun(alloc: Global) -> Result<Option<World>, Fail> {
    match world(alloc, &specs()?) {
        Ok(world) => Ok(Some(world)),
        Err(WorldRefusal::Memory) => Ok(None),
        Err(why) => Err(why.into()),
    }
}

/// A world in which the exchange happened, and its answers, or None where memory was refused.
pub(crate) fn played(alloc: Global) -> Result<Option<(World, Vec<Stepped>)>, Fail> {
    let Some(mut world) = begun(alloc)? else {
        return Ok(None);
    };
    match run(alloc, &mut world, &exchange()?) {
        Ok(answers) => Ok(Some((world, answers))),
        Err(stop) if stop.why == WorldRefusal::Memory => Ok(None),
        Err(stop) => Err(stop.into()),
    }
}

/// The lines that tell the exchange, or None where memory was refused.
pub(crate) fn told(alloc: Global) -> Result<Option<Vec<TraceLine>>, Fail> {
    let Some((world, answers)) = played(alloc)? else {
        return Ok(None);
    };
    let Ok(mut lines) = Vec::with_capacity(alloc, LENGTH) else {
        return Ok(None);
    };
    for (event, stepped) in exchange()?.iter().zip(answers.iter()) {
        lines.push(TraceLine::of(event, stepped, &world))?;
    }
    Ok(Some(lines))
}
