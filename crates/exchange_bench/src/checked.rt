//! Transcripts that a checker is fed line by line: as a world tells them, or forged.

use crate::moment;
use crate::networks::{Names, exchange, nodes_of, set_master};
use arrayvec::ArrayVec;
use exchange_check::{Checker, TraceLine, TraceOut, Verdict};
use network_model::{Event, Nodes};
use std::alloc::Global;
use world_model::World;

/// A world, and a checker that is told what happens in it.
#[derive(Drop)]
struct Watched {
    world: World,
    checker: Checker,
}

impl Watched {
    /// Nothing has happened yet.
    fn new(alloc: Global, names: &Names) -> Option<Watched> {
        let specs = nodes_of(names);
        let world = World::new(alloc, Nodes::new(alloc, &specs).ok()?).ok()?;
        let checker = new_checker(alloc, names)?;
        Some(Watched { world, checker })
    }

    /// Events happen, and the checker is told of each.
    fn happen(&mut self, events: &[Event]) -> Option<()> {
        for event in events {
            let stepped = self.world.step(event).ok()?;
            let line = TraceLine::of(event, &stepped, &self.world);
            self.checker.feed(line).ok()?;
        }
        Some(())
    }

    /// The tag of the next event.
    fn next(&self) -> u64 {
        self.world.len()
    }
}

/// A checker of transcripts of these nodes.
fn new_checker(alloc: Global, names: &Names) -> Option<Checker> {
    Checker::new(alloc, Nodes::new(alloc, &nodes_of(names)).ok()?).ok()
}

/// So many lines of whole exchanges.
pub fn mixed(alloc: Global, lines: u64) -> Option<Verdict> {
    let names = Names::new()?;
    let mut watched = Watched::new(alloc, &names)?;
    watched.happen(&[set_master(&names)])?;
    for second in 0..lines / 16 {
        let events = exchange(&names, watched.next(), second);
        watched.happen(&events)?;
    }
    Some(watched.checker.verdict())
}

/// The slave follows the master, which sends a Sync, by the event of tag 1, and its Follow_Up.
fn sent(names: &Names) -> [Event; 3] {
    let at = moment(1, 0);
    let node = names.master;
    [
        set_master(names),
        Event::Sync { node, at },
        Event::Follow { node },
    ]
}

/// A message enters a clock, by an event of this tag, and leaves it in no time.
fn stay(names: &Names, copy: u64, transit: u64) -> [Event; 2] {
    let at = moment(1, 0);
    let node = names.near;
    [
        Event::Enter { node, copy, at },
        Event::Leave { node, transit, at },
    ]
}

/// The slave hears the Sync and its Follow_Up, and its Delay_Req, which is sent by the event of this tag, takes no time to
/// the master, which answers it.
fn asked(names: &Names, copy: u64, request: u64) -> [Event; 5] {
    let at = moment(1, 0);
    let node = names.slave;
    [
        Event::Arrive { node, copy, at },
        Event::Hear { node, copy: 2 },
        Event::Request { node, at },
        Event::Stamped { node },
        Event::Arrive {
            node: names.master,
            copy: request,
            at,
        },
    ]
}

/// A Sync passes a clock in a quarter of so many lines, one stay behind the other; in the other half
/// of the lines the slave reports again and again.
pub fn long_journey(alloc: Global, lines: u64) -> Option<Verdict> {
    let names = Names::new()?;
    let mut watched = Watched::new(alloc, &names)?;
    watched.happen(&sent(&names))?;
    let mut copy = 1u64;
    for _ in 0..lines / 4 {
        let transit = watched.next();
        watched.happen(&stay(&names, copy, transit))?;
        copy = transit.saturating_add(1);
    }
    let request = watched.next().saturating_add(2);
    watched.happen(&asked(&names, copy, request))?;
    let node = names.slave;
    let copy = request.saturating_add(2);
    for _ in 0..lines / 2 {
        watched.happen(&[Event::Hear { node, copy }])?;
    }
    Some(watched.checker.verdict())
}

/// The line of an event that is said to have come out.
fn forged(event: Event) -> TraceLine {
    let out = match event {
        Event::Enter { .. } => TraceOut::Entered,
        _ => TraceOut::Made(ArrayVec::new()),
    };
    TraceLine {
        event,
        reading: None,
        out,
    }
}

/// A checker is told of events that never happened.
fn tell(checker: &mut Checker, events: &[Event]) -> Option<()> {
    for event in events {
        checker.feed(forged(*event)).ok()?;
    }
    Some(())
}

/// So many lines of a tree of copies, in which each stay is left twice: copies enter and leave, two
/// from each copy, of which one goes on, and then the stays are left again, the last ones first.
pub fn broken_tree(alloc: Global, lines: u64) -> Option<Verdict> {
    let names = Names::new()?;
    let mut checker = new_checker(alloc, &names)?;
    let at = moment(1, 0);
    let master = names.master;
    tell(&mut checker, &[Event::Sync { node: master, at }])?;
    let stays = (lines / 6).saturating_mul(2);
    let mut copy = 0u64;
    for _ in 0..stays {
        let transit = checker.len();
        tell(&mut checker, &stay(&names, copy, transit))?;
        if transit % 4 == 3 {
            copy = transit.saturating_add(1);
        }
    }
    let node = names.near;
    for number in (0..stays).rev() {
        let transit = number.saturating_mul(2).saturating_add(1);
        tell(&mut checker, &[Event::Leave { node, transit, at }])?;
    }
    Some(checker.verdict())
}
