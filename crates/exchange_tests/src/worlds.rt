//! That a world goes on after an event that it refuses, where `replay` ends.

use crate::worked_exchange::{LENGTH, ample, begun, event, moment, name, played, specs, world};
use std::test::Fail;
use world_model::{Event, RunStop, WorldRefusal, run};

/// Events that a world refuses in which nothing happened, and why.
fn refused() -> Result<[(Event, WorldRefusal); 6], Fail> {
    let (node, at) = (name("S")?, moment(0, 0, 0)?);
    let leave = Event::Leave {
        node: name("T")?,
        transit: 0,
        at,
    };
    let diff = 18_446_744_073_709_551_616_000_000_000;
    Ok([
        (Event::Tick { node: name("X")? }, WorldRefusal::NoNode),
        (Event::Sync { node, at }, WorldRefusal::WrongKind),
        (Event::Arrive { node, copy: 0, at }, WorldRefusal::NoCopy),
        (leave, WorldRefusal::NoTransit),
        (
            Event::StepClock { node, diff },
            WorldRefusal::ReadingOutOfRange,
        ),
        (Event::Stamped { node }, WorldRefusal::NothingWaiting),
    ])
}

/// With ample memory the exchange happens, so the tests that withhold memory have something to try.
#[test]
fn the_exchange_happens(rt: HostRuntime) -> Result<(), Fail> {
    assert!(rt; begun(rt.alloc())?.is_some());
    assert!(rt; played(rt.alloc())?.is_some());
    Ok(())
}

#[test]
fn refused_events_take_no_tag(rt: HostRuntime) -> Result<(), Fail> {
    let mut world = world(rt.alloc(), &specs()?)?;
    for (event, why) in refused()? {
        assert_eq!(rt; world.step(&event).err(), Some(why));
        assert_eq!(rt; world.len(), 0, "{why}");
    }
    Ok(())
}

/// Behind each event of the exchange but the last stand some that are refused, and what follows happens as
/// if they weren't there.
#[test]
fn a_run_stops_at_a_refused_event(rt: HostRuntime) -> Result<(), Fail> {
    let mut world = world(rt.alloc(), &specs()?)?;
    assert_eq!(rt; run(rt.alloc(), &mut world, &[])?.len(), 0);
    let nowhere = Event::Tick { node: name("X")? };
    let expected = RunStop {
        done: 1,
        why: WorldRefusal::NoNode,
    };
    let others = refused()?;
    let last = LENGTH - 1;
    for tag in 0..last {
        let answer = run(rt.alloc(), &mut world, &[event(tag)?, nowhere]);
        assert_eq!(rt; answer.err(), Some(expected));
        // the last one isn't refused where a Delay_Req waits
        for index in 1..5 {
            let (other, why) = others[index];
            assert_eq!(rt; world.step(&other).err(), Some(why));
        }
        assert_eq!(rt; world.len(), (tag as u64).wrapping_add(1));
    }
    assert_eq!(rt; Some(world.step(&event(last)?)?.outcome), ample(last));
    Ok(())
}
