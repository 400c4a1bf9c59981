//! Worlds from which memory is withheld: each growth in turn, by the script that runs these tests.

use crate::worked_exchange::{LENGTH, ample, begun, event, exchange};
use std::test::Fail;
use world_model::{WorldRefusal, run};

/// Of each event the answer is that of ample memory, or that memory was refused; the same event then
/// answers as if nothing had been refused.
#[test]
fn steps_whatever_memory_there_is(rt: HostRuntime) -> Result<(), Fail> {
    let Some(mut world) = begun(rt.alloc())? else {
        return Ok(());
    };
    for tag in 0..LENGTH {
        let event = event(tag)?;
        let stepped = match world.step(&event) {
            Ok(stepped) => stepped,
            Err(why) => {
                assert_eq!(rt; why, WorldRefusal::Memory);
                assert_eq!(rt; world.len(), tag as u64);
                world.step(&event)?
            }
        };
        assert_eq!(rt; stepped.tag, tag as u64);
        assert_eq!(rt; Some(stepped.outcome), ample(tag));
    }
    Ok(())
}

/// The same of events that are handed over together: those that happened before memory was refused
/// stay, and the others can follow.
#[test]
fn runs_whatever_memory_there_is(rt: HostRuntime) -> Result<(), Fail> {
    let events = exchange()?;
    let Some(mut world) = begun(rt.alloc())? else {
        return Ok(());
    };
    let (answers, done) = match run(rt.alloc(), &mut world, &events) {
        Ok(answers) => (answers, 0),
        Err(stop) => {
            assert_eq!(rt; stop.why, WorldRefusal::Memory);
            assert_eq!(rt; world.len(), stop.done);
            let left = events.get(stop.done as usize..).ok_or("more than all")?;
            (run(rt.alloc(), &mut world, left)?, stop.done as usize)
        }
    };
    assert_eq!(rt; done.checked_add(answers.len()), Some(events.len()));
    for (stepped, tag) in answers.iter().zip(done..LENGTH) {
        assert_eq!(rt; Some(stepped.outcome), ample(tag));
    }
    Ok(())
}
