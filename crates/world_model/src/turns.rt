ghost use Rattle.std.specs.Prelude.{◌≡◌, IfOk, IfErr, OnOk};
ghost use Rattle.network_model.specs.Network.{IsNetwork};
ghost use Rattle.network_model.specs.Outcome.{IsRun};
ghost use Rattle.network_model.specs.Premises.{IsWithinOneTurn, exact_limits};
ghost use Rattle.world_model.specs.State.{after_all};
ghost use Rattle.world_model.specs.Exact.{IsTimely, AreExactAnswers, RunsKeepLaws};
ghost use Rattle.world_model.specs.Turns.{AnswersInTurn, IsStopped};

use crate::world::World;
use network_model::{Event, RunStop, Stepped, WorldRefusal};
use std::alloc::Global;

/// Events one after the other, each answered as by [`World::step`]. Where one is refused the world
/// stands after those before it. Room for all answers is taken first.
pub fn run(alloc: Global, world: &mut World, events: &[Event]) -> Result<Vec<Stepped>, RunStop>
    ensures answers { IfOk result (λ answers. AnswersInTurn world.old events.now answers.items) }
    ensures after { OnOk result (world.new ≡ after_all events.now world.old) }
    ensures stopped { IfErr result (λ stop. IsStopped world.old events.now stop world.new) }
    ensures network { IsNetwork world.new.network }
    ensures run { IsRun world.new.network world.new.run }
    // Each report is exact, as that of `step` is.
    ensures exact { IfOk result
        (λ answers. AreExactAnswers (IsTimely exact_limits) world.old events.now answers.items) }
    ensures exact_within_one_turn { IfOk result
        (λ answers. AreExactAnswers (λ network slave run. IsWithinOneTurn run) world.old events.now answers.items) }
    ensures laws { RunsKeepLaws }
{
    world.is_sound();
    // As an option, since the borrow check then moves an answer whole.
    let Some(mut answers) = Vec::with_capacity(alloc, events.len()).ok() else {
        let why = WorldRefusal::Memory;
        return Err(RunStop { done: 0, why });
    };
    for (done, event) in events.iter().enumerate() {
        match world.step(event) {
            Ok(stepped) => answers.push_reserved(stepped),
            Err(why) => {
                let done = done as u64;
                return Err(RunStop { done, why });
            }
        }
    }
    Ok(answers)
}
