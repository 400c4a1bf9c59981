ghost use Rattle.world_model.specs.Inner.Stands.{IsWorld, run_of};
ghost use Rattle.world_model.specs.Inner.Kept.{lists, entries_of, AllStored, HasRoom};
ghost use Rattle.world_model.specs.Inner.Steps.{Steps};

use crate::events::Events;
use crate::places::{Recent, place_of, site};
use crate::station::Station;
use network_model::{Event, Nodes, Stepped, WorldRefusal};

/// One event. The room for it is taken first.
pub(crate) fn step(
    nodes: &Nodes,
    recent: &mut Recent,
    stations: &mut Vec<Station>,
    events: &mut Events,
    event: &Event,
) -> Result<Stepped, WorldRefusal>
    requires world { IsWorld nodes.now stations.old.items (entries_of events.old) }
    requires stored { AllStored (lists events.old.stores) events.old.kept.items }
    ensures world { IsWorld nodes.now stations.new.items (entries_of events.new) }
    ensures stored { AllStored (lists events.new.stores) events.new.kept.items }
    ensures steps { Steps nodes.now (run_of (entries_of events.old)) event.now (HasRoom events.new) result
        (run_of (entries_of events.new)) }
{
    events.reserve();
    let Some(index) = place_of(nodes, recent, site(event)) else {
        return Err(WorldRefusal::NoNode);
    };
    match stations[index].act(nodes, events, event) {
        Ok(happened) => {
            let tag = events.len();
            events.keep(event, &happened.left);
            Ok(Stepped {
                tag,
                reading: happened.reading,
                outcome: happened.outcome,
            })
        }
        Err(why) => Err(why),
    }
}
