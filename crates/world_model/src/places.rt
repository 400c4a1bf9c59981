//! Where the nodes of a network stand, found by their names.
ghost use Rattle.std.specs.Prelude.{◌≡◌, ◌<◌, is_some, true, slice_get, IfSome, IsTrue};
ghost use Rattle.network_model.specs.Network.{IsNetwork, node_of};
ghost use Rattle.network_model.specs.Run.{site_of};

use network_model::{Event, Name, Nodes};

/// The places of nodes that were named lately, each where its name has it.
#[derive(Clone, Copy)]
pub(crate) struct Recent {
    places: [usize; 64],
}

impl Recent {
    /// No node was named yet.
    pub(crate) fn new() -> Recent {
        Recent { places: [0; 64] }
    }
}

/// The name of the node at which an event happens.
pub(crate) fn site(event: &Event) -> &Name
    ensures { result.now ≡ site_of event.now }
{
    match event {
        Event::Sync { node, .. }
        | Event::SyncOne { node, .. }
        | Event::Follow { node }
        | Event::Enter { node, .. }
        | Event::Leave { node, .. }
        | Event::Arrive { node, .. }
        | Event::Hear { node, .. }
        | Event::Request { node, .. }
        | Event::Stamped { node }
        | Event::Tick { node }
        | Event::SetMaster { node, .. }
        | Event::StepClock { node, .. } => node,
    }
}

/// Where the place of a node of this name is remembered, by its last two octets.
fn spot(name: &Name) -> usize
    ensures { result < 64 }
{
    match name.text().as_bytes() {
        [.., before, last] => (usize::from(*before) * 10 + usize::from(*last)) % 64,
        [last] => usize::from(*last) % 64,
        [] => 0,
    }
}

/// Whether the node at this place has this name.
#[tactic(auto, using(crate::proofs::NodePlaces::node_at))]
fn is_at(nodes: &Nodes, place: usize, name: &Name) -> bool
    requires { IsNetwork nodes.now }
    ensures node { IsTrue result → slice_get nodes.now place ≡ node_of nodes.now name.now }
    ensures found { IsTrue result → is_some (node_of nodes.now name.now) ≡ true }
{
    match nodes.get_index(place) {
        Some(node) => node.name.text() == name.text(),
        None => false,
    }
}

/// The place of the node of this name. One that was named lately is found without its hash.
pub(crate) fn place_of(nodes: &Nodes, recent: &mut Recent, name: &Name) -> Option<usize>
    requires { IsNetwork nodes.now }
    ensures found { is_some result ≡ is_some (node_of nodes.now name.now) }
    ensures node { IfSome result (λ index. slice_get nodes.now index ≡ node_of nodes.now name.now) }
{
    let spot = spot(name);
    let place = recent.places[spot];
    if is_at(nodes, place, name) {
        return Some(place);
    }
    let place = nodes.index_of(name)?;
    recent.places[spot] = place;
    Some(place)
}
