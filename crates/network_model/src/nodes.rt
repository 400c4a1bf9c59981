ghost use Rattle.std.specs.Prelude.{◌≡◌, ◌⊎◌, ◌++◌, ◌∷◌, [], None, Some, length, slice_get, is_some, IsTrue, IfSome};
ghost use Rattle.std.specs.Prelude.{◌↔◌, MatchResult, OnOk};
ghost use Rattle.std.specs.Option.{option_copied, option_to_list};
ghost use Rattle.network_model.specs.Network.{Network, IsNetwork, AllDiffer, node_of, identities, identity_of};
ghost use Rattle.network_model.specs.Clash.{clash, first_clash, identity_clash};
ghost use Rattle.network_model.specs.Inner.Keyed.{keyed_by};
ghost use Rattle.indexmap.specs.IndexMap.{hasher_of};
ghost use Rattle.indexmap.specs.IndexSet.{hasher_of as set_hasher_of};
ghost use Rattle.network_model.specs.declared.refusal.WorldRefusal.TheVariants.{Memory};

use crate::keyed::KeyedState;
use crate::name::Name;
use crate::node::{NodeKind, NodeSpec};
use crate::refusal::WorldRefusal;
use event_codec::PortIdentity;
use indexmap::{IndexMap, IndexSet};
use std::alloc::Global;
use std::marker::Model;

/// The nodes of a network, in the order in which they were given. No two have one name, and no two
/// ports one identity.
#[derive(Drop)]
pub struct Nodes {
    by_name: IndexMap<Name, NodeSpec, KeyedState>,
}

impl Model for Nodes {
    ghost use Rattle.indexmap.specs.IndexMap.{values};
    ghost use Rattle.network_model.specs.Network.{Network};
    ghost use Rattle.network_model.specs.Inner.Index.{IsIndex};

    ghost Value = { Network };

    ghost view = { λ n. values n.by_name };

    ghost invariant = { λ n. IsIndex n.by_name.entries };
}

impl Nodes {
    /// A network of these nodes. Refused member by member: with 601 where a member has the name of
    /// an earlier one, with 602 where its port has the identity of an earlier port, of whichever
    /// kind and domain, and with 609 where memory for it was refused.
    pub fn new(alloc: Global, nodes: &[NodeSpec]) -> Result<Nodes, WorldRefusal>
        ensures decided { MatchResult result
            (λ network. (network ≡ nodes.now) × (first_clash nodes.now ≡ None))
            (λ why. (why ≡ Memory) ⊎ (first_clash nodes.now ≡ Some why)) }
        ensures network { OnOk result (IsNetwork nodes.now) }
    {
        let (by_name, mut taken) = tables(alloc, nodes);
        let mut network = Nodes { by_name };
        for node in nodes {
            network.admit(&mut taken, *node)?;
        }
        Ok(network)
    }

    // Adds a node after the others, whose ports have taken these identities.
    fn admit(
        &mut self,
        taken: &mut IndexSet<PortIdentity, KeyedState>,
        node: NodeSpec,
    ) -> Result<(), WorldRefusal>
        requires { taken.old.keys ≡ identities self.old }
        ensures decided { MatchResult result
            (λ _. (self.new ≡ self.old ++ node ∷ []) × (clash self.old node ≡ None))
            (λ why. (why ≡ Memory) ⊎ (clash self.old node ≡ Some why)) }
        ensures identities { OnOk result (taken.new.keys ≡ identities self.new) }
        ensures network { OnOk result (IsNetwork self.new) }
    {
        if self.get(&node.name).is_some() {
            return Err(WorldRefusal::SameName);
        }
        claim(taken, &node.kind)?;
        self.by_name.insert(node.name, node)?;
        Ok(())
    }

    /// The node of this name.
    pub fn get(&self, name: &Name) -> Option<&NodeSpec>
        ensures { option_copied result ≡ node_of self.now name.now }
    {
        self.by_name.get(name)
    }

    /// The place of the node of this name, from 0, in the order in which the nodes were given.
    pub fn index_of(&self, name: &Name) -> Option<usize>
        ensures found { is_some result ≡ is_some (node_of self.now name.now) }
        ensures node { IfSome result (λ index. slice_get self.now index ≡ node_of self.now name.now) }
        ensures network { IsNetwork self.now }
    {
        self.by_name.get_index_of(name)
    }

    /// The node at this place, from 0.
    pub fn get_index(&self, index: usize) -> Option<&NodeSpec>
        ensures { option_copied result ≡ slice_get self.now index }
    {
        let (_, node) = self.by_name.get_index(index)?;
        Some(node)
    }

    /// The number of nodes.
    pub fn len(&self) -> usize
        ensures value { result ≡ length self.now }
        ensures network { IsNetwork self.now }
    {
        self.by_name.len()
    }

    /// Whether there are no nodes.
    pub fn is_empty(&self) -> bool
        ensures { IsTrue result ↔ (self.now ≡ []) }
    {
        self.by_name.is_empty()
    }
}

// Empty tables of nodes and of identities, which hash with a key for these nodes.
fn tables(
    alloc: Global,
    nodes: &[NodeSpec],
) -> (
    IndexMap<Name, NodeSpec, KeyedState>,
    IndexSet<PortIdentity, KeyedState>,
)
    ensures nodes { result.0.entries ≡ [] }
    ensures names { (hasher_of result.0).keyed ≡ keyed_by nodes.now }
    ensures taken { result.1.keys ≡ [] }
    ensures identities { (set_hasher_of result.1).keyed ≡ keyed_by nodes.now }
{
    let state = KeyedState::new(nodes);
    (
        IndexMap::with_hasher(alloc, state),
        IndexSet::with_hasher(alloc, state),
    )
}

// Takes the identity of a node's port, where it has one and the identity is free.
fn claim(
    taken: &mut IndexSet<PortIdentity, KeyedState>,
    kind: &NodeKind,
) -> Result<(), WorldRefusal>
    ensures decided { MatchResult result
        (λ _. (taken.new.keys ≡ taken.old.keys ++ option_to_list (identity_of kind.now))
        × (identity_clash taken.old.keys (identity_of kind.now) ≡ None))
        (λ why. (why ≡ Memory) ⊎ (identity_clash taken.old.keys (identity_of kind.now) ≡ Some why)) }
    ensures apart { OnOk result (AllDiffer taken.old.keys → AllDiffer taken.new.keys) }
{
    if let Some(identity) = kind.identity() {
        if !taken.insert(identity)? {
            return Err(WorldRefusal::SameIdentity);
        }
    }
    Ok(())
}
