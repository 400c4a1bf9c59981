//! The nodes of a network, with one of them at hand, so that the name of a line's node is looked up once.

ghost use Rattle.std.specs.Prelude.{◌≡◌, length, is_some, slice_get, IfSome};
ghost use Rattle.std.specs.Option.{option_copied};
ghost use Rattle.network_model.specs.Network.{IsNetwork, node_of};

use network_model::{Name, NodeSpec, Nodes};
use std::marker::Model;

/// Nodes, and where one of them stands.
#[derive(Drop)]
pub(crate) struct Lookup<'a> {
    nodes: &'a Nodes,
    name: Name,
    place: Option<usize>,
}

impl<'a> Model for Lookup<'a> {
    ghost use Rattle.network_model.specs.Network.{Network};
    ghost use Rattle.exchange_check.specs.Inner.Lookup.{IsPlace};

    ghost Value = { Network };

    ghost view = { λ l. l.nodes.now };

    ghost invariant = { λ l. IsPlace l.nodes.now l.name l.place };
}

impl<'a> Lookup<'a> {
    /// These nodes, with that of this name at hand.
    pub(crate) fn new(nodes: &'a Nodes, name: Name) -> Lookup<'a>
        ensures { result ≡ nodes.now }
    {
        Lookup {
            nodes,
            name,
            place: nodes.index_of(&name),
        }
    }

    /// As [`Nodes::index_of`].
    pub(crate) fn index_of(&self, name: &Name) -> Option<usize>
        ensures found { is_some result ≡ is_some (node_of self.now name.now) }
        ensures node { IfSome result (λ index. slice_get self.now index ≡ node_of self.now name.now) }
        ensures network { IsNetwork self.now }
    {
        if *name == self.name {
            self.place
        } else {
            self.nodes.index_of(name)
        }
    }

    /// As [`Nodes::get`].
    pub(crate) fn get(&self, name: &Name) -> Option<&NodeSpec>
        ensures { option_copied result ≡ node_of self.now name.now }
    {
        self.nodes.get_index(self.index_of(name)?)
    }

    /// As [`Nodes::len`].
    pub(crate) fn len(&self) -> usize
        ensures { result ≡ length self.now }
    {
        self.nodes.len()
    }
}
