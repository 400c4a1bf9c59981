//! How far nodes and then events were read.
ghost use Rattle.std.specs.Prelude.{◌≡◌, ◌⊎◌, MatchResult, Some, None, []};
ghost use Rattle.schedule_reading.specs.Stage.{nodes_in, HasOneMore, IsStill};

use crate::fault::TaskFault;
use network_model::NodeSpec;
use std::alloc::Global;

/// The nodes so far, or what was made of them at the first event.
#[derive(Drop)]
pub enum Stage<T> {
    /// These are the nodes so far.
    Nodes(Vec<NodeSpec>),
    /// Events came to this.
    Events(T),
}

impl<T> Stage<T> {
    /// Before the first node.
    pub fn new(alloc: Global) -> Stage<T>
        ensures { nodes_in result ≡ Some [] }
    {
        Stage::Nodes(Vec::new(alloc))
    }

    /// Takes one more node, which stands before all events. `Field` where an event came before it, and `Memory`; the
    /// stage is then as it was.
    pub fn push(&mut self, node: NodeSpec) -> Result<(), TaskFault>
        ensures { MatchResult result
            (λ _. HasOneMore node self.old self.new)
            (λ fault. IsStill self.old self.new
            × ((fault ≡ TaskFault.Memory) ⊎ ((fault ≡ TaskFault.Field) × (nodes_in self.old ≡ None)))) }
    {
        match self {
            Stage::Nodes(nodes) => Ok(nodes.push(node)?),
            Stage::Events(_) => Err(TaskFault::Field),
        }
    }
}
