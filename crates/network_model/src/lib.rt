//! Networks of named nodes: which events of the Precision Time Protocol can follow each other in one,
//! and how its ports and clocks answer each.
#![tactic(auto)]

mod copy_octets;
mod event;
mod keyed;
pub mod laws;
mod name;
mod node;
mod nodes;
mod refusal;
mod stepped;

pub use copy_octets::CopyOctets;
pub use event::Event;
pub use name::Name;
pub use node::{NodeKind, NodeSpec};
pub use nodes::Nodes;
pub use refusal::{RunStop, WorldRefusal};
pub use slave_port::{Heard, Reason, Report};
pub use stepped::{Outcome, Stepped};
