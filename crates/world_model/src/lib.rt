//! A world: a network of real ports and clocks, and the events that it accepted in turn.
#![tactic(auto)]

mod clock;
mod entry;
mod events;
mod master;
mod obstacle;
mod places;
mod slave;
mod station;
mod stepping;
mod turns;
mod world;

pub use network_model::{
    Event, Name, NodeKind, NodeSpec, Nodes, Outcome, RunStop, Stepped, WorldRefusal, laws,
};
pub use obstacle::{Obstacle, obstacle_to};
pub use slave_port::{Heard, Reason, Report};
pub use turns::run;
pub use world::World;
