//! What happened to messages between two taps: crossings from a capture at several interfaces, or from lines. Messages are followed from
//! the first that tell between which taps, and whose they are.
#![tactic(auto)]

mod beware;
mod changes;
mod ending;
mod fault;
mod figures;
mod followed;
mod follower;
mod following;
mod input;
pub mod laws;
mod lost;
mod names;
mod nanoseconds;
mod summary;
mod tap;
mod task;
mod told;
mod whom;

pub use ending::{Ending, InputUnit, KindEnding};
pub use fault::FollowFault;
pub use followed::Followed;
pub use follower::{Arrival, Follower};
pub use following::Form;
pub use input::follow;
pub use lost::Lost;
pub use summary::Summary;
