//! What is found wrong with a report that is refused, in sentences: of each reason the first thing that breaks its condition.
#![tactic(auto)]

mod broken;
mod exchange;
mod found;
mod heard;
mod known;
mod mispaired;
mod misplaced;
mod misread;
mod other_master;
mod reported;
mod telling;

pub use known::{Known, Named, Place, index_of};
pub use reported::{Case, Reported};
pub use telling::push_otherwise;
