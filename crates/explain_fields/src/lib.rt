//! How messages differ from those that ports and clocks write, and how many do.
#![tactic(auto)]

mod compared;
mod difference;
mod differing;
mod wrong_field;

pub use compared::Compared;
pub use differing::{Differing, messages_noun};
