//! Which two taps messages are followed between, and whose messages: what the arguments leave open, the first messages tell.
#![tactic(auto)]

mod choice;
mod met;
mod sides;
mod tap_name;
mod wanted;

pub use choice::{Choice, Pair};
pub use met::{Met, Side};
pub use sides::Sides;
pub use tap_name::TapName;
pub use wanted::WantedTaps;
