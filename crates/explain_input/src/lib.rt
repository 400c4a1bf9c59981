//! What the lines of an input are, a transcript or a schedule, and what one more line does.
#![tactic(auto)]

mod input;
mod schedule;

pub use input::{FoundInput, Input, Taken};
pub use schedule::Scheduled;
