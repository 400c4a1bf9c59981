//! Transcripts as text: a schedule is replayed as one, and one is checked.
#![tactic(auto)]

mod checking;
mod fault;
pub mod laws;
mod replaying;

pub use checking::check_text;
pub use fault::{Fault, FaultKind};
pub use replaying::replay;
