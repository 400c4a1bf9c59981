//! Masters that begin their numbers anew: what is known of the Syncs and Follow_Ups of one, and what the number of
//! the next one says.
//!
//! What a watch answers is a function of the list of what it was told since the master began (`specs/Judged.antt`).
#![tactic(auto)]

mod arrival;
mod judgement;
mod known;
mod newest;
mod response_watch;
mod sync_watch;

pub use arrival::Arrival;
pub use judgement::Judgement;
pub use response_watch::ResponseWatch;
pub use sync_watch::SyncWatch;
