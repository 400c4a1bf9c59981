//! The lines of schedules and transcripts: JSON objects, as `serde_json` has them, that are nodes
//! and events.
#![tactic(auto)]

mod event_kind;
pub mod laws;
mod needed;
mod reading;
mod refusal;
mod wanted;

pub use event_kind::EventKind;
pub use needed::{node_keys, outcome_keys};
pub use reading::{Line, TranscriptLine, line_value};
pub use refusal::Refusal;
pub use wanted::{Part, Wanted};
