//! Schedules and transcripts, read line by line: nodes, and then events. `replay`, `check` and `explain` read them so.
#![tactic(auto)]

mod entry;
mod fault;
mod reader;
mod stage;
mod text;
mod transcript;

pub use entry::{read_entry, read_recorded};
pub use fault::TaskFault;
pub use reader::LineReader;
pub use stage::Stage;
pub use text::push_verdict;
pub use transcript::{Judged, Transcript};
