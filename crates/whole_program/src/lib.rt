//! What `ptpx` does: datagrams are shown, schedules replayed, transcripts checked, and `command` is the
//! whole program over its arguments.
#![tactic(auto)]

pub mod laws;
mod program;
mod showing;

pub use program::command;
pub use showing::show;
pub use text_lines::{Counted, OctetReader};
pub use transcript_text::{Fault, FaultKind, check_text, replay};
