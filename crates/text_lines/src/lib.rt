//! Lines of text, from any reader: one loop that takes them in turn, whatever is done with each, within
//! limits, by devices that count their failures and what they gave.
#![tactic(auto)]

mod counted;
mod fault;
mod line_fault;
mod lines;
mod numbered;
mod octet_reader;
mod task;
mod writing;

pub use counted::Counted;
pub use fault::{Cause, ReadingFault, Stopped};
pub use line_fault::LineFault;
pub use lines::{LINE_LIMIT, LINES_LIMIT};
pub use numbered::Numbered;
pub use octet_reader::OctetReader;
pub use task::{LineTask, answer_lines, answer_lines_behind};
pub use writing::{WriteFailed, write_octets, write_text};
