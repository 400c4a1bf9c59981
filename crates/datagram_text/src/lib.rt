//! Datagrams as text: the fields of the message that one begins with, or the rule that it breaks.
#![tactic(auto)]

pub mod laws;
mod showing;
mod shown;

pub use showing::show_lines;
pub use shown::{Identity, push_datagram};
