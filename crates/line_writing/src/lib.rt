//! Lines as octets: nodes and events as they are written, one piece behind the other, in one buffer
//! that may be used again. No JSON value is built.
#![tactic(auto)]

mod fields;
pub mod laws;
mod lines;
mod values;
mod words;

pub use lines::{push_event, push_node, push_scheduled};
