//! What the sentences of a story are made of: events in words, moments and lengths of time, and lines below a line.
#![tactic(auto)]

mod event;
mod lines;
mod moments;

pub use event::AnEvent;
pub use lines::push_lines;
pub use moments::{Length, Moment, signed};
