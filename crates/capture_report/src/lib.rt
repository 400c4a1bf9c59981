//! How the end of a capture, or of an input that may be one, is told to a person, and which exit status comes of it.
#![tactic(auto)]

mod capture;
mod input;

pub use capture::{finish_capture, report_capture};
pub use input::{finish_input, judged};
