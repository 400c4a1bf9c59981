//! What is told of each report of a transcript, with its exchange as a table, and of all of them, with what a slave of this repository
//! would have answered.
#![tactic(auto)]

mod answers;
mod completing;
mod others;
mod outcome;
mod past;
mod played;
mod refused;
mod report;
mod story;
mod table;
mod tally;
mod told_reasons;
mod wrong_value;

pub use story::Story;
pub use told_reasons::ToldReasons;
