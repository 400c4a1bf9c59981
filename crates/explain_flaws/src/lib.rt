//! What is wrong with a line of a schedule or of a transcript, where, and what is wanted there; and
//! which input of another kind one begins as.
#![tactic(auto)]

mod class;
mod excerpt;
mod flaw;
mod foreign;
mod json_fault;
mod line;
mod pieces;
mod search;
mod words;

pub use flaw::{FileForm, Flaw, FlawAt};
pub use foreign::Foreign;
pub use line::{schedule_flaw, transcript_flaw};
