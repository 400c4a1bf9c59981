//! What is wrong with a transcript or a schedule, where, and by how much, and why an event can't happen: for a person as text, and as
//! JSON for programs, a line a report.
#![tactic(auto)]

mod details;
mod explaining;
mod flaws;
mod found;
mod json;
mod judgements;
mod refusal;
mod words;

pub use details::{Details, Moments, Octets};
pub use explain_input::FoundInput;
pub use explaining::{Explained, explain};
pub use judgements::write_judgements;
