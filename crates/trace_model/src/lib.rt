//! The lines of a transcript: what was recorded of each event of an exchange, by whomever. Its
//! definitions say which report lines are sound, and which lines tell what happened in a run.
#![tactic(auto)]

mod field;
mod finding;
mod judgement;
pub mod laws;
mod line;
mod verdict;

pub use field::{Field, Fields, differing, tells_same};
pub use finding::{Finding, Lack, Part};
pub use judgement::{Judgement, Reasons, Results};
pub use line::{TraceLine, TraceOut};
pub use verdict::{Verdict, Why};
