//! Judges a result that a slave reported by the slave's own readings: by how much it is off, exactly, which delay its path delay is, and
//! a verdict. Numbers are nanoseconds with all their decimals.
#![tactic(auto)]

mod delays;
mod difference;
mod exact;
mod judged;
mod judging;
mod known;
pub mod laws;
mod path_is;
mod spelled;
mod verdict;

pub use difference::Difference;
pub use exact::Exact;
pub use judged::Judged;
pub use judging::judge;
pub use known::{Known, NEWEST};
pub use path_is::PathIs;
pub use verdict::Verdict;
