//! What `ptpx audit` runs.
#![tactic(auto)]

mod ending;
mod front;
mod input;
mod lines;
mod run;
mod tally;
mod task;

pub use ending::Ending;
pub use run::run_audit;
