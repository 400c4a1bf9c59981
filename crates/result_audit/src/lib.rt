//! Judges results that a slave reported by what is measured of its readings, each by its own Sync. What is missing accuses nobody.
#![tactic(auto)]

mod answer;
mod auditor;
mod course;
mod coverage;
mod held;
pub mod laws;
mod lines;
mod report_at;
mod told;
mod totals;
mod why;

pub use answer::{Answer, Found};
pub use auditor::Auditor;
pub use lines::{push_json, push_row, table_head};
pub use report_at::ReportAt;
pub use told::{Of, Told, read_told};
pub use totals::{Counts, Totals, Worst};
pub use why::Why;
