//! What is told of what was measured, in words: whom the input is of, how many datagrams gave no report and why, who else is there, what
//! the master announces, what came and what is missing, what the numbers come to, and what speaks against them. Each text is that of
//! values, by a definition.
#![tactic(auto)]

mod announces;
mod beware_messages;
mod beware_names;
mod beware_parts;
mod beware_reports;
mod bewares;
mod clock;
mod ending;
mod figures;
mod flows;
mod others;
mod statistics_lines;
mod sum_arrays;
mod sum_objects;
mod sum_values;
mod sums;
mod times;
mod unit;
mod unreported;
mod whom;

pub use announces::AnnounceLines;
pub use bewares::BewareLines;
pub use ending::Ending;
pub use figures::Figures;
pub use flows::{FlowLines, Intervals, RequestsLine, SyncsLine};
pub use others::{Caller, CallersLine};
pub use statistics_lines::{SeriesEnding, StatisticsLines};
pub use sum_objects::Measured;
pub use sums::Sums;
pub use unit::InputUnit;
pub use unreported::{ReportsLine, UnreportedLines};
pub use whom::WhomLines;
