//! What is told of many values: exact sums of what was measured, with the least and the greatest, what a line through it is drawn by,
//! where it steps, medians and percentiles of the last ones, counts, and what numbers and times of messages tell. Of means, deviations,
//! slopes and steps, rounded, nothing is promised.
#![tactic(auto)]

mod cases;
mod counting;
mod flow;
pub mod laws;
mod milliseconds;
mod recent;
mod rounded;
mod series;
mod spike;
mod step;
mod trend;
mod wide;

pub use cases::Cases;
pub use counting::count_if;
pub use flow::{Flow, Sent};
pub use milliseconds::Milliseconds;
pub use recent::{Middle, RECENT_MOST, Ranks, Recent};
pub use rounded::{Growth, Shift, Signed, Thousandths, deviation, mean, median, shift_of, slope};
pub use series::{Point, Series, Spread};
pub use spike::{Spike, Spikes};
pub use step::{Change, Step};
pub use trend::Trend;
pub use wide::Wide;
