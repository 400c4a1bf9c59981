//! Time, correction and sequence numbers of the Precision Time Protocol, as exact whole numbers.
//!
//! The unit of time is 2^-16 ns throughout (IEEE 1588-2019, 13.3.2.9), so nothing is ever rounded.
#![tactic(auto)]

mod exchange;
mod interval;
pub mod laws;
mod nanoseconds;
mod refusal;
mod scaled_time;
mod sequence;
mod timestamp;

pub use exchange::{delay_bracket, offset2, path2, sync_bracket};
pub use interval::{Interval, TOO_BIG};
pub use nanoseconds::Nanoseconds;
pub use refusal::UnitRefusal;
pub use scaled_time::{BOUND, ScaledTime};
pub use sequence::Seq;
pub use timestamp::Timestamp;
