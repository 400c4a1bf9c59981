//! Lines of a recording at a slave: a datagram with the time at which its port sent or received it, and
//! what was measured, as JSON or as a row of a table.
#![tactic(auto)]

pub mod laws;
mod measurement;
mod timed;

pub use measurement::{By, Half, Measurement, push_json, push_row, table_head};
pub use timed::{Timed, read_timed};
