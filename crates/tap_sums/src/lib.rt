//! What happened to messages between two taps, as text and in sums: crossings as lines of JSON and as rows of a table; their sums, exact,
//! and as lines of JSON; and what people are told beside these: medians of the last ones of each kind, what a line through the rests of
//! Syncs is drawn by, which fields changed between the taps, and of which records nothing is told; and what speaks
//! against all that.
//!
//! What sums tell is a function of the list of the crossings (`specs/Sums.antt`).
#![tactic(auto)]

mod beware;
mod changed;
mod course;
mod crossed;
mod figures;
mod kind_sums;
pub mod laws;
mod means;
mod rounding;
mod spread;
mod steps;
mod sums;
mod text;
mod total;
mod untold;

pub use beware::{BEWARES, Below, Beware, Way, Ways};
pub use changed::Changed;
pub use course::Course;
pub use crossed::{Crossed, push_json, push_row, table_head};
pub use figures::Figures;
pub use spread::{BothWays, Quantity, Spread, Statistics};
pub use sums::Sums;
pub use text::push_sums;
pub use untold::Untold;
