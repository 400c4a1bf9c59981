//! Bounded tables of numbered values, in which messages wait for the one that they pair with.
//!
//! What a table holds is a list of values under their sequence numbers, the oldest in front, and how
//! many of these are marked, from the front on (`specs/Marked.antt`), however it is kept.
#![tactic(auto)]

mod list_table;
mod pair_table;
mod ring_table;

pub use list_table::ListTable;
pub use pair_table::PairTable;
pub use ring_table::RingTable;
