//! Which stays of messages in clocks were left, and which copies have a stay on their journey that was left again. A tree of copies
//! whose stays are left over and over costs in all no more than its lines: each copy is marked once at most.
#![tactic(auto)]

mod stays;

pub use stays::Stays;
