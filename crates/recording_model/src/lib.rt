//! What a recording at a slave says: the datagrams that its port sent and received, each with its time. Its
//! definitions say what a port that hears them reports, and that this is exact for the events of a run
//! that they tell.
#![tactic(auto)]

pub mod laws;
mod watched;

pub use watched::Watched;
