//! What follows of captures from the definitions alone: octets have one reading and one answer, and whatever is written is
//! read. It stands apart from what runs, since nothing that runs needs it.
#![tactic(auto)]

pub mod laws;
