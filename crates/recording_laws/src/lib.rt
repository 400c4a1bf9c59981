//! What is true of all that is measured: each report is exact, and each datagram is counted once. It stands apart from what
//! runs, since nothing that runs needs it.
#![tactic(auto)]

pub mod laws;
