//! What messages that are met at two taps of a network tell of it, and what is told of them, in the words of who met them. It
//! stands apart from what runs, since nothing that runs needs it.
#![tactic(auto)]

pub mod laws;
