//! What follows for `explain` from the definitions alone, and that what `measure` writes as JSON is read as JSON. It stands apart
//! from what runs, since nothing that runs needs it.
#![tactic(auto)]

pub mod laws;
