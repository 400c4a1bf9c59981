//! An end-to-end one-step transparent clock: it adds the time that an event message resides in it to
//! the message's correctionField (IEEE 1588-2019, 10.2). General messages pass it unchanged, without a call.
#![tactic(auto)]

mod refusal;
mod transit;

pub use refusal::ClockRefusal;
pub use transit::{Transit, enter};
