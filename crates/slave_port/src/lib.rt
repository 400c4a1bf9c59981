//! The slave of the delay request-response mechanism (IEEE 1588-2019, 11.3): what it hears, it holds
//! until it pairs, and it reports twice the offset from the master and twice the mean path delay.
//!
//! What a port answers is a function of its history, the list of its calls (`specs/Answer.antt`).
#![tactic(auto)]

mod completion;
mod exchange;
mod heard;
mod held;
mod reason;
mod slave_port;
mod usable;
mod used;
mod written;

pub use exchange::LastExchange;
pub use heard::{Heard, Report};
pub use held::{HeldFollow, HeldRequest, HeldSync};
pub use reason::{Reason, SlaveRefusal};
pub use slave_port::SlavePort;
pub use written::delay_req;
