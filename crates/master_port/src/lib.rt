//! The master port: it draws Syncs, two-step ones, each followed up with its departure time, and one-step ones, which
//! carry it; and it answers Delay_Reqs (IEEE 1588-2019, 9.5 and 11.3).
#![tactic(auto)]

mod port;
mod refusal;
mod written;

pub use port::MasterPort;
pub use refusal::MasterRefusal;
pub use written::{delay_resp, follow_up, one_step_sync, sync};
