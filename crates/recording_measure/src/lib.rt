//! Offsets and delays from a recording at a slave: a slave port hears its datagrams, and each report goes out as a line, in full with
//! what it was made of.
#![tactic(auto)]

mod aside;
mod completion;
mod exchange;
mod form;
mod input;
pub mod laws;
mod listener;
mod measuring;
mod meetings;
mod moment;
mod own;
mod place;
mod place_counts;
mod places_text;
mod readings;
mod recents;
mod recording;
mod reports;
mod tally;
mod task;
mod watch;

pub use aside::{Aside, AsideLines};
pub use completion::Completion;
pub use form::Form;
pub use input::{Summary, measure};
pub use recording_summary::{Counts, Kind, Known, NoReport, Whom};
pub use task::MeasureTask;
pub use watch::WantedPorts;
