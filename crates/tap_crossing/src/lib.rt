//! Messages that are met at two taps of a network: which of them are one message, how long it took from tap to
//! tap, and by how much its correction grew on the way.
//!
//! What is told of a message is a function of the list of those that were met before (`specs/Told.antt`).
#![tactic(auto)]

mod changes;
mod crossing;
mod places;
mod sighting;
mod taps;
mod watched;

pub use changes::Changes;
pub use crossing::{Crossing, MessageOutcome, NoCrossing};
pub use places::{Filled, Places, Record};
pub use sighting::{Fields, Kind, Place, Placed, Sighting, Tap};
pub use taps::Taps;
pub use watched::Watched;
