//! What a capture has of PTP: as lines, a datagram each, in hexadecimal, with the time of its packet; or as a table for people of who
//! sends which messages, who is master and who is slave there, and with which options a slave is measured.
#![tactic(auto)]

mod calls;
mod cells;
mod extracting;
mod header;
mod interfaces;
pub mod laws;
mod line;
mod listing;
mod message_type;
mod row;
mod stream;
mod table;
mod text;

pub use extracting::{Extraction, extract};
pub use line::ExtractForm;
pub use listing::list;
