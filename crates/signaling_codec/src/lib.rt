//! Signaling messages of the Precision Time Protocol as octets, and what a slave tells in them of its own readings: the TLVs
//! of slave event monitoring (IEEE 1588-2019, 13.12, 14.1 and 16.11.4).
#![tactic(auto)]

mod decoding;
mod encode_refusal;
mod encoding;
pub mod laws;
mod octets;
mod reading;
mod readings;
mod refusal;
mod signaling;
mod tlv_type;
mod tlvs;

pub use decoding::decode_signaling;
pub use encode_refusal::SignalingEncodeRefusal;
pub use encoding::{Tlv, encode_signaling};
pub use reading::{DelayReading, OwnReading, Reading, SyncReading};
pub use readings::Readings;
pub use refusal::SignalingRefusal;
pub use signaling::Signaling;
pub use tlvs::Tlvs;

#[cfg(test)]
mod tests;
