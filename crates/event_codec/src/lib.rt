//! Sync, Delay_Req, Follow_Up and Delay_Resp of the Precision Time Protocol as octets: one relation
//! says which octets are which message, and is met exactly in reading and in writing (IEEE 1588-2019, clause 13).
#![tactic(auto)]

mod correction;
mod decoding;
mod encoding;
mod header;
pub mod laws;
mod message;
mod message_type;
mod nibble;
mod port;
mod profile;
mod refusal;

pub use correction::patch_correction;
pub use decoding::decode;
pub use encoding::encode;
pub use header::{Announce, decode_announce, decode_header};
pub use message::{Body, Header, Message, NO_FLAGS, TWO_STEP};
pub use nibble::Nibble;
pub use port::{PortConfig, PortIdentity};
pub use profile::PortMessage;
pub use refusal::{DecodeRefusal, EncodeRefusal};
