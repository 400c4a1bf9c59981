//! The codec, the ports and the clock for C: `include/ptpx.h` has a wrapper for each export, which tests for null and
//! for lengths first, and says each contract in words.
//!
//! Each call answers 0, or the number of the refusal that applies.
#![tactic(auto)]

mod exchange;
mod handle;
mod heard;
mod master;
mod message;
mod nanoseconds;
mod refusal;
mod ring;
mod ring_watch;
mod slave;
mod stay;
mod time;
mod version;
mod watch;
mod watch_handle;
mod wide_handle;
mod wide_slave;
mod words;

pub use exchange::RawExchange;
pub use handle::RawSlave;
pub use heard::RawHeard;
pub use master::{RawMaster, RawPortConfig};
pub use message::{RawMessage, RawPortIdentity};
pub use refusal::InputRefusal;
pub use ring::{RingSlave, WideRingSlave};
pub use ring_watch::RingWatch;
pub use stay::RawStay;
pub use time::RawTimestamp;
pub use watch_handle::RawWatch;
pub use wide_handle::RawWideSlave;
pub use words::{RawSigned, RawTime};

// The sizes that the header's structs have.
const _: () = prove!(size_of::<RawTime>() == 16);

const _: () = prove!(size_of::<RawSigned>() == 16);

const _: () = prove!(size_of::<RawTimestamp>() == 16);

const _: () = prove!(size_of::<RawPortIdentity>() == 10);

const _: () = prove!(size_of::<RawPortConfig>() == 12);

const _: () = prove!(size_of::<RawMessage>() == 72);

const _: () = prove!(size_of::<RawStay>() == 24);

const _: () = prove!(size_of::<RawMaster>() == 18);

const _: () = prove!(size_of::<RawSlave>() == 8);

const _: () = prove!(size_of::<RawWideSlave>() == 8);

const _: () = prove!(size_of::<RawWatch>() == 8);

const _: () = prove!(size_of::<RawHeard>() == 72);

const _: () = prove!(size_of::<RawExchange>() == 112);
