//! Captures: the octets of pcap and pcapng, from any reader, and the packets that they are.
#![tactic(auto)]

mod beginning;
mod block;
mod block_reading;
mod fault;
mod front;
mod name;
mod octets;
mod options;
mod order;
mod packet;
mod part;
mod pcap;
mod pcap_reading;
mod progress;
mod reader;
mod resolution;
mod section;
mod section_reading;
mod task;

pub use beginning::Beginning;
pub use fault::{CaptureCause, CaptureFault, CaptureStop};
pub use name::{InterfaceName, is_asked};
pub use octets::ReadFailed;
pub use packet::{Captured, Interface, PACKET_LIMIT, Packet};
pub use task::{PacketTask, answer_packets, answer_packets_behind};
