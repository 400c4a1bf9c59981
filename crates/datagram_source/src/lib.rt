//! An input of datagrams: lines, each of which tells one, or a capture, whose packets carry them, and are counted. Which of the two it
//! is its first octets tell, unless it has to be a capture. What is done with a datagram is up to a task.
#![tactic(auto)]

mod compressed;
mod datagram;
mod elsewhere;
mod input;
mod lines;
mod links;
mod packet_counts;
mod packets;
mod readings;
mod stamp;
mod stream;
mod task;

pub use compressed::tell_compressed;
pub use datagram::{Datagram, Place, message_in};
pub use input::{InputOutcome, answer_capture, answer_capture_behind, answer_datagrams};
pub use lines::{DATAGRAM_LIMIT, LineForm, read_datagram};
pub use packet_counts::PacketCounts;
pub use readings::Readings;
pub use stamp::Stamp;
pub use stream::Stream;
pub use task::DatagramTask;
