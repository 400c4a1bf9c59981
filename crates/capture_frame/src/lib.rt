//! What a captured packet has of PTP: the datagram that it carries over UDP or Ethernet, behind the headers that its link
//! type, tags and IP put in front.
#![tactic(auto)]

mod content;
mod ether;
mod found;
mod ipv4;
mod ipv6;
pub mod laws;
mod link;
mod link_type;
mod octets;
mod route;
mod udp;

pub use found::{DATAGRAM_LIMIT, Found, find_datagram};
pub use route::{Address, Route, find_route};
