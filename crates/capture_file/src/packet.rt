//! Packets of a capture.
ghost use Rattle.std.specs.Prelude.{◌≤◌, length};

use ptp_units::Timestamp;

/// The most octets of a packet that are looked at.
pub const PACKET_LIMIT: usize = 65_536;

/// An interface, in its section of a capture.
#[derive(Clone, Copy, Debug, PartialEq, Eq)]
pub struct Interface<'a> {
    /// Its place among the interfaces of the section, from 0.
    pub place: u32,
    /// Its name, where it has one of its own: not empty, not `if` and digits alone, and not that of an earlier interface of the section.
    pub name: Option<&'a [u8]>,
}

/// What was captured of a packet.
#[derive(Clone, Copy, Debug)]
pub struct Captured<'a> {
    /// The interface at which it was captured.
    pub interface: Interface<'a>,
    /// When it was: seconds since the beginning of the timescale, cut down to whole nanoseconds.
    pub time: Timestamp,
    /// The link type (LINKTYPE_ of pcap), which says what its first octets are.
    pub link: u16,
    /// The octets that were captured, of which at most the first 65,536 are kept.
    pub octets: &'a [u8],
    ghost within: { length octets.now ≤ 65536 },
}

/// A packet of a capture.
#[derive(Clone, Copy, Debug)]
pub enum Packet<'a> {
    /// A packet that was read.
    Captured(Captured<'a>),
    /// A packet whose time is none: below 0, of 2^48 s or more, or with a fraction of a second or more.
    Timeless,
    /// A packet of a kind that has no time: a simple packet, or one of the old kind.
    Simple,
}
