//! How many packets a capture has, and how many gave no datagram, by why they gave none.

use crate::elsewhere::Elsewhere;
use crate::links::Links;
use capture_file::{Interface, InterfaceName};
use capture_frame::Found;
use ptp_units::Timestamp;
use std::io::Write;

/// How many reasons there are.
const REASONS: usize = 5;

/// Why a packet of a known link type gave no datagram.
#[derive(Clone, Copy, Debug, PartialEq, Eq)]
enum NoDatagram {
    Other,
    Fragment,
    TooLong,
    Timeless,
    Simple,
}

/// Every reason, in the order in which they are told.
const ALL_REASONS: [NoDatagram; REASONS] = [
    NoDatagram::Other,
    NoDatagram::Fragment,
    NoDatagram::TooLong,
    NoDatagram::Timeless,
    NoDatagram::Simple,
];

impl NoDatagram {
    /// What is said after a count of one.
    fn name(self) -> &'static str {
        match self {
            NoDatagram::Other => "packet without PTP",
            NoDatagram::Fragment => "fragment of IP, which isn't put together",
            NoDatagram::TooLong => "datagram of more than 2035 octets",
            NoDatagram::Timeless => "packet with a time that can't be",
            NoDatagram::Simple => "packet of a kind that has no time",
        }
    }

    /// What it says after any other.
    fn names(self) -> &'static str {
        match self {
            NoDatagram::Other => "packets without PTP",
            NoDatagram::Fragment => "fragments of IP, which aren't put together",
            NoDatagram::TooLong => "datagrams of more than 2035 octets",
            NoDatagram::Timeless => "packets with a time that can't be",
            NoDatagram::Simple => "packets of a kind that has no time",
        }
    }
}

/// How many packets of a capture gave a datagram, and how many gave none. Counts stay at 2^64 - 1.
#[derive(Clone, Copy, Debug)]
pub struct PacketCounts {
    /// The interface that is asked for.
    interface: Option<InterfaceName>,
    /// What came at others, which isn't in the other counts.
    elsewhere: Elsewhere,
    packets: u64,
    datagrams: u64,
    counts: [u64; REASONS],
    links: Links,
    /// Whether all times are of whole microseconds; None where there is no datagram.
    whole: Option<bool>,
}

impl PacketCounts {
    /// No packet came. Those at other interfaces than the one that is asked for are counted by
    /// themselves.
    pub(crate) fn new(interface: Option<InterfaceName>) -> PacketCounts {
        PacketCounts {
            interface,
            elsewhere: Elsewhere::new(),
            packets: 0,
            datagrams: 0,
            counts: [0; REASONS],
            links: Links::new(),
            whole: None,
        }
    }

    fn count(&mut self, why: NoDatagram) {
        let count = &mut self.counts[usize::from(why as u8)];
        *count = count.saturating_add(1);
    }

    /// Counts a packet that was captured at this time, with this link type.
    pub(crate) fn count_captured(&mut self, time: Timestamp, link: u16, found: Found<'_>) {
        self.packets = self.packets.saturating_add(1);
        match found {
            Found::Datagram(_) => {
                self.datagrams = self.datagrams.saturating_add(1);
                self.whole = Some(self.whole.unwrap_or(true) && time.nanos() % 1000 == 0);
            }
            Found::Fragment => self.count(NoDatagram::Fragment),
            Found::TooLong => self.count(NoDatagram::TooLong),
            Found::OtherLink => self.links.count(link),
            Found::Other => self.count(NoDatagram::Other),
        }
    }

    /// Counts a packet at an interface that isn't asked for.
    pub(crate) fn count_elsewhere(&mut self, interface: &Interface<'_>) {
        self.elsewhere.count(interface);
    }

    /// Counts a packet whose time is none.
    pub(crate) fn count_timeless(&mut self) {
        self.packets = self.packets.saturating_add(1);
        self.count(NoDatagram::Timeless);
    }

    /// Counts a packet of a kind that has no time.
    pub(crate) fn count_simple(&mut self) {
        self.packets = self.packets.saturating_add(1);
        self.count(NoDatagram::Simple);
    }

    /// Tells of the packets and of their times, in lines. What can't be written is lost.
    pub fn tell<E: Write>(&self, errors: &mut E) {
        self.tell_packets(errors);
        if self.whole == Some(true) {
            let _ = writeln!(errors, "ptpx: all times are of whole microseconds");
        }
    }

    /// Tells of the packets alone, and not of their times.
    pub fn tell_packets<E: Write>(&self, errors: &mut E) {
        self.tell_counts(errors);
        for why in ALL_REASONS {
            let _ = match self.counts[usize::from(why as u8)] {
                0 => Ok(()),
                1 => writeln!(errors, "ptpx: 1 {}", why.name()),
                count => writeln!(errors, "ptpx: {count} {}", why.names()),
            };
        }
        self.links.tell(errors);
    }

    /// Tells how many packets there were, and how many gave a datagram.
    fn tell_counts<E: Write>(&self, errors: &mut E) {
        let _ = match self.packets {
            0 => write!(errors, "ptpx: no packet"),
            1 => write!(errors, "ptpx: 1 packet"),
            count => write!(errors, "ptpx: {count} packets"),
        };
        if let Some(name) = &self.interface {
            let _ = write!(errors, " at {name}");
        }
        let _ = match (self.packets, self.datagrams) {
            (0, _) => writeln!(errors, ""),
            (_, 0) => writeln!(errors, ", of which none has PTP"),
            (_, 1) => writeln!(errors, ", of which 1 has PTP"),
            (_, count) => writeln!(errors, ", of which {count} have PTP"),
        };
        self.elsewhere.tell(errors);
    }
}
