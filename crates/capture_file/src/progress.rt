//! How far a capture was read.
ghost use Rattle.std.specs.Prelude.{◌≡◌, IfSome};
ghost use Rattle.capture_file.specs.Inner.Reading.{packet_in};
ghost use Rattle.capture_file.specs.Inner.Taking.{IsBehind, StopsIn};

use crate::fault::{CaptureCause, CaptureStop};
use crate::part::{Part, PartStop};

/// How far a capture was read: how many packets, and how many octets.
#[derive(Clone, Copy)]
pub(crate) struct Progress {
    pub(crate) packets: u64,
    pub(crate) octets: u64,
}

impl Progress {
    /// Before the first octet.
    pub(crate) const START: Progress = Progress {
        packets: 0,
        octets: 0,
    };

    /// Behind a part; None where what there is by then can't be counted.
    pub(crate) fn behind(self, part: &Part<'_>) -> Option<Progress>
        ensures { IfSome result (IsBehind self part.now.size (packet_in part.now)) }
    {
        Some(Progress {
            packets: self.packets.checked_add(u64::from(part.packet.is_some()))?,
            octets: self.octets.checked_add(part.size)?,
        })
    }

    /// What stops it here.
    pub(crate) fn stop<F>(self, what: CaptureCause<F>) -> CaptureStop<F>
        ensures { result ≡ record { packets = self.packets; octet = self.octets; what = what } }
    {
        CaptureStop {
            packets: self.packets,
            octet: self.octets,
            what,
        }
    }

    /// Why the next part isn't read. Octets are told up to 2^64 - 1.
    pub(crate) fn stop_part<F>(self, stop: PartStop) -> CaptureStop<F>
        ensures { StopsIn self stop result }
    {
        match stop {
            PartStop::Read => self.stop(CaptureCause::Read),
            PartStop::Memory => self.stop(CaptureCause::Memory),
            PartStop::Fault(fault, place) => CaptureStop {
                packets: self.packets,
                octet: self.octets.saturating_add(place),
                what: CaptureCause::Capture(fault),
            },
        }
    }
}
