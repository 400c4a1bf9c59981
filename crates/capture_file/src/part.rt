//! A part of a capture, and why one isn't read.

use crate::fault::CaptureFault;
use crate::packet::Packet;

/// A part that was read.
#[derive(Clone, Copy, Debug)]
pub(crate) struct Part<'a> {
    /// How many octets it has.
    pub(crate) size: u64,
    /// The packet that it is, if it is one.
    pub(crate) packet: Option<Packet<'a>>,
}

/// Why a part isn't read.
#[derive(Clone, Copy, Debug)]
pub(crate) enum PartStop {
    /// The reader failed.
    Read,
    /// Memory was refused.
    Memory,
    /// A fault, and at which octet of the part.
    Fault(CaptureFault, u64),
}

impl PartStop {
    /// The input ends within the part.
    pub(crate) const CUT_OFF: PartStop = PartStop::Fault(CaptureFault::CutOff, 0);
}
