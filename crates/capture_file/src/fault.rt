//! Faults of a capture, and what stops the answering of its packets.
ghost use Rattle.std.specs.Prelude.{◌≡◌};
ghost use Rattle.text_lines.specs.Fault.{no_refusal};
ghost use Rattle.capture_file.specs.Inner.Fault.{fault_number};

use text_lines::Numbered;

/// Why octets aren't a capture, or not a whole one.
#[derive(Clone, Copy, Debug, PartialEq, Eq)]
pub enum CaptureFault {
    /// The first four octets are the magic of no kind of capture, or there are fewer.
    NoCapture,
    /// A version that isn't known.
    Version,
    /// A byte-order magic that is none.
    ByteOrderMagic,
    /// A length that can't be: a total length below the least, or that isn't a multiple of 4, two lengths that differ,
    /// captured octets or an option that don't fit, or an option of another length than it has.
    Length,
    /// A packet of an interface that wasn't described.
    Interface,
    /// The input ends within a packet, a block or a head.
    CutOff,
}

impl Numbered for CaptureFault {
    ghost number_of = { fault_number };

    ghost refusal_of = { no_refusal };

    fn number(&self) -> u16 {
        match self {
            CaptureFault::NoCapture => 1001,
            CaptureFault::Version => 1002,
            CaptureFault::ByteOrderMagic => 1003,
            CaptureFault::Length => 1004,
            CaptureFault::Interface => 1005,
            CaptureFault::CutOff => 1006,
        }
    }

    fn refusal(&self) -> Option<u16> {
        None
    }
}

/// Why the answering of packets stopped.
#[derive(Clone, Copy, Debug, PartialEq, Eq)]
pub enum CaptureCause<F> {
    /// The reader failed.
    Read,
    /// Memory was refused.
    Memory,
    /// A fault of the capture.
    Capture(CaptureFault),
    /// A fault of what answers the packets.
    Task(F),
}

/// What ended the answering of packets, and where.
#[derive(Clone, Copy, Debug, PartialEq, Eq)]
pub struct CaptureStop<F> {
    /// How many packets were read whole before.
    pub packets: u64,
    /// The octet of the input at which the fault lies, counted from 0.
    pub octet: u64,
    /// What went wrong.
    pub what: CaptureCause<F>,
}
