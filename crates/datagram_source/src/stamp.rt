//! The time of a datagram, as it is written.
ghost use Rattle.std.specs.Prelude.{◌≡◌, ◌++◌, OnOk};
ghost use Rattle.std.specs.String.{string_bytes};
ghost use Rattle.datagram_source.specs.Datagram.{text_of};

use ptp_units::Timestamp;
use std::alloc::AllocError;
use std::fmt::Write as _;

/// The time of a datagram, as its line or packet tells it.
#[derive(Clone, Copy, Debug)]
pub enum Stamp<'a> {
    /// As the line has it.
    Written(&'a str),
    /// The time of a packet, which is written as seconds, a point and nine decimals.
    Clock(Timestamp),
}

impl Stamp<'_> {
    /// Appends its text.
    pub fn push(&self, text: &mut String) -> Result<(), AllocError>
        ensures { OnOk result (string_bytes text.new ≡ string_bytes text.old ++ text_of self.now) }
    {
        match self {
            Stamp::Written(written) => text.push_str(written),
            Stamp::Clock(time) => write!(text, "{}.{:09}", time.seconds(), time.nanos()),
        }
    }
}
