//! A datagram, from a line or a packet.
ghost use Rattle.event_codec.specs.Reading.{IsReading};
ghost use Rattle.std.specs.Prelude.{◌≡◌};
ghost use Rattle.datagram_source.specs.Said.{reading_of};
ghost use Rattle.datagram_source.specs.Datagram.{place_of, place_to_all, datagram_of};
ghost use Rattle.datagram_source.specs.Stream.{is_exchange};

use crate::stamp::Stamp;
use crate::stream::{Stream, is_exchange};
use capture_file::Interface;
use event_codec::{DecodeRefusal, Message, decode};
use ptp_units::ScaledTime;
use tap_choice::TapName;

/// Where a datagram was met.
#[derive(Clone, Copy, Debug)]
pub enum Place<'a> {
    /// At no place of a name: its line tells none.
    Line,
    /// At the tap that its line names.
    Tap(TapName),
    /// At this interface of a capture, in this stream.
    Interface(Interface<'a>, Stream),
}

impl<'a> Place<'a> {
    /// The same place, but of what goes to all slaves.
    pub fn to_all(&self) -> Place<'a>
        ensures { place_of result ≡ place_to_all (place_of self.now) }
    {
        match self {
            Place::Line => Place::Line,
            Place::Tap(tap) => Place::Tap(*tap),
            Place::Interface(interface, stream) => Place::Interface(*interface, stream.to_all()),
        }
    }
}

/// A datagram.
#[derive(Clone, Copy, Debug)]
pub struct Datagram<'a> {
    /// Where it was met.
    pub place: Place<'a>,
    /// The number of its line or packet, counted from 1.
    pub number: u64,
    /// The time of its line or packet.
    pub time: ScaledTime,
    /// That time, as the line or packet tells it.
    pub stamp: Stamp<'a>,
    /// Its octets.
    pub octets: &'a [u8],
    /// The message that these begin with, or why they begin with none.
    pub said: Result<Message<'a>, DecodeRefusal>,
    /// Whether a slave told it as a reading of its own; what an input gives was captured.
    pub own: bool,
}

impl Datagram<'_> {
    /// Whether it is a Delay_Req or a Delay_Resp, by its messageType.
    pub fn is_exchange(&self) -> bool
        ensures { result ≡ is_exchange (datagram_of self.now).octets }
    {
        is_exchange(self.octets)
    }
}

/// The message that octets begin with, or why they begin with none.
pub fn message_in(octets: &[u8]) -> Result<Message<'_>, DecodeRefusal>
    ensures { IsReading octets.now (reading_of result) }
{
    match decode(octets) {
        Ok((message, _)) => Ok(message),
        Err(refusal) => Err(refusal),
    }
}
