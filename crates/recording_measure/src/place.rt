//! Where datagrams were met, apart from these.

ghost use Rattle.std.specs.Prelude.{◌≡◌, None, IfOk, option_map, if◌then◌else◌};
ghost use Rattle.datagram_source.specs.Datagram.{place_of as met_at};
ghost use Rattle.recording_measure.specs.Places.{name_in, is_same_place};
ghost use Rattle.recording_measure.specs.Told.{kept_name};
ghost use Rattle.recording_words.specs.declared.unit.InputUnit.TheVariants.{Line, Packet};

use datagram_source::{Place as MetAt, Stream};
use recording_words::InputUnit;
use std::alloc::{AllocError, Global};
use std::fmt;
use std::fmt::{Display, Formatter};

/// The stream of sdoId 0 in no VLAN, to all slaves.
const PLAIN: Stream = Stream {
    sdo: 0,
    vlan: None,
    slave: None,
};

/// A place at which datagrams were met: a tap, or one of the streams at an interface, in whichever section of the capture. That of
/// lines which tell none has no name.
#[derive(Drop)]
pub(crate) struct Place {
    name: Option<Vec<u8>>,
    stream: Stream,
}

impl Place {
    /// The place of a datagram.
    pub(crate) fn new(alloc: Global, met: &MetAt<'_>) -> Result<Place, AllocError>
        ensures { IfOk result (λ place. kept_name place ≡ name_in (met_at met.now)) }
    {
        let (name, stream) = match met {
            MetAt::Line => (None, PLAIN),
            MetAt::Tap(tap) => (Some(Vec::from_slice(alloc, tap.text().as_bytes())?), PLAIN),
            MetAt::Interface(interface, stream) => (Some(interface.called(alloc)?), *stream),
        };
        Ok(Place { name, stream })
    }

    /// The name of its tap or interface, if it has one.
    pub(crate) fn name(&self) -> Option<&[u8]>
        ensures { option_map (λ name. name.now) result ≡ option_map (λ it. it.name) (kept_name self.now) }
    {
        match &self.name {
            Some(name) => Some(name),
            None => None,
        }
    }

    /// Whether it has no name.
    pub(crate) fn is_nameless(&self) -> bool
        ensures { result ≡ is_same_place (kept_name self.now) None }
    {
        self.name.is_none()
    }

    /// Whether it is that of a datagram.
    pub(crate) fn is(&self, met: &MetAt<'_>) -> bool
        ensures { result ≡ is_same_place (kept_name self.now) (name_in (met_at met.now)) }
    {
        match (&self.name, met) {
            (None, MetAt::Line) => true,
            (Some(name), MetAt::Tap(tap)) => {
                name.as_slice() == tap.text().as_bytes() && self.stream.is(&PLAIN)
            }
            (Some(name), MetAt::Interface(interface, stream)) => {
                interface.is_called(name) && self.stream.is(stream)
            }
            _ => false,
        }
    }

    /// Whether it is of a VLAN.
    pub(crate) fn has_vlan(&self) -> bool {
        self.stream.vlan.is_some()
    }

    /// What a datagram that was met here is one of.
    pub(crate) fn unit(&self) -> InputUnit
        ensures { result ≡ (if is_same_place (kept_name self.now) None then Line else Packet) }
    {
        if self.is_nameless() {
            InputUnit::Line
        } else {
            InputUnit::Packet
        }
    }
}

impl Display for Place {
    fn fmt<W: fmt::Write>(&self, f: &mut Formatter<W>) -> fmt::Result {
        for octet in self.name.iter().flatten() {
            write!(f, "{}", octet.escape_ascii())?;
        }
        write!(f, "{}", self.stream)
    }
}

/// What a place is called, as a text of JSON; null for one that has no name.
#[derive(Clone, Copy)]
pub(crate) struct InQuotes<'a>(pub(crate) &'a Place);

/// What JSON wants before an octet as it shows, where that has `\` or `"`.
fn escape_before(octet: u8) -> &'static str {
    match octet {
        // these show as `\"` and `\\`
        b'"' | b'\\' => "\\\\",
        b' '..=b'&' | b'('..=b'~' => "",
        _ => "\\",
    }
}

impl Display for InQuotes<'_> {
    fn fmt<W: fmt::Write>(&self, f: &mut Formatter<W>) -> fmt::Result {
        let Some(name) = &self.0.name else {
            return f.write_str("null");
        };
        f.write_str("\"")?;
        for octet in name {
            write!(f, "{}{}", escape_before(*octet), octet.escape_ascii())?;
        }
        write!(f, "{}\"", self.0.stream)
    }
}
