//! The tap at which a datagram was met.
ghost use Rattle.std.specs.Prelude.{◌≡◌, Some, IsSome, IfSome, MatchOption};
ghost use Rattle.capture_file.specs.Name.{place_text};
ghost use Rattle.capture_file.specs.Packet.{interface_of};
ghost use Rattle.datagram_source.specs.Datagram.{Line, place_of};
ghost use Rattle.tap_follow.specs.Datagram.{IsTapAt, IsTapOf};

use capture_file::Interface;
use datagram_source::Place;
use itoa::Buffer;
use tap_choice::TapName;

/// The tap that an interface of this place is without a name of its own.
fn tap_of_place(place: u32) -> Option<TapName>
    ensures { result ≡ Some (place_text place) }
{
    let mut buffer = Buffer::new();
    let digits = buffer.format(place).as_bytes();
    let size = 2 + digits.len();
    let mut room = *b"if\0\0\0\0\0\0\0\0\0\0";
    room[2..size].copy_from_slice(digits);
    TapName::new(&room[..size])
}

/// The tap that an interface is: that of its name where this is one, or else `if` and its place.
fn tap_of(interface: &Interface<'_>) -> Option<TapName>
    ensures some { IsSome result }
    ensures name { IfSome result (λ name. IsTapOf (interface_of interface.now) name) }
{
    match interface.name {
        Some(name) => match TapName::new(name) {
            Some(tap) => Some(tap),
            None => tap_of_place(interface.place),
        },
        None => tap_of_place(interface.place),
    }
}

/// The tap that a place is, if it is one.
pub(crate) fn tap_met(place: &Place<'_>) -> Option<TapName>
    ensures { MatchOption result (place_of place.now ≡ Line) (λ name. IsTapAt (place_of place.now) name) }
{
    match place {
        Place::Line => None,
        Place::Tap(tap) => Some(*tap),
        Place::Interface(interface, _) => tap_of(interface),
    }
}
