//! Whose messages are followed, and between which taps.
ghost use Rattle.std.specs.Prelude.{◌≡◌, []};
ghost use Rattle.event_codec.specs.Packet.{contents};
ghost use Rattle.tap_follow.specs.Followed.{tap_at, requester, contents_of};

use event_codec::{Body, Message, PortIdentity};
use tap_choice::{Met, Side, TapName};
use tap_crossing::{Tap, Watched};

/// Whose messages are followed, and between which taps.
#[derive(Clone, Copy)]
pub struct Followed {
    /// Whose messages.
    pub watched: Watched,
    /// The tap that a Sync meets first.
    pub from: Side,
    /// Its name.
    pub from_name: TapName,
    /// The name of the other.
    pub to_name: TapName,
}

/// Which of the two a tap is, where a Sync meets this one first.
pub(crate) fn tap_at(from: Side, side: Side) -> Tap
    ensures { result ≡ tap_at from side }
{
    match (from, side) {
        (Side::First, Side::First) | (Side::Second, Side::Second) => Tap::From,
        (Side::First, Side::Second) | (Side::Second, Side::First) => Tap::To,
    }
}

/// The source of a message, where it is a Delay_Req of the domain that was met at `to`.
pub(crate) fn requester(domain: u8, from: Side, met: &Met) -> Option<PortIdentity>
    ensures { result ≡ requester domain from met.now }
{
    match (tap_at(from, met.side), met.body) {
        (Tap::To, Body::DelayReq { .. }) if met.header.domain == domain => Some(met.header.source),
        _ => None,
    }
}

/// A message as it was met.
pub(crate) fn message_of(met: &Met) -> Message<'static>
    ensures { contents result ≡ contents_of met.now }
{
    Message {
        header: met.header,
        body: met.body,
        suffix: &[],
    }
}
