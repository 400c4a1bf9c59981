//! The octets that ports and clocks write.

ghost use Rattle.std.specs.Prelude.{◌≡◌, ◌≤◌, ◌≤ℤ◌, pos, [], length, option_map, IfSome, Some};
ghost use Rattle.event_codec.specs.Packet.{Contents, contents};
ghost use Rattle.event_codec.specs.Profile.{contents_of};
ghost use Rattle.master_port.specs.Written.{delay_resp};
ghost use Rattle.transparent_clock.specs.Forwarding.{resided};
ghost use Rattle.network_model.specs.Network.{PortSetup};
ghost use Rattle.network_model.specs.Truth.{master_at, slave_at};
ghost use Rattle.exchange_check.specs.Inner.Kept.{sent_by, port_setup};
ghost use Rattle.trace_model.specs.Octets.{is_packet, is_written, drawing_port, message_sent};

use crate::lookup::Lookup;
use event_codec::{Header, Message, PortConfig, PortMessage, encode};
use master_port::{one_step_sync, sync};
use network_model::{Event, Name, NodeKind};
use ptp_units::{ScaledTime, Seq};
use slave_port::delay_req;
use trace_model::TraceOut;

/// The configuration of a port, and the first number of its pool.
#[derive(Clone, Copy)]
pub(crate) struct Port {
    pub(crate) config: PortConfig,
    pub(crate) first: Seq,
}

/// The port of a master of this name.
pub(crate) fn master_at(nodes: &Lookup<'_>, name: &Name) -> Option<Port>
    ensures { option_map port_setup result ≡ master_at nodes.now name.now }
{
    match nodes.get(name)?.kind {
        NodeKind::Master { config, first } => Some(Port { config, first }),
        NodeKind::Slave { .. } | NodeKind::Clock => None,
    }
}

/// The port of a slave of this name.
pub(crate) fn slave_at(nodes: &Lookup<'_>, name: &Name) -> Option<Port>
    ensures { option_map port_setup result ≡ slave_at nodes.now name.now }
{
    match nodes.get(name)?.kind {
        NodeKind::Slave { config, first } => Some(Port { config, first }),
        NodeKind::Master { .. } | NodeKind::Clock => None,
    }
}

/// The port that draws a number at an event.
pub(crate) fn drawing_port(nodes: &Lookup<'_>, event: &Event) -> Option<Port>
    ensures { option_map port_setup result ≡ drawing_port nodes.now event.now }
{
    match event {
        Event::Sync { node, .. } | Event::SyncOne { node, .. } => master_at(nodes, node),
        Event::Request { node, .. } => slave_at(nodes, node),
        _ => None,
    }
}

/// The message that a port sends at an event, under this number and at this reading.
fn message_sent(
    config: &PortConfig,
    event: &Event,
    number: Seq,
    now: ScaledTime,
) -> Option<PortMessage>
    ensures value { option_map contents_of result ≡ message_sent config.now event.now number.0 now }
    ensures sign { IfSome result (λ m. pos 0 ≤ℤ m.header.correction.0) }
{
    match event {
        Event::Sync { .. } => Some(sync(config, number)),
        Event::SyncOne { .. } => Some(one_step_sync(config, number, now)),
        Event::Request { .. } => Some(delay_req(config, number)),
        _ => None,
    }
}

/// The message that an event sends, under this number and at this reading.
pub(crate) fn sent(
    nodes: &Lookup<'_>,
    event: &Event,
    number: Seq,
    now: ScaledTime,
) -> Option<PortMessage>
    ensures value { option_map contents_of result ≡ sent_by nodes.now event.now number.0 now }
    ensures sign { IfSome result (λ m. pos 0 ≤ℤ m.header.correction.0) }
{
    let port = drawing_port(nodes, event)?;
    message_sent(&port.config, event, number, now)
}

/// A message with a residence added to its correction.
pub(crate) fn resided(message: &PortMessage, time: u128) -> PortMessage
    requires { pos 0 ≤ℤ message.now.header.correction.0 }
    ensures value { contents_of result ≡ resided (contents_of message.now) time }
    ensures sign { pos 0 ≤ℤ result.header.correction.0 }
{
    let mut header = message.header;
    header.correction = header.correction.plus_residence(time);
    header.with_body(message.body)
}

/// The Delay_Resp to a Delay_Req that arrived at t4.
pub(crate) fn delay_resp(
    config: &PortConfig,
    request: &Header,
    t4: ScaledTime,
) -> Option<PortMessage>
    requires { pos 0 ≤ℤ request.now.correction.0 }
    ensures { option_map contents_of result ≡ Some (delay_resp config.now request.now t4) }
{
    match master_port::delay_resp(config, request, t4) {
        Ok(message) => Some(message),
        Err(_) => None,
    }
}

/// Whether octets are a message, octet for octet.
fn is_packet(message: &Message<'_>, octets: &[u8]) -> bool
    requires { length octets.now ≤ 54 }
    ensures { result ≡ is_packet (contents message.now) octets.now }
{
    let mut room = [0; 54];
    match encode(message, &mut room) {
        Ok(length) => octets == &room[..length],
        Err(_) => false,
    }
}

/// Whether a line made this message.
pub(crate) fn is_written(message: &Option<PortMessage>, out: &TraceOut) -> bool
    ensures { result ≡ is_written (option_map contents_of message.now) out.now }
{
    let Some(message) = message else {
        return false;
    };
    match out {
        TraceOut::Made(octets) => is_packet(&message.message(), octets.as_slice()),
        _ => false,
    }
}
