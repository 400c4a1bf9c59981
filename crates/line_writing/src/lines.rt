//! The texts of lines, without the LF at their end.
ghost use Rattle.std.specs.Prelude.{◌≡◌, ◌++◌, OnOk, None, true};
ghost use Rattle.std.specs.List.{list_all};
ghost use Rattle.serde_json.specs.Written.{compact_text};
ghost use Rattle.network_model.specs.Name.{is_name_octet};
ghost use Rattle.schedule_lines.specs.Written.{node_data, kind_data, port_data, scheduled_data, event_data};
ghost use Rattle.line_writing.specs.Inner.Pieces.{front_text, made_text, answer_text, offset_text, path_text, report_text};
ghost use Rattle.line_writing.specs.Inner.Pieces.{end_text, drawn_text, clock_text};

use crate::fields::{put_difference, put_moment, put_name, put_whole};
use crate::values::{push_name, push_octets, push_signed, push_tags, push_whole};
use crate::words::{out_code, out_text};
use event_codec::PortConfig;
use network_model::{Event, Name, NodeKind, NodeSpec};
use ptp_units::Seq;
use schedule_lines::EventKind;
use std::alloc::AllocError;
use trace_model::{TraceLine, TraceOut};

/// Appends the compact text of a node's line. Memory fails by `AllocError`.
pub fn push_node(text: &mut Vec<u8>, node: &NodeSpec) -> Result<(), AllocError>
    ensures { OnOk result (text.new.items ≡ text.old.items ++ compact_text (node_data node.now)) }
{
    match &node.kind {
        NodeKind::Master { config, first } => {
            push_port(text, &node.name, b"master", config, *first)
        }
        NodeKind::Slave { config, first } => push_port(text, &node.name, b"slave", config, *first),
        NodeKind::Clock => push_transparent(text, &node.name),
    }
}

/// Appends the text of a transparent clock.
fn push_transparent(text: &mut Vec<u8>, name: &Name) -> Result<(), AllocError>
    ensures { OnOk result (text.new.items ≡ text.old.items ++ compact_text (kind_data name.now NodeKind.Clock)) }
{
    text.extend_from_slice(b"{\"kind\":\"clock\",\"node\":")?;
    push_name(text, name)?;
    text.extend_from_slice(b"}")?;
    Ok(())
}

/// Appends the text of a node that has a port, of a kind that is a word.
fn push_port(
    text: &mut Vec<u8>,
    name: &Name,
    kind: &[u8],
    config: &PortConfig,
    first: Seq,
) -> Result<(), AllocError>
    requires { list_all is_name_octet kind.now ≡ true }
    ensures { OnOk result
        (text.new.items ≡ text.old.items ++ compact_text (port_data name.now kind.now config.now first)) }
{
    push_drawn(text, config.domain, first)?;
    push_clock(text, &config.identity.clock)?;
    text.extend_from_slice(b",\"kind\":\"")?;
    text.extend_from_slice(kind)?;
    text.extend_from_slice(b"\",\"log\":")?;
    push_signed(text, &config.log)?;
    text.extend_from_slice(b",\"node\":")?;
    push_name(text, name)?;
    text.extend_from_slice(b",\"port\":")?;
    push_whole(text, u64::from(config.identity.port))?;
    text.extend_from_slice(b"}")?;
    Ok(())
}

/// Appends the domain of a port and the number that it draws first.
fn push_drawn(text: &mut Vec<u8>, domain: u8, first: Seq) -> Result<(), AllocError>
    ensures { OnOk result (text.new.items ≡ text.old.items ++ drawn_text domain first.0) }
{
    text.extend_from_slice(b"{\"domain\":")?;
    push_whole(text, u64::from(domain))?;
    text.extend_from_slice(b",\"first\":")?;
    push_whole(text, u64::from(first.0))?;
    Ok(())
}

/// Appends the clockIdentity of a port.
fn push_clock(text: &mut Vec<u8>, clock: &[u8; 8]) -> Result<(), AllocError>
    ensures { OnOk result (text.new.items ≡ text.old.items ++ clock_text clock.now) }
{
    text.extend_from_slice(b",\"id\":")?;
    push_octets(text, clock.as_slice())?;
    Ok(())
}

/// Appends the compact text of an event's line in a schedule. Memory fails by `AllocError`.
pub fn push_scheduled(text: &mut Vec<u8>, event: &Event) -> Result<(), AllocError>
    ensures { OnOk result (text.new.items ≡ text.old.items ++ compact_text (scheduled_data event.now)) }
{
    text.extend_from_slice(b"{")?;
    push_front(text, event, None)?;
    put_name(text, b",\"master\":", event.named_master())?;
    put_name(text, b",\"node\":", Some(event.node()))?;
    push_end(text, event)?;
    Ok(())
}

/// Appends the compact text of an event's line in a transcript, with the number of the event. Memory
/// fails by `AllocError`.
pub fn push_event(text: &mut Vec<u8>, number: u64, line: &TraceLine) -> Result<(), AllocError>
    ensures { OnOk result (text.new.items ≡ text.old.items ++ compact_text (event_data number line.now)) }
{
    text.extend_from_slice(b"{")?;
    push_front(text, &line.event, out_code(&line.out))?;
    put_octets(text, &line.out)?;
    put_name(text, b",\"master\":", line.event.named_master())?;
    put_whole(text, b",\"n\":", Some(number), b"")?;
    put_name(text, b",\"node\":", Some(line.event.node()))?;
    push_out(text, &line.out)?;
    put_moment(text, b",\"reading\":", line.reading, b"")?;
    put_tags(text, &line.out)?;
    push_end(text, &line.event)?;
    Ok(())
}

/// Appends the members up to `ev`, the code of an answer among them.
fn push_front(text: &mut Vec<u8>, event: &Event, code: Option<u64>) -> Result<(), AllocError>
    ensures { OnOk result (text.new.items ≡ text.old.items ++ front_text event.now code) }
{
    put_moment(text, b"\"at\":", event.true_moment(), b",")?;
    put_whole(text, b"\"code\":", code, b",")?;
    put_whole(text, b"\"copy\":", event.named_copy(), b",")?;
    put_difference(text, b"\"diff\":", event.named_difference(), b",")?;
    text.extend_from_slice(b"\"ev\":\"")?;
    text.extend_from_slice(EventKind::of(event).word().as_bytes())?;
    text.extend_from_slice(b"\"")?;
    Ok(())
}

/// Appends the octets of a message that was made.
fn put_octets(text: &mut Vec<u8>, out: &TraceOut) -> Result<(), AllocError>
    ensures { OnOk result (text.new.items ≡ text.old.items ++ made_text out.now) }
{
    match out {
        TraceOut::Made(octets) => {
            text.extend_from_slice(b",\"hex\":")?;
            push_octets(text, octets.as_slice())
        }
        _ => Ok(()),
    }
}

/// Appends what an event brought about, between the two results of a report.
fn push_out(text: &mut Vec<u8>, out: &TraceOut) -> Result<(), AllocError>
    ensures { OnOk result (text.new.items ≡ text.old.items ++ answer_text out.now) }
{
    put_offset(text, out)?;
    text.extend_from_slice(b",\"out\":\"")?;
    text.extend_from_slice(out_text(out).as_bytes())?;
    text.extend_from_slice(b"\"")?;
    put_path(text, out)?;
    Ok(())
}

/// Appends twice the offset of a report.
fn put_offset(text: &mut Vec<u8>, out: &TraceOut) -> Result<(), AllocError>
    ensures { OnOk result (text.new.items ≡ text.old.items ++ offset_text out.now) }
{
    match out {
        TraceOut::Report(report) => {
            put_difference(text, b",\"offset2\":", Some(report.offset2), b"")
        }
        _ => Ok(()),
    }
}

/// Appends twice the path delay of a report.
fn put_path(text: &mut Vec<u8>, out: &TraceOut) -> Result<(), AllocError>
    ensures { OnOk result (text.new.items ≡ text.old.items ++ path_text out.now) }
{
    match out {
        TraceOut::Report(report) => {
            put_difference(text, b",\"path2\":", Some(report.path2), b"")
        }
        _ => Ok(()),
    }
}

/// Appends the tags of a report.
fn put_tags(text: &mut Vec<u8>, out: &TraceOut) -> Result<(), AllocError>
    ensures { OnOk result (text.new.items ≡ text.old.items ++ report_text out.now) }
{
    match out {
        TraceOut::Report(report) => {
            text.extend_from_slice(b",\"tags\":")?;
            push_tags(text, report)
        }
        _ => Ok(()),
    }
}

/// Appends the last member, and the end of the object.
fn push_end(text: &mut Vec<u8>, event: &Event) -> Result<(), AllocError>
    ensures { OnOk result (text.new.items ≡ text.old.items ++ end_text event.now) }
{
    put_whole(text, b",\"transit\":", event.named_transit(), b"")?;
    text.extend_from_slice(b"}")
}
