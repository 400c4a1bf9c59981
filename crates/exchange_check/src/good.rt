//! Which lines are good, and which of these count.

ghost use Rattle.std.specs.Prelude.{◌≡◌};
ghost use Rattle.trace_model.specs.Line.{is_done, is_made, is_entered, completes, is_heard, is_refused, is_ignored};
ghost use Rattle.trace_model.specs.Line.{is_master, is_slave, is_clock, may_arrive, counts, is_good};

use crate::lookup::Lookup;
use network_model::{Event, Name, NodeKind};
use trace_model::{TraceLine, TraceOut};

fn is_done(out: &TraceOut) -> bool
    ensures { result ≡ is_done out.now }
{
    matches!(out, TraceOut::Done)
}

pub(crate) fn is_made(out: &TraceOut) -> bool
    ensures { result ≡ is_made out.now }
{
    matches!(out, TraceOut::Made(_))
}

fn is_entered(out: &TraceOut) -> bool
    ensures { result ≡ is_entered out.now }
{
    matches!(out, TraceOut::Entered)
}

pub(crate) fn completes(out: &TraceOut) -> bool
    ensures { result ≡ completes out.now }
{
    matches!(out, TraceOut::Completed | TraceOut::Report(_))
}

fn is_heard(out: &TraceOut) -> bool
    ensures { result ≡ is_heard out.now }
{
    matches!(
        out,
        TraceOut::Held | TraceOut::Completed | TraceOut::Report(_) | TraceOut::Ignored(_)
    )
}

fn is_refused(out: &TraceOut) -> bool
    ensures { result ≡ is_refused out.now }
{
    matches!(out, TraceOut::Refused(_))
}

fn is_ignored(out: &TraceOut) -> bool
    ensures { result ≡ is_ignored out.now }
{
    matches!(out, TraceOut::Ignored(_))
}

fn is_master(nodes: &Lookup<'_>, name: &Name) -> bool
    ensures { result ≡ is_master nodes.now name.now }
{
    match nodes.get(name) {
        Some(node) => matches!(node.kind, NodeKind::Master { .. }),
        None => false,
    }
}

fn is_slave(nodes: &Lookup<'_>, name: &Name) -> bool
    ensures { result ≡ is_slave nodes.now name.now }
{
    match nodes.get(name) {
        Some(node) => matches!(node.kind, NodeKind::Slave { .. }),
        None => false,
    }
}

fn is_clock(nodes: &Lookup<'_>, name: &Name) -> bool
    ensures { result ≡ is_clock nodes.now name.now }
{
    match nodes.get(name) {
        Some(node) => matches!(node.kind, NodeKind::Clock),
        None => false,
    }
}

fn may_arrive(nodes: &Lookup<'_>, node: &Name, out: &TraceOut) -> bool
    ensures { result ≡ may_arrive nodes.now node.now out.now }
{
    is_master(nodes, node) && (is_made(out) || is_refused(out))
        || is_slave(nodes, node) && is_heard(out)
}

/// Whether a line is good: its nodes are of the kinds that the event is for, and it may have come out so.
fn is_good(nodes: &Lookup<'_>, event: &Event, out: &TraceOut) -> bool
    ensures { result ≡ is_good nodes.now event.now out.now }
{
    match event {
        Event::Sync { node, .. } => is_master(nodes, node) && is_made(out),
        Event::SyncOne { node, .. } => is_master(nodes, node) && is_made(out),
        Event::Follow { node } => is_master(nodes, node) && is_made(out),
        Event::Enter { node, .. } => is_clock(nodes, node) && is_entered(out),
        Event::Leave { node, .. } => is_clock(nodes, node) && (is_made(out) || is_refused(out)),
        Event::Arrive { node, .. } => may_arrive(nodes, node, out),
        Event::Hear { node, .. } => is_slave(nodes, node) && is_heard(out),
        Event::Request { node, .. } => is_slave(nodes, node) && is_made(out),
        Event::Stamped { node } => is_slave(nodes, node) && (is_done(out) || is_refused(out)),
        Event::Tick { node } => is_slave(nodes, node) && is_done(out),
        Event::SetMaster { node, master } => {
            is_slave(nodes, node) && is_master(nodes, master) && is_done(out)
        }
        Event::StepClock { node, .. } => nodes.get(node).is_some() && is_done(out),
    }
}

/// Whether a line counts: it is good, and its event was neither refused nor ignored.
pub(crate) fn counts(nodes: &Lookup<'_>, line: &TraceLine) -> bool
    ensures { result ≡ counts nodes.now line.now }
{
    is_good(nodes, &line.event, &line.out) && !(is_refused(&line.out) || is_ignored(&line.out))
}
