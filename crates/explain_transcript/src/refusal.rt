//! Why an event of a schedule can't happen, or nodes are no network, for a person.

use crate::words::{AKind, Numbers, needed_kind};
use datagram_text::Identity;
use event_codec::PortIdentity;
use explain_words::{AnEvent, Length, Moment};
use network_model::{Event, Name, NodeKind, NodeSpec, WorldRefusal};
use std::alloc::{AllocError, Global};
use std::collections::BTreeMap;
use world_model::Obstacle;

/// The most nodes whose names are told.
const NAMES_MOST: usize = 16;

/// The nodes and the events before the one that is refused.
#[derive(Clone, Copy)]
pub(crate) struct Before<'a> {
    /// The nodes, in their order.
    pub(crate) nodes: &'a [NodeSpec],
    /// The events, the oldest first.
    pub(crate) events: &'a [Event],
}

/// An event of a schedule that the network refuses.
#[derive(Clone, Copy)]
pub(crate) struct RefusedEvent<'a> {
    /// What came before it.
    pub(crate) before: Before<'a>,
    /// The line of the input, counted from 1.
    pub(crate) line: u64,
    /// The event.
    pub(crate) event: &'a Event,
    /// Why it is refused.
    pub(crate) why: WorldRefusal,
    /// What stands in its way; none for a reason that no such event is refused for.
    pub(crate) obstacle: Option<Obstacle>,
}

/// Appends why an event can't happen.
pub(crate) fn push_refused(
    text: &mut String,
    refused: &RefusedEvent<'_>,
) -> Result<(), AllocError> {
    write!(
        text,
        "event {}, line {}: refused, {}: ",
        refused.before.events.len(),
        refused.line,
        refused.why.code()
    )?;
    match refused.obstacle {
        Some(obstacle) => push_obstacle(text, refused, obstacle)?,
        None => write!(text, "{}", refused.why)?,
    }
    text.push('\n')
}

/// Appends what stands in the way of an event.
fn push_obstacle(
    text: &mut String,
    refused: &RefusedEvent<'_>,
    obstacle: Obstacle,
) -> Result<(), AllocError> {
    let event = refused.event;
    let there = Numbers(refused.before.events.len());
    match obstacle {
        Obstacle::NoNode { name } => {
            write!(text, "no node is called {}; ", name.text())?;
            push_names(text, refused.before.nodes)
        }
        Obstacle::OtherKind { kind, master } => push_kinds(text, event, &kind, master),
        Obstacle::NoEvent { number } => {
            write!(text, "there is no event {number} before it; {there}")
        }
        Obstacle::SentNothing { number, event } => write!(
            text,
            "event {number} is {}, which sent no message; {there}",
            AnEvent(&event)
        ),
        Obstacle::NoEnter {
            number,
            event: other,
        } => push_no_enter(text, event, number, &other),
        Obstacle::LeftAlready { entered, left } => write!(
            text,
            "what entered by event {entered} left already by event {left}"
        ),
        Obstacle::TooFar { difference } => write!(
            text,
            "\"diff\" is {difference}, which is {}; wanted is less than 2^48 s, ahead or behind",
            Length(difference)
        ),
        Obstacle::ClockSet { set, difference } => push_clock(text, event, set, difference),
        Obstacle::NoSync
        | Obstacle::OneStepSync { .. }
        | Obstacle::FollowUpSent { .. }
        | Obstacle::NoDelayReq
        | Obstacle::DepartureTold { .. } => push_nothing_waiting(text, &event.node(), obstacle),
    }
}

/// Appends what the nodes are, and at which ones such an event happens.
fn push_kinds(
    text: &mut String,
    event: &Event,
    kind: &NodeKind,
    master: Option<NodeKind>,
) -> Result<(), AllocError> {
    write!(text, "{} is {}; ", event.node().text(), AKind(kind))?;
    if let (Some(name), Some(kind)) = (event.named_master(), &master) {
        write!(
            text,
            "{}, which it names, is {}; ",
            name.text(),
            AKind(kind)
        )?;
    }
    write!(text, "{} happens at {}", AnEvent(event), needed_kind(event))?;
    match event.named_master() {
        Some(_) => text.push_str(", and names a master"),
        None => Ok(()),
    }
}

/// Appends that the event of the number that a leave names isn't one by which a message entered its clock.
fn push_no_enter(
    text: &mut String,
    event: &Event,
    number: u64,
    other: &Event,
) -> Result<(), AllocError> {
    match other {
        Event::Enter { node, .. } if *node != event.node() => write!(
            text,
            "event {number} is an enter at {}, and this is a leave at {}",
            node.text(),
            event.node().text()
        ),
        _ => write!(text, "event {number} is {}, and no enter", AnEvent(other)),
    }
}

/// Appends by how much the clock of an event differs, and what it would read.
fn push_clock(
    text: &mut String,
    event: &Event,
    set: u64,
    difference: i128,
) -> Result<(), AllocError> {
    let name = event.node();
    write!(
        text,
        "event {set} set the clock of {} to the true time and {}; ",
        name.text(),
        Length(difference)
    )?;
    if let Some(at) = event.true_moment() {
        write!(
            text,
            "at {} it would read {}, and ",
            Moment(at),
            Length(at.signed_units().saturating_add(difference))
        )?;
    }
    text.push_str("a reading is from 0 to below 2^48 s")
}

/// Appends that no Sync waits for its Follow_Up, or no Delay_Req for its departure time.
fn push_nothing_waiting(
    text: &mut String,
    node: &Name,
    obstacle: Obstacle,
) -> Result<(), AllocError> {
    let name = node.text();
    text.push_str(match obstacle {
        Obstacle::NoDelayReq | Obstacle::DepartureTold { .. } => {
            "no Delay_Req waits for its departure time: "
        }
        _ => "no Sync waits for its Follow_Up: ",
    })?;
    match obstacle {
        Obstacle::OneStepSync { sync } => write!(
            text,
            "the last one of {name} is event {sync}, a syncone, which has none"
        ),
        Obstacle::FollowUpSent { sync, follow_up } => write!(
            text,
            "event {follow_up} sent that of the last two-step one of {name}, event {sync}"
        ),
        Obstacle::DepartureTold { delay_req, told } => write!(
            text,
            "event {told} told that of the last one of {name}, event {delay_req}"
        ),
        _ => write!(text, "{name} sent none"),
    }
}

/// What stands before the name of a node in a list.
fn lead_of(index: usize, count: usize) -> &'static str {
    match (index, count) {
        (0, 1) => "there is ",
        (0, _) => "there are ",
        _ => ", ",
    }
}

/// Appends the names of nodes.
fn push_names(text: &mut String, nodes: &[NodeSpec]) -> Result<(), AllocError> {
    if nodes.is_empty() {
        return text.push_str("there are no nodes");
    }
    for (index, node) in nodes.iter().take(NAMES_MOST).enumerate() {
        write!(text, "{}{}", lead_of(index, nodes.len()), node.name.text())?;
    }
    match nodes.len().checked_sub(NAMES_MOST) {
        None | Some(0) => Ok(()),
        Some(more) => write!(text, " and {more} more"),
    }
}

/// The lines of two nodes that clash, counted from 1.
#[derive(Clone, Copy)]
struct Clash<'a> {
    one: usize,
    other: usize,
    node: &'a NodeSpec,
}

/// The identity of the port of a node, which a clock hasn't.
fn identity_of(kind: &NodeKind) -> Option<PortIdentity> {
    match kind {
        NodeKind::Master { config, .. } | NodeKind::Slave { config, .. } => Some(config.identity),
        NodeKind::Clock => None,
    }
}

/// The first node that clashes with an earlier one. Whoever writes lines picks names and identities, so they aren't hashed.
fn first_clash(alloc: Global, nodes: &[NodeSpec]) -> Result<Option<Clash<'_>>, AllocError> {
    let mut names: BTreeMap<&str, usize> = BTreeMap::new(alloc);
    let mut identities: BTreeMap<([u8; 8], u16), usize> = BTreeMap::new(alloc);
    for (index, node) in nodes.iter().enumerate() {
        let other = index.saturating_add(1);
        if let Some(one) = names.insert(node.name.text(), other)? {
            return Ok(Some(Clash { one, other, node }));
        }
        let Some(identity) = identity_of(&node.kind) else {
            continue;
        };
        let clock = identity.clock;
        if let Some(one) = identities.insert((clock, identity.port), other)? {
            return Ok(Some(Clash { one, other, node }));
        }
    }
    Ok(None)
}

/// Appends which two nodes clash.
pub(crate) fn push_clash(
    alloc: Global,
    text: &mut String,
    nodes: &[NodeSpec],
    why: WorldRefusal,
) -> Result<(), AllocError> {
    let Some(Clash { one, other, node }) = first_clash(alloc, nodes)? else {
        return write!(text, "{}: {why}\n", why.code());
    };
    write!(text, "lines {one} and {other}: {}: {why}, ", why.code())?;
    match (why, identity_of(&node.kind)) {
        (WorldRefusal::SameIdentity, Some(identity)) => write!(text, "{}\n", Identity(&identity)),
        _ => write!(text, "{}\n", node.name.text()),
    }
}
