//! Lines of schedules, read: nodes and events.
ghost use Rattle.std.specs.Prelude.{◌≡◌, [], ◌∷◌, true, false, codes, option_and_then, IfOk, MatchResult, Some, None};
ghost use Rattle.serde_json.specs.Find.{get, as_str};
ghost use Rattle.line_object.specs.declared.key.Key.TheVariants.{Domain, Ev, First, Id, Log, Node, Port};
ghost use Rattle.schedule_lines.specs.EventKind.{kind_of, kind_of_event};
ghost use Rattle.schedule_lines.specs.Line.{line_of, scheduled_in, event_in, event_at};
ghost use Rattle.schedule_lines.specs.Json.{has_keys};
ghost use Rattle.schedule_lines.specs.Line.{config_in, node_spec_in};
ghost use Rattle.schedule_lines.specs.Needed.{keys_of_event, kind_in, needed_of_node, own_keys, scheduled_keys};
ghost use Rattle.schedule_lines.specs.Refusal.{Answers};
ghost use Rattle.schedule_lines.specs.Inner.Asked.{Asks, port_parts};

use crate::event_kind::EventKind;
use crate::needed::{OF_CLOCKS, OF_PORTS, event_keys};
use crate::reading::asked::{
    below_at, clock_at, difference_at, moment_at, name_at, signed_octet_at, whole_at,
};
use crate::refusal::Refusal;
use event_codec::{PortConfig, PortIdentity};
use line_object::{Key, LineMembers, LineValue};
use network_model::{Event, Name, NodeKind, NodeSpec};
use ptp_units::Seq;

/// A line of a schedule.
#[derive(Clone, Copy, Debug, PartialEq, Eq)]
pub enum Line {
    /// A node of the network.
    Node(NodeSpec),
    /// An event at one of its nodes.
    Event(Event),
}

impl Line {
    /// The node or the event that a line's value is: with the key `ev` it is an event, without it and
    /// with `kind` a node. Else why it is none: a key of the form is missing, one is there that isn't of the form, or a
    /// key's value isn't what is asked for.
    pub fn of<M: LineMembers>(members: &M) -> Result<Line, Refusal>
        ensures { Answers (line_of (M.as_data members.now)) (M.as_data members.now) (scheduled_keys (M.as_data members.now)) result }
    {
        match members.get(Key::Ev) {
            Some(ev) => Ok(Line::Event(scheduled_in(ev, members)?)),
            None => Ok(Line::Node(node_spec_in(members)?)),
        }
    }
}

/// The event that an object is, with just its keys.
fn scheduled_in<M: LineMembers>(ev: &M::Value, members: &M) -> Result<Event, Refusal>
    requires { get (codes "ev") (M.as_data members.now) ≡ Some (M.Value.as_data ev.now) }
    ensures { Answers (scheduled_in (M.as_data members.now)) (M.as_data members.now)
        (keys_of_event (kind_in (M.as_data members.now))) result }
{
    let event = event_in(ev, members)?;
    let count = event_keys(&event);
    just(members, count, event)
}

/// The kind of event that `ev` names.
fn kind_in<V: LineValue>(ev: &V) -> Result<EventKind, Refusal>
    ensures { MatchResult result
        (λ kind. option_and_then kind_of (as_str (V.as_data ev.now)) ≡ Some kind)
        (λ refusal. (refusal ≡ Refusal.Wrong Ev) × (option_and_then kind_of (as_str (V.as_data ev.now)) ≡ None)) }
{
    let named = match ev.as_str() {
        Some(word) => EventKind::named(word),
        None => None,
    };
    match named {
        Some(kind) => Ok(kind),
        None => Err(Refusal::Wrong { key: Key::Ev }),
    }
}

/// The event that an object's keys are, whatever keys stand beside them.
pub(crate) fn event_in<M: LineMembers>(ev: &M::Value, members: &M) -> Result<Event, Refusal>
    requires { get (codes "ev") (M.as_data members.now) ≡ Some (M.Value.as_data ev.now) }
    ensures asks { Asks (event_in (M.as_data members.now)) (M.as_data members.now)
        (keys_of_event (kind_in (M.as_data members.now))) result }
    ensures kind { IfOk result (λ event. kind_in (M.as_data members.now) ≡ Some (kind_of_event event)) }
{
    let kind = kind_in(ev)?;
    let node = name_at(members, Key::Node)?;
    event_at(kind, node, members)
}

/// The event of a kind at a node.
fn event_at<M: LineMembers>(kind: EventKind, node: Name, members: &M) -> Result<Event, Refusal>
    ensures asks { Asks (event_at kind node (M.as_data members.now)) (M.as_data members.now) (own_keys kind) result }
    ensures kind { IfOk result (λ event. kind_of_event event ≡ kind) }
{
    let event = match kind {
        EventKind::Sync => Event::Sync {
            node,
            at: moment_at(members, Key::At)?,
        },
        EventKind::SyncOne => Event::SyncOne {
            node,
            at: moment_at(members, Key::At)?,
        },
        EventKind::Follow => Event::Follow { node },
        EventKind::Enter => Event::Enter {
            node,
            copy: whole_at(members, Key::CopyTag)?,
            at: moment_at(members, Key::At)?,
        },
        EventKind::Leave => Event::Leave {
            node,
            transit: whole_at(members, Key::TransitTag)?,
            at: moment_at(members, Key::At)?,
        },
        EventKind::Arrive => Event::Arrive {
            node,
            copy: whole_at(members, Key::CopyTag)?,
            at: moment_at(members, Key::At)?,
        },
        EventKind::Hear => Event::Hear {
            node,
            copy: whole_at(members, Key::CopyTag)?,
        },
        EventKind::Request => Event::Request {
            node,
            at: moment_at(members, Key::At)?,
        },
        EventKind::Stamped => Event::Stamped { node },
        EventKind::Tick => Event::Tick { node },
        EventKind::SetMaster => Event::SetMaster {
            node,
            master: name_at(members, Key::Master)?,
        },
        EventKind::StepClock => Event::StepClock {
            node,
            diff: difference_at(members, Key::Diff)?,
        },
    };
    Ok(event)
}

/// The node that an object without `ev` is, with just its keys.
pub(crate) fn node_spec_in<M: LineMembers>(members: &M) -> Result<NodeSpec, Refusal>
    requires { get (codes "ev") (M.as_data members.now) ≡ None }
    ensures { Answers (node_spec_in (M.as_data members.now)) (M.as_data members.now) (needed_of_node (M.as_data members.now)) result }
{
    let Some(kind) = members.get(Key::Kind) else {
        return Err(Refusal::NoKind);
    };
    let Some(text) = kind.as_str() else {
        return Err(Refusal::Wrong { key: Key::Kind });
    };
    match text {
        "master" => {
            let (name, config, first) = port_in(members)?;
            let kind = NodeKind::Master { config, first };
            just(members, OF_PORTS.len(), NodeSpec { name, kind })
        }
        "slave" => {
            let (name, config, first) = port_in(members)?;
            let kind = NodeKind::Slave { config, first };
            just(members, OF_PORTS.len(), NodeSpec { name, kind })
        }
        "clock" => {
            let name = name_at(members, Key::Node)?;
            let kind = NodeKind::Clock;
            just(members, OF_CLOCKS.len(), NodeSpec { name, kind })
        }
        _ => Err(Refusal::Wrong { key: Key::Kind }),
    }
}

/// The name of a node that has a port, what that is set up with, and the number that it draws first.
fn port_in<M: LineMembers>(members: &M) -> Result<(Name, PortConfig, Seq), Refusal>
    ensures { Asks (port_parts (M.as_data members.now)) (M.as_data members.now) (Node ∷ Id ∷ Port ∷ Domain ∷ Log ∷ First ∷ []) result }
{
    let name = name_at(members, Key::Node)?;
    let config = config_in(members)?;
    let first = below_at(members, Key::First, 65_536)?;
    Ok((name, config, Seq(first as u16)))
}

/// What the node's port is set up with.
fn config_in<M: LineMembers>(members: &M) -> Result<PortConfig, Refusal>
    ensures { Asks (config_in (M.as_data members.now)) (M.as_data members.now) (Id ∷ Port ∷ Domain ∷ Log ∷ []) result }
{
    let clock = clock_at(members, Key::Id)?;
    let port = below_at(members, Key::Port, 65_536)?;
    let domain = below_at(members, Key::Domain, 256)?;
    let log = signed_octet_at(members, Key::Log)?;
    Ok(PortConfig {
        identity: PortIdentity {
            clock,
            port: port as u16,
        },
        domain: domain as u8,
        log,
    })
}

/// What a line is, where there are just so many keys.
pub(crate) fn just<M: LineMembers, T: Drop>(
    members: &M,
    count: usize,
    line: T,
) -> Result<T, Refusal>
    ensures { MatchResult result
        (λ just. (just ≡ line) × (has_keys count (M.as_data members.now) ≡ true))
        (λ refusal. (refusal ≡ Refusal.TooMuch) × (has_keys count (M.as_data members.now) ≡ false)) }
{
    if members.has_keys(count) {
        Ok(line)
    } else {
        Err(Refusal::TooMuch)
    }
}
