//! What stands in the way of an event that a world refuses.
ghost use Rattle.std.specs.Prelude.{◌≡◌, option_map, reverse};
ghost use Rattle.network_model.specs.Network.{kind_of};
ghost use Rattle.network_model.specs.Run.{place_at};
ghost use Rattle.world_model.specs.Obstacle.{newest, obstacle_of, missing_name, kinds_met, copy_met, enter_met, stay_met};
ghost use Rattle.world_model.specs.Obstacle.{is_entered_at, clock_met, sync_met, request_met, waiting_met, IsMet};
ghost use Rattle.world_model.specs.Inner.Sought.{numbered, sought};

use network_model::{Event, Name, NodeKind, NodeSpec, WorldRefusal};

/// What stands in the way of an event: what the first refusal met that applies to it. Events go by their numbers, counted
/// from 0.
#[derive(Clone, Copy, Debug, PartialEq, Eq)]
pub enum Obstacle {
    /// No node has this name (603).
    NoNode {
        /// The name of the node at which it happens, or of the master that it names.
        name: Name,
    },
    /// It doesn't happen at such nodes (604).
    OtherKind {
        /// What the node is at which it happens.
        kind: NodeKind,
        /// What the node is that it names as a master, where it names one.
        master: Option<NodeKind>,
    },
    /// There is no event of the number that it names (605, 606).
    NoEvent {
        /// This number.
        number: u64,
    },
    /// The event of the number that it names sent no message (605).
    SentNothing {
        /// This number.
        number: u64,
        /// This event.
        event: Event,
    },
    /// The event of the number that it names isn't one by which a message entered this clock (606).
    NoEnter {
        /// This number.
        number: u64,
        /// This event.
        event: Event,
    },
    /// What entered by the event that it names has left already (606).
    LeftAlready {
        /// The event by which it entered.
        entered: u64,
        /// The event by which it left.
        left: u64,
    },
    /// The difference that it sets is 2^48 s or more, ahead or behind (607).
    TooFar {
        /// This difference, in units of 2^-16 ns.
        difference: i128,
    },
    /// The clock of its node reads no moment at the true moment that it has (607).
    ClockSet {
        /// The event that set the clock last.
        set: u64,
        /// By how much the clock is ahead of the true time since then, in units of 2^-16 ns.
        difference: i128,
    },
    /// The master sent no Sync that has a Follow_Up, and nothing after it (608).
    NoSync,
    /// What the master sent last is a one-step Sync, which has no Follow_Up (608).
    OneStepSync {
        /// The event by which it was sent.
        sync: u64,
    },
    /// What the master sent last, but for answers, is the Follow_Up of its last two-step Sync (608).
    FollowUpSent {
        /// The event by which the Sync was sent.
        sync: u64,
        /// The event by which its Follow_Up was.
        follow_up: u64,
    },
    /// The slave sent no Delay_Req (608).
    NoDelayReq,
    /// When the slave's last Delay_Req departed was told already (608).
    DepartureTold {
        /// The event by which the Delay_Req was sent.
        delay_req: u64,
        /// The event by which the slave learnt when it departed.
        told: u64,
    },
}

/// An event with its number.
#[derive(Clone, Copy)]
pub(crate) struct NumberedEvent {
    pub(crate) number: u64,
    pub(crate) event: Event,
}

/// What is looked for among the events of a run.
#[derive(Clone, Copy)]
pub(crate) enum Sought {
    /// A two-step Sync of this master.
    TwoStepSync(Name),
    /// A Sync of this master, two-step or one-step, or a Follow_Up.
    SyncOrFollowUp(Name),
    /// A Delay_Req of this slave.
    DelayReq(Name),
    /// That this slave learnt when its Delay_Req departed.
    Departure(Name),
    /// That the clock of this node was set.
    Step(Name),
    /// That what entered a clock by the event of this number left it.
    Leave(u64),
}

impl Sought {
    /// Whether an event is what is looked for.
    fn is(&self, event: &Event) -> bool
        ensures { result ≡ sought self.now event.now }
    {
        match self {
            Sought::TwoStepSync(node) => {
                matches!(event, Event::Sync { .. }) && event.node() == *node
            }
            Sought::SyncOrFollowUp(node) => {
                (event.draws_sync() || event.is_follow()) && event.node() == *node
            }
            Sought::DelayReq(node) => event.is_request() && event.node() == *node,
            Sought::Departure(node) => {
                matches!(event, Event::Stamped { .. }) && event.node() == *node
            }
            Sought::Step(node) => event.named_difference().is_some() && event.node() == *node,
            Sought::Leave(entered) => event.named_transit() == Some(*entered),
        }
    }

    /// The newest such event.
    fn newest(&self, events: &[Event]) -> Option<NumberedEvent>
        ensures { result ≡ option_map numbered (newest (sought self.now) (reverse events.now)) }
    {
        let mut found = None;
        for (number, event) in events.iter().enumerate() {
            if self.is(event) {
                found = Some(NumberedEvent {
                    number: number as u64,
                    event: *event,
                });
            }
        }
        found
    }
}

/// What the node of this name is.
fn kind_named(nodes: &[NodeSpec], name: Name) -> Option<NodeKind>
    ensures { result ≡ kind_of nodes.now name }
{
    for node in nodes {
        if name == node.name {
            return Some(node.kind);
        }
    }
    None
}

/// The event of this number.
fn event_numbered(events: &[Event], number: u64) -> Option<Event>
    ensures { result ≡ option_map (λ p. p.event) (place_at (reverse events.now) number) }
{
    match events.get(number as usize) {
        Some(event) => Some(*event),
        None => None,
    }
}

/// What stands in the way of an event that follows these, the oldest first, in a network of these nodes, where it is refused for
/// this reason; None for a reason that no event is refused for, or that isn't one of such events.
pub fn obstacle_to(
    nodes: &[NodeSpec],
    events: &[Event],
    event: &Event,
    why: WorldRefusal,
) -> Option<Obstacle>
    ensures value { result ≡ obstacle_of nodes.now (reverse events.now) event.now why }
    // Of an event that isn't accepted it is never silent.
    ensures met { IsMet nodes.now (reverse events.now) event.now why }
{
    first_obstacle(nodes, events, event, why)
}

/// What a refusal for this reason met.
fn first_obstacle(
    nodes: &[NodeSpec],
    events: &[Event],
    event: &Event,
    why: WorldRefusal,
) -> Option<Obstacle>
    ensures { result ≡ obstacle_of nodes.now (reverse events.now) event.now why }
{
    match why {
        WorldRefusal::NoNode => Some(Obstacle::NoNode {
            name: missing_name(nodes, event),
        }),
        WorldRefusal::WrongKind => kind_obstacle(nodes, event),
        WorldRefusal::NoCopy => Some(copy_obstacle(events, event.named_copy()?)),
        WorldRefusal::NoTransit => Some(stay_obstacle(
            events,
            event.node(),
            event.named_transit()?,
        )),
        WorldRefusal::ReadingOutOfRange => clock_obstacle(events, event),
        WorldRefusal::NothingWaiting => waiting_obstacle(events, event),
        WorldRefusal::SameName | WorldRefusal::SameIdentity | WorldRefusal::Memory => None,
    }
}

/// The name that no node has.
fn missing_name(nodes: &[NodeSpec], event: &Event) -> Name
    ensures { result ≡ missing_name nodes.now event.now }
{
    let node = event.node();
    match event.named_master() {
        Some(master) if kind_named(nodes, node).is_some() => master,
        _ => node,
    }
}

/// What the nodes are at which an event happens, and that it names.
fn kind_obstacle(nodes: &[NodeSpec], event: &Event) -> Option<Obstacle>
    ensures { result ≡ kinds_met nodes.now event.now }
{
    let kind = kind_named(nodes, event.node())?;
    let master = match event.named_master() {
        Some(master) => kind_named(nodes, master),
        None => None,
    };
    Some(Obstacle::OtherKind { kind, master })
}

/// Why no copy goes by this number.
fn copy_obstacle(events: &[Event], number: u64) -> Obstacle
    ensures { result ≡ copy_met (reverse events.now) number }
{
    match event_numbered(events, number) {
        Some(event) => Obstacle::SentNothing { number, event },
        None => Obstacle::NoEvent { number },
    }
}

/// Why no message entered a clock by the event of this number.
fn enter_obstacle(events: &[Event], number: u64) -> Obstacle
    ensures { result ≡ enter_met (reverse events.now) number }
{
    match event_numbered(events, number) {
        Some(event) => Obstacle::NoEnter { number, event },
        None => Obstacle::NoEvent { number },
    }
}

/// Whether a message entered this clock by the event of this number.
fn is_entered(events: &[Event], clock: Name, number: u64) -> bool
    ensures { result ≡ is_entered_at (reverse events.now) clock number }
{
    match event_numbered(events, number) {
        Some(event) => event.entered_copy().is_some() && event.node() == clock,
        None => false,
    }
}

/// Why no message that entered by the event of this number is in this clock.
fn stay_obstacle(events: &[Event], clock: Name, entered: u64) -> Obstacle
    ensures { result ≡ stay_met (reverse events.now) clock entered }
{
    if !is_entered(events, clock, entered) {
        return enter_obstacle(events, entered);
    }
    match Sought::Leave(entered).newest(events) {
        Some(left) => Obstacle::LeftAlready {
            entered,
            left: left.number,
        },
        None => enter_obstacle(events, entered),
    }
}

/// Why the clock of the node of an event would read no moment.
fn clock_obstacle(events: &[Event], event: &Event) -> Option<Obstacle>
    ensures { result ≡ clock_met (reverse events.now) event.now }
{
    if let Some(difference) = event.named_difference() {
        return Some(Obstacle::TooFar { difference });
    }
    let set = Sought::Step(event.node()).newest(events)?;
    let difference = set.event.named_difference()?;
    Some(Obstacle::ClockSet {
        set: set.number,
        difference,
    })
}

/// Why nothing waits for an event.
fn waiting_obstacle(events: &[Event], event: &Event) -> Option<Obstacle>
    ensures { result ≡ waiting_met (reverse events.now) event.now }
{
    match event {
        Event::Follow { node } => sync_obstacle(events, *node),
        Event::Stamped { node } => delay_req_obstacle(events, *node),
        _ => None,
    }
}

/// Why no Sync of this master waits for its Follow_Up.
fn sync_obstacle(events: &[Event], master: Name) -> Option<Obstacle>
    ensures { result ≡ sync_met (reverse events.now) master }
{
    let Some(NumberedEvent { number, event }) = Sought::SyncOrFollowUp(master).newest(events) else {
        return Some(Obstacle::NoSync);
    };
    if event.is_one_step_sync() {
        return Some(Obstacle::OneStepSync { sync: number });
    }
    if !event.is_follow() {
        return None;
    }
    match Sought::TwoStepSync(master).newest(events) {
        Some(sync) => Some(Obstacle::FollowUpSent {
            sync: sync.number,
            follow_up: number,
        }),
        None => Some(Obstacle::NoSync),
    }
}

/// Why no Delay_Req of this slave waits for its departure time.
fn delay_req_obstacle(events: &[Event], slave: Name) -> Option<Obstacle>
    ensures { result ≡ request_met (reverse events.now) slave }
{
    let Some(delay_req) = Sought::DelayReq(slave).newest(events) else {
        return Some(Obstacle::NoDelayReq);
    };
    let told = Sought::Departure(slave).newest(events)?;
    Some(Obstacle::DepartureTold {
        delay_req: delay_req.number,
        told: told.number,
    })
}
