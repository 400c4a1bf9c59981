//! Kinds of events, and the word that stands for each at `ev`.
ghost use Rattle.std.specs.Prelude.{◌≡◌};
ghost use Rattle.schedule_lines.specs.EventKind.{event_word, kind_of, kind_of_event};

use network_model::Event;

/// A kind of [`Event`].
#[derive(Clone, Copy, Debug, PartialEq, Eq)]
pub enum EventKind {
    /// A master sends a two-step Sync.
    Sync,
    /// A master sends a one-step Sync.
    SyncOne,
    /// A master sends a Follow_Up.
    Follow,
    /// A message enters a transparent clock.
    Enter,
    /// A message leaves a transparent clock.
    Leave,
    /// An event message arrives at a master or at a slave.
    Arrive,
    /// A slave is handed a general message.
    Hear,
    /// A slave sends a Delay_Req.
    Request,
    /// A slave learns when its last Delay_Req departed.
    Stamped,
    /// A slave's hold timer runs out once.
    Tick,
    /// A slave is told its present master.
    SetMaster,
    /// A node's clock is set.
    StepClock,
}

impl EventKind {
    /// All kinds, in the order in which the help has them.
    pub const ALL: [EventKind; 12] = [
        EventKind::Sync,
        EventKind::SyncOne,
        EventKind::Follow,
        EventKind::Enter,
        EventKind::Leave,
        EventKind::Arrive,
        EventKind::Hear,
        EventKind::Request,
        EventKind::Stamped,
        EventKind::Tick,
        EventKind::SetMaster,
        EventKind::StepClock,
    ];

    /// The kind that a word names; None where it names none.
    pub fn named(word: &str) -> Option<EventKind>
        ensures { result ≡ kind_of word.now }
    {
        EventKind::ALL
            .iter()
            .copied()
            .find(|kind| kind.word() == word)
    }

    /// The kind of an event.
    pub fn of(event: &Event) -> EventKind
        ensures { result ≡ kind_of_event event.now }
    {
        match event {
            Event::Sync { .. } => EventKind::Sync,
            Event::SyncOne { .. } => EventKind::SyncOne,
            Event::Follow { .. } => EventKind::Follow,
            Event::Enter { .. } => EventKind::Enter,
            Event::Leave { .. } => EventKind::Leave,
            Event::Arrive { .. } => EventKind::Arrive,
            Event::Hear { .. } => EventKind::Hear,
            Event::Request { .. } => EventKind::Request,
            Event::Stamped { .. } => EventKind::Stamped,
            Event::Tick { .. } => EventKind::Tick,
            Event::SetMaster { .. } => EventKind::SetMaster,
            Event::StepClock { .. } => EventKind::StepClock,
        }
    }

    /// The word that stands for it at `ev`.
    pub fn word(self) -> &'static str
        ensures { result.now ≡ event_word self }
    {
        match self {
            EventKind::Sync => "sync",
            EventKind::SyncOne => "syncone",
            EventKind::Follow => "follow",
            EventKind::Enter => "enter",
            EventKind::Leave => "leave",
            EventKind::Arrive => "arrive",
            EventKind::Hear => "hear",
            EventKind::Request => "request",
            EventKind::Stamped => "stamped",
            EventKind::Tick => "tick",
            EventKind::SetMaster => "setmaster",
            EventKind::StepClock => "stepclock",
        }
    }
}
