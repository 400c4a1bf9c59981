//! What breaks 704, in a sentence: where the journey of a message stops, or which stay was left twice.
ghost use Rattle.std.specs.Prelude.{◌≡◌, Some};
ghost use Rattle.explain_findings.specs.Known.{IsNoted, lines_of};
ghost use Rattle.explain_findings.specs.Broken.{number_of, other_end, sends, stops_at};
ghost use Rattle.explain_findings.specs.Broken.{broken_text, end_at, end_of, end_text, is_leave, left_twice_at};

use crate::heard::name_of;
use crate::known::{Known, Named, Place};
use exchange_check::{Lack, Part};
use network_model::Event;
use std::fmt;
use std::fmt::{Display, Formatter};

/// Why a journey stops at an event.
#[derive(Clone, Copy)]
pub enum End {
    /// The event names the one of this number, which isn't before it.
    NotBefore(u64),
    /// It names this one.
    Names(Named),
    /// It names this one, by which the message didn't enter this clock.
    NoEnter(Named),
    /// What arrives there was sent by this one.
    Sent(Named),
    /// It names this one, which sent no such message.
    SentNothing(Named),
}

/// What breaks 704.
#[derive(Clone, Copy)]
pub enum Broken {
    /// The journey of a message stops at an event.
    Stops(Part, Named, End),
    /// A message entered by an event, and left by two.
    LeftTwice(Part, Place, Place, Named),
}

impl Display for End {
    ghost output = { λ end. Some (end_text end) };

    fn fmt<W: fmt::Write>(&self, f: &mut Formatter<W>) -> fmt::Result {
        match self {
            End::NotBefore(number) => {
                write!(f, "it names event {number}; wanted is one before it")
            }
            End::Names(named) => write!(f, "it names {named}"),
            End::NoEnter(named) => {
                write!(f, "it names {named}, which is no enter of this clock")
            }
            End::Sent(named) => write!(f, "what arrives there was sent by {named}"),
            End::SentNothing(named) => { write!(f, "it names {named}, which sent no such message") }
        }
    }
}

impl Display for Broken {
    ghost output = { λ broken. Some (broken_text broken) };

    fn fmt<W: fmt::Write>(&self, f: &mut Formatter<W>) -> fmt::Result {
        match self {
            Broken::Stops(part, by, end) => write!(
                f,
                "the journey of the {} stops at {by}: {end}",
                name_of(*part)
            ),
            Broken::LeftTwice(part, entered, first, second) => write!(
                f,
                "the {} entered a clock by {entered}, and left it twice: by {first} and by {second}",
                name_of(*part)
            ),
        }
    }
}

/// Whether an event is there, and a message left a clock by it.
fn is_leave(event: &Option<Event>) -> bool
    ensures { result ≡ is_leave event.now }
{
    match event {
        Some(event) => event.named_transit().is_some(),
        None => false,
    }
}

/// Whether an event is there, and sent a Sync or a Delay_Req.
fn sends(event: &Option<Event>) -> bool
    ensures { result ≡ sends event.now }
{
    match event {
        Some(event) => event.draws_sync() || event.is_request(),
        None => false,
    }
}

/// The number that lacks this.
pub(crate) fn number_of(lack: Lack) -> u64
    ensures { result ≡ number_of lack }
{
    match lack {
        Lack::NotBefore(number)
        | Lack::CameToNothing(number)
        | Lack::OtherEvent(number)
        | Lack::CompletedNothing(number) => number,
    }
}

/// Why a journey stops at an event that names another one than is needed there.
fn other_end(by: &Option<Event>, named: Named) -> End
    ensures { result ≡ other_end by.now named }
{
    if is_leave(by) {
        End::NoEnter(named)
    } else if sends(&named.event) {
        End::Sent(named)
    } else {
        End::SentNothing(named)
    }
}

/// Why a journey stops at an event that names this one, which lacks this.
fn end_of(lack: Lack, by: &Option<Event>, named: Named) -> End
    ensures { result ≡ end_of lack by.now named }
{
    match lack {
        Lack::NotBefore(number) => End::NotBefore(number),
        Lack::CameToNothing(_) => End::Names(named),
        Lack::OtherEvent(_) => other_end(by, named),
        Lack::CompletedNothing(_) => End::Names(named),
    }
}

impl Known<'_> {
    /// Why a journey stops at the event of a number, which lacks this.
    fn end(&self, by: u64, lack: Lack) -> End
        ensures { IsNoted self.now → result ≡ end_at (lines_of self.now) by lack }
    {
        end_of(lack, &self.event_at(by), self.named(number_of(lack)))
    }

    /// Where the journey of a message stops.
    pub(crate) fn stops(&self, part: Part, by: u64, lack: Lack) -> Broken
        ensures { IsNoted self.now → result ≡ stops_at (lines_of self.now) part by lack }
    {
        Broken::Stops(part, self.named(by), self.end(by, lack))
    }

    /// Which stay was left twice.
    pub(crate) fn left_twice(&self, part: Part, entered: u64, first: u64, second: u64) -> Broken
        ensures { IsNoted self.now → result ≡ left_twice_at (lines_of self.now) part entered first second }
    {
        Broken::LeftTwice(
            part,
            self.place(entered),
            self.place(first),
            self.named(second),
        )
    }
}
