//! What breaks 705 and 707, in a sentence: a reading that isn't that of its clock, or a message that was in clocks for too
//! long.
ghost use Rattle.std.specs.Prelude.{◌≡◌, ◌-◌, ◌^◌, ◌-ℤ◌, pos, Some};
ghost use Rattle.explain_findings.specs.Known.{IsNoted, lines_of};
ghost use Rattle.explain_findings.specs.Misread.{difference_in, difference_set, fall_at, fall_in, fall_text, misread_at, misread_text};
ghost use Rattle.explain_findings.specs.Misread.{moment_in, of_clocks_text, read_in};
ghost use Rattle.explain_findings.specs.Misread.{reading_at, reading_text, setter_at, sum_of, too_long_at, too_long_text, true_moment_at, wrong_reading};

use crate::heard::name_of;
use crate::known::{Known, Named, Place};
use exchange_check::{Exchange, Leg, Part, WrongReading};
use explain_words::{Length, Moment, signed};
use network_model::Event;
use ptp_units::ScaledTime;
use std::fmt;
use std::fmt::{Display, Formatter};

/// What a clock is said to have read, and the true moment.
#[derive(Clone, Copy)]
pub struct Reading {
    read: Option<ScaledTime>,
    at: Option<ScaledTime>,
}

/// A reading that isn't that of its clock, which an event set to differ by so much.
#[derive(Clone, Copy)]
pub struct Misread {
    named: Named,
    reading: Reading,
    wanted: Length,
    set: Option<Place>,
}

/// A clock read so much less as a message left than as it entered.
#[derive(Clone, Copy)]
pub struct Fall {
    less: Length,
    left: Named,
    entered: Place,
}

/// A message was in clocks for so long. What a one-step Sync departs with is in its correction, too.
#[derive(Clone, Copy)]
pub struct TooLong {
    part: Part,
    sum: Length,
    is_one_step: bool,
}

/// By how much the first of two moments is later, in units of 2^-16 ns.
fn difference(one: ScaledTime, other: ScaledTime) -> i128
    ensures { result ≡ pos one -ℤ pos other }
{
    one.signed_units() - other.signed_units()
}

impl Display for Reading {
    ghost output = { λ reading. Some (reading_text reading.read reading.at) };

    fn fmt<W: fmt::Write>(&self, f: &mut Formatter<W>) -> fmt::Result {
        match (self.read, self.at) {
            (Some(read), Some(at)) => write!(
                f,
                "read is {}, the true moment is {}, and they differ by {}",
                Moment(read),
                Moment(at),
                Length(difference(read, at))
            ),
            (Some(read), None) => write!(f, "read is {}", Moment(read)),
            (None, Some(at)) => write!(f, "no reading, the true moment is {}", Moment(at)),
            (None, None) => f.write_str("no reading"),
        }
    }
}

impl Display for Misread {
    ghost output = { λ misread. Some (misread_text misread) };

    fn fmt<W: fmt::Write>(&self, f: &mut Formatter<W>) -> fmt::Result {
        let Misread {
            named,
            reading,
            wanted,
            set,
        } = self;
        match set {
            Some(set) => write!(f, "{named}: {reading}; wanted is {wanted}, which {set} set"),
            None => write!(
                f,
                "{named}: {reading}; wanted is {wanted}, since no event set the clock"
            ),
        }
    }
}

impl Display for Fall {
    ghost output = { λ fall. Some (fall_text fall) };

    fn fmt<W: fmt::Write>(&self, f: &mut Formatter<W>) -> fmt::Result {
        write!(
            f,
            "{}: the clock reads {} less than at {}; wanted is no less",
            self.left, self.less, self.entered
        )
    }
}

impl Display for TooLong {
    ghost output = { λ long. Some (too_long_text long) };

    fn fmt<W: fmt::Write>(&self, f: &mut Formatter<W>) -> fmt::Result {
        write!(
            f,
            "the {} is to have {} in its correctionField, {}; it can say less than {}",
            name_of(self.part),
            self.sum,
            of_clocks(self.is_one_step),
            too_big()
        )
    }
}

/// A correctionField from here on says that it is too big.
fn too_big() -> Length
    ensures { result.0 ≡ pos (2 ^ 63 - 1) }
{
    Length(i128::from(i64::MAX))
}

/// Of what a message has too much in its correctionField.
fn of_clocks(is_one_step: bool) -> &'static str
    ensures { result.now ≡ of_clocks_text is_one_step }
{
    if is_one_step {
        "of clocks and of its departure"
    } else {
        "of clocks"
    }
}

/// The true moment of an event.
fn moment_in(event: Option<Event>) -> Option<ScaledTime>
    ensures { result ≡ moment_in event }
{
    match event {
        Some(event) => event.true_moment(),
        None => None,
    }
}

/// What is read, where it is wrong.
fn read_in(wrong: Option<WrongReading>) -> Option<ScaledTime>
    ensures { result ≡ read_in wrong }
{
    match wrong {
        Some(wrong) => wrong.reading,
        None => None,
    }
}

/// What an event set its clock to differ by.
fn difference_in(event: Option<Event>) -> Length
    ensures { result.0 ≡ difference_in event }
{
    match event {
        Some(event) => Length(event.named_difference().unwrap_or(0)),
        None => Length(0),
    }
}

/// A clock that read less as a message left than as it entered.
fn fall_in(
    before: Option<ScaledTime>,
    after: Option<ScaledTime>,
    left: Named,
    entered: Place,
) -> Option<Fall>
    ensures { result ≡ fall_in before after left entered }
{
    match (before, after) {
        (Some(before), Some(after)) => Some(Fall {
            less: Length(difference(before, after)),
            left,
            entered,
        }),
        _ => None,
    }
}

impl Known<'_> {
    /// The true moment of an event.
    fn true_moment(&self, event: u64) -> Option<ScaledTime>
        ensures { IsNoted self.now → result ≡ true_moment_at (lines_of self.now) event }
    {
        moment_in(self.event_at(event))
    }

    /// What an event is said to have read, where that is wrong.
    fn wrong_reading(&self, event: u64) -> Option<ScaledTime>
        ensures { IsNoted self.now → result ≡ wrong_reading (lines_of self.now) event }
    {
        read_in(self.evidence.wrong_reading_at(event))
    }

    /// What the event of a number set its clock to differ by; nothing where there is none.
    fn difference_set(&self, set: Option<u64>) -> Length
        ensures { IsNoted self.now → result.0 ≡ difference_set (lines_of self.now) set }
    {
        match set {
            Some(set) => difference_in(self.event_at(set)),
            None => Length(0),
        }
    }

    /// Where the event is that set a clock.
    fn setter(&self, set: Option<u64>) -> Option<Place>
        ensures { result ≡ setter_at (lines_of self.now) set }
    {
        match set {
            Some(set) => Some(self.place(set)),
            None => None,
        }
    }

    /// A reading that isn't that of its clock, which this event set.
    pub(crate) fn misread(&self, event: u64, set: Option<u64>) -> Misread
        ensures { IsNoted self.now → result ≡ misread_at (lines_of self.now) event set }
    {
        Misread {
            named: self.named(event),
            reading: Reading {
                read: self.wrong_reading(event),
                at: self.true_moment(event),
            },
            wanted: self.difference_set(set),
            set: self.setter(set),
        }
    }

    /// What the line of this number says that the clock read, where it counts.
    fn reading(&self, number: u64) -> Option<ScaledTime>
        ensures { result ≡ reading_at (lines_of self.now) number }
    {
        match self.checker.line_at(number) {
            Some(line) => Some(line.reading),
            None => None,
        }
    }

    /// A clock read less as a message left than as it entered.
    pub(crate) fn fall(&self, entered: u64, left: u64) -> Option<Fall>
        ensures { IsNoted self.now → result ≡ fall_at (lines_of self.now) entered left }
    {
        fall_in(
            self.reading(entered),
            self.reading(left),
            self.named(left),
            self.place(entered),
        )
    }
}

/// What a message is to have in its correctionField, at most 2^127 - 1 units.
fn sum_of(leg: &Leg) -> Length
    ensures { result.0 ≡ sum_of leg.now }
{
    let fraction = if leg.departed.event.is_one_step_sync() {
        leg.departed.reading.split().1
    } else {
        0
    };
    Length(signed(leg.residence.saturating_add(u128::from(fraction))))
}

/// How long a message was in clocks, of the exchange of a report.
pub(crate) fn too_long(exchange: &Option<Exchange>, part: Part) -> Option<TooLong>
    ensures { result ≡ too_long_at exchange.now part }
{
    match exchange {
        Some(exchange) => {
            let leg = match part {
                Part::Sync => &exchange.sync,
                _ => &exchange.request,
            };
            Some(TooLong {
                part,
                sum: sum_of(leg),
                is_one_step: leg.departed.event.is_one_step_sync(),
            })
        }
        None => None,
    }
}
