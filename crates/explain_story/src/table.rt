//! The lines of a report, for a person: when its messages departed, were in clocks and arrived.

use exchange_check::{Checker, Exchange, ExchangeLine, Leg, Stay};
use explain_words::{Length, Moment, signed};
use network_model::Report;
use ptp_units::ScaledTime;
use std::alloc::AllocError;
use std::fmt;
use std::fmt::{Display, Formatter};

/// How many characters the columns of a report's moments have.
#[derive(Clone, Copy)]
struct Columns {
    event: usize,
    line: usize,
    node: usize,
    moment: usize,
}

impl Columns {
    /// The widest entries of the four moments.
    fn of(nodes: u64, exchange: &Exchange) -> Columns {
        let mut widest = Columns {
            event: 0,
            line: 0,
            node: 0,
            moment: 0,
        };
        for leg in [&exchange.sync, &exchange.request] {
            for at in [&leg.departed, &leg.arrived] {
                let columns = Columns::at(nodes, at);
                widest = Columns {
                    event: widest.event.max(columns.event),
                    line: widest.line.max(columns.line),
                    node: widest.node.max(columns.node),
                    moment: widest.moment.max(columns.moment),
                };
            }
        }
        widest
    }

    /// The entries of one moment.
    fn at(nodes: u64, at: &ExchangeLine) -> Columns {
        Columns {
            event: digits(at.number),
            line: digits(line_of(nodes, at)),
            node: at.event.node().text().len(),
            moment: moment_width(at.reading),
        }
    }
}

/// How many digits a number has in decimal.
fn digits(number: u64) -> usize {
    match number.checked_ilog10() {
        Some(power) => (power as usize).saturating_add(1),
        None => 1,
    }
}

/// How many characters a moment has.
fn moment_width(time: ScaledTime) -> usize {
    let (timestamp, fraction) = time.split();
    let whole = digits(timestamp.seconds()).saturating_add(".000000000".len());
    match fraction {
        0 => whole,
        _ => whole
            .saturating_add(" + /65536 ns".len())
            .saturating_add(digits(u64::from(fraction))),
    }
}

/// So many blanks.
#[derive(Clone, Copy)]
struct Blanks(usize);

impl Blanks {
    /// Those that an entry leaves of its column.
    fn after(column: usize, entry: usize) -> Blanks {
        Blanks(column.saturating_sub(entry))
    }
}

impl Display for Blanks {
    fn fmt<W: fmt::Write>(&self, f: &mut Formatter<W>) -> fmt::Result {
        for _ in 0..self.0 {
            f.write_str(" ")?;
        }
        Ok(())
    }
}

/// A moment of the mechanism: its name, and the line that tells it.
#[derive(Clone, Copy)]
struct Stamp<'a> {
    name: &'static str,
    at: &'a ExchangeLine,
    /// How many nodes stand before the first event.
    nodes: u64,
    columns: Columns,
}

impl Display for Stamp<'_> {
    fn fmt<W: fmt::Write>(&self, f: &mut Formatter<W>) -> fmt::Result {
        let Stamp {
            name,
            at,
            nodes,
            columns,
        } = *self;
        let own = Columns::at(nodes, at);
        write!(
            f,
            "  {name}  event {}{}  line {}{}  {}{}  {}{}",
            Blanks::after(columns.event, own.event),
            at.number,
            Blanks::after(columns.line, own.line),
            line_of(nodes, at),
            at.event.node().text(),
            Blanks::after(columns.node, own.node),
            Moment(at.reading),
            Blanks::after(columns.moment, own.moment)
        )
    }
}

/// The line of the input, counted from 1.
fn line_of(nodes: u64, at: &ExchangeLine) -> u64 {
    nodes.saturating_add(at.number).saturating_add(1)
}

/// How long a message was in a clock, by its readings.
fn length_of(stay: &Stay) -> i128 {
    stay.left
        .reading
        .signed_units()
        .saturating_sub(stay.entered.reading.signed_units())
}

/// Appends the stays of a message in clocks, the first one first.
fn push_stays(text: &mut String, nodes: u64, leg: &Leg) -> Result<(), AllocError> {
    if let Some(earlier) = leg.earlier {
        write!(
            text,
            "      before these in clocks {}\n",
            Length(signed(earlier))
        )?;
    }
    for stay in leg.stays.iter().rev().flatten() {
        write!(
            text,
            "      {} to {}  line {}, {}  {} in the clock {}\n",
            stay.entered.number,
            stay.left.number,
            line_of(nodes, &stay.entered),
            line_of(nodes, &stay.left),
            stay.left.event.node().text(),
            Length(length_of(stay))
        )?;
    }
    Ok(())
}

/// What a clock read at the arrival, less what another read at the departure, less the residence.
fn elapsed(leg: &Leg) -> i128 {
    leg.arrived
        .reading
        .signed_units()
        .saturating_sub(leg.departed.reading.signed_units())
        .saturating_sub(signed(leg.residence))
}

/// How the letters of a journey are called.
#[derive(Clone, Copy)]
struct Letters {
    departed: &'static str,
    arrived: &'static str,
    bracket: &'static str,
    message: &'static str,
}

const SYNC: Letters = Letters {
    departed: "t1",
    arrived: "t2",
    bracket: "a",
    message: "Sync",
};

const REQUEST: Letters = Letters {
    departed: "t3",
    arrived: "t4",
    bracket: "b",
    message: "Delay_Req",
};

/// An event that tells when a message departed, and the event that sent this message, where there is one.
#[derive(Clone, Copy)]
struct Telling {
    event: u64,
    sent: Option<u64>,
}

/// The Follow_Up, which tells of the last two-step Sync before it.
fn follow_up(checker: &Checker, exchange: &Exchange) -> Option<Telling> {
    let event = exchange.follow?;
    let sent = match checker.line_at(event) {
        Some(line) => line.last_sync,
        None => None,
    };
    Some(Telling { event, sent })
}

/// The event by which the slave learned when the Delay_Req of the report departed.
fn stamped(report: &Report, exchange: &Exchange) -> Option<Telling> {
    Some(Telling {
        event: exchange.stamped?,
        sent: Some(report.request_tag),
    })
}

/// Appends which event tells when a message departed, or of which other message it tells.
fn push_told(
    text: &mut String,
    checker: &Checker,
    message: &'static str,
    departed: u64,
    telling: Telling,
) -> Result<(), AllocError> {
    let Telling { event, sent } = telling;
    if sent == Some(departed) {
        return write!(text, "; told by event {event}");
    }
    let other = match sent {
        Some(sent) => checker.line_at(sent),
        None => None,
    };
    match other {
        Some(line) => write!(
            text,
            "; event {event} tells when {message} {} did",
            line.sequence.0
        ),
        None => write!(text, "; event {event} tells of no {message}"),
    }
}

/// Appends the journey of a message, with the event that tells when it departed.
fn push_leg(
    text: &mut String,
    checker: &Checker,
    columns: Columns,
    letters: Letters,
    leg: &Leg,
    telling: Option<Telling>,
) -> Result<(), AllocError> {
    let Letters {
        departed,
        arrived,
        bracket,
        message,
    } = letters;
    let nodes = nodes_of(checker);
    let stamp = Stamp {
        name: departed,
        at: &leg.departed,
        nodes,
        columns,
    };
    write!(
        text,
        "{stamp}  {message} {} departs",
        leg.departed.sequence.0
    )?;
    if let Some(telling) = telling {
        push_told(text, checker, message, leg.departed.number, telling)?;
    }
    text.push('\n')?;
    push_stays(text, nodes, leg)?;
    let stamp = Stamp {
        name: arrived,
        at: &leg.arrived,
        nodes,
        columns,
    };
    let residence = Length(signed(leg.residence));
    write!(
        text,
        "{stamp}  {bracket} = {arrived} - {departed} - {residence} = {}\n",
        Length(elapsed(leg))
    )
}

/// How many nodes stand before the first event.
fn nodes_of(checker: &Checker) -> u64 {
    checker.nodes().len() as u64
}

/// Appends the journeys of the Sync and of the Delay_Req of a report, whose exchange this is.
pub(crate) fn push_exchange(
    text: &mut String,
    checker: &Checker,
    report: &Report,
    exchange: &Exchange,
) -> Result<(), AllocError> {
    let columns = Columns::of(nodes_of(checker), exchange);
    let follow = follow_up(checker, exchange);
    push_leg(text, checker, columns, SYNC, &exchange.sync, follow)?;
    let stamped = stamped(report, exchange);
    push_leg(text, checker, columns, REQUEST, &exchange.request, stamped)
}
