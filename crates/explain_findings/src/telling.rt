//! What the messages tell that came to a slave, and which of them tells otherwise than clocks read.

use crate::known::Place;
use crate::reported::Case;
use event_codec::{Body, decode};
use exchange_check::{Exchange, ExchangeLine, Leg, Why};
use explain_words::{Length, signed};
use ptp_units::ScaledTime;
use std::alloc::AllocError;
use std::fmt;
use std::fmt::{Display, Formatter};

/// A message that came to a slave. Its times are in units of 2^-16 ns.
#[derive(Clone, Copy)]
struct Message {
    name: &'static str,
    sequence: u16,
    place: Place,
    timestamp: i128,
    correction: i128,
}

impl Display for Message {
    fn fmt<W: fmt::Write>(&self, f: &mut Formatter<W>) -> fmt::Result {
        write!(f, "{} {} ({})", self.name, self.sequence, self.place)
    }
}

impl Message {
    /// The message of an event, as it came to the slave.
    fn of(case: &Case<'_>, name: &'static str, number: u64) -> Option<Message> {
        let known = case.known;
        let octets = known.evidence.octets_at(known.checker, number)?;
        match decode(octets.as_slice()) {
            Ok((message, _)) => Some(Message {
                name,
                sequence: message.header.sequence.0,
                place: known.place(number),
                timestamp: timestamp_of(&message.body),
                correction: i128::from(message.header.correction.0),
            }),
            Err(_) => None,
        }
    }
}

/// The timestamp of a message, in units of 2^-16 ns.
fn timestamp_of(body: &Body) -> i128 {
    let timestamp = match *body {
        Body::Sync { origin } | Body::DelayReq { origin } => origin,
        Body::FollowUp { precise } => precise,
        Body::DelayResp { receive, .. } => receive,
    };
    ScaledTime::join(timestamp, 0).signed_units()
}

/// A half of a report, by the messages.
#[derive(Clone, Copy)]
struct Half<'a> {
    leg: &'a Leg,
    /// Its moment, which is told, and where that was read.
    moment: &'static str,
    read: &'a ExchangeLine,
    /// Whether the fraction of the moment is taken from the correction, in place of standing in it.
    is_taken: bool,
    /// The message that tells the moment.
    teller: Message,
    /// The Sync of a Follow_Up: their corrections count together, since a two-step clock tells its residence in the Follow_Up.
    sync: Option<Message>,
}

/// Appends which of the messages that came to the slave tell otherwise than the clocks read, and by how much: nothing of a half
/// that comes out right as a whole, and nothing where the messages aren't of one exchange.
pub fn push_otherwise(
    case: &Case<'_>,
    text: &mut String,
    exchange: &Exchange,
) -> Result<(), AllocError> {
    let reasons = case.reported.judgement.reasons.as_slice();
    if reasons.iter().any(|why| *why == Why::OtherNumber) {
        return Ok(());
    }
    for half in [sync_half(case, exchange), request_half(case, exchange)] {
        if let Some(half) = half {
            half.push(text)?;
        }
    }
    Ok(())
}

/// That of the Sync and its Follow_Up.
fn sync_half<'a>(case: &Case<'_>, exchange: &'a Exchange) -> Option<Half<'a>> {
    let leg = &exchange.sync;
    let sync = Message::of(case, "Sync", leg.arrived.event.heard_copy()?)?;
    let (teller, sync) = match exchange.follow {
        Some(follow) => (Message::of(case, "Follow_Up", follow)?, Some(sync)),
        None => (sync, None),
    };
    Some(Half {
        leg,
        moment: "t1",
        read: &leg.departed,
        is_taken: false,
        teller,
        sync,
    })
}

/// That of the Delay_Resp.
fn request_half<'a>(case: &Case<'_>, exchange: &'a Exchange) -> Option<Half<'a>> {
    let leg = &exchange.request;
    Some(Half {
        leg,
        moment: "t4",
        read: &leg.arrived,
        is_taken: true,
        teller: Message::of(case, "Delay_Resp", leg.arrived.number)?,
        sync: None,
    })
}

impl Half<'_> {
    /// By how much the moment is told later than it was read, and how much more is told of the clocks.
    fn more(&self) -> (i128, i128) {
        let fraction = i128::from(self.read.reading.split().1);
        let whole = self.read.reading.signed_units().saturating_sub(fraction);
        let later = self.teller.timestamp.saturating_sub(whole);
        let told = match self.sync {
            Some(sync) => sync.correction.saturating_add(self.teller.correction),
            None => self.teller.correction,
        };
        let more = told.saturating_sub(signed(self.leg.residence));
        if self.is_taken {
            (later, more.saturating_add(fraction))
        } else {
            (later, more.saturating_sub(fraction))
        }
    }

    /// Appends what is told otherwise of the moment and of the clocks.
    fn push(&self, text: &mut String) -> Result<(), AllocError> {
        let (later, more) = self.more();
        let teller = &self.teller;
        if later
            == if self.is_taken {
                more
            } else {
                more.saturating_neg()
            }
        {
            return Ok(());
        }
        if later != 0 {
            let side = if later < 0 { "earlier" } else { "later" };
            let node = self.read.event.node();
            let (moment, later) = (self.moment, Length(later.saturating_abs()));
            write!(
                text,
                "    {teller} tells {moment} {later} {side} than {}'s clock read\n",
                node.text()
            )?;
        }
        if more == 0 {
            return Ok(());
        }
        match self.sync {
            Some(sync) => write!(text, "    {sync} and {teller} together tell")?,
            None => write!(text, "    {teller} tells")?,
        }
        let side = if more < 0 { "less" } else { "more" };
        let more = Length(more.saturating_abs());
        write!(text, " of {more} {side} in clocks than these read\n")
    }
}
