//! The fields of a message that a slave or a master reads, where they say something else than the message that a port or a
//! clock writes.

use datagram_text::Identity;
use event_codec::{Body, Header, PortIdentity, PortMessage, TWO_STEP};
use explain_words::{Length, Moment};
use ptp_units::{ScaledTime, Timestamp};
use std::fmt;
use std::fmt::{Display, Formatter};
use trace_model::Field;

/// A correction that is too big for its field, in units of 2^-16 ns (IEEE 1588-2019, 13.3.2.9).
const TOO_BIG: i64 = i64::MAX;

/// What messageType says.
#[derive(Clone, Copy, PartialEq, Eq)]
enum Kind {
    Sync,
    DelayReq,
    FollowUp,
    DelayResp,
}

/// What a field says.
#[derive(Clone, Copy, PartialEq, Eq)]
enum Value {
    Type(Kind),
    Number(u16),
    /// In units of 2^-16 ns.
    Correction(i64),
    Port(PortIdentity),
    /// The timestamp of a message of this type.
    Time(Kind, Timestamp),
}

/// How many rows there are in which fields are counted: one for each, and of the timestamp one for each of its names.
pub(crate) const ROWS: usize = Field::ALL.len() + 2;

/// A field that is read and says something else than it is to say.
#[derive(Clone, Copy)]
pub(crate) struct WrongField {
    /// The row in which it is counted, in the order of octets.
    pub(crate) row: usize,
    pub(crate) name: &'static str,
    found: Value,
    wanted: Value,
}

/// What is wrong with a field in a message that was found, beside the one that is to be written: nothing where nobody reads it
/// there, or where the other one hasn't got it.
pub(crate) fn wrong_in(
    field: Field,
    found: &PortMessage,
    wanted: &PortMessage,
) -> Option<WrongField> {
    if !field.is_read(&found.message()) {
        return None;
    }
    let wrong = WrongField {
        row: row_of(field, &found.body),
        name: field.name_in(&found.body),
        found: value_in(field, found)?,
        wanted: value_in(field, wanted)?,
    };
    let is_wrong = wrong.found != wrong.wanted && wrong.found.is_beside(&wrong.wanted);
    if is_wrong { Some(wrong) } else { None }
}

/// The row of a field, as a message with this body has it.
fn row_of(field: Field, body: &Body) -> usize {
    let (row, timestamp) = (field as usize, Field::Timestamp as usize);
    let behind = match body {
        Body::Sync { .. } | Body::DelayReq { .. } => 0,
        Body::FollowUp { .. } => 1,
        Body::DelayResp { .. } => 2,
    };
    if row < timestamp {
        row
    } else if row == timestamp {
        row.saturating_add(behind)
    } else {
        row.saturating_add(2)
    }
}

/// What a field says that is read, in a message that has it.
fn value_in(field: Field, message: &PortMessage) -> Option<Value> {
    let PortMessage { header, body } = message;
    match (field, body) {
        (Field::MessageType, _) => Some(Value::Type(Kind::of(body))),
        (Field::DomainNumber, _) => Some(Value::Number(u16::from(header.domain))),
        (Field::TwoStepFlag, Body::Sync { .. }) => {
            Some(Value::Number(u16::from(is_two_step(header))))
        }
        (Field::Correction, _) => Some(Value::Correction(header.correction.0)),
        (Field::SourcePort, _) => Some(Value::Port(header.source)),
        (Field::SequenceId, _) => Some(Value::Number(header.sequence.0)),
        (Field::Timestamp, _) => Some(Value::Time(Kind::of(body), body.timestamp())),
        (Field::RequestingPort, Body::DelayResp { requesting, .. }) => {
            Some(Value::Port(*requesting))
        }
        _ => None,
    }
}

impl Kind {
    /// The type of a message with this body.
    fn of(body: &Body) -> Kind {
        match body {
            Body::Sync { .. } => Kind::Sync,
            Body::DelayReq { .. } => Kind::DelayReq,
            Body::FollowUp { .. } => Kind::FollowUp,
            Body::DelayResp { .. } => Kind::DelayResp,
        }
    }

    /// Its name.
    fn name(self) -> &'static str {
        match self {
            Kind::Sync => "Sync",
            Kind::DelayReq => "Delay_Req",
            Kind::FollowUp => "Follow_Up",
            Kind::DelayResp => "Delay_Resp",
        }
    }
}

/// Whether the twoStepFlag is set (IEEE 1588-2019, 13.3.2.8).
fn is_two_step(header: &Header) -> bool {
    header.flags[0] & TWO_STEP[0] != 0
}

/// The message that is to be written, but for what the found one says in fields that are read.
pub(crate) fn with_read_of(wanted: &PortMessage, found: &PortMessage) -> PortMessage {
    let others = wanted.header.flags[0] & !TWO_STEP[0];
    let two_step = match &wanted.body {
        Body::Sync { .. } => found.header.flags[0],
        _ => wanted.header.flags[0],
    };
    let header = Header {
        domain: found.header.domain,
        flags: [others | (two_step & TWO_STEP[0]), wanted.header.flags[1]],
        correction: found.header.correction,
        source: found.header.source,
        sequence: found.header.sequence,
        ..wanted.header
    };
    let body = match (&wanted.body, &found.body) {
        (Body::Sync { .. }, Body::Sync { .. }) if is_two_step(&header) => wanted.body,
        (Body::DelayReq { .. }, Body::DelayReq { .. }) => wanted.body,
        _ => found.body,
    };
    PortMessage { header, body }
}

impl Value {
    /// Whether it can be said beside another one: of times, whether they are of messages of one type.
    fn is_beside(&self, other: &Value) -> bool {
        match (self, other) {
            (Value::Time(one, _), Value::Time(other, _)) => one == other,
            _ => true,
        }
    }

    /// By how much it is more than another one, in units of 2^-16 ns, where both are times or corrections that can be said.
    fn excess(&self, other: &Value) -> Option<i128> {
        Some(self.units()?.saturating_sub(other.units()?))
    }

    /// In units of 2^-16 ns, where it is a time or a correction that can be said.
    fn units(&self) -> Option<i128> {
        match self {
            Value::Correction(TOO_BIG) => None,
            Value::Correction(units) => Some(i128::from(*units)),
            Value::Time(_, timestamp) => Some(ScaledTime::join(*timestamp, 0).signed_units()),
            Value::Type(_) | Value::Number(_) | Value::Port(_) => None,
        }
    }
}

impl Display for Value {
    fn fmt<W: fmt::Write>(&self, f: &mut Formatter<W>) -> fmt::Result {
        match self {
            Value::Type(kind) => f.write_str(kind.name()),
            Value::Number(number) => write!(f, "{number}"),
            Value::Correction(TOO_BIG) => f.write_str("too big"),
            Value::Correction(units) => write!(f, "{}", Length(i128::from(*units))),
            Value::Port(identity) => write!(f, "{}", Identity(identity)),
            Value::Time(_, timestamp) => write!(f, "{}", Moment(ScaledTime::join(*timestamp, 0))),
        }
    }
}

impl WrongField {
    /// By how many units of 2^-16 ns it says too much, or below 0 too little, where it is a time or a correction that can be said.
    pub(crate) fn excess(&self) -> Option<i128> {
        self.found.excess(&self.wanted)
    }
}

impl Display for WrongField {
    fn fmt<W: fmt::Write>(&self, f: &mut Formatter<W>) -> fmt::Result {
        write!(
            f,
            "{} is {}; wanted is {}",
            self.name, self.found, self.wanted
        )?;
        match self.excess() {
            None => Ok(()),
            Some(excess) if excess < 0 => {
                write!(f, ", {} more", Length(excess.saturating_neg()))
            }
            Some(excess) => write!(f, ", {} less", Length(excess)),
        }
    }
}
