use event_codec::Nibble;
use ptp_units::{Interval, ScaledTime, Seq, Timestamp};

/// Which of the two taps a message was met at.
#[derive(Clone, Copy, Debug, PartialEq, Eq)]
pub enum Tap {
    /// The one that a Sync meets first.
    From,
    /// The one that a Delay_Req meets first.
    To,
}

/// Whose crossing a record is of.
#[derive(Clone, Copy, Debug, PartialEq, Eq)]
pub enum Kind {
    /// A Sync, which goes from `from` to `to`, with its Follow_Up.
    Sync,
    /// A Delay_Req, which goes from `to` to `from`, with its Delay_Resp.
    DelayReq,
}

/// A place of a record.
#[derive(Clone, Copy, Debug, PartialEq, Eq)]
pub enum Place {
    /// The event message at the tap that it meets first.
    First,
    /// The event message at the other tap.
    Second,
    /// Its Follow_Up or Delay_Resp at `from`.
    AtFrom,
    /// Its Follow_Up or Delay_Resp at `to`.
    AtTo,
}

/// The fields of a message that are only compared between the taps.
#[derive(Clone, Copy, Debug, PartialEq, Eq)]
pub struct Fields {
    /// majorSdoId.
    pub major_sdo: Nibble,
    /// minorSdoId.
    pub minor_sdo: u8,
    /// minorVersionPTP.
    pub minor_version: Nibble,
    /// flagField.
    pub flags: [u8; 2],
    /// messageTypeSpecific.
    pub specific: [u8; 4],
    /// controlField.
    pub control: u8,
    /// logMessageInterval.
    pub log: i8,
}

/// What a record keeps of a message that was met.
#[derive(Clone, Copy, Debug, PartialEq, Eq)]
pub struct Sighting {
    /// Its line, or its packet.
    pub line: u64,
    /// When it was met, by the tap.
    pub time: ScaledTime,
    /// correctionField.
    pub correction: Interval,
    /// Its timestamp, whatever its name in this type of message.
    pub timestamp: Timestamp,
    /// Whether another message tells its timestamp: a Sync with twoStepFlag has a Follow_Up, and a Delay_Req
    /// a Delay_Resp.
    pub needs_other: bool,
    /// Its other fields.
    pub fields: Fields,
}

/// A message that belongs to a record.
#[derive(Clone, Copy, Debug, PartialEq, Eq)]
pub struct Placed {
    /// Of which kind the record is.
    pub kind: Kind,
    /// sequenceId, which is the record's too.
    pub number: Seq,
    /// Its place there.
    pub place: Place,
    /// What is kept of it.
    pub sighting: Sighting,
}
