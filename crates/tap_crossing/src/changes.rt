ghost use Rattle.std.specs.Prelude.{◌≡◌};
ghost use Rattle.tap_crossing.specs.Changes.{is_same_timestamp, no_changes, is_any, changes_between, changes_of};

use crate::sighting::Sighting;
use ptp_units::Timestamp;

/// Which fields of a message are others at one tap than at the other, beside its correctionField. Those by which it is
/// followed are the same at both, and what stands behind its fields isn't looked at.
#[derive(Clone, Copy, Debug, PartialEq, Eq)]
pub struct Changes {
    /// majorSdoId or minorSdoId.
    pub sdo: bool,
    /// minorVersionPTP.
    pub minor_version: bool,
    /// flagField.
    pub flags: bool,
    /// messageTypeSpecific.
    pub specific: bool,
    /// controlField.
    pub control: bool,
    /// logMessageInterval.
    pub log: bool,
    /// Its timestamp, whatever its name in this type of message.
    pub timestamp: bool,
}

impl Changes {
    /// No field is another.
    pub(crate) fn none() -> Changes
        ensures { result ≡ no_changes }
    {
        Changes {
            sdo: false,
            minor_version: false,
            flags: false,
            specific: false,
            control: false,
            log: false,
            timestamp: false,
        }
    }

    /// Whether any field differs between the taps.
    pub fn is_any(&self) -> bool
        ensures { result ≡ is_any self.now }
    {
        self.sdo
            || self.minor_version
            || self.flags
            || self.specific
            || self.control
            || self.log
            || self.timestamp
    }
}

pub(crate) fn is_same_timestamp(a: Timestamp, b: Timestamp) -> bool
    ensures { result ≡ is_same_timestamp a b }
{
    a.seconds() == b.seconds() && a.nanos() == b.nanos()
}

/// Which fields differ of two messages.
pub(crate) fn changes_between(one: &Sighting, other: &Sighting) -> Changes
    ensures { result ≡ changes_between one.now other.now }
{
    let (these, those) = (&one.fields, &other.fields);
    Changes {
        sdo: these.major_sdo != those.major_sdo || these.minor_sdo != those.minor_sdo,
        minor_version: these.minor_version != those.minor_version,
        flags: these.flags != those.flags,
        specific: these.specific != those.specific,
        control: these.control != those.control,
        log: these.log != those.log,
        timestamp: !is_same_timestamp(one.timestamp, other.timestamp),
    }
}

/// The same of the messages that are needed, none where one of them isn't.
pub(crate) fn changes_of(one: Option<Sighting>, other: Option<Sighting>) -> Changes
    ensures { result ≡ changes_of one other }
{
    match (one, other) {
        (Some(one), Some(other)) => changes_between(&one, &other),
        _ => Changes::none(),
    }
}
