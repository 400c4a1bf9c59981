ghost use Rattle.std.specs.Prelude.{◌≡◌};
ghost use Rattle.event_codec.specs.Packet.{contents};
ghost use Rattle.slave_port.specs.Usable.{is_two_step};
ghost use Rattle.tap_crossing.specs.Placed.{is_slave, belongs, kind_of, place_of, needs_other, fields_of, placed};

use crate::sighting::{Fields, Kind, Place, Placed, Sighting, Tap};
use event_codec::{Body, Header, Message, PortIdentity, TWO_STEP};
use ptp_units::ScaledTime;

/// Whose messages are followed.
#[derive(Clone, Copy, Debug, PartialEq, Eq)]
pub struct Watched {
    /// domainNumber.
    pub domain: u8,
    /// Who sends the Syncs, and answers the Delay_Reqs.
    pub master: PortIdentity,
    /// Who sends the Delay_Reqs, where that is known.
    pub slave: Option<PortIdentity>,
}

impl Watched {
    /// The record and the place of a message that was met at a tap, or None where it isn't followed. Followed are a
    /// Sync or a Follow_Up of the master, a Delay_Req of the slave, and a Delay_Resp of the master to the slave, of the
    /// domain.
    pub fn placed(
        &self,
        tap: Tap,
        line: u64,
        time: ScaledTime,
        message: &Message<'_>,
    ) -> Option<Placed>
        ensures { result ≡ placed self.now tap line time (contents message.now) }
    {
        let Message { header, body, .. } = message;
        if header.domain != self.domain || !self.belongs(header.source, body) {
            return None;
        }
        Some(Placed {
            kind: kind_of(body),
            number: header.sequence,
            place: place_of(tap, body),
            sighting: Sighting {
                line,
                time,
                correction: header.correction,
                timestamp: body.timestamp(),
                needs_other: needs_other(header, body),
                fields: fields_of(header),
            },
        })
    }

    fn is_slave(&self, identity: PortIdentity) -> bool
        ensures { result ≡ is_slave self.now.slave identity }
    {
        match self.slave {
            Some(slave) => identity == slave,
            None => false,
        }
    }

    /// Whether a message of this source is one of those that are followed.
    fn belongs(&self, source: PortIdentity, body: &Body) -> bool
        ensures { result ≡ belongs self.now source body.now }
    {
        match body {
            Body::Sync { .. } | Body::FollowUp { .. } => source == self.master,
            Body::DelayReq { .. } => self.is_slave(source),
            Body::DelayResp { requesting, .. } => {
                source == self.master && self.is_slave(*requesting)
            }
        }
    }
}

/// Of which kind the record of a message is.
fn kind_of(body: &Body) -> Kind
    ensures { result ≡ kind_of body.now }
{
    match body {
        Body::Sync { .. } | Body::FollowUp { .. } => Kind::Sync,
        Body::DelayReq { .. } | Body::DelayResp { .. } => Kind::DelayReq,
    }
}

/// The place of a message in its record.
fn place_of(tap: Tap, body: &Body) -> Place
    ensures { result ≡ place_of tap body.now }
{
    match (body, tap) {
        (Body::Sync { .. }, Tap::From) | (Body::DelayReq { .. }, Tap::To) => Place::First,
        (Body::Sync { .. }, Tap::To) | (Body::DelayReq { .. }, Tap::From) => Place::Second,
        (Body::FollowUp { .. } | Body::DelayResp { .. }, Tap::From) => Place::AtFrom,
        (Body::FollowUp { .. } | Body::DelayResp { .. }, Tap::To) => Place::AtTo,
    }
}

/// The fields that are compared.
fn fields_of(header: &Header) -> Fields
    ensures { result ≡ fields_of header.now }
{
    Fields {
        major_sdo: header.major_sdo,
        minor_sdo: header.minor_sdo,
        minor_version: header.minor_version,
        flags: header.flags,
        specific: header.specific,
        control: header.control,
        log: header.log,
    }
}

fn is_two_step(header: &Header) -> bool
    ensures { result ≡ is_two_step header.now }
{
    header.flags[0] & TWO_STEP[0] != 0
}

/// Whether another message tells the timestamp of this one.
fn needs_other(header: &Header, body: &Body) -> bool
    ensures { result ≡ needs_other header.now body.now }
{
    match body {
        Body::Sync { .. } => is_two_step(header),
        Body::DelayReq { .. } => true,
        Body::FollowUp { .. } | Body::DelayResp { .. } => false,
    }
}
