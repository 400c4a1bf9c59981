//! The messages that a slave's own readings stand for (IEEE 1588-2019, 16.11).

ghost use Rattle.std.specs.Prelude.{◌≡◌, [], ◌∷◌};
ghost use Rattle.signaling_codec.specs.declared.reading.Reading.TheVariants as told;
ghost use Rattle.recording_measure.specs.Own.{own_header, messages_of};

use event_codec::{Body, Header, NO_FLAGS, PortIdentity, PortMessage};
use ptp_units::{Interval, Seq, Timestamp};
use signaling_codec::{DelayReading, SyncReading};

/// logMessageInterval where none is told (IEEE 1588-2019, 13.3.2.14).
const UNTOLD: i8 = 0x7f;

/// A message, and the time at which the slave's clock met it.
#[derive(Clone, Copy)]
pub(crate) struct OwnMessage {
    pub(crate) time: Timestamp,
    pub(crate) message: PortMessage,
}

/// The header of a message that a reading stands for, by that of the Signaling that tells it.
fn own_header(
    header: &Header,
    source: PortIdentity,
    correction: Interval,
    sequence: Seq,
    control: u8,
) -> Header
    ensures { result ≡ own_header header.now source correction sequence control }
{
    Header {
        flags: NO_FLAGS,
        correction,
        source,
        sequence,
        control,
        log: UNTOLD,
        ..*header
    }
}

/// The Sync that a reading stands for, whoever read it.
pub(crate) fn sync_of(header: &Header, master: PortIdentity, reading: &SyncReading) -> OwnMessage
    ensures { (slave : PortIdentity) → result ∷ [] ≡ messages_of header.now slave master (told.Sync reading.now) }
{
    OwnMessage {
        time: reading.ingress,
        message: PortMessage {
            header: own_header(header, master, reading.correction, reading.sequence, 0),
            body: Body::Sync {
                origin: reading.origin,
            },
        },
    }
}

/// The Delay_Req and the Delay_Resp that a reading of this slave stands for.
pub(crate) fn exchange_of(
    header: &Header,
    slave: PortIdentity,
    master: PortIdentity,
    reading: &DelayReading,
) -> (OwnMessage, OwnMessage)
    ensures { result.0 ∷ result.1 ∷ [] ≡ messages_of header.now slave master (told.Delay reading.now) }
{
    let time = reading.departure;
    let request = PortMessage {
        header: own_header(header, slave, Interval(0), reading.sequence, 1),
        body: Body::DelayReq { origin: time },
    };
    let response = PortMessage {
        header: own_header(header, master, reading.correction, reading.sequence, 3),
        body: Body::DelayResp {
            receive: reading.receipt,
            requesting: slave,
        },
    };
    (
        OwnMessage {
            time,
            message: request,
        },
        OwnMessage {
            time,
            message: response,
        },
    )
}
