//! What a slave writes.

ghost use Rattle.std.specs.Prelude.{◌≡◌};
ghost use Rattle.event_codec.specs.Profile.{contents_of};
ghost use Rattle.slave_port.specs.Written.{delay_req};

use event_codec::{Body, NO_FLAGS, PortConfig, PortMessage};
use ptp_units::{Interval, Seq, Timestamp};

/// logMessageInterval of a Delay_Req (IEEE 1588-2019, 13.3.2.14).
const LOG_DELAY_REQ: i8 = 0x7f;

/// The Delay_Req of this number.
pub fn delay_req(config: &PortConfig, number: Seq) -> PortMessage
    ensures { contents_of result ≡ delay_req config.now number.0 }
{
    let header = config.header(NO_FLAGS, Interval(0), number, 1, LOG_DELAY_REQ);
    let origin = Timestamp::default();
    header.with_body(Body::DelayReq { origin })
}
