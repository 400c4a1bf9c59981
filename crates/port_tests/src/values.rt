//! Moments and ports, as tests make them.

use event_codec::{PortConfig, PortIdentity};
use ptp_units::{ScaledTime, Timestamp, UnitRefusal};

pub(crate) const MASTER: PortIdentity = PortIdentity {
    clock: [0x00, 0x11, 0x22, 0xff, 0xfe, 0x33, 0x44, 0x55],
    port: 1,
};

pub(crate) const SLAVE: PortIdentity = PortIdentity {
    clock: [0x00, 0xaa, 0xbb, 0xff, 0xfe, 0xcc, 0xdd, 0xee],
    port: 1,
};

pub(crate) const MASTER_PORT: PortConfig = PortConfig {
    identity: MASTER,
    domain: 0,
    log: 0,
};

pub(crate) const SLAVE_PORT: PortConfig = PortConfig {
    identity: SLAVE,
    domain: 0,
    log: 0,
};

/// Seconds, nanoseconds and units of 2^-16 ns.
pub(crate) type Moment = (u64, u32, u16);

/// The moment of seconds, nanoseconds and units of 2^-16 ns.
pub(crate) fn moment(seconds: u64, nanos: u32, fraction: u16) -> Result<ScaledTime, UnitRefusal> {
    Ok(ScaledTime::join(Timestamp::new(seconds, nanos)?, fraction))
}
