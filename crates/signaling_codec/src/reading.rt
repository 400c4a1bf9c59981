use event_codec::PortIdentity;
use ptp_units::{Interval, Seq, Timestamp};

/// What a slave tells of a Sync that came to it: a record of SLAVE_RX_SYNC_TIMING_DATA (IEEE 1588-2019, 16.11.4).
#[derive(Clone, Copy, Debug, PartialEq, Eq)]
pub struct SyncReading {
    /// sequenceId of the Sync.
    pub sequence: Seq,
    /// syncOriginTimestamp, t1.
    pub origin: Timestamp,
    /// totalCorrectionField, of the Sync and its Follow_Up together, in units of 2^-16 ns.
    pub correction: Interval,
    /// scaledCumulativeRateOffset, in units of 2^-41.
    pub rate: i32,
    /// syncEventIngressTimestamp, t2 by the slave's clock.
    pub ingress: Timestamp,
}

/// What a slave tells of a Delay_Req and its answer: a record of SLAVE_DELAY_TIMING_DATA_NP, which is linuxptp's own.
#[derive(Clone, Copy, Debug, PartialEq, Eq)]
pub struct DelayReading {
    /// sequenceId of the Delay_Req and of the Delay_Resp.
    pub sequence: Seq,
    /// delayOriginTimestamp, t3 by the slave's clock.
    pub departure: Timestamp,
    /// totalCorrectionField of the Delay_Resp, in units of 2^-16 ns.
    pub correction: Interval,
    /// delayResponseTimestamp, t4.
    pub receipt: Timestamp,
}

/// One of a slave's readings.
#[derive(Clone, Copy, Debug, PartialEq, Eq)]
pub enum Reading {
    /// Of a Sync.
    Sync(SyncReading),
    /// Of a Delay_Req.
    Delay(DelayReading),
}

/// One of a slave's readings, and whose messages it is of.
#[derive(Clone, Copy, Debug, PartialEq, Eq)]
pub struct OwnReading {
    /// sourcePortIdentity of the master.
    pub master: PortIdentity,
    /// What the slave tells.
    pub reading: Reading,
}
