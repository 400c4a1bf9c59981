ghost use Rattle.std.specs.Prelude.{◌≡◌, ◌<◌};
ghost use Rattle.ptp_units.specs.Moment.{bound};
ghost use Rattle.slave_port.specs.Exchange.{age};

use ptp_units::{ScaledTime, Seq};

/// What a report was made of: the four times of the mechanism, and what they were corrected by
/// (IEEE 1588-2019, 11.3). The corrections are in 2^-16 ns. Twice offsetFromMaster is `a - b`, and twice
/// meanPathDelay `a + b`, of `a = t2 - (t1 + follow_correction) - sync_correction` and
/// `b = t4 - response_correction - t3`.
#[derive(Clone, Copy, Debug, PartialEq, Eq)]
pub struct LastExchange {
    /// When the Sync left, by the master's clock: preciseOriginTimestamp of its Follow_Up, or
    /// originTimestamp where it is one-step. It is whole nanoseconds; `follow_correction` has the rest.
    pub t1: ScaledTime,
    /// When the Sync arrived, by the slave's clock.
    pub t2: ScaledTime,
    /// When the Delay_Req left, by the slave's clock.
    pub t3: ScaledTime,
    /// When the Delay_Req arrived, by the master's clock: receiveTimestamp of the Delay_Resp. It is whole
    /// nanoseconds; `response_correction` has the rest.
    pub t4: ScaledTime,
    /// The Sync's correction.
    pub sync_correction: i64,
    /// The Follow_Up's correction, 0 where the Sync is one-step.
    pub follow_correction: i64,
    /// The Delay_Resp's correction.
    pub response_correction: i64,
    /// The Sync's sequenceId.
    pub sync_number: Seq,
    /// The Delay_Req's sequenceId.
    pub request_number: Seq,
}

impl LastExchange {
    /// How much older the older half is than the newer one, in 2^-16 ns: the time between `t2` and `t3`,
    /// whichever is later. It is by the slave's clock, so a clock that was set between them shows in it.
    /// Offset and path delay are as good as both clocks ran alike for that long.
    pub fn age(&self) -> u128
        ensures value { result ≡ age self.now }
        ensures within { result < bound }
    {
        self.t2.value().abs_diff(self.t3.value())
    }
}
