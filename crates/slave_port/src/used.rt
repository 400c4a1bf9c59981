use crate::held::{HeldFollow, HeldSync};
use ptp_units::{ScaledTime, Timestamp};
use std::marker::Model;

/// What a message is used as.
#[derive(Clone, Copy)]
pub(crate) enum Used {
    /// It is held, and completes with the newest held Follow_Up of its number.
    TwoStepSync(HeldSync),
    /// It completes by itself.
    OneStepSync(OneStepSync),
    /// It is held, and completes the newest held two-step Sync of its number.
    FollowUp(HeldFollow),
    /// It answers the newest request that is held under its number.
    DelayResp(Response),
}

/// What is used of a one-step Sync, which isn't held.
#[derive(Clone, Copy)]
pub(crate) struct OneStepSync {
    pub(crate) t2: ScaledTime,
    pub(crate) origin: Timestamp,
    pub(crate) correction: i64,
    pub(crate) tag: u64,
}

impl Model for OneStepSync {
    ghost use Rattle.slave_port.specs.Values.{OneStepValue};

    ghost Value = { OneStepValue };

    ghost view = { λ s. record { t2 = s.t2; origin = s.origin; correction = s.correction; tag = s.tag } };

    ghost inverse = { λ s. record { t2 = s.t2; origin = s.origin; correction = s.correction; tag = s.tag } };
}

/// What is used of a Delay_Resp, which isn't held.
#[derive(Clone, Copy)]
pub(crate) struct Response {
    pub(crate) receive: Timestamp,
    pub(crate) correction: i64,
    pub(crate) tag: u64,
}

impl Model for Response {
    ghost use Rattle.slave_port.specs.Values.{ResponseValue};

    ghost Value = { ResponseValue };

    ghost view = { λ r. record { receive = r.receive; correction = r.correction; tag = r.tag } };

    ghost inverse = { λ r. record { receive = r.receive; correction = r.correction; tag = r.tag } };
}
