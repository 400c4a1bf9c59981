use ptp_units::{ScaledTime, Timestamp};
use std::marker::Model;

/// What is held of a two-step Sync.
#[derive(Clone, Copy, Default)]
pub struct HeldSync {
    pub(crate) t2: ScaledTime,
    pub(crate) correction: i64,
    pub(crate) tag: u64,
}

impl Model for HeldSync {
    ghost use Rattle.slave_port.specs.Values.{SyncValue};

    ghost Value = { SyncValue };

    ghost view = { λ s. record { t2 = s.t2; correction = s.correction; tag = s.tag } };

    ghost inverse = { λ s. record { t2 = s.t2; correction = s.correction; tag = s.tag } };
}

/// What is held of a Follow_Up.
#[derive(Clone, Copy, Default)]
pub struct HeldFollow {
    pub(crate) precise: Timestamp,
    pub(crate) correction: i64,
    pub(crate) tag: u64,
}

impl Model for HeldFollow {
    ghost use Rattle.slave_port.specs.Values.{FollowValue};

    ghost Value = { FollowValue };

    ghost view = { λ f. record { precise = f.precise; correction = f.correction; tag = f.tag } };

    ghost inverse = { λ f. record { precise = f.precise; correction = f.correction; tag = f.tag } };
}

/// What is held of a Delay_Req that this port drew.
#[derive(Clone, Copy, Default)]
pub struct HeldRequest {
    pub(crate) t3: Option<ScaledTime>,
    pub(crate) tag: u64,
}

impl Model for HeldRequest {
    ghost use Rattle.slave_port.specs.Values.{RequestValue};

    ghost Value = { RequestValue };

    ghost view = { λ r. record { t3 = r.t3; tag = r.tag } };

    ghost inverse = { λ r. record { t3 = r.t3; tag = r.tag } };
}
