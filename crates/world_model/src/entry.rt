use network_model::Outcome;
use ptp_units::ScaledTime;

/// The octets of a copy.
#[derive(Clone, Copy)]
pub(crate) enum Octets {
    /// A Sync, a Follow_Up or a Delay_Req.
    Short([u8; 44]),
    /// A Delay_Resp.
    Long([u8; 54]),
}

/// What an event leaves to later ones.
#[derive(Clone, Copy)]
pub(crate) enum Left {
    /// A copy of a message.
    Copy(Octets),
    /// A message inside a transparent clock, which it entered at this reading.
    Stay(ScaledTime),
    /// Nothing.
    Nothing,
}

/// What an accepted event did at its node.
#[derive(Clone, Copy)]
pub(crate) struct Happened {
    /// What the node's clock showed, where the event has a true moment.
    pub(crate) reading: Option<ScaledTime>,
    pub(crate) outcome: Outcome,
    pub(crate) left: Left,
}
