//! What datagrams are.

ghost use Rattle.std.specs.Prelude.{◌≡◌, ◌<◌};
ghost use Rattle.recording_summary.specs.Counts.{kind_number};

/// How many kinds of datagrams there are.
pub const KINDS: usize = 10;

/// What a datagram is (IEEE 1588-2019, table 36).
#[derive(Clone, Copy)]
pub enum Kind {
    /// A Sync.
    Sync,
    /// A Follow_Up.
    FollowUp,
    /// A Delay_Req.
    DelayReq,
    /// A Delay_Resp.
    DelayResp,
    /// A message of the peer delay mechanism.
    Pdelay,
    /// An Announce message.
    Announce,
    /// A Signaling message.
    Signaling,
    /// A Management message.
    Management,
    /// A message of a reserved type.
    Reserved,
    /// No message.
    Malformed,
}

/// Every kind, in the order of the summary.
pub const ALL_KINDS: [Kind; KINDS] = [
    Kind::Sync,
    Kind::FollowUp,
    Kind::DelayReq,
    Kind::DelayResp,
    Kind::Pdelay,
    Kind::Announce,
    Kind::Signaling,
    Kind::Management,
    Kind::Reserved,
    Kind::Malformed,
];

impl Kind {
    /// Its place in the order of the summary.
    pub(crate) fn number(self) -> usize
        ensures value { result ≡ kind_number self }
        ensures within { result < 10 }
    {
        usize::from(self as u8)
    }
}
