//! Why datagrams give no report.

ghost use Rattle.std.specs.Prelude.{◌≡◌, ◌<◌};
ghost use Rattle.recording_summary.specs.Counts.{why_number};

/// How many reasons there are.
pub const REASONS: usize = 14;

/// Why a datagram gave no report.
#[derive(Clone, Copy)]
pub enum NoReport {
    /// It waits for the message that it pairs with.
    Held,
    /// It completed one half of a report, and the other half wasn't there.
    Alone,
    /// It is a Delay_Req of the slave.
    OfSlave,
    /// It is a Delay_Req of the slave, with the number of the last one.
    Again,
    /// Its number says that it came before.
    Before,
    /// It is of another domain.
    OtherDomain,
    /// It is of another master.
    OtherMaster,
    /// It is of another slave, or to another.
    OtherSlave,
    /// Its correction says 'too big to be represented'.
    TooBig,
    /// It is no newer than the last Sync that was completed.
    NotNewer,
    /// It answers a request that wasn't recorded.
    Unrecorded,
    /// It is of the peer delay mechanism.
    PeerDelay,
    /// It came before it was known whom to watch.
    TooEarly,
    /// It has no part in the mechanism.
    NoPart,
}

/// Every reason, in the order of the summary.
pub const ALL_REASONS: [NoReport; REASONS] = [
    NoReport::Held,
    NoReport::Alone,
    NoReport::OfSlave,
    NoReport::Again,
    NoReport::Before,
    NoReport::OtherDomain,
    NoReport::OtherMaster,
    NoReport::OtherSlave,
    NoReport::TooBig,
    NoReport::NotNewer,
    NoReport::Unrecorded,
    NoReport::PeerDelay,
    NoReport::TooEarly,
    NoReport::NoPart,
];

impl NoReport {
    /// Its place in the order of the summary.
    pub(crate) fn number(self) -> usize
        ensures value { result ≡ why_number self }
        ensures within { result < 14 }
    {
        usize::from(self as u8)
    }
}
