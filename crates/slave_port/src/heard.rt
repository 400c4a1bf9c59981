use crate::reason::Reason;

/// What became of a message.
#[derive(Clone, Copy, Debug, PartialEq, Eq)]
pub enum Heard {
    /// It is held, and waits for the message that it pairs with.
    Held,
    /// It completed one half of a report, and the other half isn't there.
    Completed,
    /// It completed one half of a report, and the other half is there.
    Report(Report),
    /// It isn't used, and nothing changed.
    Ignored(Reason),
}

/// The two results of the mechanism, doubled, over one Sync and one Delay_Req, and the tags of the
/// calls that they are from.
#[derive(Clone, Copy, Debug, PartialEq, Eq)]
pub struct Report {
    /// Twice offsetFromMaster, in 2^-16 ns.
    pub offset2: i128,
    /// Twice meanPathDelay, in 2^-16 ns.
    pub path2: i128,
    /// The tag of the Sync.
    pub sync_tag: u64,
    /// The tag of the Follow_Up, or None where the Sync is one-step.
    pub follow_tag: Option<u64>,
    /// The tag of the Delay_Req.
    pub request_tag: u64,
    /// The tag of the Delay_Resp.
    pub response_tag: u64,
}
