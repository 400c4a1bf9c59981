//! What can speak against the numbers of a recording.

use crate::others::Newcomer;
use statistics::{Cases, Growth, Point, Shift, Signed, Spike};

/// How many messages are missing, of how many.
#[derive(Clone, Copy)]
pub struct Lost {
    /// How many are missing.
    pub missing: u64,
    /// How many there should be, up to 2^64 - 1.
    pub of: u64,
}

/// A step in values.
#[derive(Clone, Copy)]
pub struct Jump {
    /// By how much the mean of the values behind it is above that of those before, in thousandths of a nanosecond, rounded.
    pub by: Signed,
    /// The line of the first value behind it.
    pub line: u64,
}

/// Values of which most are to one side of the one before, and the greatest change is to the other side.
#[derive(Clone, Copy)]
pub struct SetBack {
    /// Whether most go up.
    pub is_up: bool,
    /// How many of the changes go that way.
    pub count: u64,
    /// How many changes there are.
    pub of: u64,
    /// How great the greatest one is, in 2^-17 ns.
    pub size: u128,
    /// The line of the value behind it.
    pub line: u64,
}

/// What is rounded of the reports of a recording. Of these numbers nothing is promised.
#[derive(Clone, Copy)]
pub struct Rounded {
    /// What the step in the offsets comes to.
    pub offset_shift: Option<Shift>,
    /// How much the offsets grow by their times.
    pub offset_growth: Option<Growth>,
    /// What the step in the path delays comes to.
    pub path_shift: Option<Shift>,
}

/// What speaks against the numbers of a recording. Lines are its lines or packets.
#[derive(Clone, Copy)]
pub enum Beware {
    /// In each report by a Delay_Resp, of which there are so many, two and more, the request arrives when it leaves.
    RequestsAtOnce(u64),
    /// In each report by a Sync, of which there are so many, two and more, the Sync arrives when it leaves.
    SyncsAtOnce(u64),
    /// Path delays are below 0: how many, of how many, and the least, in 2^-17 ns.
    PathsBelow {
        below: u64,
        of: u64,
        least: Point,
    },
    /// More than half of the path delays are 0: how many, of how many.
    PathsZero {
        zeros: u64,
        of: u64,
    },
    /// So many seconds, and not 0, are next to each offset.
    WholeSeconds {
        is_negative: bool,
        seconds: u128,
    },
    /// One step explains most of how the offsets vary.
    OffsetSteps(Jump),
    /// The offsets grow by their times: by so many thousand-millionths, rounded.
    OffsetRunsAway(Signed),
    /// The offsets are set back again and again.
    OffsetIsSetBack(SetBack),
    /// One step explains most of how the path delays vary.
    PathSteps(Jump),
    /// The Syncs of the master end so many tenths of a second before the recording does, and another master's begin then.
    SyncsEnd {
        tenths: u128,
        newcomer: Option<Newcomer>,
    },
    /// The reports end so many tenths of a second before the recording does.
    ReportsEnd {
        tenths: u128,
    },
    /// So many messages have a number that came before, and how much later they came than the first, in 2^-16 ns.
    Repeated {
        count: u64,
        least: Option<u128>,
        greatest: Option<u128>,
    },
    /// Other masters of the domain sent messages; `Others` has how many.
    OtherMasters,
    /// Other slaves of the domain sent Delay_Reqs; `Others` has how many.
    OtherSlaves,
    /// Messages of other domains came; `Others` has how many.
    OtherDomains,
    /// So many times are before that of the line before.
    OutOfOrder(u64),
    /// Offsets rest on a delay that was older than 10 s, and the oldest was at least 8 intervals between Delay_Reqs old: these, and the
    /// oldest, in 2^-16 ns.
    OldDelay {
        offsets: Cases,
        oldest: Point,
    },
    /// More than 1 % of the Syncs are missing, by their numbers.
    MissingSyncs(Lost),
    /// More than 1 % of the two-step Syncs waited for a Follow_Up that didn't come.
    MissingFollowUps(Lost),
    /// More than 1 % of the Delay_Reqs are missing, by their numbers.
    MissingRequests(Lost),
    /// More than 1 % of the Delay_Reqs have no Delay_Resp.
    MissingResponses(Lost),
    /// Delay_Reqs have a correction where they were recorded.
    CorrectedRequests(Cases),
    /// The master began its numbers anew.
    MasterAnew(Cases),
    /// The slave began its numbers anew.
    SlaveAnew(Cases),
    /// An offset, of 16 and more, lies 1 us and more from both of its neighbours, and more than a hundred times as far as offsets
    /// change else from one to the next, in the mean.
    OffsetApart(Spike),
    /// So many datagrams are cut short.
    CutShort(u64),
    /// All times are of whole microseconds.
    WholeMicroseconds,
}
