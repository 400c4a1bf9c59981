//! What is found wrong with a report, by the numbers of events: of each reason the first thing that breaks its
//! condition.

/// A message of an exchange.
#[derive(Clone, Copy, Debug, PartialEq, Eq)]
pub enum Part {
    /// The Sync.
    Sync,
    /// The Follow_Up of a two-step Sync.
    FollowUp,
    /// The Delay_Req.
    DelayReq,
    /// The Delay_Resp.
    DelayResp,
}

/// What a number lacks by which a report or an event names another event.
#[derive(Clone, Copy, Debug, PartialEq, Eq)]
pub enum Lack {
    /// No event from before has this number; of a report's tag, nor has the report's own event.
    NotBefore(u64),
    /// The event of this number came to nothing: it was refused or ignored, or can't have come out so.
    CameToNothing(u64),
    /// The event of this number is of another kind than is needed there, or at another node.
    OtherEvent(u64),
    /// The event of this number completed nothing.
    CompletedNothing(u64),
}

/// The first thing that breaks a condition of a sound report. All numbers are those of events.
#[derive(Clone, Copy, Debug, PartialEq, Eq)]
pub enum Finding {
    /// 701: The report's own event came to nothing, or can't have a report.
    CantReport,
    /// 701: The report's own event is none of those that the report is of.
    OfOtherLine,
    /// 701: A tag of the report isn't that of an event as the report needs it, or of one that heard the
    /// copy that it needs.
    WrongTag {
        /// The message whose tag it is.
        part: Part,
        /// What the tag lacks, or what the copy lacks that was heard there.
        lack: Lack,
    },
    /// 701: No event tells when the Delay_Req left, between its sending and the hearing of the Delay_Resp.
    Unstamped {
        /// The first event that tells it at all.
        first: Option<u64>,
    },
    /// 704: The journey of a message can't be followed back to where it was sent.
    Stops {
        /// The Sync or the Delay_Req.
        part: Part,
        /// The event that names the one where it ends.
        by: u64,
        /// What that lacks.
        lack: Lack,
    },
    /// 704: A stay of a message in a clock was left twice; of several such stays, the one where the second
    /// Leave came first.
    LeftTwice {
        /// The Sync or the Delay_Req.
        part: Part,
        /// The Enter.
        entered: u64,
        /// The first Leave.
        first: u64,
        /// The second Leave.
        second: u64,
    },
    /// 702: The Follow_Up is of another Sync.
    OtherSync {
        /// The Follow_Up, where it was sent.
        follow_up: u64,
        /// The two-step Sync that it follows, where there is one.
        follows: Option<u64>,
        /// The Sync of the report, where it was sent.
        sync: u64,
    },
    /// 702: A two-step Sync has no Follow_Up.
    NoFollowUp {
        /// The Sync, where it was sent.
        sync: u64,
    },
    /// 702: The Delay_Resp answers another Delay_Req than the one of the report.
    OtherRequest {
        /// The Delay_Req that is answered, where it was sent.
        request: u64,
    },
    /// 703: The slave was told no master.
    NoMaster,
    /// 703: The slave was told another master last.
    ToldOther {
        /// The event that told it.
        set: u64,
    },
    /// 703: A message came before the slave was told its master.
    Early {
        /// The message; of several the one that stands first in the report.
        part: Part,
        /// The event that told it.
        set: u64,
    },
    /// 703: Another master answers the Delay_Req than the one that sent the Sync.
    OtherAnswers {
        /// The arrival at that master.
        arrival: u64,
    },
    /// 703: The domain of the master isn't that of the slave.
    OtherDomain,
    /// 705: A reading isn't there, or isn't the one of the node's clock.
    WrongReading {
        /// The event that has it.
        event: u64,
        /// The event that set this clock last, where one did.
        set: Option<u64>,
    },
    /// 705: A clock read less at the end of a stay than at its beginning.
    Falls {
        /// The Enter.
        entered: u64,
        /// The Leave.
        left: u64,
    },
    /// 707: A message was in clocks for longer than its correctionField can say.
    TooLong {
        /// The Sync or the Delay_Req.
        part: Part,
    },
    /// 706: The two results aren't those of the readings.
    OtherResults,
    /// 708: The octets of a message aren't those that its port or its clock writes.
    OtherOctets {
        /// The event that made it.
        event: u64,
    },
}
