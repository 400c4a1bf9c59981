//! What came of the master and the slave, what is missing, and who began anew.

ghost use Rattle.std.specs.Prelude.{◌≡◌, List, [], ◌∷◌, Option};
ghost use Rattle.recording_summary.specs.Flows.{AreFlows, log_of, sent_of, is_first, is_first_two_step, is_waiting, is_following, is_answer};
ghost use Rattle.recording_summary.specs.Flows.{correction_of, begun_of, unfollowed, unanswered};
ghost use Rattle.recording_summary.specs.Messages.{is_same_kind};

use crate::no_report::NoReport;
use crate::others::{Meeting, MessageKind, Met};
use statistics::{Cases, Flow, Point, Sent, count_if};

/// What came of the master and the slave that are watched, each number once. Each count stays at 2^64 - 1.
#[derive(Clone, Copy)]
pub struct Flows {
    /// The Syncs.
    pub syncs: Flow,
    /// The Delay_Reqs.
    pub requests: Flow,
    /// How many Follow_Ups.
    pub follow_ups: u64,
    /// How many Syncs are two-step ones.
    pub two_step: u64,
    /// How many Syncs waited for their Follow_Ups.
    pub waiting: u64,
    /// How many Follow_Ups came of a Sync that waited.
    pub followed: u64,
    /// How many Delay_Resps answer a Delay_Req that came before.
    pub answers: u64,
    /// The Delay_Reqs that have a correction, in 2^-16 ns.
    pub corrected: Cases,
    /// The Syncs with which the master began its numbers anew, and these.
    pub master_anew: Cases,
    /// The Delay_Reqs with which the slave began its numbers anew, and these.
    pub slave_anew: Cases,
    /// logMessageInterval of the last Sync.
    pub sync_log: Option<i8>,
    /// logMessageInterval of the last Delay_Resp, that of Delay_Reqs.
    pub request_log: Option<i8>,
}

/// Whether a message is one of this kind, and the first of its number.
fn is_first(kind: MessageKind, meeting: &Meeting) -> bool
    ensures { result ≡ is_first kind meeting.now }
{
    match meeting.met {
        Met::First(own, _) => own == kind,
        _ => false,
    }
}

/// The number and time of a message of this kind that is the first of its number.
fn sent_of(kind: MessageKind, meeting: &Meeting) -> Option<Sent>
    ensures { result ≡ sent_of kind meeting.now }
{
    match meeting.met {
        Met::First(own, number) if own == kind => Some(Sent {
            line: meeting.line,
            number,
            time: meeting.time,
            begins: meeting.begins,
        }),
        _ => None,
    }
}

/// Whether it is a Sync whose twoStepFlag is set.
fn is_first_two_step(meeting: &Meeting) -> bool
    ensures { result ≡ is_first_two_step meeting.now }
{
    is_first(MessageKind::Sync, meeting) && meeting.header.flags[0] / 2 % 2 == 1
}

/// Whether a Sync waits for its Follow_Up.
fn is_waiting(meeting: &Meeting) -> bool
    ensures { result ≡ is_waiting meeting.now }
{
    is_first(MessageKind::Sync, meeting) && matches!(meeting.why, Some(NoReport::Held))
}

/// Whether a Follow_Up is that of a Sync that waited.
fn is_following(meeting: &Meeting) -> bool
    ensures { result ≡ is_following meeting.now }
{
    is_first(MessageKind::FollowUp, meeting) && !matches!(meeting.why, Some(NoReport::Held))
}

/// Whether a Delay_Resp answers a Delay_Req that came before it.
fn is_answer(meeting: &Meeting) -> bool
    ensures { result ≡ is_answer meeting.now }
{
    is_first(MessageKind::DelayResp, meeting) && !matches!(meeting.why, Some(NoReport::Unrecorded))
}

/// The correction of a Delay_Req, if it has one.
fn correction_of(meeting: &Meeting) -> Option<Point>
    ensures { result ≡ correction_of meeting.now }
{
    if !is_first(MessageKind::DelayReq, meeting) || meeting.header.correction.0 == 0 {
        return None;
    }
    Some(Point {
        line: meeting.line,
        time: meeting.time.value(),
        value: i128::from(meeting.header.correction.0),
    })
}

/// The number of a message of this kind with which its sender begins anew.
fn begun_of(kind: MessageKind, meeting: &Meeting) -> Option<Point>
    ensures { result ≡ begun_of kind meeting.now }
{
    if !is_first(kind, meeting) || !meeting.begins {
        return None;
    }
    Some(Point {
        line: meeting.line,
        time: meeting.time.value(),
        value: i128::from(meeting.header.sequence.0),
    })
}

/// logMessageInterval of a message of this kind.
fn log_of(kind: MessageKind, meeting: &Meeting) -> Option<i8>
    ensures { result ≡ log_of kind meeting.now }
{
    is_first(kind, meeting).then_some(meeting.header.log)
}

impl Flows {
    /// No message came.
    pub(crate) fn new() -> Flows
        ensures { AreFlows [] result }
    {
        Flows {
            syncs: Flow::new(),
            requests: Flow::new(),
            follow_ups: 0,
            two_step: 0,
            waiting: 0,
            followed: 0,
            answers: 0,
            corrected: Cases::new(),
            master_anew: Cases::new(),
            slave_anew: Cases::new(),
            sync_log: None,
            request_log: None,
        }
    }

    /// Takes a message.
    pub(crate) fn take(&mut self, meeting: &Meeting)
        ensures { (earlier : List Meeting) → AreFlows earlier self.old → AreFlows (meeting.now ∷ earlier) self.new }
    {
        self.syncs.take_some(sent_of(MessageKind::Sync, meeting));
        self.requests
            .take_some(sent_of(MessageKind::DelayReq, meeting));
        self.follow_ups = count_if(self.follow_ups, is_first(MessageKind::FollowUp, meeting));
        self.two_step = count_if(self.two_step, is_first_two_step(meeting));
        self.waiting = count_if(self.waiting, is_waiting(meeting));
        self.followed = count_if(self.followed, is_following(meeting));
        self.answers = count_if(self.answers, is_answer(meeting));
        self.corrected.take_some(correction_of(meeting));
        self.master_anew
            .take_some(begun_of(MessageKind::Sync, meeting));
        self.slave_anew
            .take_some(begun_of(MessageKind::DelayReq, meeting));
        self.sync_log = log_of(MessageKind::Sync, meeting).or(self.sync_log);
        self.request_log = log_of(MessageKind::DelayResp, meeting).or(self.request_log);
    }

    /// How many Syncs that waited have no Follow_Up.
    pub fn unfollowed(&self) -> u64
        ensures { result ≡ unfollowed self.now }
    {
        self.waiting.saturating_sub(self.followed)
    }

    /// How many Delay_Reqs have no Delay_Resp.
    pub fn unanswered(&self) -> u64
        ensures { result ≡ unanswered self.now }
    {
        self.requests.count.saturating_sub(self.answers)
    }
}
