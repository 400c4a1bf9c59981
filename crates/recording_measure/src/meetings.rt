//! Of whom the messages are that a port hears.

ghost use Rattle.std.specs.Prelude.{◌≡◌, List};
ghost use Rattle.std.specs.List.{cons_option};
ghost use Rattle.recording_summary.specs.Others.{AreOthers};
ghost use Rattle.recording_measure.specs.Meetings.{message_kind, met_as, met_by, meeting_at};

use event_codec::{Body, Header, Message};
use ptp_units::ScaledTime;
use recording_summary::{Meeting, MessageKind, Met, NoReport, Others};

/// Which message it is.
fn message_kind(body: &Body) -> MessageKind
    ensures { result ≡ message_kind body.now }
{
    match body {
        Body::Sync { .. } => MessageKind::Sync,
        Body::FollowUp { .. } => MessageKind::FollowUp,
        Body::DelayReq { .. } => MessageKind::DelayReq,
        Body::DelayResp { .. } => MessageKind::DelayResp,
    }
}

/// Of whom a message is that gave no report for this reason, where it tells that.
fn met_as(kind: MessageKind, why: NoReport, header: &Header) -> Option<Met>
    ensures { result ≡ met_as kind why header.now }
{
    match why {
        NoReport::Held
        | NoReport::Alone
        | NoReport::OfSlave
        | NoReport::TooBig
        | NoReport::NotNewer
        | NoReport::Unrecorded => Some(Met::First(kind, header.sequence)),
        NoReport::Again | NoReport::Before => Some(Met::Repeat(kind, header.sequence)),
        NoReport::OtherDomain => Some(Met::Domain(header.domain)),
        NoReport::OtherMaster => Some(Met::Master(kind, header.source)),
        NoReport::OtherSlave => match kind {
            MessageKind::DelayReq => Some(Met::Slave(header.source)),
            _ => None,
        },
        NoReport::PeerDelay | NoReport::TooEarly | NoReport::NoPart => None,
    }
}

/// Of whom a message is that gave no report for a reason, or gave one.
fn met_by(kind: MessageKind, why: Option<NoReport>, header: &Header) -> Option<Met>
    ensures { result ≡ met_by kind why header.now }
{
    match why {
        Some(why) => met_as(kind, why, header),
        None => Some(Met::First(kind, header.sequence)),
    }
}

/// What a message of this line and time tells, that gave no report for a reason, or gave one, and with which its sender begins anew or
/// doesn't.
pub(crate) fn meeting_at(
    line: u64,
    time: ScaledTime,
    message: &Message<'_>,
    why: Option<NoReport>,
    begins: bool,
) -> Option<Meeting>
    ensures { result ≡ meeting_at line time message.now.body message.now.header why begins }
{
    let met = met_by(message_kind(&message.body), why, &message.header)?;
    Some(Meeting {
        line,
        time,
        met,
        header: message.header,
        why,
        begins,
    })
}

/// Takes what a message tells, if it tells anything.
pub(crate) fn take_some(others: &mut Others, meeting: Option<Meeting>)
    ensures { (earlier : List Meeting) → AreOthers earlier others.old → AreOthers (cons_option meeting earlier) others.new }
{
    if let Some(meeting) = &meeting {
        others.take(meeting);
    }
}
