//! Messages by their names and numbers, and what the tags of a report are to name.
ghost use Rattle.std.specs.Prelude.{◌≡◌, Some};
ghost use Rattle.explain_findings.specs.Known.{IsNoted, lines_of};
ghost use Rattle.explain_findings.specs.Heard.{heard_at, heard_message, heard_text, is_tagged, met_at, met_text, name_text};
ghost use Rattle.explain_findings.specs.Heard.{numbered_at, numbered_of, numbered_text, of_text, sender_text, sent_at};
ghost use Rattle.explain_findings.specs.Heard.{is_wanted, sent_message, sent_text, tag_of, tag_text, wanted_text};

use crate::known::{Known, Named};
use crate::reported::Case;
use exchange_check::{KeptLine, Part};
use std::fmt;
use std::fmt::{Display, Formatter};

/// The name of a message.
pub(crate) fn name_of(part: Part) -> &'static str
    ensures { result.now ≡ name_text part }
{
    match part {
        Part::Sync => "Sync",
        Part::FollowUp => "Follow_Up",
        Part::DelayReq => "Delay_Req",
        Part::DelayResp => "Delay_Resp",
    }
}

/// The place of its tag among the four.
pub(crate) fn tag_word(part: Part) -> &'static str
    ensures { result.now ≡ tag_text part }
{
    match part {
        Part::Sync => "1st",
        Part::FollowUp => "2nd",
        Part::DelayReq => "3rd",
        Part::DelayResp => "4th",
    }
}

/// What the event of its tag is to be.
pub(crate) fn wanted_word(part: Part) -> &'static str
    ensures { result.now ≡ wanted_text part }
{
    match part {
        Part::Sync => "an arrive",
        Part::FollowUp | Part::DelayResp => "a hear",
        Part::DelayReq => "a request",
    }
}

/// What is to have sent it.
pub(crate) fn sender_word(part: Part) -> &'static str
    ensures { result.now ≡ sender_text part }
{
    match part {
        Part::Sync => "a sync",
        Part::FollowUp => "a follow",
        Part::DelayReq => "a request",
        Part::DelayResp => "an arrive at a master",
    }
}

/// What leads from a message to the Sync or the Delay_Req that it is of.
fn of_word(part: Part) -> &'static str
    ensures { result.now ≡ of_text part }
{
    match part {
        Part::Sync | Part::DelayReq => "",
        Part::FollowUp => "the Follow_Up of ",
        Part::DelayResp => "the Delay_Resp to ",
    }
}

impl Case<'_> {
    /// The tag of a message; none of the Follow_Up where the report has none.
    pub(crate) fn tag_of(&self, part: Part) -> Option<u64>
        ensures { result ≡ tag_of self.now.reported.now.report part }
    {
        let report = &self.reported.report;
        match part {
            Part::Sync => Some(report.sync_tag),
            Part::FollowUp => report.follow_tag,
            Part::DelayReq => Some(report.request_tag),
            Part::DelayResp => Some(report.response_tag),
        }
    }

    /// Whether the tag of a message is that of an event as the report needs it.
    pub(crate) fn is_tagged(&self, part: Part, tag: u64) -> bool
        ensures { result ≡ is_tagged (lines_of self.now.known) self.now.reported.now.node part tag }
    {
        match self.known.checker.line_at(tag) {
            Some(line) => is_wanted(&line, part) && line.event.node() == self.reported.node,
            None => false,
        }
    }
}

/// Whether a line is as the tag of a message needs it.
fn is_wanted(line: &KeptLine, part: Part) -> bool
    ensures { result ≡ is_wanted line.now.event part }
{
    match part {
        Part::Sync => line.event.is_arrival(),
        Part::FollowUp | Part::DelayResp => line.event.is_hearing(),
        Part::DelayReq => line.event.is_request(),
    }
}

/// The name and the number of a Sync or of a Delay_Req.
#[derive(Clone, Copy)]
pub struct Numbered {
    is_request: bool,
    number: u16,
}

impl Numbered {
    /// Those of the message that a line sent.
    fn of(line: &KeptLine) -> Numbered
        ensures { result ≡ numbered_of line.now }
    {
        Numbered {
            is_request: line.event.is_request(),
            number: line.sequence.0,
        }
    }
}

impl Display for Numbered {
    ghost output = { λ numbered. Some (numbered_text numbered) };

    fn fmt<W: fmt::Write>(&self, f: &mut Formatter<W>) -> fmt::Result {
        if self.is_request {
            write!(f, "Delay_Req {}", self.number)
        } else {
            write!(f, "Sync {}", self.number)
        }
    }
}

/// A Sync or a Delay_Req, and the event that sent it.
#[derive(Clone, Copy)]
pub struct Sent {
    numbered: Option<Numbered>,
    named: Named,
}

impl Display for Sent {
    ghost output = { λ sent. Some (sent_text sent) };

    fn fmt<W: fmt::Write>(&self, f: &mut Formatter<W>) -> fmt::Result {
        match self.numbered {
            Some(numbered) => write!(f, "{numbered}, {}", self.named),
            None => write!(f, "{}", self.named),
        }
    }
}

/// Which message an event heard, and the Sync or the Delay_Req that this is or is of.
#[derive(Clone, Copy)]
pub struct Heard {
    pub(crate) part: Part,
    of: Option<Numbered>,
}

/// What stands behind an event that heard a message; nothing where that can't be followed back.
#[derive(Clone, Copy)]
pub(crate) struct WhichIs(pub(crate) Option<Heard>);

impl Display for WhichIs {
    ghost output = { λ which. Some (heard_text which.0) };

    fn fmt<W: fmt::Write>(&self, f: &mut Formatter<W>) -> fmt::Result {
        match self.0 {
            Some(
                Heard {
                    part,
                    of: Some(numbered),
                },
            ) => write!(f, ", which is {}{numbered}", of_word(part)),
            _ => Ok(()),
        }
    }
}

/// An event, and which message was heard at it or at another one.
#[derive(Clone, Copy)]
pub struct Met {
    pub(crate) named: Named,
    pub(crate) heard: Option<Heard>,
}

impl Display for Met {
    ghost output = { λ met. Some (met_text met) };

    fn fmt<W: fmt::Write>(&self, f: &mut Formatter<W>) -> fmt::Result {
        write!(f, "{}{}", self.named, WhichIs(self.heard))
    }
}

impl Known<'_> {
    /// The name and the number of the message that the line of this number sent, where it counts.
    fn numbered(&self, number: u64) -> Option<Numbered>
        ensures { result ≡ numbered_at (lines_of self.now) number }
    {
        match self.checker.line_at(number) {
            Some(line) => Some(Numbered::of(&line)),
            None => None,
        }
    }

    /// A Sync or a Delay_Req, by the number of the event that sent it.
    pub(crate) fn sent(&self, number: u64) -> Sent
        ensures { IsNoted self.now → result ≡ sent_at (lines_of self.now) number }
    {
        Sent {
            numbered: self.numbered(number),
            named: self.named(number),
        }
    }

    /// Which general message a line sent, and the number of the event that sent the Sync or the Delay_Req that it is of.
    fn sent_message(&self, sender: &KeptLine) -> Option<(Part, u64)>
        ensures { result ≡ sent_message (lines_of self.now) sender.now }
    {
        if sender.event.is_follow() {
            return Some((Part::FollowUp, sender.last_sync?));
        }
        if !sender.made {
            return None;
        }
        let request = sender.event.heard_copy()?;
        Some((Part::DelayResp, self.checker.origin_of(request)?))
    }

    /// Which message of an exchange an event heard, and the number of the event that sent the Sync or the Delay_Req that this
    /// is or is of; none where that can't be followed back.
    fn heard_message(&self, number: u64) -> Option<(Part, u64)>
        ensures { result ≡ heard_message (lines_of self.now) number }
    {
        let event = self.checker.line_at(number)?.event;
        let copy = event.heard_copy()?;
        if copy >= number {
            return None;
        }
        if event.is_arrival() {
            return Some((Part::Sync, self.checker.origin_of(copy)?));
        }
        self.sent_message(&self.checker.line_at(copy)?)
    }

    /// Which message the event of a number heard, to be told.
    pub(crate) fn heard(&self, number: u64) -> Option<Heard>
        ensures { result ≡ heard_at (lines_of self.now) number }
    {
        let (part, origin) = self.heard_message(number)?;
        Some(Heard {
            part,
            of: self.numbered(origin),
        })
    }

    /// The event of a number, and which message was heard at the event of another one.
    pub(crate) fn met(&self, number: u64, hearing: u64) -> Met
        ensures { IsNoted self.now → result ≡ met_at (lines_of self.now) number hearing }
    {
        Met {
            named: self.named(number),
            heard: self.heard(hearing),
        }
    }
}
