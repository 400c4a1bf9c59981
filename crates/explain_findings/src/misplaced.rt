//! What breaks 701, in a sentence: the report's own event, a tag of it, or when its Delay_Req left.
ghost use Rattle.std.specs.Prelude.{◌≡◌, Some};
ghost use Rattle.explain_findings.specs.Known.{IsNoted, lines_of};
ghost use Rattle.explain_findings.specs.Misplaced.{heard_tag, misplaced_text, other_line_at, other_line_text, tag_at, tag_lacks, tag_met_at};
ghost use Rattle.explain_findings.specs.Misplaced.{tag_named_at, tag_sentence_text, unstamped_at, unstamped_in, unstamped_text};

use crate::broken::number_of;
use crate::heard::{Heard, Met, WhichIs, name_of, sender_word, tag_word, wanted_word};
use crate::known::{Named, Place};
use crate::reported::Case;
use exchange_check::{Lack, Part};
use network_model::Name;
use std::fmt;
use std::fmt::{Display, Formatter};

/// No tag is of the event that reports.
#[derive(Clone, Copy)]
pub struct OtherLine {
    /// The event that reports.
    event: u64,
    /// Which message it heard.
    heard: Option<Heard>,
    /// What the tag of such a message names.
    tag: Option<Met>,
}

/// A tag that isn't of an event as the report needs it.
#[derive(Clone, Copy)]
pub enum WrongTag {
    /// The report has no such tag.
    NotThere,
    /// The Sync completed nothing, and there is no Follow_Up.
    SyncAlone(Named),
    /// The message completed nothing.
    Useless(Part, Named),
    /// The event of the tag is right, and heard something else.
    OtherSender(Part, Place, Met),
    /// The event of the tag at this node is no such event.
    OtherEvent(Part, Met, Name),
    /// It is one that came to nothing.
    CameToNothing(Part, Met, Name),
}

/// No event tells when the Delay_Req left between its sending and the hearing of the Delay_Resp, of this number.
#[derive(Clone, Copy)]
pub enum Unstamped {
    /// They are in another order.
    NotBefore(Place, u64),
    /// An event tells it later.
    Later(Named, u64),
    /// No event does.
    Never(Place),
}

/// What breaks 701.
#[derive(Clone, Copy)]
pub enum Misplaced {
    /// The report's own event can't have a report.
    CantReport(Named),
    /// No tag is of it.
    OtherLine(OtherLine),
    /// A tag is wrong.
    WrongTag(WrongTag),
    /// Nothing tells in time when the Delay_Req left.
    Unstamped(Unstamped),
}

impl Display for OtherLine {
    ghost output = { λ other. Some (other_line_text other) };

    fn fmt<W: fmt::Write>(&self, f: &mut Formatter<W>) -> fmt::Result {
        let own = self.event;
        match (self.heard, self.tag) {
            (None, _) => write!(
                f,
                "none of \"tags\" is {own}; wanted is that the Sync (1st), the Follow_Up (2nd) or the Delay_Resp (4th) \
                 came by the event that reports"
            ),
            (Some(heard), Some(met)) => write!(
                f,
                "none of \"tags\" is {own}{}; the {}, of the {}, names {met}",
                WhichIs(self.heard),
                tag_word(heard.part),
                name_of(heard.part)
            ),
            (Some(heard), None) => write!(
                f,
                "none of \"tags\" is {own}{}; the {}, of the {}, is null",
                WhichIs(self.heard),
                tag_word(heard.part),
                name_of(heard.part)
            ),
        }
    }
}

impl Display for WrongTag {
    ghost output = { λ wrong. Some (tag_sentence_text wrong) };

    fn fmt<W: fmt::Write>(&self, f: &mut Formatter<W>) -> fmt::Result {
        match self {
            WrongTag::NotThere => Ok(()),
            WrongTag::SyncAlone(named) => write!(
                f,
                "the 2nd of \"tags\" is null, but the Sync of {named}, completed nothing by itself"
            ),
            WrongTag::Useless(part, named) => {
                write!(f, "the {} of {named}, completed nothing", name_of(*part))
            }
            WrongTag::OtherSender(part, place, met) => write!(
                f,
                "the {} of {place} is of {met}; wanted is {} before it that sent it",
                name_of(*part),
                sender_word(*part)
            ),
            WrongTag::OtherEvent(part, met, node) => write!(
                f,
                "the {} of \"tags\", of the {}, names {met}; wanted is {} at {}",
                tag_word(*part),
                name_of(*part),
                wanted_word(*part),
                node.text()
            ),
            WrongTag::CameToNothing(part, met, node) => write!(
                f,
                "the {} of \"tags\", of the {}, names {met}; wanted is {} at {} that came to something",
                tag_word(*part),
                name_of(*part),
                wanted_word(*part),
                node.text()
            ),
        }
    }
}

impl Display for Unstamped {
    ghost output = { λ unstamped. Some (unstamped_text unstamped) };

    fn fmt<W: fmt::Write>(&self, f: &mut Formatter<W>) -> fmt::Result {
        match self {
            Unstamped::NotBefore(request, response) => write!(
                f,
                "the Delay_Req of {request} isn't before the Delay_Resp, event {response}"
            ),
            Unstamped::Later(stamp, response) => write!(
                f,
                "{stamp}, tells when the Delay_Req left; wanted is that before the Delay_Resp, event {response}"
            ),
            Unstamped::Never(request) => write!(
                f,
                "no event before the report tells when the Delay_Req of {request} left"
            ),
        }
    }
}

impl Display for Misplaced {
    ghost output = { λ misplaced. Some (misplaced_text misplaced) };

    fn fmt<W: fmt::Write>(&self, f: &mut Formatter<W>) -> fmt::Result {
        match self {
            Misplaced::CantReport(own) => write!(
                f,
                "{own}, can't report; wanted is an arrive or a hear at a slave"
            ),
            Misplaced::OtherLine(other) => write!(f, "{other}"),
            Misplaced::WrongTag(wrong) => write!(f, "{wrong}"),
            Misplaced::Unstamped(unstamped) => write!(f, "{unstamped}"),
        }
    }
}

/// What a tag at this place lacks, beside the event that lacks it.
fn tag_lacks(
    part: Part,
    lack: Lack,
    is_tagged: bool,
    place: Place,
    met: Met,
    node: Name,
) -> WrongTag
    ensures { result ≡ tag_lacks part lack is_tagged place met node }
{
    match (lack, part) {
        (Lack::CompletedNothing(_), Part::Sync) => WrongTag::SyncAlone(met.named),
        (Lack::CompletedNothing(_), _) => WrongTag::Useless(part, met.named),
        _ if is_tagged => WrongTag::OtherSender(part, place, met),
        (Lack::CameToNothing(_), _) => WrongTag::CameToNothing(part, met, node),
        _ => WrongTag::OtherEvent(part, met, node),
    }
}

/// When the slave learned the departure of the Delay_Req of this place, which an event told it first.
fn unstamped_in(request: u64, response: u64, place: Place, first: Option<Named>) -> Unstamped
    ensures { result ≡ unstamped_in request response place first }
{
    match first {
        _ if request >= response => Unstamped::NotBefore(place, response),
        Some(stamp) => Unstamped::Later(stamp, response),
        None => Unstamped::Never(place),
    }
}

impl Case<'_> {
    /// That no tag is of the event that reports.
    pub(crate) fn other_line(&self) -> OtherLine
        ensures { IsNoted self.now.known → result ≡ other_line_at (lines_of self.now.known) self.now.reported.now }
    {
        let event = self.reported.event;
        let heard = self.known.heard(event);
        OtherLine {
            event,
            heard,
            tag: self.tag_met(heard),
        }
    }

    /// What the tag of a message names that was heard.
    fn tag_met(&self, heard: Option<Heard>) -> Option<Met>
        ensures { IsNoted self.now.known
            → result ≡ tag_met_at (lines_of self.now.known) self.now.reported.now.report heard }
    {
        match self.heard_tag(heard) {
            Some(tag) => Some(self.known.met(tag, tag)),
            None => None,
        }
    }

    /// The tag of a message that was heard.
    fn heard_tag(&self, heard: Option<Heard>) -> Option<u64>
        ensures { result ≡ heard_tag self.now.reported.now.report heard }
    {
        match heard {
            Some(heard) => self.tag_of(heard.part),
            None => None,
        }
    }

    /// What a tag of the report lacks.
    pub(crate) fn wrong_tag(&self, part: Part, lack: Lack) -> WrongTag
        ensures { IsNoted self.now.known
            → result ≡ tag_at (lines_of self.now.known) self.now.reported.now part lack }
    {
        match self.tag_of(part) {
            Some(tag) => self.wrong_tag_named(part, tag, lack),
            None => WrongTag::NotThere,
        }
    }

    /// The same of a tag that is there.
    fn wrong_tag_named(&self, part: Part, tag: u64, lack: Lack) -> WrongTag
        ensures { IsNoted self.now.known
            → result ≡ tag_named_at (lines_of self.now.known) self.now.reported.now part tag lack }
    {
        tag_lacks(
            part,
            lack,
            self.is_tagged(part, tag),
            self.known.place(tag),
            self.known.met(number_of(lack), tag),
            self.reported.node,
        )
    }

    /// When the slave learned the departure of the Delay_Req, which this event told it first, or that it didn't.
    pub(crate) fn unstamped(&self, first: Option<u64>) -> Unstamped
        ensures { IsNoted self.now.known
            → result ≡ unstamped_at (lines_of self.now.known) self.now.reported.now.report first }
    {
        let report = &self.reported.report;
        unstamped_in(
            report.request_tag,
            report.response_tag,
            self.known.place(report.request_tag),
            self.known.named_if(first),
        )
    }
}
