//! What each datagram counts as: what it is, why it gave no report if it gave none, and who began anew by it.

ghost use Rattle.std.specs.Prelude.{◌≡◌, List, [], ◌∷◌, map, Some, None};
ghost use Rattle.recording_summary.specs.Announces.{AreAnnounces};
ghost use Rattle.recording_summary.specs.declared.announces.Announcement.{Announcement};
ghost use Rattle.recording_summary.specs.Counts.{with_one, with_unreported};
ghost use Rattle.recording_measure.specs.Counts.{kind_of, kind_of_refused, why_answered, why_refused};
ghost use Rattle.std.specs.Result.{result_err};
ghost use Rattle.std.specs.List.{cons_option};
ghost use Rattle.recording_summary.specs.declared.others.Meeting.{Meeting};
ghost use Rattle.recording_summary.specs.Others.{AreOthers};
ghost use Rattle.recording_summary.specs.Quality.{IsQuality};
ghost use Rattle.datagram_source.specs.Said.{reading_of};
ghost use Rattle.recording_measure.specs.Meetings.{meeting_at};
ghost use Rattle.recording_measure.specs.Counts.{Fate, early_fate, noted_of, IsCounts};
ghost use Rattle.recording_measure.specs.Inner.Counting.{why_by, with_why, is_anew};
ghost use Rattle.recording_measure.specs.Inner.Hearing.{recorded_of, made_of};

use crate::listener::Became;
use crate::meetings::{meeting_at, take_some};
use crate::reports::Made;
use datagram_source::Datagram;
use event_codec::{Body, DecodeRefusal, Header, Message};
use ptp_units::ScaledTime;
use recording_summary::{Announcement, Counts, Kind, NoReport};
use slave_port::{Heard, Reason};

fn kind_of(body: &Body) -> Kind
    ensures { result ≡ kind_of body.now }
{
    match body {
        Body::Sync { .. } => Kind::Sync,
        Body::FollowUp { .. } => Kind::FollowUp,
        Body::DelayReq { .. } => Kind::DelayReq,
        Body::DelayResp { .. } => Kind::DelayResp,
    }
}

/// What octets are that aren't one of the four messages (IEEE 1588-2019, table 36).
fn kind_of_refused(refusal: DecodeRefusal) -> Kind
    ensures { result ≡ kind_of_refused refusal }
{
    match refusal {
        DecodeRefusal::OtherType(2 | 3 | 10) => Kind::Pdelay,
        DecodeRefusal::OtherType(11) => Kind::Announce,
        DecodeRefusal::OtherType(12) => Kind::Signaling,
        DecodeRefusal::OtherType(13) => Kind::Management,
        DecodeRefusal::OtherType(_) => Kind::Reserved,
        _ => Kind::Malformed,
    }
}

/// Why a message that was heard gave no report; None where it gave one.
fn why_answered(heard: Heard) -> Option<NoReport>
    ensures { result ≡ why_answered heard }
{
    match heard {
        Heard::Report(_) => None,
        Heard::Held => Some(NoReport::Held),
        Heard::Completed => Some(NoReport::Alone),
        Heard::Ignored(reason) => Some(match reason {
            Reason::OtherDomain => NoReport::OtherDomain,
            Reason::OtherMaster | Reason::NoMaster => NoReport::OtherMaster,
            Reason::TooBig => NoReport::TooBig,
            Reason::NotNewer => NoReport::NotNewer,
            Reason::OtherRequester => NoReport::OtherSlave,
            Reason::UnknownRequest | Reason::EgressUnknown => NoReport::Unrecorded,
            Reason::Decode(_) | Reason::WrongType => NoReport::NoPart,
        }),
    }
}

/// Why a message of this header gave no report, of which this became in this domain.
fn why_by(became: &Became, header: &Header, domain: u8) -> Option<NoReport>
    ensures { result ≡ why_by domain header.now became.now }
{
    match became {
        Became::Heard(reply) | Became::HeardAnew(reply) => why_answered(reply.heard),
        Became::HeardBefore => Some(NoReport::Before),
        Became::Asked | Became::Anew => Some(NoReport::OfSlave),
        Became::Repeated => Some(NoReport::Again),
        Became::Foreign if header.domain != domain => Some(NoReport::OtherDomain),
        Became::Foreign => Some(NoReport::OtherSlave),
    }
}

/// Why a datagram of this kind gave no report that isn't one of the four messages.
fn why_refused(kind: Kind) -> NoReport
    ensures { result ≡ why_refused kind }
{
    match kind {
        Kind::Pdelay => NoReport::PeerDelay,
        _ => NoReport::NoPart,
    }
}

/// One more, up to 2^64 - 1.
fn count_one(count: &mut u64)
    ensures { count.new ≡ with_one count.old }
{
    *count = count.saturating_add(1);
}

/// Counts a datagram of this kind, where it gave no report.
fn count_why(counts: &mut Counts, kind: Kind, why: Option<NoReport>)
    ensures { counts.new ≡ with_why kind why counts.old }
{
    if let Some(why) = why {
        counts.count(kind, why);
    }
}

/// Whether one began anew with a message of which this became.
fn is_anew(became: &Became) -> bool
    ensures { result ≡ is_anew became.now }
{
    matches!(became, Became::Anew | Became::HeardAnew(_))
}

/// What is counted of datagrams.
#[derive(Clone, Copy)]
pub(crate) struct Tally {
    pub(crate) counts: Counts,
}

/// Why a datagram is none of the four messages, if it isn't.
fn refusal_in(datagram: &Datagram<'_>) -> Option<DecodeRefusal>
    ensures { result ≡ result_err (reading_of datagram.now.said) }
{
    match &datagram.said {
        Ok(_) => None,
        Err(refusal) => Some(*refusal),
    }
}

impl Tally {
    /// No datagram came.
    pub(crate) fn new() -> Tally
        ensures { IsCounts [] result.counts }
    {
        Tally {
            counts: Counts::new(),
        }
    }

    /// Notes the time of a datagram, and what it is.
    pub(crate) fn note(&mut self, datagram: &Datagram<'_>)
        ensures quality { (fate : Fate) (all : List Fate) → fate.datagram ≡ recorded_of datagram.now → fate.measured ≡ None
            → IsQuality (map noted_of all) self.old.counts.quality → IsQuality (map noted_of (fate ∷ all)) self.new.counts.quality }
        ensures others { self.new.counts ≡ record self.old.counts { quality = self.new.counts.quality } }
    {
        self.counts
            .quality
            .note(datagram.time, refusal_in(datagram));
    }

    /// Counts a report that was written, of the last datagram, which is of this time.
    pub(crate) fn count_report(&mut self, time: ScaledTime, made: &Made<'_>)
        ensures { (fate : Fate) (all : List Fate) → fate.measured ≡ None → fate.datagram.line ≡ made.now.measured.line
            → fate.datagram.time ≡ time → IsCounts (fate ∷ all) self.old.counts
            → IsCounts (record fate { measured = Some (made_of made.now) } ∷ all) self.new.counts }
    {
        count_one(&mut self.counts.reports);
        self.counts.quality.report(
            made.measured.line,
            time,
            made.measured.by,
            &made.measured.report,
            made.exchange,
        );
    }

    /// Counts a message of this line and time that is heard by a port of this domain.
    pub(crate) fn count_heard(
        &mut self,
        line: u64,
        time: ScaledTime,
        message: &Message<'_>,
        domain: u8,
        became: &Became,
    )
        ensures counted { self.new.counts ≡ record (with_why (kind_of message.now.body) (why_by domain message.now.header became.now)
            self.old.counts) { others = self.new.counts.others } }
        ensures others { (earlier : List Meeting) → AreOthers earlier self.old.counts.others → AreOthers
            (cons_option (meeting_at line time message.now.body message.now.header (why_by domain message.now.header became.now)
            (is_anew became.now)) earlier) self.new.counts.others }
    {
        let why = why_by(became, &message.header, domain);
        count_why(&mut self.counts, kind_of(&message.body), why);
        take_some(
            &mut self.counts.others,
            meeting_at(line, time, message, why, is_anew(became)),
        );
    }

    /// Counts a datagram that isn't heard, or not yet, since it isn't known whom to watch.
    pub(crate) fn count_early(&mut self, datagram: &Datagram<'_>)
        ensures { (fates : List Fate) → IsCounts fates self.old.counts
            → IsCounts (early_fate (recorded_of datagram.now) ∷ fates) self.new.counts }
    {
        self.note(datagram);
        match &datagram.said {
            Ok(message) => self
                .counts
                .count(kind_of(&message.body), NoReport::TooEarly),
            Err(refusal) => self.count_refused(*refusal),
        }
    }

    /// Counts an Announce of the master, if there is one.
    pub(crate) fn count_announcement(&mut self, announcement: Option<Announcement>)
        ensures announced { (all : List Announcement) → AreAnnounces all self.old.counts.announces
            → AreAnnounces (cons_option announcement all) self.new.counts.announces }
        ensures others { self.new.counts ≡ record self.old.counts { announces = self.new.counts.announces } }
    {
        self.counts.announces.take_some(announcement);
    }

    /// Counts what isn't one of the four messages.
    pub(crate) fn count_refused(&mut self, refusal: DecodeRefusal)
        ensures { self.new.counts ≡ with_unreported (kind_of_refused refusal) (why_refused (kind_of_refused refusal))
            self.old.counts }
    {
        let kind = kind_of_refused(refusal);
        self.counts.count(kind, why_refused(kind));
    }
}
