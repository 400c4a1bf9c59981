//! How many reports there are, and which datagrams gave none.
ghost use Rattle.std.specs.Prelude.{◌≡◌, Some};
ghost use Rattle.recording_words.specs.Unreported.{reports_text, name_of, names_of, name_for, many_text, alone_text, why_text, counted_text};
ghost use Rattle.recording_words.specs.Unreported.{counted_line, kind_lines, unreported_text};

use recording_summary::{ALL_KINDS, ALL_REASONS, Counts, Kind, NoReport};
use std::fmt;
use std::fmt::{Display, Formatter};

/// How many reports there are. Shows as a line.
#[derive(Clone, Copy)]
pub struct ReportsLine(pub u64);

#[tactic(auto, unfolding(crate::specs::Unreported::reports_text))]
impl Display for ReportsLine {
    ghost output = { λ count. Some (reports_text count.0) };

    fn fmt<W: fmt::Write>(&self, f: &mut Formatter<W>) -> fmt::Result {
        match self.0 {
            0 => f.write_str("ptpx: no report\n"),
            1 => f.write_str("ptpx: 1 report\n"),
            count => write!(f, "ptpx: {count} reports\n"),
        }
    }
}

/// One datagram of a kind.
#[tactic(auto, unfolding(crate::specs::Unreported::name_of))]
fn name_of(kind: Kind) -> &'static str
    ensures { result.now ≡ name_of kind }
{
    match kind {
        Kind::Sync => "Sync",
        Kind::FollowUp => "Follow_Up",
        Kind::DelayReq => "Delay_Req",
        Kind::DelayResp => "Delay_Resp",
        Kind::Pdelay => "Pdelay message",
        Kind::Announce => "Announce message",
        Kind::Signaling => "Signaling message",
        Kind::Management => "Management message",
        Kind::Reserved => "message of a reserved type",
        Kind::Malformed => "datagram that is no message",
    }
}

/// More of them.
#[tactic(auto, unfolding(crate::specs::Unreported::names_of))]
fn names_of(kind: Kind) -> &'static str
    ensures { result.now ≡ names_of kind }
{
    match kind {
        Kind::Sync => "Syncs",
        Kind::FollowUp => "Follow_Ups",
        Kind::DelayReq => "Delay_Reqs",
        Kind::DelayResp => "Delay_Resps",
        Kind::Pdelay => "Pdelay messages",
        Kind::Announce => "Announce messages",
        Kind::Signaling => "Signaling messages",
        Kind::Management => "Management messages",
        Kind::Reserved => "messages of reserved types",
        Kind::Malformed => "datagrams that are no messages",
    }
}

/// What so many of a kind are called.
#[tactic(auto, unfolding(crate::specs::Unreported::name_for))]
fn name_for(count: u64, kind: Kind) -> &'static str
    ensures { result.now ≡ name_for count kind }
{
    match count {
        1 => name_of(kind),
        _ => names_of(kind),
    }
}

/// So many of a kind.
#[derive(Clone, Copy)]
struct Many {
    count: u64,
    kind: Kind,
}

#[tactic(auto, unfolding(crate::specs::Unreported::many_text))]
impl Display for Many {
    ghost output = { λ many. Some (many_text many.count many.kind) };

    fn fmt<W: fmt::Write>(&self, f: &mut Formatter<W>) -> fmt::Result {
        let name = name_for(self.count, self.kind);
        write!(f, "{} {name}", self.count)
    }
}

/// Which half of a report wasn't there when the other one was completed.
#[tactic(auto, unfolding(crate::specs::Unreported::alone_text))]
fn alone(kind: Kind) -> &'static str
    ensures { result.now ≡ alone_text kind }
{
    match kind {
        Kind::DelayResp => " that came while no Sync was complete",
        _ => " that came while no path delay was known",
    }
}

/// Why a datagram of a kind gave no report, behind its name.
#[tactic(auto, unfolding(crate::specs::Unreported::why_text))]
fn words_of(why: NoReport, kind: Kind) -> &'static str
    ensures { result.now ≡ why_text why kind }
{
    match why {
        NoReport::Held => " that waited for the other half of the Sync",
        NoReport::Alone => alone(kind),
        NoReport::OfSlave => " of the slave",
        NoReport::Again => " of the slave, with the number of the last one",
        NoReport::Before => " with a number that came before",
        NoReport::OtherDomain => " of another domain",
        NoReport::OtherMaster => " of another master",
        NoReport::OtherSlave => " of another slave",
        NoReport::TooBig => " with a correction that is too big to be represented",
        NoReport::NotNewer => " no newer than the last Sync that was completed",
        NoReport::Unrecorded => " to requests that weren't recorded",
        NoReport::PeerDelay => ": peer delay isn't measured",
        NoReport::TooEarly => " before it was known whom to watch",
        NoReport::NoPart => "",
    }
}

/// So many of a kind gave no report for a reason.
#[derive(Clone, Copy)]
struct Counted {
    count: u64,
    kind: Kind,
    why: NoReport,
}

#[tactic(auto, unfolding(crate::specs::Unreported::counted_text))]
impl Display for Counted {
    ghost output = { λ counted. Some (counted_text counted.count counted.kind counted.why) };

    fn fmt<W: fmt::Write>(&self, f: &mut Formatter<W>) -> fmt::Result {
        let many = Many {
            count: self.count,
            kind: self.kind,
        };
        write!(f, "{many}{}", words_of(self.why, self.kind))
    }
}

/// A line of these, where there are any.
#[derive(Clone, Copy)]
struct CountedLine(Counted);

#[tactic(auto, unfolding(crate::specs::Unreported::counted_line))]
impl Display for CountedLine {
    ghost output = { λ line. Some (counted_line line.0.count line.0.kind line.0.why) };

    fn fmt<W: fmt::Write>(&self, f: &mut Formatter<W>) -> fmt::Result {
        match self.0.count {
            0 => Ok(()),
            _ => write!(f, "ptpx: {}\n", self.0),
        }
    }
}

/// The lines of a kind.
#[derive(Clone, Copy)]
struct KindLines<'a> {
    counts: &'a Counts,
    kind: Kind,
}

#[tactic(auto, unfolding(crate::specs::Unreported::kind_lines))]
impl Display for KindLines<'_> {
    ghost output = { λ lines. Some (kind_lines lines.counts.now lines.kind) };

    fn fmt<W: fmt::Write>(&self, f: &mut Formatter<W>) -> fmt::Result {
        let Self { counts, kind } = *self;
        for why in ALL_REASONS {
            let count = counts.at(kind, why);
            write!(f, "{}", CountedLine(Counted { count, kind, why }))?;
        }
        Ok(())
    }
}

/// How many datagrams of each kind gave no report, for each reason. Shows as lines.
#[derive(Clone, Copy)]
pub struct UnreportedLines<'a>(pub &'a Counts);

#[tactic(auto, unfolding(crate::specs::Unreported::unreported_text))]
impl Display for UnreportedLines<'_> {
    ghost output = { λ lines. Some (unreported_text lines.0.now) };

    fn fmt<W: fmt::Write>(&self, f: &mut Formatter<W>) -> fmt::Result {
        for kind in ALL_KINDS {
            let counts = self.0;
            write!(f, "{}", KindLines { counts, kind })?;
        }
        Ok(())
    }
}
