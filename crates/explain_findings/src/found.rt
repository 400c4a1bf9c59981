//! What is found wrong with a report, in a sentence.
ghost use Rattle.std.specs.Prelude.{◌≡◌, ◌++◌, List, ℕ, OnOk, Some, reverse};
ghost use Rattle.std.specs.String.{string_bytes};
ghost use Rattle.exchange_check.specs.Evidence.{last_finding};
ghost use Rattle.explain_findings.specs.Known.{IsNoted, lines_of};
ghost use Rattle.explain_findings.specs.Found.{behind_of, line_text, sentence_at, sentence_text, TellsFinding, TellsMet};

use crate::broken::Broken;
use crate::known::Named;
use crate::mispaired::Mispaired;
use crate::misplaced::Misplaced;
use crate::misread::{Fall, Misread, TooLong, too_long};
use crate::other_master::OtherMaster;
use crate::reported::Case;
use exchange_check::{Finding, Why};
use std::alloc::AllocError;
use std::fmt;
use std::fmt::{Display, Formatter};

/// What is told of a finding, with all that its sentence says.
#[derive(Clone, Copy)]
pub enum Sentence {
    /// 701.
    Misplaced(Misplaced),
    /// 704.
    Broken(Broken),
    /// 702.
    Mispaired(Mispaired),
    /// 703.
    OtherMaster(OtherMaster),
    /// 705, of a reading.
    Misread(Misread),
    /// 705, of a stay whose two lines count.
    Fall(Option<Fall>),
    /// 707, of a message of an exchange.
    TooLong(Option<TooLong>),
    /// 706 and 708: the event alone.
    Event(Named),
}

impl Display for Sentence {
    ghost output = { λ sentence. Some (sentence_text sentence) };

    fn fmt<W: fmt::Write>(&self, f: &mut Formatter<W>) -> fmt::Result {
        match self {
            Sentence::Misplaced(misplaced) => write!(f, "{misplaced}"),
            Sentence::Broken(broken) => write!(f, "{broken}"),
            Sentence::Mispaired(mispaired) => write!(f, "{mispaired}"),
            Sentence::OtherMaster(other) => write!(f, "{other}"),
            Sentence::Misread(misread) => write!(f, "{misread}"),
            Sentence::Fall(Some(fall)) => write!(f, "{fall}"),
            Sentence::TooLong(Some(long)) => write!(f, "{long}"),
            Sentence::Fall(None) | Sentence::TooLong(None) => Ok(()),
            Sentence::Event(named) => write!(f, "{named}"),
        }
    }
}

/// What stands behind the sentence of a finding, or in its place.
#[derive(Clone, Copy, Debug, PartialEq, Eq)]
enum Behind {
    /// No sentence is told: the results are.
    NoSentence,
    /// Nothing.
    Nothing,
    /// What else is wrong with readings.
    Readings,
    /// How messages differ, in place of the sentence.
    Octets,
}

/// What stands behind the sentence of this finding.
fn stands_behind(finding: Finding) -> Behind
    ensures { result ≡ behind_of finding }
{
    match finding {
        Finding::OtherResults => Behind::NoSentence,
        Finding::WrongReading { .. } | Finding::Falls { .. } => Behind::Readings,
        Finding::OtherOctets { .. } => Behind::Octets,
        _ => Behind::Nothing,
    }
}

impl Case<'_> {
    /// The first thing that breaks the condition of this reason; none where it doesn't stand against the report.
    fn finding(&self, why: Why) -> Option<Finding>
        ensures { IsNoted self.now.known → result ≡ last_finding (lines_of self.now.known).network
            (reverse (lines_of self.now.known).lines) self.now.reported.now.report why }
    {
        let known = self.known;
        known
            .evidence
            .finding(known.checker, &self.reported.report, why)
    }

    /// What is told of a finding.
    fn sentence(&self, finding: Finding) -> Sentence
        ensures { IsNoted self.now.known → result
            ≡ sentence_at (lines_of self.now.known) self.now.reported.now self.now.exchange.now finding }
    {
        let (known, reported) = (self.known, self.reported);
        match finding {
            Finding::CantReport => Sentence::Misplaced(Misplaced::CantReport(
                known.named(reported.event).without_outcome(),
            )),
            Finding::OfOtherLine => Sentence::Misplaced(Misplaced::OtherLine(self.other_line())),
            Finding::WrongTag { part, lack } => {
                Sentence::Misplaced(Misplaced::WrongTag(self.wrong_tag(part, lack)))
            }
            Finding::Unstamped { first } => {
                Sentence::Misplaced(Misplaced::Unstamped(self.unstamped(first)))
            }
            Finding::Stops { part, by, lack } => Sentence::Broken(known.stops(part, by, lack)),
            Finding::LeftTwice {
                part,
                entered,
                first,
                second,
            } => Sentence::Broken(known.left_twice(part, entered, first, second)),
            Finding::OtherSync {
                follow_up,
                follows,
                sync,
            } => Sentence::Mispaired(known.other_sync(sync, follow_up, follows)),
            Finding::NoFollowUp { sync } => Sentence::Mispaired(known.no_follow_up(sync)),
            Finding::OtherRequest { request } => {
                Sentence::Mispaired(known.other_request(request, reported.report.request_tag))
            }
            Finding::NoMaster => Sentence::OtherMaster(self.other_master(None)),
            Finding::ToldOther { .. } => Sentence::OtherMaster(self.other_master(None)),
            Finding::OtherAnswers { .. } => Sentence::OtherMaster(self.other_master(None)),
            Finding::OtherDomain => Sentence::OtherMaster(self.other_master(None)),
            Finding::Early { part, set } => {
                Sentence::OtherMaster(self.other_master(Some((part, set))))
            }
            Finding::WrongReading { event, set } => Sentence::Misread(known.misread(event, set)),
            Finding::Falls { entered, left } => Sentence::Fall(known.fall(entered, left)),
            Finding::TooLong { part } => Sentence::TooLong(too_long(self.exchange, part)),
            Finding::OtherResults => Sentence::Event(known.named(reported.event)),
            Finding::OtherOctets { event } => Sentence::Event(known.named(event)),
        }
    }

    /// Appends the sentence of a finding, in a line that begins with four blanks.
    pub(crate) fn push_sentence(
        &self,
        text: &mut String,
        finding: Finding,
    ) -> Result<(), AllocError>
        ensures { IsNoted self.now.known → OnOk result (string_bytes text.new ≡ string_bytes text.old
            ++ line_text (sentence_at (lines_of self.now.known) self.now.reported.now self.now.exchange.now finding)) }
    {
        write!(text, "    {}\n", self.sentence(finding))
    }

    /// Appends what else is wrong with readings, where there is an exchange.
    fn push_more(&self, text: &mut String, finding: Finding) -> Result<(), AllocError>
        ensures { OnOk result ((others : List ℕ) × (string_bytes text.new ≡ string_bytes text.old ++ others)) }
    {
        let mut others = String::new(self.alloc);
        if let Some(exchange) = self.exchange {
            self.push_readings(&mut others, finding, exchange)?;
        }
        text.push_str(others.as_str())
    }

    /// Appends how messages differ from those that ports and clocks write, where there is an exchange; else the sentence of the
    /// finding.
    fn push_differences(&self, text: &mut String, finding: Finding) -> Result<(), AllocError>
        ensures { OnOk result ((told : List ℕ) × (string_bytes text.new ≡ string_bytes text.old ++ told)) }
    {
        let mut told = String::new(self.alloc);
        match (finding, self.exchange) {
            (Finding::OtherOctets { event }, Some(exchange)) => {
                self.push_octets(&mut told, event, exchange)?;
            }
            _ => self.push_sentence(&mut told, finding)?,
        }
        text.push_str(told.as_str())
    }

    /// Appends what is found, and of readings and octets what else is wrong in the exchange, in lines that begin with four
    /// blanks.
    fn push_finding(&self, text: &mut String, finding: Finding) -> Result<(), AllocError>
        ensures { IsNoted self.now.known → OnOk result ((told : List ℕ)
            × TellsFinding (lines_of self.now.known) self.now.reported.now self.now.exchange.now finding told
            × (string_bytes text.new ≡ string_bytes text.old ++ told)) }
    {
        match stands_behind(finding) {
            Behind::NoSentence => Ok(()),
            Behind::Nothing => self.push_sentence(text, finding),
            Behind::Readings => {
                self.push_sentence(text, finding)?;
                self.push_more(text, finding)
            }
            Behind::Octets => self.push_differences(text, finding),
        }
    }

    /// Appends what a reason met, in lines that begin with four blanks: the first thing that breaks its condition, and of
    /// readings and octets what else is wrong in the exchange. Nothing where it doesn't stand against the report.
    pub fn push_met(&self, text: &mut String, why: Why) -> Result<(), AllocError>
        ensures { IsNoted self.now.known → OnOk result ((told : List ℕ)
            × TellsMet (lines_of self.now.known) self.now.reported.now self.now.exchange.now why told
            × (string_bytes text.new ≡ string_bytes text.old ++ told)) }
    {
        match self.finding(why) {
            Some(finding) => self.push_finding(text, finding),
            None => Ok(()),
        }
    }
}
