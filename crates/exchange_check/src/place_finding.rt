//! 701: the lines of a report, or the first thing that is found of them.

ghost use Rattle.std.specs.Prelude.{◌≡◌, length, if◌then◌else◌, Ok, Err};
ghost use Rattle.std.specs.Result.{result_ok};
ghost use Rattle.network_model.specs.Run.{site_of};
ghost use Rattle.exchange_check.specs.Inner.Machine.{facts_of, stamps_of};
ghost use Rattle.exchange_check.specs.Inner.Judged.{is_of_kind, sender_by, found_by, is_stamped_by};
ghost use Rattle.exchange_check.specs.Inner.PlaceFinding.{line_found_by, tag_found_by, sender_found_by, sync_found_by};
ghost use Rattle.exchange_check.specs.Inner.PlaceFinding.{follow_sender_by, follow_found_by, completion_found_by};
ghost use Rattle.exchange_check.specs.Inner.PlaceFinding.{response_sender_by, response_found_by, stamp_before, tagged};
ghost use Rattle.exchange_check.specs.Inner.PlaceFinding.{follow_tagged, tags_found_by, placed_by, place_finding_by};
ghost use Rattle.exchange_check.specs.Inner.Found.{of_report};

use crate::facts::{Fact, Found};
use crate::judging::{LineKind, is_of_line};
use crate::kept::Kept;
use network_model::{Name, Report};
use trace_model::{Finding, Lack, Part};

/// A line that passes a test, or what it lacks.
fn passing(fact: &Fact, passes: bool, lack: Lack) -> Result<Fact, Lack>
    ensures { result ≡ (if passes then Ok fact.now else Err lack) }
{
    if passes { Ok(*fact) } else { Err(lack) }
}

/// A line that the tag of a message names, or that this tag is wrong.
fn tagged(part: Part, found: Result<Fact, Lack>) -> Result<Fact, Finding>
    ensures { result ≡ tagged part found }
{
    match found {
        Ok(fact) => Ok(fact),
        Err(lack) => Err(Finding::WrongTag { part, lack }),
    }
}

impl Kept {
    /// The line of a number below another one, or what this number lacks.
    fn line_found(&self, limit: u64, number: u64) -> Result<Fact, Lack>
        ensures { result ≡ line_found_by (facts_of self.now) limit number }
    {
        if number >= limit {
            return Err(Lack::NotBefore(number));
        }
        match self.at(number) {
            Some(fact) => Ok(*fact),
            None => Err(Lack::CameToNothing(number)),
        }
    }

    /// The line of a report's tag, of this kind and at this slave.
    fn tag_found(&self, kind: LineKind, slave: &Name, number: u64) -> Result<Fact, Lack>
        ensures { result
            ≡ tag_found_by (facts_of self.now) (length self.now.facts.items) (is_of_kind kind) slave.now number }
    {
        match self.line_found(self.facts.len() as u64, number) {
            Ok(fact) => passing(
                &fact,
                kind.is_of(&fact.event) && fact.event.node() == *slave,
                Lack::OtherEvent(number),
            ),
            Err(lack) => Err(lack),
        }
    }

    /// The line that made the copy which is heard at a line.
    fn sender_found(&self, fact: &Fact) -> Result<Fact, Lack>
        ensures { result ≡ sender_found_by (facts_of self.now) fact.now }
    {
        match fact.event.heard_copy() {
            Some(copy) => self.line_found(fact.line, copy),
            None => Err(Lack::OtherEvent(fact.line)),
        }
    }

    /// The same, where it is there.
    #[tactic(auto, using(crate::proofs::Placed::sender_ok))]
    pub(crate) fn sender(&self, fact: &Fact) -> Option<Fact>
        ensures { result ≡ sender_by (facts_of self.now) fact.now }
    {
        match self.sender_found(fact) {
            Ok(sender) => Some(sender),
            Err(_) => None,
        }
    }

    /// The Sync's arrival.
    fn sync_found(&self, slave: &Name, report: &Report) -> Result<Fact, Lack>
        ensures { result ≡ sync_found_by (facts_of self.now) (length self.now.facts.items) slave.now report.now }
    {
        let tag = report.sync_tag;
        match self.tag_found(LineKind::Arrival, slave, tag) {
            Ok(fact) => passing(
                &fact,
                report.follow_tag.is_some() || fact.completes,
                Lack::CompletedNothing(tag),
            ),
            Err(lack) => Err(lack),
        }
    }

    /// The line that made the copy which is heard by the Follow_Up's tag.
    fn follow_sender(&self, slave: &Name, hearing: u64) -> Result<Fact, Lack>
        ensures { result ≡ follow_sender_by (facts_of self.now) (length self.now.facts.items) slave.now hearing }
    {
        match self.tag_found(LineKind::Hearing, slave, hearing) {
            Ok(heard) => self.sender_found(&heard),
            Err(lack) => Err(lack),
        }
    }

    /// The line that sent the Follow_Up.
    fn follow_found(&self, slave: &Name, hearing: u64) -> Result<Fact, Lack>
        ensures { result ≡ follow_found_by (facts_of self.now) (length self.now.facts.items) slave.now hearing }
    {
        match self.follow_sender(slave, hearing) {
            Ok(sender) => passing(
                &sender,
                sender.event.is_follow(),
                Lack::OtherEvent(sender.line),
            ),
            Err(lack) => Err(lack),
        }
    }

    /// The same, where the report has a Follow_Up.
    fn follow_tagged(&self, slave: &Name, hearing: Option<u64>) -> Result<Option<Fact>, Finding>
        ensures { result ≡ follow_tagged (facts_of self.now) (length self.now.facts.items) slave.now hearing }
    {
        match hearing {
            Some(hearing) => {
                let follow = tagged(Part::FollowUp, self.follow_found(slave, hearing))?;
                Ok(Some(follow))
            }
            None => Ok(None),
        }
    }

    /// The hearing of this number, where it completed a pair.
    fn completion_found(&self, slave: &Name, hearing: u64) -> Result<Fact, Lack>
        ensures { result ≡ completion_found_by (facts_of self.now) (length self.now.facts.items) slave.now hearing }
    {
        match self.tag_found(LineKind::Hearing, slave, hearing) {
            Ok(heard) => passing(&heard, heard.completes, Lack::CompletedNothing(hearing)),
            Err(lack) => Err(lack),
        }
    }

    /// The line that made the copy which is heard by the Delay_Resp's tag.
    fn response_sender(&self, slave: &Name, hearing: u64) -> Result<Fact, Lack>
        ensures { result ≡ response_sender_by (facts_of self.now) (length self.now.facts.items) slave.now hearing }
    {
        match self.completion_found(slave, hearing) {
            Ok(heard) => self.sender_found(&heard),
            Err(lack) => Err(lack),
        }
    }

    /// The arrival that sent the Delay_Resp.
    fn response_found(&self, slave: &Name, hearing: u64) -> Result<Fact, Lack>
        ensures { result ≡ response_found_by (facts_of self.now) (length self.now.facts.items) slave.now hearing }
    {
        match self.response_sender(slave, hearing) {
            Ok(sender) => passing(
                &sender,
                sender.event.is_arrival() && sender.made,
                Lack::OtherEvent(sender.line),
            ),
            Err(lack) => Err(lack),
        }
    }

    /// The lines that the four tags of a report name.
    fn tags_found(&self, slave: &Name, report: &Report) -> Result<Found, Finding>
        ensures { result ≡ tags_found_by (facts_of self.now) (length self.now.facts.items) slave.now report.now }
    {
        let sync_arrival = tagged(Part::Sync, self.sync_found(slave, report))?;
        let follow = self.follow_tagged(slave, report.follow_tag)?;
        let request = self.tag_found(LineKind::Request, slave, report.request_tag);
        let request = tagged(Part::DelayReq, request)?;
        let response = self.response_found(slave, report.response_tag);
        let request_arrival = tagged(Part::DelayResp, response)?;
        Ok(Found {
            sync_arrival,
            follow,
            request,
            request_arrival,
        })
    }

    /// Whether the slave learned between these two lines when its request departed.
    fn is_stamped(&self, request: u64, hearing: u64) -> bool
        ensures { result ≡ is_stamped_by (stamps_of self.now) request hearing }
    {
        let stamped = match self.stamps.get(&request) {
            Some(stamp) => *stamp < hearing,
            None => false,
        };
        request < hearing && stamped
    }

    /// The first line before this one by which the slave learned when the request of this number departed.
    fn stamp_before(&self, request: u64, number: u64) -> Option<u64>
        ensures { result ≡ stamp_before (stamps_of self.now) request number }
    {
        match self.stamps.get(&request) {
            Some(stamp) if *stamp < number => Some(*stamp),
            _ => None,
        }
    }

    /// The lines of a report of this line, which counts, or the first thing that is found of them.
    fn placed(&self, fact: &Fact, report: &Report) -> Result<Found, Finding>
        ensures { result ≡ placed_by (facts_of self.now) (stamps_of self.now) (length self.now.facts.items) report.now
            fact.now }
    {
        if !is_of_line(fact.line, report) {
            return Err(Finding::OfOtherLine);
        }
        let found = self.tags_found(&fact.event.node(), report)?;
        if self.is_stamped(report.request_tag, report.response_tag) {
            return Ok(found);
        }
        let first = self.stamp_before(report.request_tag, fact.line);
        Err(Finding::Unstamped { first })
    }

    /// The same, as the lines are judged.
    pub(crate) fn found(&self, fact: &Fact, report: &Report) -> Result<Found, Finding>
        ensures placed { result ≡ placed_by (facts_of self.now) (stamps_of self.now) (length self.now.facts.items)
            report.now fact.now }
        ensures lines { result_ok result ≡ found_by (facts_of self.now) (stamps_of self.now) (site_of fact.now.event)
            fact.now.line report.now }
    {
        self.placed(fact, report)
    }

    /// The lines of a report of the line of this number, where that counts.
    pub(crate) fn found_at(&self, number: u64, report: &Report) -> Option<Found>
        ensures { result ≡ of_report (facts_of self.now) (stamps_of self.now) (λ fact found. Some found) number
            report.now }
    {
        match self.at(number) {
            Some(fact) => match self.found(fact, report) {
                Ok(found) => Some(found),
                Err(_) => None,
            },
            None => None,
        }
    }

    /// What is found of the lines of a report of the last line; none where there is no line.
    pub(crate) fn place_finding(&self, report: &Report) -> Option<Finding>
        ensures { result ≡ place_finding_by (facts_of self.now) (stamps_of self.now) (length self.now.facts.items)
            report.now }
    {
        if self.facts.is_empty() {
            return None;
        }
        match self.at(self.last_number()) {
            Some(fact) => match self.placed(fact, report) {
                Ok(_) => None,
                Err(finding) => Some(finding),
            },
            None => Some(Finding::CantReport),
        }
    }
}
