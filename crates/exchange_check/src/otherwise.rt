//! Messages whose octets tell otherwise than those that ports and clocks write: in a field that a slave or a master reads.

ghost use Rattle.std.specs.Prelude.{◌≡◌, option_and_then, reverse};
ghost use Rattle.std.specs.BTreeMap.{get};
ghost use Rattle.std.specs.Ordering.{nat_cmp};
ghost use Rattle.trace_model.specs.declared.finding.Finding.TheVariants as findings;
ghost use Rattle.exchange_check.specs.Evidence.{Evidences, last_otherwise};
ghost use Rattle.exchange_check.specs.Inner.Found.{of_found};
ghost use Rattle.exchange_check.specs.Inner.Machine.{facts_of, stamps_of};
ghost use Rattle.exchange_check.specs.Inner.Noting.{mapped};
ghost use Rattle.exchange_check.specs.Inner.Otherwise.{copy_in, exchange_otherwise_by, otherwise_by};
ghost use Rattle.copy_stays.specs.Stays.{once_in};

use crate::checker::Checker;
use crate::evidence::Evidence;
use crate::exceptions::Exceptions;
use crate::facts::{Fact, Found};
use crate::judging::LineKind;
use crate::kept::Kept;
use network_model::Report;
use trace_model::Finding;

impl Exceptions {
    /// The first message whose octets tell otherwise, of the one that the line of this number made.
    fn otherwise_at(&self, number: u64) -> Option<Finding>
        ensures { result ≡ mapped findings.OtherOctets (get nat_cmp self.now.first_otherwise) number }
    {
        match self.first_otherwise.get(&number) {
            Some(event) => Some(Finding::OtherOctets { event: *event }),
            None => None,
        }
    }

    /// The same, of the copy that arrives at a line.
    fn copy_otherwise(&self, arrival: &Fact) -> Option<Finding>
        ensures { result ≡ copy_in (mapped findings.OtherOctets (get nat_cmp self.now.first_otherwise)) arrival.now }
    {
        self.otherwise_at(arrival.event.heard_copy()?)
    }

    /// The same, of the Follow_Up, where there is one.
    fn follow_otherwise(&self, follow: &Option<Fact>) -> Option<Finding>
        ensures { result ≡ option_and_then
            (λ fact. mapped findings.OtherOctets (get nat_cmp self.now.first_otherwise) fact.line) follow.now }
    {
        match follow {
            Some(follow) => self.otherwise_at(follow.line),
            None => None,
        }
    }

    /// The same, of all messages of an exchange.
    fn exchange_otherwise(&self, found: &Found) -> Option<Finding>
        ensures { result ≡ exchange_otherwise_by (mapped findings.OtherOctets (get nat_cmp self.now.first_otherwise))
            found.now }
    {
        let sync = self.copy_otherwise(&found.sync_arrival);
        let follow = self.follow_otherwise(&found.follow);
        let request = self.copy_otherwise(&found.request_arrival);
        let response = self.otherwise_at(found.request_arrival.line);
        sync.or(follow.or(request.or(response)))
    }

    /// The same, where both journeys can be followed.
    fn journeys_otherwise(&self, kept: &Kept, found: &Found) -> Option<Finding>
        ensures { result ≡ of_found (facts_of kept.now) (once_in kept.now.stays) (λ told sync request. exchange_otherwise_by
            (mapped findings.OtherOctets (get nat_cmp self.now.first_otherwise)) told) found.now }
    {
        let sync = kept.journey_to(LineKind::DrawsSync, &found.sync_arrival);
        let request = kept.journey_to(LineKind::Request, &found.request_arrival);
        match (sync, request) {
            (Ok(_), Ok(_)) => self.exchange_otherwise(found),
            _ => None,
        }
    }

    /// The same, of a report of the line of this number.
    fn report_otherwise(&self, kept: &Kept, number: u64, report: &Report) -> Option<Finding>
        ensures { result ≡ otherwise_by (facts_of kept.now) (once_in kept.now.stays) (stamps_of kept.now)
            (mapped findings.OtherOctets (get nat_cmp self.now.first_otherwise)) number report.now }
    {
        match kept.found_at(number, report) {
            Some(found) => self.journeys_otherwise(kept, &found),
            None => None,
        }
    }
}

impl Evidence {
    /// The first message of the exchange of a report of the line that was noted last whose octets tell otherwise than
    /// those that its port or its clock writes (708). Told otherwise is a field that a slave or a master reads, and
    /// what is there though the port writes no message. The messages are the Sync as it was sent and as it left each
    /// clock, its Follow_Up, the Delay_Req in the same way, and the Delay_Resp. None where 701 or 704 stands against
    /// the report.
    pub fn first_otherwise(&self, checker: &Checker, report: &Report) -> Option<Finding>
        ensures { Evidences self.now checker.now
            → result ≡ last_otherwise checker.now.network (reverse checker.now.lines) report.now }
    {
        let (_, kept) = checker.inside();
        self.exceptions
            .report_otherwise(kept, kept.last_number(), report)
    }
}
