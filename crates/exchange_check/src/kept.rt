//! What is kept of the lines so far, and what one more line adds to it.

ghost use Rattle.std.specs.Prelude.{◌≡◌, ◌≤ℤ◌, ◌+ℤ◌, ◌+◌, pos, option_map, option_and_then, unwrap_or, IfSome, ℕ, true};
ghost use Rattle.std.specs.Prelude.{◌==◌, Some, None, OnOk, OnErr, ◌<◌, ◌-◌, length, MatchResult, IfOk};
ghost use Rattle.std.specs.BTreeMap.{get};
ghost use Rattle.std.specs.Ordering.{nat_cmp};
ghost use Rattle.exchange_check.specs.Inner.Machine.{accepted_count};
ghost use Rattle.exchange_check.specs.Inner.Machine.{Machine, IsKept, start, line_judgement_by, with_judgement};
ghost use Rattle.exchange_check.specs.Inner.Machine.{after_line, judgement_after, sites_told};
ghost use Rattle.exchange_check.specs.Inner.Machine.{leaves_told, stamps_told, facts_of, sites_of, stamps_of};
ghost use Rattle.exchange_check.specs.Inner.Machine.{firsts_told, firsts_of};
ghost use Rattle.exchange_check.specs.Inner.Stays.{stay_of};
ghost use Rattle.copy_stays.specs.Stays.{once_in, StaysAfter};
ghost use Rattle.network_model.specs.Kinds.{named_transit};
ghost use Rattle.network_model.specs.Run.{site_of};
ghost use Rattle.network_model.specs.Network.{Network};
ghost use Rattle.std.specs.Option.{option_map_or};
ghost use Rattle.exchange_check.specs.Inner.Kept.{stamped, sites_after, leaves_after, firsts_after, stamps_after};
ghost use Rattle.exchange_check.specs.Inner.Kept.{has_site, kept_journey_at, copy_entered_by, stayed, begun_by};
ghost use Rattle.exchange_check.specs.Inner.Kept.{kept_journey_by, message_after_by, followed_by, answered_by};
ghost use Rattle.exchange_check.specs.Inner.Kept.{message_by, known_by, number_by, fact_known, fact_from};
ghost use Rattle.exchange_check.specs.Inner.Kept.{kept_journey_left, written_journey, port_setup};
ghost use Rattle.exchange_check.specs.Inner.Telling.{message_at_by};
ghost use Rattle.exchange_check.specs.Inner.Noting.{line_of_fact, is_made_at};
ghost use Rattle.ptp_units.specs.Sequence.{of_count};
ghost use Rattle.event_codec.specs.Profile.{contents_of};
ghost use Rattle.trace_model.specs.Record.{is_reading};

use crate::facts::{Fact, KeptJourney, Known, Site};
use crate::good::{completes, counts, is_made};
use crate::kept_line::KeptLine;
use crate::lookup::Lookup;
use crate::octets::{Port, delay_resp, is_written, master_at, resided, sent, slave_at};
use crate::refusal::CheckFault;
use crate::residence::Residence;
use crate::sites::{move_site, site_in};
use crate::wrong_lines::{WrongLines, wrong_line};
use copy_stays::Stays;
use event_codec::PortMessage;
use master_port::follow_up;
use network_model::{Event, Name, Nodes};
use ptp_units::{ScaledTime, Seq};
use std::alloc::Global;
use std::collections::BTreeMap;
use trace_model::{Judgement, TraceLine, TraceOut, Verdict};

/// What is kept of the lines so far.
#[derive(Drop)]
pub(crate) struct Kept {
    /// Of each line that counts.
    pub(crate) facts: Vec<Option<Fact>>,
    /// Of nodes, by their places in the network.
    pub(crate) sites: Vec<Site>,
    /// Of stays, and of the copies that left after them.
    pub(crate) stays: Stays,
    /// Of each request: the number of the line at which its departure was learned.
    pub(crate) stamps: BTreeMap<u64, u64>,
    /// The verdict so far.
    pub(crate) verdict: Verdict,
}

/// Whether a line's reading is what the clock showed at a true moment.
fn is_reading(reading: Option<ScaledTime>, at: Option<ScaledTime>, site: &Site) -> bool
    ensures { result ≡ is_reading reading (option_map (λ moment. pos moment +ℤ site.now.difference) at) }
{
    let difference = site.difference;
    match (reading, at) {
        (Some(reading), Some(at)) => reading.value() as i128 - at.value() as i128 == difference,
        _ => false,
    }
}

/// A reading, 0 where there is none.
fn moment_or_zero(reading: Option<ScaledTime>) -> ScaledTime
    ensures { result ≡ unwrap_or reading 0 }
{
    match reading {
        Some(moment) => moment,
        None => ScaledTime::default(),
    }
}

/// The number after so many that a port drew, 0 where there is no port.
fn drawn(port: Option<Port>, count: Seq) -> Seq
    ensures { result.0 ≡ option_map_or (λ setup. of_count (setup.first + count.0)) (option_map port_setup port) 0 }
{
    match port {
        Some(port) => Seq(port.first.0.wrapping_add(count.0)),
        None => Seq(0),
    }
}

/// The copy that entered at a line, where that is a line of this clock and the copy was made before it.
fn copy_entered(clock: &Name, entered: &Fact) -> Option<u64>
    ensures { result ≡ copy_entered_by clock.now entered.now }
{
    let copy = entered.event.entered_copy()?;
    if entered.event.node() == *clock && copy < entered.line {
        Some(copy)
    } else {
        None
    }
}

/// A journey and one more stay. Refused where there is no room for the residence.
fn stayed(known: &Known, entered: &Fact, before: &KeptJourney) -> Result<KeptJourney, CheckFault>
    ensures { IfOk result (λ journey. journey ≡ stayed known.now entered.now before.now) }
{
    let stay = known
        .reading
        .value()
        .saturating_sub(entered.reading.value());
    let rises = known.reading.value() >= entered.reading.value();
    let entering = wrong_line(entered.reads_right, entered.line);
    let leaving = wrong_line(known.reads && rises, known.line);
    let reading = before.wrong.reading().or(entering.or(leaving));
    Ok(KeptJourney {
        residence: before.residence.plus(stay)?,
        origin: before.origin,
        wrong: WrongLines::new(reading, before.wrong.octets()),
    })
}

/// The journey of a message that a line sends.
fn begun(known: &Known) -> KeptJourney
    ensures { result ≡ begun_by known.now }
{
    KeptJourney {
        residence: Residence::zero(),
        origin: known.line,
        wrong: WrongLines::new(wrong_line(known.reads, known.line), None),
    }
}

impl Kept {
    /// What is kept before the first line.
    pub(crate) fn new(alloc: Global) -> Kept
        ensures { (network : Network) → IsKept network result 0 start }
    {
        Kept {
            facts: Vec::new(alloc),
            sites: Vec::new(alloc),
            stays: Stays::new(alloc),
            stamps: BTreeMap::new(alloc),
            verdict: Verdict::Accepted(0),
        }
    }

    /// What is kept of the line of this number, where it counts.
    pub(crate) fn at(&self, number: u64) -> Option<&Fact>
        ensures { option_map (λ fact. fact.now) result ≡ facts_of self.now number }
    {
        match self.facts.get(number as usize) {
            Some(Some(fact)) => Some(fact),
            _ => None,
        }
    }

    /// The number of the last line; 0 also where there is none.
    pub(crate) fn last_number(&self) -> u64
        ensures { result ≡ length self.now.facts.items - 1 }
    {
        (self.facts.len() as u64).saturating_sub(1)
    }

    /// What is kept of the node of a line.
    pub(crate) fn site_of(&self, nodes: &Nodes, fact: &Fact) -> Site
        ensures { result ≡ sites_of nodes.now self.now (site_of fact.now.event) }
    {
        let node = fact.event.node();
        self.site(&Lookup::new(nodes, node), &node)
    }

    /// What is told of the line of this number, where it counts.
    pub(crate) fn told_at(&self, number: u64) -> Option<KeptLine>
        ensures { result ≡ option_map line_of_fact (facts_of self.now number) }
    {
        match self.at(number) {
            Some(fact) => Some(fact.told()),
            None => None,
        }
    }

    /// Whether the line of this number counts and made a message.
    pub(crate) fn is_made_at(&self, number: u64) -> bool
        ensures { result ≡ is_made_at (facts_of self.now) number }
    {
        match self.at(number) {
            Some(fact) => fact.made,
            None => false,
        }
    }

    /// The line that sent the message of which the line of this number made a copy.
    pub(crate) fn origin_at(&self, number: u64) -> Option<u64>
        ensures { result ≡ option_map (λ journey. journey.origin) (kept_journey_at (facts_of self.now) number) }
    {
        match self.kept_journey_at(number) {
            Some(journey) => Some(journey.origin),
            None => None,
        }
    }

    /// The last line that told a slave its master.
    pub(crate) fn master_told(&self, nodes: &Nodes, slave: &Name) -> Option<u64>
        ensures { result ≡ option_map (λ set. set.1) (sites_of nodes.now self.now slave.now).set_master }
    {
        match self.site(&Lookup::new(nodes, *slave), slave).set_master {
            Some((_, number)) => Some(number),
            None => None,
        }
    }

    /// The first line by which a slave learned when the request of this number departed.
    pub(crate) fn first_stamp(&self, request: u64) -> Option<u64>
        ensures { result ≡ stamps_of self.now request }
    {
        self.stamps.get(&request).copied()
    }

    /// What is kept of a node.
    pub(crate) fn site(&self, nodes: &Lookup<'_>, name: &Name) -> Site
        ensures { result ≡ sites_of nodes.now self.now name.now }
    {
        site_in(self.sites.as_slice(), nodes, name)
    }

    /// The journey of the copy that the line of this number made.
    pub(crate) fn kept_journey_at(&self, copy: u64) -> Option<KeptJourney>
        ensures { result ≡ kept_journey_at (facts_of self.now) copy }
    {
        self.at(copy)?.journey
    }

    /// The sequenceId that an event draws.
    fn number(&self, nodes: &Lookup<'_>, event: &Event) -> Seq
        ensures { result.0 ≡ number_by nodes.now (sites_of nodes.now self.now) event.now }
    {
        match event {
            Event::Sync { node, .. } | Event::SyncOne { node, .. } => {
                drawn(master_at(nodes, node), self.site(nodes, node).syncs)
            }
            Event::Request { node, .. } => drawn(
                slave_at(nodes, node),
                self.site(nodes, node).requests,
            ),
            _ => Seq(0),
        }
    }

    /// What is known of a line from the line itself and from its node.
    fn known(&self, nodes: &Lookup<'_>, line: &TraceLine, number: u64) -> Known
        ensures { result ≡ known_by nodes.now (sites_of nodes.now self.now) line.now number }
    {
        let site = self.site(nodes, &line.event.node());
        Known {
            line: number,
            reading: moment_or_zero(line.reading),
            number: self.number(nodes, &line.event),
            reads: is_reading(line.reading, line.event.true_moment(), &site),
            last_sync: site.last_sync,
        }
    }

    /// The journey of a copy that leaves a clock, its own octets left out.
    fn left(
        &self,
        clock: &Name,
        transit: u64,
        known: &Known,
    ) -> Result<Option<KeptJourney>, CheckFault>
        ensures { IfOk result (λ journey. journey ≡ kept_journey_left (facts_of self.now) clock.now transit known.now) }
    {
        let Some(entered) = self.at(transit) else {
            return Ok(None);
        };
        let Some(copy) = copy_entered(clock, entered) else {
            return Ok(None);
        };
        let Some(before) = self.kept_journey_at(copy) else {
            return Ok(None);
        };
        Ok(Some(stayed(known, entered, &before)?))
    }

    /// The journey of the copy that a line made, its own octets left out.
    fn journey(&self, known: &Known, event: &Event) -> Result<Option<KeptJourney>, CheckFault>
        ensures { IfOk result (λ journey. journey ≡ kept_journey_by (facts_of self.now) known.now event.now) }
    {
        match event {
            Event::Sync { .. } | Event::SyncOne { .. } | Event::Request { .. } => {
                Ok(Some(begun(known)))
            }
            Event::Leave { node, transit, .. } => self.left(node, *transit, known),
            _ => Ok(None),
        }
    }

    /// The message at the end of a journey.
    fn message_after(&self, nodes: &Lookup<'_>, journey: &KeptJourney) -> Option<PortMessage>
        ensures value { option_map contents_of result ≡ message_after_by nodes.now (facts_of self.now) journey.now }
        ensures sign { IfSome result (λ m. pos 0 ≤ℤ m.header.correction.0) }
    {
        let origin = self.at(journey.origin)?;
        let message = sent(nodes, &origin.event, origin.number, origin.reading)?;
        Some(resided(&message, journey.residence.units()))
    }

    /// The Follow_Up of the Sync line of this number.
    fn followed(&self, port: &Port, last: Option<u64>) -> Option<PortMessage>
        ensures { option_map contents_of result ≡ followed_by (facts_of self.now) (port_setup port.now) last }
    {
        let sync = self.at(last?)?;
        Some(follow_up(&port.config, sync.number, sync.reading))
    }

    /// The Delay_Resp to a message that made this journey and arrives now.
    fn answered(
        &self,
        nodes: &Lookup<'_>,
        port: &Port,
        now: ScaledTime,
        journey: Option<KeptJourney>,
    ) -> Option<PortMessage>
        ensures { option_map contents_of result
            ≡ answered_by nodes.now (facts_of self.now) (port_setup port.now) now journey }
    {
        let request = self.message_after(nodes, &journey?)?;
        delay_resp(&port.config, &request.header, now)
    }

    /// The message that a line makes.
    fn message(
        &self,
        nodes: &Lookup<'_>,
        known: &Known,
        journey: Option<KeptJourney>,
        event: &Event,
    ) -> Option<PortMessage>
        ensures { option_map contents_of result ≡ message_by nodes.now (facts_of self.now) known.now journey event.now }
    {
        match event {
            Event::Sync { .. } | Event::SyncOne { .. } | Event::Request { .. } => {
                sent(nodes, event, known.number, known.reading)
            }
            Event::Follow { node } => self.followed(&master_at(nodes, node)?, known.last_sync),
            Event::Leave { .. } => self.message_after(nodes, &journey?),
            Event::Arrive { node, copy, .. } => {
                let port = master_at(nodes, node)?;
                self.answered(nodes, &port, known.reading, self.kept_journey_at(*copy))
            }
            _ => None,
        }
    }

    /// The message that the line of this number makes.
    pub(crate) fn message_at(&self, nodes: &Nodes, number: u64) -> Option<PortMessage>
        ensures { option_map contents_of result ≡ message_at_by nodes.now (facts_of self.now) number }
    {
        let fact = self.at(number)?;
        if !fact.hears_earlier() {
            return None;
        }
        let nodes = Lookup::new(nodes, fact.event.node());
        self.message(&nodes, &fact.known(), fact.journey, &fact.event)
    }

    /// What is kept of a line that counts.
    fn fact_of(
        &self,
        nodes: &Lookup<'_>,
        line: &TraceLine,
        known: &Known,
        journey: &Option<KeptJourney>,
    ) -> Fact
        ensures { result ≡ fact_known nodes.now (facts_of self.now) line.now known.now journey.now }
    {
        let message = self.message(nodes, known, *journey, &line.event);
        let writes_right = is_written(&message, &line.out);
        Fact {
            line: known.line,
            event: line.event,
            reading: known.reading,
            made: is_made(&line.out),
            completes: completes(&line.out),
            number: known.number,
            reads_right: known.reads,
            writes_right,
            last_sync: known.last_sync,
            journey: with_octets(*journey, writes_right, known.line),
        }
    }

    /// What is kept of a line, where it counts.
    fn fact(
        &self,
        nodes: &Lookup<'_>,
        line: &TraceLine,
        known: &Known,
        journey: &Option<KeptJourney>,
    ) -> Option<Fact>
        ensures { result ≡ fact_from nodes.now (facts_of self.now) line.now known.now journey.now }
    {
        if counts(nodes, line) {
            Some(self.fact_of(nodes, line, known, journey))
        } else {
            None
        }
    }

    /// The copy that entered at the stay which a Leave line leaves, where the journey of the copy that left
    /// is known.
    fn entered(&self, fact: &Fact, transit: u64, number: u64) -> Option<u64>
        ensures stay { named_transit fact.now.event ≡ Some transit
            → option_map (λ copy. (transit, copy)) result ≡ stay_of (facts_of self.now) number fact.now }
        ensures below { IfSome result (λ copy. copy < number) }
    {
        if fact.journey.is_none() || transit >= number {
            return None;
        }
        let copy = self.at(transit)?.event.entered_copy()?;
        if copy < number { Some(copy) } else { None }
    }

    /// Takes the line of this number, which counts, into what is kept beside facts.
    fn note(&mut self, nodes: &Lookup<'_>, fact: &Fact, number: u64) -> Result<(), CheckFault>
        ensures sites { has_site nodes.now fact.now.event ≡ true → OnOk result
            (sites_of nodes.now self.new ≡ sites_after fact.now.event number (sites_of nodes.now self.old)) }
        ensures stays { StaysAfter self.old.stays self.new.stays number (stay_of (facts_of self.old) number fact.now)
            (leaves_after fact.now.event) result }
        ensures firsts { OnOk result (firsts_of self.new
            ≡ firsts_after fact.now.event number (firsts_of self.old)) }
        ensures stamps { OnOk result (stamps_of self.new
            ≡ stamps_after fact.now.event number (sites_of nodes.now self.old) (stamps_of self.old)) }
        ensures facts { self.new.facts ≡ self.old.facts }
        ensures verdict { self.new.verdict ≡ self.old.verdict }
        ensures same_sites { OnErr result (sites_of nodes.now self.new ≡ sites_of nodes.now self.old) }
        ensures same_firsts { OnErr result (firsts_of self.new ≡ firsts_of self.old) }
        ensures same_stamps { OnErr result (stamps_of self.new ≡ stamps_of self.old) }
    {
        match &fact.event {
            Event::Sync { .. }
            | Event::SyncOne { .. }
            | Event::Request { .. }
            | Event::SetMaster { .. }
            | Event::StepClock { .. } => move_site(&mut self.sites, nodes, &fact.event, number),
            Event::Leave { transit, .. } => {
                let from = self.entered(fact, *transit, number);
                Ok(self.stays.leave(number, *transit, from)?)
            }
            Event::Stamped { node } => {
                let last = self.site(nodes, node).last_request;
                stamp(&mut self.stamps, last, number)
            }
            _ => Ok(()),
        }
    }

    /// The same, where the line counts.
    fn note_fact(
        &mut self,
        nodes: &Lookup<'_>,
        fact: &Option<Fact>,
        number: u64,
    ) -> Result<(), CheckFault>
        ensures sites { IfSome fact.now (λ told. has_site nodes.now told.event ≡ true) → OnOk result
            (sites_of nodes.now self.new ≡ sites_told fact.now number (sites_of nodes.now self.old)) }
        ensures stays { StaysAfter self.old.stays self.new.stays number
            (option_and_then (stay_of (facts_of self.old) number) fact.now) (leaves_told fact.now) result }
        ensures firsts { OnOk result (firsts_of self.new ≡ firsts_told fact.now number (firsts_of self.old)) }
        ensures stamps { OnOk result
            (stamps_of self.new ≡ stamps_told fact.now number (sites_of nodes.now self.old) (stamps_of self.old)) }
        ensures facts { self.new.facts ≡ self.old.facts }
        ensures verdict { self.new.verdict ≡ self.old.verdict }
        ensures same_sites { OnErr result (sites_of nodes.now self.new ≡ sites_of nodes.now self.old) }
        ensures same_firsts { OnErr result (firsts_of self.new ≡ firsts_of self.old) }
        ensures same_stamps { OnErr result (stamps_of self.new ≡ stamps_of self.old) }
    {
        match fact {
            Some(told) => self.note(nodes, told, number),
            None => Ok(()),
        }
    }

    /// What the report of a line with this fact, which is kept already, is judged to be; none where the
    /// line has no report.
    fn line_judgement(
        &self,
        nodes: &Lookup<'_>,
        fact: &Option<Fact>,
        out: &TraceOut,
    ) -> Option<Judgement>
        ensures { result ≡ line_judgement_by nodes.now (facts_of self.now) (once_in self.now.stays) (stamps_of self.now)
            (sites_of nodes.now self.now) fact.now out.now }
    {
        match out {
            TraceOut::Report(report) => Some(self.judgement(nodes, fact, report)),
            _ => None,
        }
    }

    /// Takes in one more line, and answers what its report is judged to be, where it has one. Where
    /// memory for it is refused, nothing changes.
    pub(crate) fn step(
        &mut self,
        nodes: &Nodes,
        line: &TraceLine,
    ) -> Result<Option<Judgement>, CheckFault>
        ensures kept { (count : ℕ) (m : Machine) → IsKept nodes.now self.old count m → MatchResult result
            (λ answer. IsKept nodes.now self.new (count + 1) (after_line nodes.now line.now count m)
            × (answer ≡ judgement_after nodes.now line.now count m))
            (λ _. IsKept nodes.now self.new count m) }
    {
        self.step_at(&Lookup::new(nodes, line.event.node()), line)
    }

    /// The same, with the node of the line at hand.
    fn step_at(
        &mut self,
        nodes: &Lookup<'_>,
        line: &TraceLine,
    ) -> Result<Option<Judgement>, CheckFault>
        ensures kept { (count : ℕ) (m : Machine) → IsKept nodes.now self.old count m → MatchResult result
            (λ answer. IsKept nodes.now self.new (count + 1) (after_line nodes.now line.now count m)
            × (answer ≡ judgement_after nodes.now line.now count m))
            (λ _. IsKept nodes.now self.new count m) }
    {
        let number = self.facts.len() as u64;
        let known = self.known(nodes, line, number);
        let journey = self.journey(&known, &line.event)?;
        let fact = self.fact(nodes, line, &known, &journey);
        if self.facts.push(fact).is_err() {
            return Err(CheckFault::Memory);
        }
        let total = self.facts.len() as u64;
        let answer = self.line_judgement(nodes, &fact, &line.out);
        let verdict = with_judgement(self.verdict, &answer, total - 1);
        if self.note_fact(nodes, &fact, number).is_err() {
            self.facts.pop();
            return Err(CheckFault::Memory);
        }
        self.verdict = verdict;
        Ok(answer)
    }
}

/// The verdict after the line of this number, whose report is judged to be this.
fn with_judgement(verdict: Verdict, answer: &Option<Judgement>, number: u64) -> Verdict
    ensures { accepted_count verdict < 18446744073709551615 → result ≡ with_judgement answer.now number verdict }
{
    let (Verdict::Accepted(count), Some(judgement)) = (verdict, answer) else {
        return verdict;
    };
    match judgement.reasons.as_slice().first().copied() {
        Some(why) => Verdict::Refused { line: number, why },
        None => Verdict::Accepted(count.saturating_add(1)),
    }
}

/// The line of this number tells when the last request of its node departed.
fn stamp(stamps: &mut BTreeMap<u64, u64>, last: Option<u64>, number: u64) -> Result<(), CheckFault>
    ensures stamped { OnOk result (get nat_cmp stamps.new ≡ stamped last number (get nat_cmp stamps.old)) }
    ensures unchanged { OnErr result (get nat_cmp stamps.new ≡ get nat_cmp stamps.old) }
{
    let Some(request) = last else {
        return Ok(());
    };
    if stamps.contains_key(&request) {
        return Ok(());
    }
    match stamps.insert(request, number) {
        Ok(_) => Ok(()),
        Err(_) => Err(CheckFault::Memory),
    }
}

/// A journey with the octets of the line of this number, by which it goes on.
fn with_octets(journey: Option<KeptJourney>, writes_right: bool, number: u64) -> Option<KeptJourney>
    ensures { result ≡ option_map (written_journey writes_right number) journey }
{
    let journey = journey?;
    let octets = journey.wrong.octets().or(wrong_line(writes_right, number));
    Some(KeptJourney {
        wrong: WrongLines::new(journey.wrong.reading(), octets),
        ..journey
    })
}
