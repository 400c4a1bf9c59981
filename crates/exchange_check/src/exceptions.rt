//! Tables of what is out of the ordinary in lines, by the numbers of lines.

ghost use Rattle.std.specs.Prelude.{◌≡◌, ◌∷◌, OnOk, option_map, Some, length};
ghost use Rattle.std.specs.BTreeMap.{get};
ghost use Rattle.std.specs.Ordering.{nat_cmp};
ghost use Rattle.event_codec.specs.Profile.{contents_of};
ghost use Rattle.network_model.specs.Kinds.{named_transit};
ghost use Rattle.trace_model.specs.Line.{Lines};
ghost use Rattle.trace_model.specs.ByMessages.{tells_message};
ghost use Rattle.exchange_check.specs.Evidence.{octets_told, stops_in, came_of, told_by, noted};
ghost use Rattle.exchange_check.specs.Inner.Machine.{IsKept, machine};
ghost use Rattle.exchange_check.specs.Inner.Machine.{facts_of, firsts_of};
ghost use Rattle.exchange_check.specs.Inner.Noting.{with_entry, octets_entry, reading_entry, is_left_again, seconds_with};
ghost use Rattle.exchange_check.specs.Inner.Noting.{first_left, first_otherwise_by, otherwise_found, stop_entry, slim};
ghost use Rattle.exchange_check.specs.Inner.Noting.{AreNone, NotesLine};

use crate::facts::{Fact, Site};
use crate::kept::Kept;
use crate::kept_line::{Came, Uncounted, WrongReading};
use crate::refusal::CheckFault;
use crate::ways::Stop;
use arrayvec::ArrayVec;
use event_codec::PortMessage;
use network_model::{Event, Nodes};
use ptp_units::ScaledTime;
use std::alloc::Global;
use std::collections::BTreeMap;
use trace_model::{TraceLine, TraceOut, tells_same};

/// What is out of the ordinary in the lines so far.
#[derive(Drop)]
pub(crate) struct Exceptions {
    /// Of each line that counts and made a message whose octets aren't right: these octets.
    pub(crate) octets: BTreeMap<u64, ArrayVec<u8, 54>>,
    /// Of each line that counts, has a true moment and a reading that isn't right.
    pub(crate) readings: BTreeMap<u64, WrongReading>,
    /// Of each line that doesn't count.
    pub(crate) uncounted: BTreeMap<u64, Uncounted>,
    /// Of each stay that was left twice, by the number that its Leave lines name: the second of these.
    pub(crate) seconds: BTreeMap<u64, u64>,
    /// Of each message, the first on its journey whose octets tell otherwise, in a field that is read; one that has no journey
    /// stands for itself.
    pub(crate) first_otherwise: BTreeMap<u64, u64>,
    /// Of each copy that left a clock, and whose journey can't be followed: where it stops.
    pub(crate) stops: BTreeMap<u64, Stop>,
}

/// Puts a value under a number, where there is one.
fn put<V: Drop>(map: &mut BTreeMap<u64, V>, number: u64, value: Option<V>) -> Result<(), CheckFault>
    ensures { OnOk result (get nat_cmp map.new ≡ with_entry number value (get nat_cmp map.old)) }
{
    let Some(value) = value else {
        return Ok(());
    };
    match map.insert(number, value) {
        Ok(_) => Ok(()),
        Err(_) => Err(CheckFault::Memory),
    }
}

/// What came of an event that doesn't count.
fn came(out: &TraceOut) -> Came
    ensures { result ≡ came_of out.now }
{
    match out {
        TraceOut::Refused(code) => Came::Refused(*code),
        TraceOut::Ignored(code) => Came::Ignored(*code),
        _ => Came::Otherwise,
    }
}

/// The octets of a line that counts, where they aren't right.
fn wrong_octets(fact: &Fact, out: &TraceOut) -> Option<ArrayVec<u8, 54>>
    ensures { option_map (λ octets. octets.items) result ≡ octets_entry fact.now out.now }
{
    match out {
        TraceOut::Made(octets) if !fact.writes_right => Some(copied(octets)),
        _ => None,
    }
}

/// The same octets.
pub(crate) fn copied(octets: &ArrayVec<u8, 54>) -> ArrayVec<u8, 54>
    ensures { result.items ≡ octets.now.items }
{
    let mut copy = ArrayVec::new();
    let _ = copy.try_extend_from_slice(octets.as_slice());
    copy
}

/// The reading of a line that counts and has a true moment, where it isn't right.
fn wrong_reading(site: &Site, fact: &Fact, reading: Option<ScaledTime>) -> Option<WrongReading>
    ensures { result ≡ reading_entry site.now fact.now reading }
{
    if fact.reads_right || fact.event.true_moment().is_none() {
        return None;
    }
    Some(WrongReading {
        reading,
        set: site.last_step,
    })
}

impl Exceptions {
    /// Nothing was noted yet.
    pub(crate) fn new(alloc: Global) -> Exceptions
        ensures { AreNone result }
    {
        Exceptions {
            octets: BTreeMap::new(alloc),
            readings: BTreeMap::new(alloc),
            uncounted: BTreeMap::new(alloc),
            seconds: BTreeMap::new(alloc),
            first_otherwise: BTreeMap::new(alloc),
            stops: BTreeMap::new(alloc),
        }
    }

    /// A line, the last of those that were kept.
    pub(crate) fn note(
        &mut self,
        nodes: &Nodes,
        kept: &Kept,
        line: &TraceLine,
    ) -> Result<(), CheckFault>
        ensures { OnOk result ((earlier : Lines)
            → IsKept nodes.now kept.now (length (line.now ∷ earlier)) (machine nodes.now (line.now ∷ earlier))
            → told_by self.old ≡ noted nodes.now earlier → told_by self.new ≡ noted nodes.now (line.now ∷ earlier)) }
    {
        let number = kept.last_number();
        match kept.at(number) {
            Some(fact) => self.note_counted(nodes, kept, &kept.site_of(nodes, fact), fact, line),
            None => self.note_uncounted(number, line),
        }
    }

    /// A line that doesn't count.
    fn note_uncounted(&mut self, number: u64, line: &TraceLine) -> Result<(), CheckFault>
        ensures uncounted { OnOk result (get nat_cmp self.new.uncounted
            ≡ with_entry number (Some (slim line.now)) (get nat_cmp self.old.uncounted)) }
        ensures others { self.new ≡ record self.old { uncounted = self.new.uncounted } }
    {
        let uncounted = Uncounted {
            event: line.event,
            came: came(&line.out),
        };
        put(&mut self.uncounted, number, Some(uncounted))
    }

    /// A line that counts, which was kept already. This is what is kept of its node.
    fn note_counted(
        &mut self,
        nodes: &Nodes,
        kept: &Kept,
        site: &Site,
        fact: &Fact,
        line: &TraceLine,
    ) -> Result<(), CheckFault>
        ensures { OnOk result (NotesLine nodes.now kept.now site.now fact.now line.now self.old self.new) }
    {
        self.note_octets(fact, &line.out)?;
        self.note_reading(site, fact, line.reading)?;
        self.note_leave(kept, fact)?;
        self.note_first_otherwise(nodes, kept, fact, &line.out)?;
        self.note_stop(kept, fact)?;
        Ok(())
    }

    fn note_octets(&mut self, fact: &Fact, out: &TraceOut) -> Result<(), CheckFault>
        ensures octets { OnOk result (octets_told self.new
            ≡ with_entry fact.now.line (octets_entry fact.now out.now) (octets_told self.old)) }
        ensures others { self.new ≡ record self.old { octets = self.new.octets } }
    {
        put(&mut self.octets, fact.line, wrong_octets(fact, out))
    }

    fn note_reading(
        &mut self,
        site: &Site,
        fact: &Fact,
        reading: Option<ScaledTime>,
    ) -> Result<(), CheckFault>
        ensures readings { OnOk result (get nat_cmp self.new.readings
            ≡ with_entry fact.now.line (reading_entry site.now fact.now reading) (get nat_cmp self.old.readings)) }
        ensures others { self.new ≡ record self.old { readings = self.new.readings } }
    {
        put(
            &mut self.readings,
            fact.line,
            wrong_reading(site, fact, reading),
        )
    }

    fn note_first_otherwise(
        &mut self,
        nodes: &Nodes,
        kept: &Kept,
        fact: &Fact,
        out: &TraceOut,
    ) -> Result<(), CheckFault>
        ensures first_otherwise { OnOk result (get nat_cmp self.new.first_otherwise
            ≡ with_entry fact.now.line (first_otherwise_by nodes.now (facts_of kept.now)
            (get nat_cmp self.old.first_otherwise) fact.now out.now) (get nat_cmp self.old.first_otherwise)) }
        ensures others { self.new ≡ record self.old { first_otherwise = self.new.first_otherwise } }
    {
        let found = self.first_otherwise(nodes, kept, fact, out);
        put(&mut self.first_otherwise, fact.line, found)
    }

    fn note_stop(&mut self, kept: &Kept, fact: &Fact) -> Result<(), CheckFault>
        ensures stops { OnOk result (stops_in (get nat_cmp self.new.stops)
            ≡ with_entry fact.now.line (stop_entry (facts_of kept.now) (stops_in (get nat_cmp self.old.stops)) fact.now)
            (stops_in (get nat_cmp self.old.stops))) }
        ensures others { self.new ≡ record self.old { stops = self.new.stops } }
    {
        let stop = kept.stop_kept(&self.stops, fact);
        put(&mut self.stops, fact.line, stop)
    }

    /// Whether a stay is left for the second time at the line of this number.
    fn is_left_again(&self, kept: &Kept, number: u64, transit: u64) -> bool
        ensures { result ≡ is_left_again (firsts_of kept.now) (get nat_cmp self.now.seconds) number transit }
    {
        match kept.stays.first(transit) {
            Some(first) => first < number && !self.seconds.contains_key(&transit),
            None => false,
        }
    }

    /// A message left a clock, maybe for the second time.
    fn note_leave(&mut self, kept: &Kept, fact: &Fact) -> Result<(), CheckFault>
        ensures seconds { OnOk result (get nat_cmp self.new.seconds
            ≡ seconds_with (firsts_of kept.now) fact.now (get nat_cmp self.old.seconds)) }
        ensures others { self.new ≡ record self.old { seconds = self.new.seconds } }
    {
        let Some(transit) = fact.event.named_transit() else {
            return Ok(());
        };
        if self.is_left_again(kept, fact.line, transit) {
            put(&mut self.seconds, transit, Some(fact.line))
        } else {
            Ok(())
        }
    }

    /// The first line whose octets tell otherwise, on the journey of the message that a line made or of that line alone.
    fn first_otherwise(
        &self,
        nodes: &Nodes,
        kept: &Kept,
        fact: &Fact,
        out: &TraceOut,
    ) -> Option<u64>
        ensures { result ≡ first_otherwise_by nodes.now (facts_of kept.now) (get nat_cmp self.now.first_otherwise)
            fact.now out.now }
    {
        let own = otherwise_found(nodes, kept, fact, out);
        if fact.journey.is_none() {
            return own;
        }
        first_left(kept, &self.first_otherwise, own, &fact.event)
    }
}

/// The first line on the journey of a copy, by the first of those that were before it and by what is found of its own line.
fn first_left(
    kept: &Kept,
    firsts: &BTreeMap<u64, u64>,
    own: Option<u64>,
    event: &Event,
) -> Option<u64>
    ensures { result ≡ first_left (facts_of kept.now) (get nat_cmp firsts.now) own (named_transit event.now) }
{
    let Some(transit) = event.named_transit() else {
        return own;
    };
    let copy = kept.at(transit)?.event.entered_copy()?;
    match firsts.get(&copy) {
        Some(first) => Some(*first),
        None => own,
    }
}

/// Whether octets that a line made tell the same as this message.
fn tells_message(message: &Option<PortMessage>, out: &TraceOut) -> bool
    ensures { result ≡ tells_message (option_map contents_of message.now) out.now }
{
    let Some(message) = message else {
        return false;
    };
    match out {
        TraceOut::Made(octets) => tells_same(&message.message(), octets.as_slice()),
        _ => false,
    }
}

/// The line, where it made a message whose octets tell otherwise.
fn otherwise_found(nodes: &Nodes, kept: &Kept, fact: &Fact, out: &TraceOut) -> Option<u64>
    ensures { result ≡ otherwise_found nodes.now (facts_of kept.now) fact.now out.now }
{
    if fact.writes_right || !fact.made || tells_message(&kept.message_at(nodes, fact.line), out) {
        None
    } else {
        Some(fact.line)
    }
}
