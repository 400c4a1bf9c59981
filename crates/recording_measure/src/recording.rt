//! What is known of the places at which datagrams were met while it isn't known whom to watch.

ghost use Rattle.std.specs.Prelude.{◌≡◌, ◌<◌, ◌&&◌, ◌||◌, ◌==◌, nat_lt, false, List, [], ◌∷◌, length, map, get_or, IfOk, IfSome, None, OnOk, option_map, option_and_then, slice_get};
ghost use Rattle.std.specs.Option.{option_map_or};
ghost use Rattle.event_codec.specs.Port.{is_same_port};
ghost use Rattle.event_codec.specs.Reading.{IsReading};
ghost use Rattle.datagram_source.specs.Said.{reading_of};
ghost use Rattle.datagram_source.specs.Datagram.{place_of, datagram_of};
ghost use Rattle.recording_model.specs.Recorded.{Recorded};
ghost use Rattle.recording_measure.specs.Row.{Row, row_of, kept_most};
ghost use Rattle.recording_measure.specs.Places.{PlacedRow, name_in, placed, places_in, is_same_place};
ghost use Rattle.recording_measure.specs.Chosen.{is_enough, watched_at};
ghost use Rattle.recording_measure.specs.Counts.{Fate, early_with, IsCounts};
ghost use Rattle.recording_measure.specs.Inner.Hearing.{recorded_of};
ghost use Rattle.recording_measure.specs.Inner.Recordings.{IsCopy, IsRowOf, IsSought, IsNoticed, IsFresh, AreRecordings};
ghost use Rattle.recording_measure.specs.Inner.Recordings.{IsFoundAt, HasAdded, KeepsMore};
ghost use Rattle.recording_measure.specs.Inner.Watching.{whom_of};
ghost use Rattle.recording_measure.specs.Told.{place_in, called};

use crate::place::Place;
use crate::tally::Tally;
use crate::watch::{WantedPorts, Watch};
use datagram_source::{Datagram, Place as MetAt, Stamp, message_in};
use event_codec::{Header, PortIdentity};
use ptp_units::ScaledTime;
use recording_model::Watched;
use recording_summary::{Callers, Whom};
use recording_words::{Caller, CallersLine, WhomLines};
use std::alloc::{AllocError, Global};
use std::io::Write;

/// How many places are looked at.
pub(crate) const PLACES_MOST: usize = 64;

/// A datagram that is kept, but for its place.
#[derive(Drop)]
pub(crate) struct Kept {
    pub(crate) number: u64,
    pub(crate) time: ScaledTime,
    /// Its time as it is written.
    pub(crate) written: String,
    pub(crate) octets: Vec<u8>,
    /// Whether it is a slave's own reading.
    pub(crate) own: bool,
}

impl Kept {
    /// A copy of a datagram.
    fn new(alloc: Global, datagram: &Datagram<'_>) -> Result<Kept, AllocError>
        ensures { IfOk result (IsCopy datagram.now) }
    {
        let mut written = String::new(alloc);
        datagram.stamp.push(&mut written)?;
        Ok(Kept {
            number: datagram.number,
            time: datagram.time,
            written,
            octets: Vec::from_slice(alloc, datagram.octets)?,
            own: datagram.own,
        })
    }

    /// The datagram, read again. Where it was met isn't told.
    pub(crate) fn datagram(&self) -> Datagram<'_>
        ensures row { IsRowOf self.now (row_of (datagram_of result)) }
        ensures only { (row : Row) → IsRowOf self.now row → row ≡ row_of (datagram_of result) }
    {
        Datagram {
            place: MetAt::Line,
            number: self.number,
            time: self.time,
            stamp: Stamp::Written(self.written.as_str()),
            octets: &self.octets,
            said: message_in(&self.octets),
            own: self.own,
        }
    }
}

/// Of what is asked for, what was met at a place, or wasn't asked for.
#[derive(Clone, Copy)]
struct Sought {
    domain: bool,
    master: bool,
    slave: bool,
}

/// Whether a port is the one that is asked for.
fn is_wanted(wanted: Option<PortIdentity>, port: PortIdentity) -> bool
    ensures { result ≡ option_map_or (is_same_port port) wanted false }
{
    wanted.is_some_and(|wanted| port == wanted)
}

impl Sought {
    /// Before any datagram.
    fn new(wanted: &WantedPorts) -> Sought
        ensures { IsSought wanted.now [] result }
    {
        Sought {
            domain: wanted.domain.is_none(),
            master: wanted.master.is_none(),
            slave: wanted.slave.is_none(),
        }
    }

    /// Takes the header of a message.
    fn notice(&mut self, wanted: &WantedPorts, header: &Header)
        ensures domain { self.new.domain ≡ (self.old.domain || option_map_or (λ domain. header.now.domain == domain) wanted.now.domain false) }
        ensures master { self.new.master ≡ (self.old.master || option_map_or (is_same_port header.now.source) wanted.now.master false) }
        ensures slave { self.new.slave ≡ (self.old.slave || option_map_or (is_same_port header.now.source) wanted.now.slave false) }
    {
        self.domain = self.domain || wanted.domain.is_some_and(|domain| header.domain == domain);
        self.master = self.master || is_wanted(wanted.master, header.source);
        self.slave = self.slave || is_wanted(wanted.slave, header.source);
    }

    /// Whether all was met.
    fn is_all(&self) -> bool
        ensures { result ≡ (self.now.domain && self.now.master && self.now.slave) }
    {
        self.domain && self.master && self.slave
    }
}

/// What is known of a place.
#[derive(Drop)]
pub(crate) struct Recording {
    pub(crate) place: Place,
    pub(crate) watch: Watch,
    sought: Sought,
    pub(crate) kept: Vec<Kept>,
    /// What came before it was known whom to watch.
    pub(crate) early: Tally,
    /// Who sent what until then.
    callers: Callers,
}

impl Recording {
    /// Before its first datagram.
    fn new(alloc: Global, wanted: &WantedPorts, met: &MetAt<'_>) -> Result<Recording, AllocError>
        ensures { IfOk result (λ recording. IsFresh wanted.now (name_in (place_of met.now)) recording) }
    {
        Ok(Recording {
            place: Place::new(alloc, met)?,
            watch: Watch::new(wanted),
            sought: Sought::new(wanted),
            kept: Vec::new(alloc),
            early: Tally::new(),
            callers: Callers::new(),
        })
    }

    /// Takes what a datagram tells of whom to watch.
    pub(crate) fn notice(&mut self, wanted: &WantedPorts, datagram: &Datagram<'_>)
        ensures noticed { (ds : List Recorded) → IsNoticed wanted.now ds self.old
            → IsNoticed wanted.now (recorded_of datagram.now ∷ ds) self.new }
        ensures place { self.new.place ≡ self.old.place }
        ensures kept { self.new.kept ≡ self.old.kept }
        ensures early { self.new.early ≡ self.old.early }
    {
        if let Ok(message) = &datagram.said {
            self.watch.notice(datagram.number, message);
            self.sought.notice(wanted, &message.header);
            self.callers.take(message);
        }
    }

    /// Whether all that is asked for was met, or has not to be.
    fn is_enough(&self) -> bool
        ensures { (w : WantedPorts) (ds : List Recorded) → IsNoticed w ds self.now → result ≡ is_enough w (place_in self.now) ds }
    {
        self.place.is_nameless() || self.sought.is_all()
    }

    /// Whom its datagrams are of, where that is known and enough was met.
    pub(crate) fn watched(&self) -> Option<Watched>
        ensures { (w : WantedPorts) (ds : List Recorded) → IsNoticed w ds self.now → result ≡ watched_at w (place_in self.now) ds }
    {
        if self.is_enough() {
            self.watch.watched()
        } else {
            None
        }
    }

    /// Counts a datagram by which it isn't known yet whom its datagrams are of.
    fn count_early(&mut self, datagram: &Datagram<'_>)
        ensures counted { (w : WantedPorts) (ds : List Recorded) (all : List Fate) → IsNoticed w ds self.old
            → IsCounts all self.old.early.counts
            → IsCounts (early_with (watched_at w (place_in self.old) ds) (recorded_of datagram.now) all) self.new.early.counts }
        ensures others { self.new ≡ record self.old { early = self.new.early } }
    {
        match self.watched() {
            Some(_) => {}
            None => self.early.count_early(datagram),
        }
    }

    /// Tells in lines who sent Syncs and Delay_Reqs, where the master or the slave that is asked for sent no message. What can't be
    /// written is lost.
    pub(crate) fn tell_callers<E: Write>(&self, errors: &mut E) {
        let Callers { masters, slaves } = self.callers;
        if !self.sought.master {
            let line = CallersLine {
                caller: Caller::Master,
                senders: masters,
            };
            let _ = write!(errors, "{line}");
        }
        if !self.sought.slave {
            let line = CallersLine {
                caller: Caller::Slave,
                senders: slaves,
            };
            let _ = write!(errors, "{line}");
        }
    }

    /// Keeps a datagram.
    fn keep(&mut self, alloc: Global, datagram: &Datagram<'_>) -> Result<(), AllocError>
        ensures kept { OnOk result (KeepsMore self.old.kept.items self.new.kept.items datagram.now) }
        ensures others { self.new ≡ record self.old { kept = self.new.kept } }
    {
        self.kept.push(Kept::new(alloc, datagram)?)?;
        Ok(())
    }
}

/// What is known of the places that are looked at, in the order in which they were met.
#[derive(Drop)]
pub(crate) struct Recordings {
    recordings: Vec<Recording>,
}

impl Recordings {
    /// Before any datagram.
    pub(crate) fn new(alloc: Global) -> Recordings
        ensures { (w : WantedPorts) → AreRecordings w [] result.recordings.items }
    {
        Recordings {
            recordings: Vec::new(alloc),
        }
    }

    /// The index of a place.
    pub(crate) fn find(&self, met: &MetAt<'_>) -> Option<usize>
        ensures { IsFoundAt (name_in (place_of met.now)) (map place_in self.now.recordings.items) result self.now.recordings.items }
    {
        for index in 0..self.recordings.len() {
            if self.recordings[index].place.is(met) {
                return Some(index);
            }
        }
        None
    }

    /// The index of the place of lines, which has no name.
    pub(crate) fn find_nameless(&self) -> Option<usize>
        ensures { IsFoundAt None (map place_in self.now.recordings.items) result self.now.recordings.items }
    {
        for index in 0..self.recordings.len() {
            if self.recordings[index].place.is_nameless() {
                return Some(index);
            }
        }
        None
    }

    /// That of any place, with one more where there is none and there aren't enough.
    fn find_or_add(
        &mut self,
        alloc: Global,
        wanted: &WantedPorts,
        met: &MetAt<'_>,
    ) -> Result<Option<usize>, AllocError>
        ensures { IfOk result (λ found. HasAdded wanted.now (name_in (place_of met.now)) found
            self.old.recordings.items self.new.recordings.items) }
    {
        if let Some(index) = self.find(met) {
            return Ok(Some(index));
        }
        let index = self.recordings.len();
        if index >= PLACES_MOST {
            return Ok(None);
        }
        self.recordings.push(Recording::new(alloc, wanted, met)?)?;
        Ok(Some(index))
    }

    /// Takes a datagram that belongs here, and keeps it where this is asked for. Answers the index of its place.
    pub(crate) fn take(
        &mut self,
        alloc: Global,
        wanted: &WantedPorts,
        met: &MetAt<'_>,
        datagram: &Datagram<'_>,
        is_kept: bool,
    ) -> Result<Option<usize>, AllocError>
        requires { IsReading datagram.now.octets.now (reading_of datagram.now.said) }
        ensures within { IfOk result (λ found. IfSome found (λ index. index < length self.new.recordings.items)) }
        ensures taken { (rows : List PlacedRow) (r : PlacedRow) → r ≡ placed (place_of met.now) (datagram_of datagram.now)
            → is_kept ≡ nat_lt (length rows) kept_most
            → AreRecordings wanted.now rows self.old.recordings.items
            → IfOk result (λ found. AreRecordings wanted.now (r ∷ rows) self.new.recordings.items
            × IsFoundAt r.place (places_in (r ∷ rows)) found self.new.recordings.items) }
    {
        let found = self.find_or_add(alloc, wanted, met)?;
        if let Some(index) = found {
            let recording = &mut self.recordings[index];
            recording.notice(wanted, datagram);
            recording.count_early(datagram);
            if is_kept {
                recording.keep(alloc, datagram)?;
            }
        }
        Ok(found)
    }

    /// Whom the datagrams at the place of this index are of, where that is known.
    pub(crate) fn watched(&self, index: usize) -> Option<Watched>
        requires { index < length self.now.recordings.items }
        ensures { (w : WantedPorts) (ds : List Recorded) (d : Recording) → IsNoticed w ds (get_or self.now.recordings.items index d)
            → result ≡ watched_at w (place_in (get_or self.now.recordings.items index d)) ds }
    {
        self.recordings[index].watched()
    }

    /// Whom the datagrams at the place of this index are of, as far as that is known; None where there is none.
    pub(crate) fn whom(&self, index: usize) -> Option<Whom>
        ensures { result ≡ option_map (λ r. whom_of r.watch) (slice_get self.now.recordings.items index) }
    {
        match self.recordings.get(index) {
            Some(recording) => Some(recording.watch.whom()),
            None => None,
        }
    }

    /// Tells in lines whom the datagrams at the place of this index are of, where there is one. What can't be written is lost.
    pub(crate) fn tell_whom<E: Write>(&self, index: usize, errors: &mut E) {
        if let Some(recording) = self.recordings.get(index) {
            let whom = recording.watch.whom();
            let unit = recording.place.unit();
            let _ = write!(errors, "{}", WhomLines { unit, whom });
        }
    }

    /// What the place of this index is called, where there is one that has a name.
    pub(crate) fn name(&self, index: usize) -> Option<&[u8]>
        ensures { option_map (λ name. name.now) result
            ≡ called (option_map place_in (slice_get self.now.recordings.items index)) }
    {
        match self.recordings.get(index) {
            Some(recording) => recording.place.name(),
            None => None,
        }
    }

    /// Whether a datagram was met at the place of this index.
    pub(crate) fn is_at(&self, index: usize, met: &MetAt<'_>) -> bool
        requires { index < length self.now.recordings.items }
        ensures { (d : Recording) → result
            ≡ is_same_place (place_in (get_or self.now.recordings.items index d)) (name_in (place_of met.now)) }
    {
        self.recordings[index].place.is(met)
    }

    /// What was kept at the place of this index.
    pub(crate) fn kept(&self, index: usize) -> &[Kept]
        requires { index < length self.now.recordings.items }
        ensures { (d : Recording) → result.now ≡ (get_or self.now.recordings.items index d).kept.items }
    {
        &self.recordings[index].kept
    }

    /// What came at the place of this index before it was known whom to watch.
    pub(crate) fn early(&self, index: usize) -> Tally
        requires { index < length self.now.recordings.items }
        ensures { (d : Recording) → result ≡ (get_or self.now.recordings.items index d).early }
    {
        self.recordings[index].early
    }

    /// The places, and what is known at each.
    pub(crate) fn all(&self) -> &[Recording] {
        &self.recordings
    }
}
