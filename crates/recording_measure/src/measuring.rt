//! What is done with the datagrams of an input that is measured.

ghost use Rattle.std.specs.Prelude.{◌≡◌, ◌++◌, ◌<◌, List, [], length, get_or, true, MatchResult, OnOk, option_map, option_and_then, if◌then◌else◌};
ghost use Rattle.text_lines.specs.Counted.{device_of, HasNotFailed, HasFailedIf};
ghost use Rattle.text_lines.specs.Fault.{is_write};
ghost use Rattle.event_codec.specs.Reading.{IsReading};
ghost use Rattle.datagram_source.specs.Said.{reading_of};
ghost use Rattle.datagram_source.specs.Datagram.{datagram_of, place_of, place_to_all};
ghost use Rattle.recording_measure.specs.Row.{Row, row_of};
ghost use Rattle.recording_measure.specs.Places.{name_in, placed};
ghost use Rattle.recording_measure.specs.Chosen.{stays_at, settled};
ghost use Rattle.recording_measure.specs.Measured.{measurements};
ghost use Rattle.recording_measure.specs.Recents.{AreRecents};
ghost use Rattle.recording_measure.specs.Measure.{Recording as Read, begun, handed_on, has_reported};
ghost use Rattle.recording_measure.specs.Fresh.{hands_on};
ghost use Rattle.recording_measure.specs.Summary.{told_whom};
ghost use Rattle.recording_measure.specs.Counts.{Fate, fates, told_fates, IsCounts};
ghost use Rattle.recording_measure.specs.Told.{place_at, called};
ghost use Rattle.recording_measure.specs.Inner.Hearing.{Goes};
ghost use Rattle.recording_measure.specs.Inner.Recordings.{BeginsWith};
ghost use Rattle.recording_measure.specs.Inner.Measuring.{IsMeasuring, IsLooking, IsHearingAt, AddsRow};

use crate::form::Form;
use crate::listener::Listener;
use crate::place_counts::PlaceCounts;
use crate::recents::Recents;
use crate::recording::{Recording, Recordings};
use crate::reports::TimedReports;
use crate::tally::Tally;
use crate::watch::{WantedPorts, Watch};
use datagram_source::{Datagram, Place as MetAt};
use recording_model::Watched;
use recording_summary::{Counts, Whom};
use recording_words::{Ending, WhomLines};
use std::alloc::{AllocError, Global};
use std::fmt;
use std::fmt::{Display, Formatter};
use std::io::Write;
use text_lines::{Counted, LineFault};

/// How many datagrams are kept until it is known whom to watch.
const KEPT_MOST: u64 = 1024;

/// What is done with a datagram.
#[derive(Drop)]
enum Stage {
    /// It is kept, as all before it, until it is known at a place whom to watch. So many came before, or more.
    Looking(u64),
    /// A port hears it, where it was met at the place of this index.
    Hearing(usize, Listener),
}

/// Measures each datagram of an input, and says whom it is of as soon as that is known, before the first report goes out.
#[derive(Drop)]
pub(crate) struct Measuring {
    alloc: Global,
    pub(crate) wanted: WantedPorts,
    recordings: Recordings,
    stage: Stage,
    reports: TimedReports,
    at_places: PlaceCounts,
}

impl Measuring {
    /// No datagram came yet.
    pub(crate) fn new(alloc: Global, wanted: &WantedPorts, form: Form) -> Measuring
        ensures { IsMeasuring result (begun form wanted.now) }
    {
        Measuring {
            alloc,
            wanted: *wanted,
            recordings: Recordings::new(alloc),
            stage: Stage::Looking(0),
            reports: TimedReports::new(alloc, form),
            at_places: PlaceCounts::new(),
        }
    }

    /// Forgets each datagram that came.
    pub(crate) fn begin_anew(&mut self)
        ensures { (r : Read) → IsMeasuring self.old r → IsMeasuring self.new (record r { rows = []; handed = 0 }) }
    {
        *self = Measuring::new(self.alloc, &self.wanted, self.reports.reports.form);
    }

    /// Whether a report was measured.
    pub(crate) fn has_reported(&self) -> bool
        ensures { (r : Read) → IsMeasuring self.now r → result ≡ has_reported r }
    {
        self.reports.reports.tally.counts.reports > 0
    }

    /// Whether a Delay_Req that was met here stays here, and isn't one of those to all: while no place is measured, where this one is
    /// looked at; then, where what goes to all isn't measured.
    fn stays_at(&self, met: &MetAt<'_>, to_all: &MetAt<'_>) -> bool
        requires measuring { (r : Read) × IsMeasuring self.now r }
        requires place { place_of to_all.now ≡ place_to_all (place_of met.now) }
        ensures { (r : Read) → IsMeasuring self.now r → result ≡ stays_at r.wanted r.rows (place_of met.now) }
    {
        match &self.stage {
            Stage::Looking(_) => self.recordings.find(met).is_some(),
            Stage::Hearing(index, _) => !self.recordings.is_at(*index, to_all),
        }
    }

    /// Whether a datagram belongs to those that go to all: a Delay_Req or Delay_Resp, unless Syncs go to its slave alone.
    fn is_to_all(&self, datagram: &Datagram<'_>, to_all: &MetAt<'_>) -> bool
        requires measuring { (r : Read) × IsMeasuring self.now r }
        requires place { place_of to_all.now ≡ place_to_all (place_of datagram.now.place) }
        ensures { (r : Read) → IsMeasuring self.now r
            → (if result then place_to_all (place_of datagram.now.place) else place_of datagram.now.place)
            ≡ settled r.wanted r.rows (datagram_of datagram.now) }
    {
        datagram.is_exchange() && !self.stays_at(&datagram.place, to_all)
    }

    /// Takes a datagram that was captured, where it belongs, and what it adds to all that is written goes out.
    pub(crate) fn take_captured<W: Write, E: Write>(
        &mut self,
        datagram: &Datagram<'_>,
        output: &mut Counted<W>,
        errors: &mut E,
    ) -> Result<(), LineFault>
        requires stands { (r : Read) × IsMeasuring self.old r }
        requires read { IsReading datagram.now.octets.now (reading_of datagram.now.said) }
        ensures taken { (r : Read) → IsMeasuring self.old r → let d = datagram_of datagram.now in
            AddsRow result r (placed (settled r.wanted r.rows d) d) self.new (W.contents (device_of output.old)) (W.contents (device_of output.new)) }
        ensures failures { MatchResult result
            (λ _. HasNotFailed output.old output.new)
            (λ fault. HasFailedIf (is_write fault) output.old output.new) }
    {
        let to_all = datagram.place.to_all();
        if self.is_to_all(datagram, &to_all) {
            self.take_row(&to_all, datagram, output, errors)
        } else {
            self.take_row(&datagram.place, datagram, output, errors)
        }
    }

    /// Takes a datagram that belongs here, and what it adds to all that is written goes out.
    pub(crate) fn take_row<W: Write, E: Write>(
        &mut self,
        met: &MetAt<'_>,
        datagram: &Datagram<'_>,
        output: &mut Counted<W>,
        errors: &mut E,
    ) -> Result<(), LineFault>
        requires stands { (r : Read) × IsMeasuring self.old r }
        requires read { IsReading datagram.now.octets.now (reading_of datagram.now.said) }
        ensures taken { (r : Read) → IsMeasuring self.old r →
            AddsRow result r (placed (place_of met.now) (datagram_of datagram.now)) self.new (W.contents (device_of output.old)) (W.contents (device_of output.new)) }
        ensures failures { MatchResult result
            (λ _. HasNotFailed output.old output.new)
            (λ fault. HasFailedIf (is_write fault) output.old output.new) }
    {
        match &mut self.stage {
            Stage::Looking(count) => {
                let is_kept = *count < KEPT_MOST;
                if is_kept {
                    *count += 1;
                }
                self.look(met, datagram, is_kept, output, errors)
            }
            Stage::Hearing(index, listener) => {
                if self.recordings.is_at(*index, met) {
                    self.reports.hear(listener, datagram, output)
                } else {
                    self.at_places.count(self.recordings.find(met));
                    Ok(())
                }
            }
        }
    }

    /// Takes a datagram by which it isn't known yet whom to watch. Where it tells that, this is said, and a port hears those that
    /// were met at its place.
    fn look<W: Write, E: Write>(
        &mut self,
        met: &MetAt<'_>,
        datagram: &Datagram<'_>,
        is_kept: bool,
        output: &mut Counted<W>,
        errors: &mut E,
    ) -> Result<(), LineFault>
        requires { IsReading datagram.now.octets.now (reading_of datagram.now.said) }
        ensures taken { (r : Read) → IsLooking self.old r is_kept →
            AddsRow result r (placed (place_of met.now) (datagram_of datagram.now)) self.new (W.contents (device_of output.old)) (W.contents (device_of output.new)) }
        ensures failures { MatchResult result
            (λ _. HasNotFailed output.old output.new)
            (λ fault. HasFailedIf (is_write fault) output.old output.new) }
    {
        let found = self
            .recordings
            .take(self.alloc, &self.wanted, met, datagram, is_kept)?;
        self.at_places.count(found);
        let Some(index) = found else {
            return Ok(());
        };
        match self.recordings.watched(index) {
            Some(watched) => {
                self.recordings.tell_whom(index, errors);
                self.begin(watched, index, is_kept, datagram, output)
            }
            None => Ok(()),
        }
    }

    /// From this datagram on a port hears those that are met at its place. It hears those first that were kept, this one among them.
    fn begin<W: Write>(
        &mut self,
        watched: Watched,
        index: usize,
        is_kept: bool,
        datagram: &Datagram<'_>,
        output: &mut Counted<W>,
    ) -> Result<(), LineFault>
        requires index { index < length self.old.recordings.recordings.items }
        ensures begun { (rows : List Row)
            → BeginsWith is_kept self.old.recordings.recordings.items index (row_of (datagram_of datagram.now)) rows
            → OnOk result (IsHearingAt watched index rows self.new.stage)
            × Goes self.old.reports.reports.form result (measurements watched rows)
            (W.contents (device_of output.old)) (W.contents (device_of output.new)) }
        ensures form { self.new.reports.reports.form ≡ self.old.reports.reports.form }
        ensures counted { (rows : List Row) (early : List Fate)
            → BeginsWith is_kept self.old.recordings.recordings.items index (row_of (datagram_of datagram.now)) rows
            → IsCounts [] self.old.reports.reports.tally.counts
            → ((d : Recording) → IsCounts early (get_or self.old.recordings.recordings.items index d).early.counts)
            → OnOk result (IsCounts (fates watched rows ++ (if is_kept then [] else early)) self.new.reports.reports.tally.counts) }
        ensures recents { (rows : List Row)
            → BeginsWith is_kept self.old.recordings.recordings.items index (row_of (datagram_of datagram.now)) rows
            → AreRecents [] self.old.reports.reports.recents
            → OnOk result (AreRecents (measurements watched rows) self.new.reports.reports.recents) }
        ensures handing { self.new.reports.reports.recents.fresh.handing ≡ self.old.reports.reports.recents.fresh.handing }
        ensures wanted { self.new.wanted ≡ self.old.wanted }
        ensures recordings { self.new.recordings ≡ self.old.recordings }
        ensures failures { MatchResult result
            (λ _. HasNotFailed output.old output.new)
            (λ fault. HasFailedIf (is_write fault) output.old output.new) }
    {
        let mut listener = Listener::new(watched);
        if is_kept {
            self.reports
                .hear_kept(&mut listener, self.recordings.kept(index), output)?;
        } else {
            self.reports.reports.tally = self.recordings.early(index);
            self.reports.hear(&mut listener, datagram, output)?;
        }
        self.stage = Stage::Hearing(index, listener);
        Ok(())
    }
}

impl Measuring {
    /// Whom the datagrams are of at the place that is measured; while none is, those at that of lines, as far as that is known.
    pub(crate) fn whom(&self) -> Whom
        ensures { (r : Read) → IsMeasuring self.now r → result ≡ told_whom r.wanted r.rows }
    {
        let index = match &self.stage {
            Stage::Looking(_) => self.recordings.find_nameless(),
            Stage::Hearing(index, _) => Some(*index),
        };
        if let Some(index) = index
            && let Some(whom) = self.recordings.whom(index)
        {
            return whom;
        }
        Watch::new(&self.wanted).whom()
    }

    /// What was counted of the datagrams at the place that is measured; while none is, of those at that of lines.
    pub(crate) fn counts(&self) -> Counts
        ensures { (r : Read) → IsMeasuring self.now r → IsCounts (told_fates r.wanted r.rows) result }
    {
        if let Stage::Hearing(..) = &self.stage {
            return self.reports.reports.tally.counts;
        }
        match self.recordings.find_nameless() {
            Some(index) => self.recordings.early(index).counts,
            None => Tally::new().counts,
        }
    }

    /// What the place is called that is measured, where one is that has a name.
    pub(crate) fn interface(&self) -> Option<&[u8]>
        ensures { option_map (λ name. name.now) result ≡ called (place_at self.now.stage self.now.recordings.recordings.items) }
    {
        match &self.stage {
            Stage::Looking(_) => None,
            Stage::Hearing(index, _) => self.recordings.name(*index),
        }
    }

    /// The reports that weren't handed on are. More than can be counted would be want of memory.
    pub(crate) fn hand_on(&mut self) -> Result<(), AllocError>
        ensures { (r : Read) → IsMeasuring self.old r → hands_on r.form ≡ true → OnOk result (IsMeasuring self.new (handed_on r)) }
    {
        self.reports.reports.recents.fresh.hand_on()
    }

    /// The last numbers of the reports.
    pub(crate) fn recents(&self) -> &Recents
        ensures { result.now ≡ self.now.reports.reports.recents }
    {
        &self.reports.reports.recents
    }

    /// The places that are looked at, and what is known at each.
    pub(crate) fn places(&self) -> &[Recording] {
        self.recordings.all()
    }

    /// The index of the place that is measured, once one is.
    pub(crate) fn measured(&self) -> Option<usize> {
        match &self.stage {
            Stage::Looking(_) => None,
            Stage::Hearing(index, _) => Some(*index),
        }
    }

    /// How many datagrams were met at the place of an index, which isn't measured.
    pub(crate) fn count_at(&self, index: usize) -> u64 {
        self.at_places.at(index)
    }

    /// How many datagrams were met at places that weren't looked at.
    pub(crate) fn count_elsewhere(&self) -> u64 {
        self.at_places.others()
    }

    /// Whether no place was met.
    pub(crate) fn is_nowhere(&self) -> bool {
        self.recordings.all().is_empty()
    }

    /// Tells in lines what is told of datagrams at the end: of whom they are only what is known, where that wasn't enough. What can't
    /// be written is lost.
    pub(crate) fn tell<E: Write>(&self, counts: &Counts, errors: &mut E) {
        match self.stage {
            Stage::Hearing(measured, _) => self.tell_measured(measured, counts, errors),
            Stage::Looking(_) => self.tell_unknown(errors),
        }
    }

    /// Tells what was measured at the place of this index, and what was passed over at others.
    fn tell_measured<E: Write>(&self, measured: usize, counts: &Counts, errors: &mut E) {
        let recordings = self.recordings.all();
        let Some(recording) = recordings.get(measured) else {
            return;
        };
        if self.has_others() {
            let _ = writeln!(errors, "ptpx: measured at {}", recording.place);
        }
        let ending = Ending::of(counts, recording.place.unit());
        let _ = write!(errors, "{ending}");
        for (index, other) in recordings.iter().enumerate() {
            if index != measured {
                let count = self.at_places.at(index);
                let _ = writeln!(
                    errors,
                    "ptpx: {} at {}, which isn't measured",
                    Datagrams(count),
                    other.place
                );
            }
        }
        self.tell_others(errors);
    }

    /// Tells what is known at each place, where that isn't enough.
    fn tell_unknown<E: Write>(&self, errors: &mut E) {
        for recording in self.recordings.all() {
            if recording.watched().is_some() {
                // it stopped within the first reports, and was told before them
                continue;
            }
            if self.has_others() {
                let _ = writeln!(errors, "ptpx: at {}:", recording.place);
            }
            let unit = recording.place.unit();
            let whom = recording.watch.whom();
            let ending = Ending::of(&recording.early.counts, unit);
            let _ = write!(errors, "{}{ending}", WhomLines { unit, whom });
            recording.tell_callers(errors);
        }
        if self.recordings.all().iter().any(|it| it.place.has_vlan()) {
            let _ = writeln!(
                errors,
                "ptpx: if the Syncs of a pair are at one of these places and its Delay_Reqs at another, tcprewrite --enet-vlan=del takes tags of VLANs away"
            );
        }
        self.tell_others(errors);
    }

    /// Whether there were several places.
    fn has_others(&self) -> bool {
        self.recordings.all().len() > 1 || self.at_places.others() > 0
    }

    /// Tells how many datagrams there were at places that weren't looked at, if any were.
    fn tell_others<E: Write>(&self, errors: &mut E) {
        let count = self.at_places.others();
        if count > 0 {
            let _ = writeln!(
                errors,
                "ptpx: {} at other places, which weren't looked at: cut the capture by an address or a VLAN (tshark -Y)",
                Datagrams(count)
            );
        }
    }
}

/// So many datagrams, in words.
#[derive(Clone, Copy)]
struct Datagrams(u64);

impl Display for Datagrams {
    fn fmt<W: fmt::Write>(&self, f: &mut Formatter<W>) -> fmt::Result {
        match self.0 {
            1 => f.write_str("1 datagram"),
            count => write!(f, "{count} datagrams"),
        }
    }
}
