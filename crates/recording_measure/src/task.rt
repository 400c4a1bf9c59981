//! What is done with the datagrams of an input that is measured: those that were captured, or the messages that a slave's own readings
//! stand for.

ghost use Rattle.std.specs.Prelude.{◌≡◌, ◌++◌, ◌&&◌, nat_lt, true, List, [], ◌∷◌, length, not, MatchResult, OnOk};
ghost use Rattle.std.specs.List.{flat_map};
ghost use Rattle.std.specs.Result.{is_ok};
ghost use Rattle.text_lines.specs.Counted.{device_of, HasNotFailed, HasFailedIf};
ghost use Rattle.text_lines.specs.Fault.{is_write};
ghost use Rattle.event_codec.specs.Packet.{Packet};
ghost use Rattle.event_codec.specs.Profile.{contents_of};
ghost use Rattle.event_codec.specs.Reading.{IsReading};
ghost use Rattle.datagram_source.specs.Said.{reading_of};
ghost use Rattle.datagram_source.specs.Datagram.{datagram_of};
ghost use Rattle.signaling_codec.specs.Tlv.{readings_of};
ghost use Rattle.recording_measure.specs.Measure.{Recording, begun, measure_rules, is_asked, is_captured, slave_by, are_by, has_reported};
ghost use Rattle.recording_measure.specs.Measure.{IsTold, TellsReadings, captured_by, counted_with, with_own, handed_on, measured_so_far};
ghost use Rattle.recording_measure.specs.Aside.{IsAside};
ghost use Rattle.recording_measure.specs.Own.{messages_in, messages_of};
ghost use Rattle.recording_measure.specs.Fresh.{AreFresh, hands_on};
ghost use Rattle.recording_measure.specs.Handed.{completions_of};
ghost use Rattle.recording_measure.specs.Inner.Task.{IsTask, Adds, AddsOwn};

use crate::aside::{Aside, AsideLines, Passed, VainLines};
use crate::completion::Completion;
use crate::form::Form;
use crate::measuring::Measuring;
use crate::own::{OwnMessage, exchange_of, sync_of};
use crate::readings::By;
use crate::watch::WantedPorts;
use capture_file::InterfaceName;
use datagram_source::{Datagram, DatagramTask, LineForm, Place, Stamp, message_in};
use event_codec::{Header, PortIdentity, encode};
use ptp_units::ScaledTime;
use recording_summary::Counts;
use recording_words::InputUnit;
use signaling_codec::{OwnReading, Reading, Readings, Signaling, decode_signaling};
use std::alloc::{AllocError, Global};
use std::io::Write;
use text_lines::{Counted, LineFault};

/// The most octets of a message that a reading stands for: those of a Delay_Resp.
const MESSAGE_MOST: usize = 54;

/// Measures each datagram of an input that was captured, or in their place those that a slave's own readings stand for.
#[derive(Drop)]
pub struct MeasureTask {
    pub(crate) measuring: Measuring,
    by: By,
    passed: Passed,
}

impl DatagramTask for MeasureTask {
    type Fault = LineFault;

    ghost State = { Recording };

    ghost rules = { measure_rules };

    ghost is_at = { IsTask };

    fn subcommand() -> &'static str {
        "measure"
    }

    fn line_form() -> LineForm {
        LineForm::Timed
    }

    fn asked(&self) -> Option<InterfaceName> {
        self.measuring.wanted.interface
    }

    fn fault_of(fault: LineFault) -> LineFault {
        fault
    }

    fn take<W: Write, E: Write>(
        &mut self,
        datagram: &Datagram<'_>,
        output: &mut Counted<W>,
        errors: &mut E,
    ) -> Result<(), LineFault> {
        let (told, tells) = self.told(datagram);
        match told {
            Some(signaling) => {
                self.count(datagram, true, tells);
                self.take_own(&signaling, datagram, output, errors)
            }
            None => {
                self.count(datagram, false, tells);
                self.take_captured(datagram, output, errors)
            }
        }
    }

    fn finish<W: Write, E: Write>(
        &mut self,
        _output: &mut Counted<W>,
        _errors: &mut E,
    ) -> Result<(), LineFault> {
        Ok(())
    }
}

/// Says that a slave's own readings are measured, which this datagram is the first to tell. What can't be written is lost.
fn tell_own<E: Write>(datagram: &Datagram<'_>, errors: &mut E) {
    let unit = match datagram.place {
        Place::Interface(..) => InputUnit::Packet,
        Place::Line | Place::Tap(_) => InputUnit::Line,
    };
    let _ = writeln!(
        errors,
        "ptpx: by the slave's own readings, which {unit} {} is the first to tell; --readings capture measures what was captured",
        datagram.number
    );
}

/// The octets of the message that a reading stands for.
fn octets_of<'a>(own: &OwnMessage, buffer: &'a mut [u8; MESSAGE_MOST]) -> &'a [u8]
    ensures { Packet (contents_of own.now.message) result.now }
{
    let written = encode(&own.message.message(), buffer);
    prove!(written.is_ok());
    match written {
        Ok(length) => &buffer[..length],
        Err(_) => &[],
    }
}

/// Whether a Signaling message tells a reading.
fn has_readings(signaling: &Signaling<'_>) -> bool
    ensures { result ≡ nat_lt 0 (length (readings_of signaling.now.tlvs)) }
{
    signaling.readings().next().is_some()
}

/// Whether a datagram is one of the four messages.
fn is_message(datagram: &Datagram<'_>) -> bool
    ensures { result ≡ is_ok (datagram_of datagram.now).said }
{
    match &datagram.said {
        Ok(_) => true,
        Err(_) => false,
    }
}

/// Whether a datagram tells readings that aren't taken.
fn is_untaken(is_taken: bool, tells: bool) -> bool
    ensures { result ≡ (tells && not is_taken) }
{
    tells && !is_taken
}

/// Whether readings under this header are of the domain and the slave that are asked for.
fn is_asked(wanted: &WantedPorts, header: &Header) -> bool
    ensures { result ≡ is_asked wanted.now header.now }
{
    wanted.domain.is_none_or(|domain| header.domain == domain)
        && wanted
            .slave
            .is_none_or(|slave| header.source.clock == slave.clock)
}

impl MeasureTask {
    /// No datagram came yet.
    pub(crate) fn new(alloc: Global, wanted: &WantedPorts, form: Form) -> MeasureTask
        ensures { IsTask result (begun form wanted.now) }
    {
        MeasureTask {
            measuring: Measuring::new(alloc, wanted, form),
            by: By::asked(wanted.readings),
            passed: Passed::new(),
        }
    }

    /// No datagram came yet. Reports are handed on, in place of being written.
    pub fn for_completions(alloc: Global, wanted: &WantedPorts) -> MeasureTask
        ensures { IsTask result (begun Form.Completions wanted.now) }
    {
        MeasureTask::new(alloc, wanted, Form::Completions)
    }

    /// The reports that weren't handed on, in order.
    pub fn completions(&self) -> &[Completion]
        ensures kept { result.now ≡ completions_of self.now }
        ensures fresh { (r : Recording) → IsTask self.now r → hands_on r.form ≡ true → AreFresh (measured_so_far r) r.handed result.now }
    {
        self.measuring.recents().fresh.completions()
    }

    /// They are handed on. More than can be counted would be want of memory.
    pub fn hand_on(&mut self) -> Result<(), AllocError>
        ensures { (r : Recording) → IsTask self.old r → hands_on r.form ≡ true → OnOk result (IsTask self.new (handed_on r)) }
    {
        self.measuring.hand_on()
    }

    /// Whether a report was measured.
    pub fn has_reported(&self) -> bool
        ensures { (r : Recording) → IsTask self.now r → result ≡ has_reported r }
    {
        self.measuring.has_reported()
    }

    /// Whether a slave's own readings are measured.
    pub fn is_own(&self) -> bool
        ensures { (r : Recording) → IsTask self.now r → result ≡ not (is_captured r.by) }
    {
        match self.by {
            By::Any | By::Captured => false,
            By::Own(_) => true,
        }
    }

    /// How many datagrams are left aside.
    pub fn aside(&self) -> Aside
        ensures { (r : Recording) → IsTask self.now r → IsAside r result }
    {
        let captured = match self.by {
            By::Any | By::Captured => 0,
            By::Own(_) => self.passed.captured,
        };
        Aside {
            captured,
            untaken: self.passed.untaken,
        }
    }

    /// Tells in lines what came of the datagrams. What can't be written is lost.
    pub fn tell<E: Write>(&self, errors: &mut E) {
        self.tell_counts(&self.measuring.counts(), errors);
    }

    /// The same, with these counts.
    pub(crate) fn tell_counts<E: Write>(&self, counts: &Counts, errors: &mut E) {
        let aside = self.aside();
        if self.is_in_vain() {
            let _ = write!(errors, "{}", VainLines(aside));
            return;
        }
        self.measuring.tell(counts, errors);
        let is_own = self.is_own();
        let _ = write!(errors, "{}", AsideLines { aside, is_own });
    }

    /// Whether a slave's own readings are asked for, and none came.
    pub(crate) fn is_in_vain(&self) -> bool {
        matches!(self.by, By::Own(None))
    }

    /// The slave that tells its own readings under this header.
    fn slave_by(&self, header: &Header) -> PortIdentity
        ensures { (r : Recording) → IsTask self.now r → result ≡ slave_by r.wanted header.now }
    {
        self.measuring.wanted.slave.unwrap_or(header.source)
    }

    /// Whether a slave's own readings are measured that are told under this header.
    fn takes(&self, header: &Header) -> bool
        ensures { (r : Recording) → IsTask self.now r → result
            ≡ (is_asked r.wanted header.now && are_by r.by (slave_by r.wanted header.now) (has_reported r)) }
    {
        is_asked(&self.measuring.wanted, header)
            && self
                .by
                .takes(self.slave_by(header), self.measuring.has_reported())
    }

    /// The Signaling message that a datagram is, where its readings are measured; and whether it tells any.
    fn told<'a>(&self, datagram: &Datagram<'a>) -> (Option<Signaling<'a>>, bool)
        ensures told { (r : Recording) → IsTask self.now r → IsTold r datagram.now.octets.now result.0 }
        ensures tells { TellsReadings datagram.now.octets.now result.1 }
    {
        match decode_signaling(datagram.octets) {
            Ok(signaling) if has_readings(&signaling) => {
                if self.takes(&signaling.header) {
                    (Some(signaling), true)
                } else {
                    (None, true)
                }
            }
            _ => (None, false),
        }
    }

    /// Counts a datagram, whose readings are taken or not, if it tells any.
    fn count(&mut self, datagram: &Datagram<'_>, is_taken: bool, tells: bool)
        ensures { (r : Recording) → IsTask self.old r → IsTask self.new (counted_with (datagram_of datagram.now) is_taken tells r) }
    {
        self.passed
            .count(is_message(datagram), is_untaken(is_taken, tells));
    }

    /// Takes a datagram that was captured, unless a slave's own readings are measured.
    fn take_captured<W: Write, E: Write>(
        &mut self,
        datagram: &Datagram<'_>,
        output: &mut Counted<W>,
        errors: &mut E,
    ) -> Result<(), LineFault>
        requires stands { (r : Recording) × IsTask self.old r }
        requires read { IsReading datagram.now.octets.now (reading_of datagram.now.said) }
        ensures taken { (r : Recording) → IsTask self.old r → let d = datagram_of datagram.now in
            Adds result (λ later. later ≡ captured_by r.by d r) (λ upto. upto ≡ captured_by r.by d r) r self.new
            (W.contents (device_of output.old)) (W.contents (device_of output.new)) }
        ensures failures { MatchResult result
            (λ _. HasNotFailed output.old output.new)
            (λ fault. HasFailedIf (is_write fault) output.old output.new) }
    {
        match self.by {
            By::Any | By::Captured => self.measuring.take_captured(datagram, output, errors),
            By::Own(_) => Ok(()),
        }
    }

    /// From this datagram on this slave's own readings are measured, and what was captured before isn't. Says so, unless own ones are asked
    /// for. What can't be written is lost.
    fn begin_own<E: Write>(&mut self, slave: PortIdentity, datagram: &Datagram<'_>, errors: &mut E)
        ensures { (r : Recording) → IsTask self.old r → IsTask self.new (with_own r.by slave r) }
    {
        match self.by {
            By::Any => {
                tell_own(datagram, errors);
                self.measuring.begin_anew();
                self.by = By::Own(Some(slave));
            }
            By::Captured => {}
            By::Own(_) => self.by = By::Own(Some(slave)),
        }
    }

    /// Takes a slave's own readings, which a datagram tells.
    fn take_own<W: Write, E: Write>(
        &mut self,
        signaling: &Signaling<'_>,
        datagram: &Datagram<'_>,
        output: &mut Counted<W>,
        errors: &mut E,
    ) -> Result<(), LineFault>
        requires stands { (r : Recording) × IsTask self.old r }
        ensures taken { (r : Recording) → IsTask self.old r → let slave = slave_by r.wanted signaling.now.header in
            AddsOwn result (datagram_of datagram.now) (messages_in slave signaling.now) (with_own r.by slave r) self.new
            (W.contents (device_of output.old)) (W.contents (device_of output.new)) }
        ensures failures { MatchResult result
            (λ _. HasNotFailed output.old output.new)
            (λ fault. HasFailedIf (is_write fault) output.old output.new) }
    {
        let slave = self.slave_by(&signaling.header);
        self.begin_own(slave, datagram, errors);
        for own in signaling.readings() {
            self.take_reading(&signaling.header, slave, &own, datagram, output, errors)?;
        }
        Ok(())
    }

    /// Takes the messages that a reading of this slave stands for.
    fn take_reading<W: Write, E: Write>(
        &mut self,
        header: &Header,
        slave: PortIdentity,
        own: &OwnReading,
        datagram: &Datagram<'_>,
        output: &mut Counted<W>,
        errors: &mut E,
    ) -> Result<(), LineFault>
        requires stands { (r : Recording) × IsTask self.old r }
        ensures taken { (r : Recording) → IsTask self.old r →
            AddsOwn result (datagram_of datagram.now) (messages_of header.now slave own.now.master own.now.reading) r self.new
            (W.contents (device_of output.old)) (W.contents (device_of output.new)) }
        ensures failures { MatchResult result
            (λ _. HasNotFailed output.old output.new)
            (λ fault. HasFailedIf (is_write fault) output.old output.new) }
    {
        match &own.reading {
            Reading::Sync(reading) => {
                self.take_message(
                    &sync_of(header, own.master, reading),
                    datagram,
                    output,
                    errors,
                )
            }
            Reading::Delay(reading) => {
                let (request, response) = exchange_of(header, slave, own.master, reading);
                self.take_message(&request, datagram, output, errors)?;
                self.take_message(&response, datagram, output, errors)
            }
        }
    }

    /// Takes a message that a reading stands for, where the datagram belongs that tells it.
    fn take_message<W: Write, E: Write>(
        &mut self,
        own: &OwnMessage,
        told: &Datagram<'_>,
        output: &mut Counted<W>,
        errors: &mut E,
    ) -> Result<(), LineFault>
        requires stands { (r : Recording) × IsTask self.old r }
        ensures taken { (r : Recording) → IsTask self.old r →
            AddsOwn result (datagram_of told.now) (own.now ∷ []) r self.new
            (W.contents (device_of output.old)) (W.contents (device_of output.new)) }
        ensures failures { MatchResult result
            (λ _. HasNotFailed output.old output.new)
            (λ fault. HasFailedIf (is_write fault) output.old output.new) }
    {
        let mut buffer = [0; MESSAGE_MOST];
        let octets = octets_of(own, &mut buffer);
        let datagram = Datagram {
            place: Place::Line,
            number: told.number,
            time: ScaledTime::join(own.time, 0),
            stamp: Stamp::Clock(own.time),
            octets,
            said: message_in(octets),
            own: true,
        };
        self.measuring
            .take_row(&told.place, &datagram, output, errors)
    }
}
