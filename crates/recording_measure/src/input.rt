//! An input that is measured.

ghost use Rattle.std.specs.Prelude.{◌≡◌, ⊤, List, MatchResult, option_map};
ghost use Rattle.std.specs.Option.{ForSome};
ghost use Rattle.text_lines.specs.Counted.{device_of, HasNotFailed, HasFailedIf};
ghost use Rattle.text_lines.specs.Fault.{is_write};
ghost use Rattle.datagram_source.specs.Input.{AnswersInput, OutcomeFailed};
ghost use Rattle.datagram_source.specs.Left.{LeavesInput};
ghost use Rattle.recording_measure.specs.Measure.{begun, head_text, measure_rules};
ghost use Rattle.recording_measure.specs.Summed.{WritesLine};
ghost use Rattle.recording_measure.specs.Told.{whom_told, counts_told, interface_told, recents_told, is_own_told, aside_told, IsSummary};
ghost use Rattle.recording_measure.specs.Made.{Measured};
ghost use Rattle.recording_measure.specs.Recents.{AreRecents, offsets, paths};
ghost use Rattle.statistics.specs.Median.{last};
ghost use Rattle.statistics.specs.Percentile.{AreRanks};

use crate::aside::Aside;
use crate::form::Form;
use crate::places_text::PlacesText;
use crate::task::MeasureTask;
use crate::watch::WantedPorts;
use datagram_source::{InputOutcome, PacketCounts, answer_datagrams};
use recording_summary::{Counts, Whom};
use recording_words::{Ending, InputUnit, Sums, WhomLines};
use statistics::Ranks;
use std::alloc::{AllocError, Global};
use std::fmt::Write as _;
use std::io::{Read, Write};
use text_lines::{Counted, LineFault, write_text};

/// What is told of an input beside its reports.
#[derive(Drop)]
pub struct Summary {
    whom: Whom,
    counts: Counts,
    is_own: bool,
    aside: Aside,
    task: MeasureTask,
    /// How many packets there were of each kind; of lines there is none.
    packets: Option<PacketCounts>,
}

impl Summary {
    /// Whom the datagrams are of that are measured. While it isn't known where to measure, of lines what is known; of a capture what is
    /// asked for.
    pub fn whom(&self) -> Whom
        ensures { result ≡ whom_told self.now }
    {
        self.whom
    }

    /// What was counted of the datagrams that are measured. While it isn't known where to measure, all lines are counted, and no packet.
    pub fn counts(&self) -> Counts
        ensures { result ≡ counts_told self.now }
    {
        self.counts
    }

    /// How many datagrams are left aside.
    pub fn aside(&self) -> Aside
        ensures { result ≡ aside_told self.now }
    {
        self.aside
    }

    /// Whether a slave's own readings are measured.
    pub fn is_own(&self) -> bool
        ensures { result ≡ is_own_told self.now }
    {
        self.is_own
    }

    /// What the interface of a capture is called that is measured, once that is known.
    pub fn interface(&self) -> Option<&[u8]>
        ensures { option_map (λ name. name.now) result ≡ interface_told self.now }
    {
        self.task.measuring.interface()
    }

    /// Ranks of the last 4,096 offsets of reports that a Sync completed, in 2^-17 ns, if there are any.
    pub fn offset_ranks(&self, alloc: Global) -> Result<Option<Ranks>, AllocError>
        ensures { (all : List Measured) → AreRecents all (recents_told self.now)
            → MatchResult result (AreRanks (last (offsets all))) (λ _. ⊤) }
    {
        self.task.measuring.recents().offset_ranks(alloc)
    }

    /// Ranks of the last 4,096 path delays of reports that a Delay_Resp completed, in 2^-17 ns, if there are any.
    pub fn path_ranks(&self, alloc: Global) -> Result<Option<Ranks>, AllocError>
        ensures { (all : List Measured) → AreRecents all (recents_told self.now)
            → MatchResult result (AreRanks (last (paths all))) (λ _. ⊤) }
    {
        self.task.measuring.recents().path_ranks(alloc)
    }

    /// Writes what was measured, in one line of JSON and in one write.
    pub fn write_sums<W: Write>(
        &self,
        alloc: Global,
        output: &mut Counted<W>,
    ) -> Result<(), LineFault>
        ensures written { WritesLine result (W.contents (device_of output.old)) (W.contents (device_of output.new)) }
        ensures failures { MatchResult result
            (λ _. HasNotFailed output.old output.new)
            (λ fault. HasFailedIf (is_write fault) output.old output.new) }
    {
        let sums = Sums::of(
            self.whom,
            &self.counts,
            self.offset_ranks(alloc)?,
            self.path_ranks(alloc)?,
            PlacesText(&self.task.measuring),
            self.is_own,
        );
        let mut text = String::new(alloc);
        write!(text, "{sums}")?;
        text.push('\n')?;
        write_text(text.as_str(), output)
    }

    /// Tells the summary, in lines; of whom the input is only what is known, if not all is. What can't be written is lost.
    pub fn tell<E: Write>(&self, errors: &mut E) {
        match &self.packets {
            Some(packets) => packets.tell_packets(errors),
            None if self.task.measuring.is_nowhere() && !self.task.is_in_vain() => {
                let unit = InputUnit::Line;
                let whom = self.whom;
                let ending = Ending::of(&self.counts, unit);
                let _ = write!(errors, "{}{ending}", WhomLines { unit, whom });
            }
            None => {}
        }
        self.task.tell_counts(&self.counts, errors);
    }
}

/// Measures an input, and writes what a slave port reports that hears its datagrams. An input whose first four octets are a
/// magic of a capture is one, and each packet that carries a datagram of PTP is one of a recording, where it was captured at the
/// interface that is measured. Any other is lines, each of a time and a datagram.
///
/// What a packet or line brings goes out before an octet behind it is read, but for a first line that is refused: where a magic begins
/// with the first octet, four are read.
///
/// Whom the input is of goes to `errors`, in lines, with the first datagram by which it is known, before the first report goes out.
/// What can't be written there is lost: all that is promised holds whatever that writer does.
pub fn measure<R: Read, W: Write, E: Write>(
    alloc: Global,
    wanted: &WantedPorts,
    form: Form,
    input: &mut Counted<R>,
    output: &mut Counted<W>,
    errors: &mut E,
) -> (InputOutcome<LineFault>, Summary)
    ensures measured { AnswersInput measure_rules (head_text form) (begun form wanted.now) R.remaining W.contents result.0
        input.old input.new output.old output.new }
    ensures summary { ForSome (R.remaining (device_of input.old)) (λ octets.
        LeavesInput measure_rules (begun form wanted.now) octets result.0 (IsSummary result.1)) }
    ensures failures { OutcomeFailed measure_rules result.0 input.old input.new output.old output.new }
{
    let task = MeasureTask::new(alloc, wanted, form);
    let (outcome, task, packets) = answer_datagrams(
        alloc,
        form.head(),
        task,
        input,
        output,
        errors,
    );
    let summary = Summary {
        whom: task.measuring.whom(),
        counts: task.measuring.counts(),
        is_own: task.is_own(),
        aside: task.aside(),
        task,
        packets,
    };
    (outcome, summary)
}
