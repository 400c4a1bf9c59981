//! The datagrams of a capture, and the table of their messages behind the last.
ghost use Rattle.std.specs.Prelude.{◌≡◌, false, ⊤};
ghost use Rattle.capture_file.specs.Task.{is_of_writer};
ghost use Rattle.datagram_source.specs.Rules.{packet_rules};
ghost use Rattle.capture_extract.specs.Listed.{ListsAnswer, TableFollows, TableGoesOut, list_rules};
ghost use Rattle.capture_extract.specs.Table.{TableOf, no_table};
ghost use Rattle.capture_extract.specs.Text.{IsTableText};
ghost use Rattle.capture_extract.specs.Inner.Going.{GoesOut};
ghost use Rattle.capture_extract.specs.Inner.Rows.{IsTable};

use crate::table::Table;
use capture_file::{CaptureCause, CaptureStop, InterfaceName};
use datagram_source::{Datagram, DatagramTask, LineForm, PacketCounts, answer_capture};
use std::alloc::Global;
use std::io::{Read, Write};
use text_lines::{Counted, LineFault, write_text};

/// Counts messages in the rows of a table, which is written at the end.
#[derive(Drop)]
struct Listing {
    alloc: Global,
    interface: Option<InterfaceName>,
    table: Table,
}

impl DatagramTask for Listing {
    ghost use Rattle.capture_extract.specs.Listed.{Came};
    ghost use Rattle.capture_extract.specs.Table.{table_of};
    ghost use Rattle.capture_extract.specs.Inner.Rows.{IsTable};

    type Fault = LineFault;

    ghost State = { Came };

    ghost rules = { list_rules };

    ghost is_at = { λ task came. (task.interface ≡ came.asked) × IsTable (table_of came.datagrams) task.table };

    fn subcommand() -> &'static str {
        "extract"
    }

    /// Lines aren't read: only captures are given to it.
    fn line_form() -> LineForm {
        LineForm::Timed
    }

    fn fault_of(fault: LineFault) -> LineFault {
        fault
    }

    fn asked(&self) -> Option<InterfaceName> {
        self.interface
    }

    /// Counts a message.
    fn take<W: Write, E: Write>(
        &mut self,
        datagram: &Datagram<'_>,
        _output: &mut Counted<W>,
        _errors: &mut E,
    ) -> Result<(), LineFault> {
        self.table.take(datagram)?;
        Ok(())
    }

    /// Writes the table.
    fn finish<W: Write, E: Write>(
        &mut self,
        output: &mut Counted<W>,
        _errors: &mut E,
    ) -> Result<(), LineFault> {
        self.write(output)
    }
}

impl Listing {
    /// No datagram came yet.
    fn new(alloc: Global, interface: Option<InterfaceName>) -> Listing
        ensures interface { result.interface ≡ interface }
        ensures table { IsTable no_table result.table }
    {
        Listing {
            alloc,
            interface,
            table: Table::new(alloc),
        }
    }

    /// Writes the table of what came, in one write.
    fn write<W: Write>(&self, output: &mut Counted<W>) -> Result<(), LineFault>
        ensures some { GoesOut W.contents (λ text. ⊤) result output.old output.new }
        ensures table { (t : TableOf) → IsTable t self.now.table → GoesOut W.contents (IsTableText t) result output.old output.new }
    {
        let text = self.table.text(self.alloc)?;
        write_text(text.as_str(), output)
    }

    /// Writes the table behind a fault, but where the writer failed. What can't be written is lost: the fault is answered.
    fn write_behind<W: Write>(&self, stop: &CaptureStop<LineFault>, output: &mut Counted<W>)
        ensures follows { TableFollows (is_of_writer (packet_rules list_rules) stop.now.what) W.contents output.old output.new }
        ensures table { (t : TableOf) → IsTable t self.now.table → is_of_writer (packet_rules list_rules) stop.now.what ≡ false
            → TableGoesOut t W.contents output.old output.new }
    {
        if !has_writer_failed(stop) {
            let _ = self.write(output);
        }
    }
}

/// Whether the writer failed at this.
fn has_writer_failed(stop: &CaptureStop<LineFault>) -> bool
    ensures { result ≡ is_of_writer (packet_rules list_rules) stop.now.what }
{
    matches!(stop.what, CaptureCause::Task(LineFault::Write))
}

/// Lists who sends which messages of PTP in a capture, at the interface that is asked for if one is: a table for people, with a row for
/// each interface, domain, source port, requesting port and type of message. Below it stand the calls of `ptpx measure` for those who
/// exchange Delay_Resps, and how many datagrams aren't in a row. Nothing is written before the end of the capture, or the fault that it
/// has: then the table is of what came before that. Answers how many packets there were, and of each kind how many.
///
/// The faults are those of a capture, and 801, 802 and 808. 802 is answered only of a capture that has no fault.
pub fn list<R: Read, W: Write, E: Write>(
    alloc: Global,
    interface: Option<InterfaceName>,
    input: &mut Counted<R>,
    output: &mut Counted<W>,
    errors: &mut E,
) -> (Result<u64, CaptureStop<LineFault>>, PacketCounts)
    ensures { ListsAnswer interface R.remaining W.contents result.0 input.old input.new output.old output.new }
{
    let task = Listing::new(alloc, interface);
    let (answer, task, counts) = answer_capture(alloc, task, input, output, errors);
    if let Err(stop) = &answer {
        task.write_behind(stop, output);
    }
    (answer, counts)
}
