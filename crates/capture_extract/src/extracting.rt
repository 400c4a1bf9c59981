//! The datagrams of a capture, each of which gives a line.
ghost use Rattle.std.specs.Prelude.{◌≡◌, MatchResult};
ghost use Rattle.text_lines.specs.Counted.{HasNotFailed};
ghost use Rattle.capture_file.specs.Task.{FailedAt};
ghost use Rattle.datagram_source.specs.Rules.{packet_rules};
ghost use Rattle.capture_extract.specs.Extracted.{ExtractsAnswer, extract_rules};

use crate::line::{ExtractForm, make_line};
use capture_file::{CaptureStop, InterfaceName};
use datagram_source::{Datagram, DatagramTask, LineForm, PacketCounts, answer_capture};
use std::alloc::Global;
use std::io::{Read, Write};
use text_lines::{Counted, LineFault, write_text};

/// What is taken of a capture, and how it is written.
#[derive(Clone, Copy, PartialEq, Eq)]
pub struct Extraction {
    /// How a line is written.
    pub form: ExtractForm,
    /// The interface whose packets are taken; without it those of all interfaces are.
    pub interface: Option<InterfaceName>,
}

/// Writes the line of each datagram, by a text that all lines share.
#[derive(Drop)]
struct Extracting {
    extraction: Extraction,
    text: String,
}

impl Extracting {
    /// No datagram came yet.
    fn new(alloc: Global, extraction: &Extraction) -> Extracting
        ensures { result.extraction ≡ extraction.now }
    {
        Extracting {
            extraction: *extraction,
            text: String::new(alloc),
        }
    }
}

impl DatagramTask for Extracting {
    ghost use Rattle.capture_extract.specs.declared.extracting.Extraction.{Extraction};

    type Fault = LineFault;

    ghost State = { Extraction };

    ghost rules = { extract_rules };

    ghost is_at = { λ task extraction. task.extraction ≡ extraction };

    fn subcommand() -> &'static str {
        "extract"
    }

    /// Lines aren't read: only captures are given to it.
    fn line_form() -> LineForm {
        LineForm::Timed
    }

    fn fault_of(fault: LineFault) -> LineFault {
        fault
    }

    fn asked(&self) -> Option<InterfaceName> {
        self.extraction.interface
    }

    /// Writes the line of a datagram, in one write.
    fn take<W: Write, E: Write>(
        &mut self,
        datagram: &Datagram<'_>,
        output: &mut Counted<W>,
        _errors: &mut E,
    ) -> Result<(), LineFault> {
        make_line(&mut self.text, self.extraction.form, datagram)?;
        write_text(self.text.as_str(), output)
    }

    fn finish<W: Write, E: Write>(
        &mut self,
        _output: &mut Counted<W>,
        _errors: &mut E,
    ) -> Result<(), LineFault> {
        Ok(())
    }
}

/// Writes what a capture has of PTP: the line of each packet that carries a datagram, of the interface that is asked for if one is,
/// in one write, before an octet behind its packet is read. Answers how many packets there were, and of each kind how many.
///
/// The faults are those of a capture, and 801, 802 and 808; the lines of the packets before a fault were written then.
pub fn extract<R: Read, W: Write, E: Write>(
    alloc: Global,
    extraction: &Extraction,
    input: &mut Counted<R>,
    output: &mut Counted<W>,
    errors: &mut E,
) -> (Result<u64, CaptureStop<LineFault>>, PacketCounts)
    ensures extracted { ExtractsAnswer extraction.now R.remaining W.contents result.0 input.old input.new output.old output.new }
    ensures failures { MatchResult result.0
        (λ _. HasNotFailed input.old input.new × HasNotFailed output.old output.new)
        (λ stop. FailedAt (packet_rules extract_rules) stop.what input.old input.new output.old output.new) }
{
    let task = Extracting::new(alloc, extraction);
    let (answer, _task, counts) = answer_capture(alloc, task, input, output, errors);
    (answer, counts)
}
