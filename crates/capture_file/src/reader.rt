//! The next part of a capture, from a reader.
ghost use Rattle.std.specs.Prelude.{◌≡◌, ◌≢◌, ◌≤◌, None, Some, length, MatchOption};
ghost use Rattle.std.specs.Io.KnownBytes.{prepend_known};
ghost use Rattle.text_lines.specs.Counted.{device_of};
ghost use Rattle.capture_file.specs.Beginning.{begins_magic};
ghost use Rattle.capture_file.specs.Order.{number32};
ghost use Rattle.capture_file.specs.Pcap.{unit_of};
ghost use Rattle.capture_file.specs.Pcapng.{section_type};
ghost use Rattle.capture_file.specs.Parts.{Start};
ghost use Rattle.capture_file.specs.Inner.Front.{front_of};
ghost use Rattle.capture_file.specs.Inner.Reading.{form_of, begun_with, TellsMagic, ReadsMagic, ReadsPart, FailedIn};

use crate::block::SECTION;
use crate::block_reading::read_block;
use crate::fault::CaptureFault;
use crate::front::Front;
use crate::order::ByteOrder;
use crate::part::{Part, PartStop};
use crate::pcap::{FractionUnit, PcapHead, pcap_magic};
use crate::pcap_reading::{PCAP_HEAD, read_packet, read_pcap_head};
use crate::section::Section;
use crate::section_reading::read_section_header;
use std::alloc::Global;
use std::io::Read;
use text_lines::Counted;

/// What stands before the next part of a capture.
#[derive(Drop)]
pub(crate) enum Form {
    /// Nothing.
    Start,
    /// The head of a pcap.
    Pcap(PcapHead),
    /// A section of a pcapng.
    Section(Section),
}

/// What the first four octets of a capture tell.
#[derive(Clone, Copy)]
pub(crate) enum Magic {
    /// It is a pcap.
    Pcap(ByteOrder, FractionUnit),
    /// It is a pcapng, which begins with a section header.
    Section,
}

/// Whether a magic begins with this octet: that of a pcap, in either order, or that of a section header.
pub(crate) fn begins_magic(octet: u8) -> bool
    ensures { result ≡ begins_magic octet }
{
    matches!(octet, 0xa1 | 0xd4 | 0x4d | 0x0a)
}

/// What these octets tell, where they are a magic.
pub(crate) fn magic_in(octets: &[u8]) -> Option<Magic>
    requires { 4 ≤ length octets.now }
    ensures { MatchOption result
        ((unit_of (number32 ByteOrder.Big octets.now 0) ≡ None) × (unit_of (number32 ByteOrder.Little octets.now 0) ≡ None)
        × (number32 ByteOrder.Big octets.now 0 ≢ section_type))
        (λ magic. TellsMagic magic octets.now) }
{
    if ByteOrder::Big.u32_at(octets, 0) == SECTION {
        return Some(Magic::Section);
    }
    let (order, unit) = pcap_magic(octets)?;
    Some(Magic::Pcap(order, unit))
}

/// Reads the magic that a capture begins with, of which some octets may be there.
fn read_magic<R: Read>(front: &mut Front, input: &mut Counted<R>) -> Result<Magic, PartStop>
    requires { length (front_of front.old) ≤ 4 }
    ensures magic { ReadsMagic result (front_of front.new)
        (prepend_known (front_of front.old) (R.remaining (device_of input.old))) (R.remaining (device_of input.new)) }
    ensures failures { FailedIn result input.old input.new }
{
    match front.fill_to(4, input) {
        Ok(true) => magic_in(front.octets()).ok_or(PartStop::Fault(CaptureFault::NoCapture, 0)),
        Ok(false) => Err(PartStop::Fault(CaptureFault::NoCapture, 0)),
        Err(_) => Err(PartStop::Read),
    }
}

/// Reads the head of a pcap, or the first section header of a pcapng, of which some octets may be there.
fn read_start<'a, R: Read>(
    alloc: Global,
    form: &mut Form,
    front: &'a mut Front,
    input: &mut Counted<R>,
) -> Result<Option<Part<'a>>, PartStop>
    requires most { length (front_of front.old) ≤ 4 }
    requires start { form_of form.old ≡ Start }
    ensures part { ReadsPart Start (form_of form.new) result
        (prepend_known (front_of front.old) (R.remaining (device_of input.old))) (R.remaining (device_of input.new)) }
    ensures failures { FailedIn result input.old input.new }
{
    match read_magic(front, input)? {
        Magic::Pcap(order, unit) => {
            *form = Form::Pcap(read_pcap_head(order, unit, front, input)?);
            Ok(Some(Part {
                size: PCAP_HEAD as u64,
                packet: None,
            }))
        }
        Magic::Section => {
            let (order, total) = read_section_header(front, input)?;
            *form = Form::Section(Section::new(alloc, order));
            Ok(Some(Part {
                size: u64::from(total),
                packet: None,
            }))
        }
    }
}

/// Reads the next part of a capture; None at the end. Of the first one some octets may be there.
pub(crate) fn read_part<'a, R: Read>(
    alloc: Global,
    form: &mut Form,
    front: &'a mut Front,
    input: &mut Counted<R>,
) -> Result<Option<Part<'a>>, PartStop>
    requires { length (begun_with (form_of form.old) (front_of front.old)) ≤ 4 }
    ensures part { ReadsPart (form_of form.old) (form_of form.new) result
        (prepend_known (begun_with (form_of form.old) (front_of front.old)) (R.remaining (device_of input.old)))
        (R.remaining (device_of input.new)) }
    ensures failures { FailedIn result input.old input.new }
{
    match form {
        Form::Start => read_start(alloc, form, front, input),
        Form::Pcap(head) => {
            front.clear();
            read_packet(*head, front, input)
        }
        Form::Section(section) => {
            front.clear();
            read_block(alloc, section, front, input)
        }
    }
}
