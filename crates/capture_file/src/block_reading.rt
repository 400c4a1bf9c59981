//! The blocks of a section of pcapng but for section headers, from a reader.
ghost use Rattle.std.specs.Prelude.{◌≡◌, ◌≤◌, ◌<◌, ◌+◌, ◌⊎◌, [], true, length, slice_range, Some, option_map, IfSome, MatchResult};
ghost use Rattle.std.specs.Io.KnownBytes.{prepend_known};
ghost use Rattle.text_lines.specs.Counted.{device_of};
ghost use Rattle.capture_file.specs.Pcapng.{description_type, simple_packet_type, old_packet_type, enhanced_packet_type};
ghost use Rattle.capture_file.specs.Section.{is_other, packet_time};
ghost use Rattle.capture_file.specs.Order.{number32};
ghost use Rattle.capture_file.specs.Packet.{packet_at};
ghost use Rattle.capture_file.specs.Inner.Front.{front_of, name_of};
ghost use Rattle.capture_file.specs.Inner.Described.{described_in};
ghost use Rattle.capture_file.specs.Inner.Section.{section_in};
ghost use Rattle.capture_file.specs.Inner.Reading.{IsBlockHead, ReadsBlock, ReadsBlockHead, ReadsPart, FailedIn};
ghost use Rattle.capture_file.specs.Packet.{packet_of};
ghost use Rattle.capture_file.specs.Parts as parts;

use crate::block::{
    DESCRIPTION, ENHANCED_PACKET, OLD_PACKET, SECTION, SIMPLE_PACKET, is_length_of, padded,
};
use crate::fault::CaptureFault;
use crate::front::{FRONT_LIMIT, Front};
use crate::options::options_in;
use crate::order::ByteOrder;
use crate::packet::{Captured, Interface, PACKET_LIMIT, Packet};
use crate::part::{Part, PartStop};
use crate::section::{Described, Section};
use crate::section_reading::{close, read_section_header};
use std::alloc::Global;
use std::io::Read;
use text_lines::Counted;

/// The octets of a type and a total length.
const BLOCK_HEAD: u32 = 8;

/// The octets of an interface description in front of its options.
const DESCRIPTION_HEAD: u32 = 16;

/// The octets of an enhanced packet in front of those that were captured.
const ENHANCED_HEAD: u32 = 28;

/// What the higher half of a time counts.
const HALF: u64 = 1 << 32;

/// Passes over a simple packet, or one of the old kind.
fn pass_simple<'a, R: Read>(
    section: &Section,
    kind: u32,
    total: u32,
    front: &'a Front,
    input: &mut Counted<R>,
) -> Result<Option<Packet<'a>>, PartStop>
    requires head { IsBlockHead section.now.order kind total (front_of front.now) }
    requires kind { (kind ≡ simple_packet_type) ⊎ (kind ≡ old_packet_type) }
    ensures block { ReadsBlock (section_in section.now) (section_in section.now) total result
        (prepend_known (front_of front.now) (R.remaining (device_of input.old))) (R.remaining (device_of input.new)) }
    ensures failures { FailedIn result input.old input.new }
{
    close(section.order, total, BLOCK_HEAD, input)?;
    Ok(Some(Packet::Simple))
}

/// Passes over a block that isn't looked at.
fn pass_other<'a, R: Read>(
    section: &Section,
    kind: u32,
    total: u32,
    front: &'a Front,
    input: &mut Counted<R>,
) -> Result<Option<Packet<'a>>, PartStop>
    requires head { IsBlockHead section.now.order kind total (front_of front.now) }
    requires kind { is_other kind ≡ true }
    ensures block { ReadsBlock (section_in section.now) (section_in section.now) total result
        (prepend_known (front_of front.now) (R.remaining (device_of input.old))) (R.remaining (device_of input.new)) }
    ensures failures { FailedIn result input.old input.new }
{
    close(section.order, total, BLOCK_HEAD, input)?;
    Ok(None)
}

/// Reads an interface description. Of its options the first 65,584 octets are looked at.
fn read_description<'a, R: Read>(
    alloc: Global,
    section: &mut Section,
    total: u32,
    front: &'a mut Front,
    input: &mut Counted<R>,
) -> Result<Option<Packet<'a>>, PartStop>
    requires head { IsBlockHead section.old.order description_type total (front_of front.old) }
    ensures block { ReadsBlock (section_in section.old) (section_in section.new) total result
        (prepend_known (front_of front.old) (R.remaining (device_of input.old))) (R.remaining (device_of input.new)) }
    ensures failures { FailedIn result input.old input.new }
{
    front.want(DESCRIPTION_HEAD as usize, input)?;
    let kept = (total - 4).min(FRONT_LIMIT as u32);
    let filled = front.fill_to(kept as usize, input);
    let order = section.order;
    let there = &front.octets()[DESCRIPTION_HEAD as usize..];
    let options = match (filled, options_in(order, there, total - 20)) {
        (Err(_), _) => return Err(PartStop::Read),
        (Ok(_), Err(place)) => return Err(PartStop::Fault(CaptureFault::Length, 16 + place)),
        (Ok(false), Ok(_)) => return Err(PartStop::CUT_OFF),
        (Ok(true), Ok(options)) => options,
    };
    close(order, total, kept, input)?;
    let link = order.u16_at(front.octets(), 8);
    match section.describe(alloc, link, options) {
        Ok(()) => Ok(None),
        Err(_) => Err(PartStop::Memory),
    }
}

/// An enhanced packet of these octets, of which so many were captured, at an interface of this name.
fn enhanced_in<'a>(
    order: ByteOrder,
    interface: &Described,
    name: Option<&'a [u8]>,
    captured: usize,
    octets: &'a [u8],
) -> Packet<'a>
    requires least { 28 + captured ≤ length octets.now }
    requires most { captured ≤ 65536 }
    requires name { option_map (λ text. text.now) name ≡ (described_in interface.now).name }
    ensures { packet_of result ≡ packet_at (packet_time (described_in interface.now) order octets.now)
        (record { place = number32 order octets.now 8; name = (described_in interface.now).name })
        interface.now.link (slice_range octets.now 28 (28 + captured)) }
{
    let (high, low) = (order.u32_at(octets, 12), order.u32_at(octets, 16));
    let ticks = u64::from(high) * HALF + u64::from(low);
    let Some(time) = interface.resolution.time(interface.offset, ticks) else {
        return Packet::Timeless;
    };
    Packet::Captured(Captured {
        interface: Interface {
            place: order.u32_at(octets, 8),
            name,
        },
        time,
        link: interface.link,
        octets: &octets[ENHANCED_HEAD as usize..ENHANCED_HEAD as usize + captured],
    })
}

/// Keeps the name of an interface beside the octets of its packet.
fn keep_name(interface: &Described, front: &mut Front) -> Result<(), PartStop>
    ensures front { front_of front.new ≡ front_of front.old }
    ensures name { MatchResult result
        (λ _. IfSome (described_in interface.now).name (λ name. name_of front.new ≡ name))
        (λ stop. stop ≡ PartStop.Memory) }
{
    let Some(name) = &interface.name else {
        return Ok(());
    };
    match front.keep_name(name) {
        Ok(()) => Ok(()),
        Err(_) => Err(PartStop::Memory),
    }
}

/// The packet whose octets were read, and whose name was kept.
fn packet_read<'a>(
    order: ByteOrder,
    interface: &Described,
    captured: usize,
    front: &'a Front,
) -> Packet<'a>
    requires least { 28 + captured ≤ length (front_of front.now) }
    requires most { captured ≤ 65536 }
    requires name { IfSome (described_in interface.now).name (λ name. name_of front.now ≡ name) }
    ensures { packet_of result ≡ packet_at (packet_time (described_in interface.now) order (front_of front.now))
        (record { place = number32 order (front_of front.now) 8; name = (described_in interface.now).name })
        interface.now.link (slice_range (front_of front.now) 28 (28 + captured)) }
{
    let name = match interface.name {
        Some(_) => Some(front.name()),
        None => None,
    };
    enhanced_in(order, interface, name, captured, front.octets())
}

/// Reads an enhanced packet.
fn read_enhanced<'a, R: Read>(
    section: &Section,
    total: u32,
    front: &'a mut Front,
    input: &mut Counted<R>,
) -> Result<Option<Packet<'a>>, PartStop>
    requires head { IsBlockHead section.now.order enhanced_packet_type total (front_of front.old) }
    ensures block { ReadsBlock (section_in section.now) (section_in section.now) total result
        (prepend_known (front_of front.old) (R.remaining (device_of input.old))) (R.remaining (device_of input.new)) }
    ensures failures { FailedIn result input.old input.new }
{
    front.want(12, input)?;
    let place = section.order.u32_at(front.octets(), 8);
    let Some(interface) = section.interface(place) else {
        return Err(PartStop::Fault(CaptureFault::Interface, 8));
    };
    front.want(24, input)?;
    let captured = section.order.u32_at(front.octets(), 20);
    if u64::from(total) < 32 + padded(captured) {
        return Err(PartStop::Fault(CaptureFault::Length, 20));
    }
    let kept = captured.min(PACKET_LIMIT as u32);
    front.want((ENHANCED_HEAD + kept) as usize, input)?;
    close(section.order, total, ENHANCED_HEAD + kept, input)?;
    keep_name(interface, front)?;
    Ok(Some(packet_read(section.order, interface, kept as usize, front)))
}

/// Reads a block that is no section header, by its type and its total length.
fn read_sized<'a, R: Read>(
    alloc: Global,
    section: &mut Section,
    kind: u32,
    total: u32,
    front: &'a mut Front,
    input: &mut Counted<R>,
) -> Result<Option<Packet<'a>>, PartStop>
    requires head { IsBlockHead section.old.order kind total (front_of front.old) }
    ensures block { ReadsBlock (section_in section.old) (section_in section.new) total result
        (prepend_known (front_of front.old) (R.remaining (device_of input.old))) (R.remaining (device_of input.new)) }
    ensures failures { FailedIn result input.old input.new }
{
    match kind {
        DESCRIPTION => read_description(alloc, section, total, front, input),
        ENHANCED_PACKET => read_enhanced(section, total, front, input),
        SIMPLE_PACKET | OLD_PACKET => pass_simple(section, kind, total, front, input),
        _ => pass_other(section, kind, total, front, input),
    }
}

/// Reads the type and the total length of a block. Answers whether there is one.
fn read_block_head<R: Read>(front: &mut Front, input: &mut Counted<R>) -> Result<bool, PartStop>
    requires empty { front_of front.old ≡ [] }
    ensures head { ReadsBlockHead result (front_of front.new) (R.remaining (device_of input.old)) (R.remaining (device_of input.new)) }
    ensures failures { FailedIn result input.old input.new }
{
    match front.fill_to(BLOCK_HEAD as usize, input) {
        Ok(true) => Ok(true),
        Ok(false) if front.octets().is_empty() => Ok(false),
        Ok(false) => Err(PartStop::CUT_OFF),
        Err(_) => Err(PartStop::Read),
    }
}

/// Reads the next block of a section; None at the end. A section header begins another section.
pub(crate) fn read_block<'a, R: Read>(
    alloc: Global,
    section: &mut Section,
    front: &'a mut Front,
    input: &mut Counted<R>,
) -> Result<Option<Part<'a>>, PartStop>
    requires empty { front_of front.old ≡ [] }
    ensures part { ReadsPart (parts.Section (section_in section.old)) (parts.Section (section_in section.new)) result
        (R.remaining (device_of input.old)) (R.remaining (device_of input.new)) }
    ensures failures { FailedIn result input.old input.new }
{
    if !read_block_head(front, input)? {
        return Ok(None);
    }
    if ByteOrder::Big.u32_at(front.octets(), 0) == SECTION {
        let (order, total) = read_section_header(front, input)?;
        *section = Section::new(alloc, order);
        return Ok(Some(Part {
            size: u64::from(total),
            packet: None,
        }));
    }
    let (kind, total) = (
        section.order.u32_at(front.octets(), 0),
        section.order.u32_at(front.octets(), 4),
    );
    if !is_length_of(kind, total) {
        return Err(PartStop::Fault(CaptureFault::Length, 4));
    }
    match read_sized(alloc, section, kind, total, front, input) {
        Ok(packet) => Ok(Some(Part {
            size: u64::from(total),
            packet,
        })),
        Err(stop) => Err(stop),
    }
}
