//! The parts of a pcap, from a reader.
ghost use Rattle.std.specs.Prelude.{◌≡◌, ◌≤◌, ◌+◌, [], Some, length, drop};
ghost use Rattle.text_lines.specs.Counted.{device_of};
ghost use Rattle.capture_file.specs.Order.{number32};
ghost use Rattle.capture_file.specs.Packet.{packet_at};
ghost use Rattle.capture_file.specs.Parts.{Pcap};
ghost use Rattle.capture_file.specs.Pcap.{unit_of, pcap_time, pcap_interface};
ghost use Rattle.std.specs.Io.KnownBytes.{prepend_known};
ghost use Rattle.capture_file.specs.Inner.Front.{front_of};
ghost use Rattle.capture_file.specs.Inner.Reading.{pcap_of, ReadsHead, ReadsPacketHead, ReadsPart, FailedIn};
ghost use Rattle.capture_file.specs.Packet.{packet_of};

use crate::fault::CaptureFault;
use crate::front::Front;
use crate::octets::pass_rest;
use crate::order::ByteOrder;
use crate::packet::{Captured, Interface, PACKET_LIMIT, Packet};
use crate::part::{Part, PartStop};
use crate::pcap::{FractionUnit, PcapHead, is_pcap_version, pcap_time};
use std::io::Read;
use text_lines::Counted;

/// The octets of the head of a pcap.
pub(crate) const PCAP_HEAD: usize = 24;

/// The octets in front of those of a packet.
const PACKET_HEAD: usize = 16;

/// Reads the head of a pcap, of which the magic is there.
pub(crate) fn read_pcap_head<R: Read>(
    order: ByteOrder,
    unit: FractionUnit,
    front: &mut Front,
    input: &mut Counted<R>,
) -> Result<PcapHead, PartStop>
    requires size { length (front_of front.old) ≡ 4 }
    requires magic { unit_of (number32 order (front_of front.old) 0) ≡ Some unit }
    ensures head { ReadsHead result (prepend_known (front_of front.old) (R.remaining (device_of input.old)))
        (R.remaining (device_of input.new)) }
    ensures failures { FailedIn result input.old input.new }
{
    front.want(8, input)?;
    if !is_pcap_version(order, front.octets()) {
        return Err(PartStop::Fault(CaptureFault::Version, 4));
    }
    front.want(PCAP_HEAD, input)?;
    let link = (order.u32_at(front.octets(), 20) % 65_536) as u16;
    Ok(PcapHead { order, unit, link })
}

/// The packet of these octets, of which those that nobody looks at are left away.
fn packet_in(head: PcapHead, octets: &[u8]) -> Packet<'_>
    requires least { 16 ≤ length octets.now }
    requires most { length octets.now ≤ 16 + 65536 }
    ensures { packet_of result ≡ packet_at
        (pcap_time head.unit (number32 head.order octets.now 0) (number32 head.order octets.now 4))
        pcap_interface head.link (drop 16 octets.now) }
{
    let PcapHead { order, unit, link } = head;
    let Some(time) = pcap_time(unit, order.u32_at(octets, 0), order.u32_at(octets, 4)) else {
        return Packet::Timeless;
    };
    Packet::Captured(Captured {
        interface: Interface {
            place: 0,
            name: None,
        },
        time,
        link,
        octets: &octets[PACKET_HEAD..],
    })
}

/// Reads what stands in front of the octets of a packet. Answers whether there is one.
fn read_packet_head<R: Read>(front: &mut Front, input: &mut Counted<R>) -> Result<bool, PartStop>
    requires empty { front_of front.old ≡ [] }
    ensures head { ReadsPacketHead result (front_of front.new) (R.remaining (device_of input.old)) (R.remaining (device_of input.new)) }
    ensures failures { FailedIn result input.old input.new }
{
    match front.fill_to(PACKET_HEAD, input) {
        Ok(true) => Ok(true),
        Ok(false) if front.octets().is_empty() => Ok(false),
        Ok(false) => Err(PartStop::CUT_OFF),
        Err(_) => Err(PartStop::Read),
    }
}

/// Reads the next packet of a pcap; None at the end.
pub(crate) fn read_packet<'a, R: Read>(
    head: PcapHead,
    front: &'a mut Front,
    input: &mut Counted<R>,
) -> Result<Option<Part<'a>>, PartStop>
    requires empty { front_of front.old ≡ [] }
    ensures part { ReadsPart (Pcap (pcap_of head)) (Pcap (pcap_of head)) result
        (R.remaining (device_of input.old)) (R.remaining (device_of input.new)) }
    ensures failures { FailedIn result input.old input.new }
{
    if !read_packet_head(front, input)? {
        return Ok(None);
    }
    let captured = head.order.u32_at(front.octets(), 8);
    let kept = captured.min(PACKET_LIMIT as u32);
    front.want(PACKET_HEAD + kept as usize, input)?;
    pass_rest(captured - kept, input)?;
    Ok(Some(Part {
        size: PACKET_HEAD as u64 + u64::from(captured),
        packet: Some(packet_in(head, front.octets())),
    }))
}
