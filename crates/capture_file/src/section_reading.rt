//! The blocks of a section of pcapng, from a reader.
ghost use Rattle.std.specs.Prelude.{◌≡◌, ◌≤◌, ◌+◌, ◌-◌, length};
ghost use Rattle.std.specs.Io.KnownBytes.{prepend_known};
ghost use Rattle.text_lines.specs.Counted.{device_of};
ghost use Rattle.capture_file.specs.Pcapng.{BeginsSection};
ghost use Rattle.capture_file.specs.Inner.Front.{front_of};
ghost use Rattle.capture_file.specs.Inner.Reading.{Closes, ReadsSection, FailedIn};

use crate::block::{SECTION, is_length_of, is_section_version, order_of_magic};
use crate::fault::CaptureFault;
use crate::front::Front;
use crate::octets::{fill_behind, pass_rest};
use crate::order::ByteOrder;
use crate::part::PartStop;
use std::io::Read;
use text_lines::Counted;

/// The octets of a total length.
const LENGTH: u32 = 4;

/// The octets of a section header that are looked at.
const SECTION_HEAD: u32 = 16;

/// Reads the total length at the end of a block, which is that at its front.
fn read_last<R: Read>(order: ByteOrder, total: u32, input: &mut Counted<R>) -> Result<(), PartStop>
    requires { 4 ≤ total }
    ensures closed { Closes order total (total - 4) result (R.remaining (device_of input.old)) (R.remaining (device_of input.new)) }
    ensures failures { FailedIn result input.old input.new }
{
    let mut last = [0; 4];
    let (_, filled) = fill_behind(&mut last, 0, 4, input);
    match filled {
        Ok(true) if order.u32_at(&last, 0) == total => Ok(()),
        Ok(true) => Err(PartStop::Fault(CaptureFault::Length, u64::from(total - LENGTH))),
        Ok(false) => Err(PartStop::CUT_OFF),
        Err(_) => Err(PartStop::Read),
    }
}

/// Passes over what is left of a block, of which so many octets were read, and reads its total length again.
pub(crate) fn close<R: Read>(
    order: ByteOrder,
    total: u32,
    seen: u32,
    input: &mut Counted<R>,
) -> Result<(), PartStop>
    requires { seen + 4 ≤ total }
    ensures closed { Closes order total seen result (R.remaining (device_of input.old)) (R.remaining (device_of input.new)) }
    ensures failures { FailedIn result input.old input.new }
{
    pass_rest(total - seen - LENGTH, input)?;
    read_last(order, total, input)
}

/// Reads a section header, of which the type is there, and at most what tells its order. Answers the order, and how many octets it has.
pub(crate) fn read_section_header<R: Read>(
    front: &mut Front,
    input: &mut Counted<R>,
) -> Result<(ByteOrder, u32), PartStop>
    requires least { 4 ≤ length (front_of front.old) }
    requires most { length (front_of front.old) ≤ 12 }
    requires kind { BeginsSection (front_of front.old) }
    ensures header { ReadsSection result (prepend_known (front_of front.old) (R.remaining (device_of input.old)))
        (R.remaining (device_of input.new)) }
    ensures failures { FailedIn result input.old input.new }
{
    front.want(12, input)?;
    let Some(order) = order_of_magic(front.octets()) else {
        return Err(PartStop::Fault(CaptureFault::ByteOrderMagic, 8));
    };
    let total = order.u32_at(front.octets(), 4);
    if !is_length_of(SECTION, total) {
        return Err(PartStop::Fault(CaptureFault::Length, 4));
    }
    front.want(SECTION_HEAD as usize, input)?;
    if !is_section_version(order, front.octets()) {
        return Err(PartStop::Fault(CaptureFault::Version, 12));
    }
    close(order, total, SECTION_HEAD, input)?;
    Ok((order, total))
}
