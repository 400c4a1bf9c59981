//! Blocks of pcapng (draft-ietf-opsawg-pcapng): a type, the total length, a body, and the total length again.
ghost use Rattle.std.specs.Prelude.{◌≡◌, ◌≤◌, length};
ghost use Rattle.capture_file.specs.Order.{number16, number32};
ghost use Rattle.capture_file.specs.Pcapng.{least_of, padded, order_of_magic, is_section_version, is_length_of};

use crate::order::ByteOrder;

/// The types of blocks that are looked at.
pub(crate) const SECTION: u32 = 0x0a0d_0d0a;

pub(crate) const DESCRIPTION: u32 = 1;

pub(crate) const OLD_PACKET: u32 = 2;

pub(crate) const SIMPLE_PACKET: u32 = 3;

pub(crate) const ENHANCED_PACKET: u32 = 6;

/// The byte-order magic of a section.
const BYTE_ORDER_MAGIC: u32 = 0x1a2b_3c4d;

/// The least total length of a block of this type.
pub(crate) fn least_of(kind: u32) -> u32
    ensures { result ≡ least_of kind }
{
    match kind {
        SECTION => 28,
        DESCRIPTION => 20,
        SIMPLE_PACKET => 16,
        ENHANCED_PACKET => 32,
        _ => 12,
    }
}

/// Whether a total length is one of a block of this type.
pub(crate) fn is_length_of(kind: u32, total: u32) -> bool
    ensures { result ≡ is_length_of kind total }
{
    least_of(kind) <= total && total % 4 == 0
}

/// A length with the padding behind it, up to a multiple of four.
pub(crate) fn padded(size: u32) -> u64
    ensures { result ≡ padded size }
{
    (u64::from(size) + 3) / 4 * 4
}

/// The order in which the byte-order magic of a section reads as that.
pub(crate) fn order_of_magic(octets: &[u8]) -> Option<ByteOrder>
    requires { 12 ≤ length octets.now }
    ensures { result ≡ order_of_magic octets.now }
{
    if ByteOrder::Big.u32_at(octets, 8) == BYTE_ORDER_MAGIC {
        return Some(ByteOrder::Big);
    }
    if ByteOrder::Little.u32_at(octets, 8) == BYTE_ORDER_MAGIC {
        return Some(ByteOrder::Little);
    }
    None
}

/// Whether the version of a section is 1.0 or 1.2.
pub(crate) fn is_section_version(order: ByteOrder, octets: &[u8]) -> bool
    requires { 16 ≤ length octets.now }
    ensures { result ≡ is_section_version order octets.now }
{
    let minor = order.u16_at(octets, 14);
    order.u16_at(octets, 12) == 1 && (minor == 0 || minor == 2)
}
