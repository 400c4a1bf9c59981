ghost use Rattle.std.specs.Prelude.{◌≡◌, ◌≤◌, ◌+◌, length, slice_range};
ghost use Rattle.std.specs.Int.{w64, cast_signed};
ghost use Rattle.capture_file.specs.Order.{number_of, number16, number32};

/// The order of the octets of a number.
#[derive(Clone, Copy, Debug, PartialEq, Eq)]
pub enum ByteOrder {
    /// The most significant octet first.
    Big,
    /// The least significant octet first.
    Little,
}

fn array_at<const N: usize>(octets: &[u8], at: usize) -> [u8; N]
    requires { at + N ≤ length octets.now }
    ensures { result ≡ slice_range octets.now at (at + N) }
{
    let mut array = [0; N];
    array.copy_from_slice(&octets[at..at + N]);
    array
}

impl ByteOrder {
    /// The number of 16 bits at this place.
    pub(crate) fn u16_at(self, octets: &[u8], at: usize) -> u16
        requires { at + 2 ≤ length octets.now }
        ensures { result ≡ number16 self octets.now at }
    {
        let array = array_at(octets, at);
        match self {
            ByteOrder::Big => u16::from_be_bytes(array),
            ByteOrder::Little => u16::from_le_bytes(array),
        }
    }

    /// The number of 32 bits at this place.
    pub(crate) fn u32_at(self, octets: &[u8], at: usize) -> u32
        requires { at + 4 ≤ length octets.now }
        ensures { result ≡ number32 self octets.now at }
    {
        let array = array_at(octets, at);
        match self {
            ByteOrder::Big => u32::from_be_bytes(array),
            ByteOrder::Little => u32::from_le_bytes(array),
        }
    }

    /// The signed number of 64 bits that these octets are.
    pub(crate) fn i64_in(self, octets: &[u8]) -> i64
        requires { length octets.now ≡ 8 }
        ensures { result ≡ cast_signed w64 (number_of self w64 octets.now) }
    {
        let array = array_at(octets, 0);
        let number = match self {
            ByteOrder::Big => u64::from_be_bytes(array),
            ByteOrder::Little => u64::from_le_bytes(array),
        };
        number.cast_signed()
    }
}
