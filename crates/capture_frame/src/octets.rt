ghost use Rattle.std.specs.Prelude.{◌≡◌, ◌+◌, ◌<◌, ◌≤◌, length, take, slice_index, MatchOption};
ghost use Rattle.capture_frame.specs.Octets.{two_octets};
ghost use Rattle.capture_frame.specs.Inner.Walk.{IsCut};

/// The octet at this place, and 0 behind the end.
pub(crate) fn octet_at(octets: &[u8], at: usize) -> u8
    ensures { result ≡ slice_index octets.now at }
{
    octets.get(at).copied().unwrap_or(0)
}

/// The big-endian number in the two octets at this place.
pub(crate) fn u16_at(octets: &[u8], at: usize) -> u16
    requires { at + 2 ≤ length octets.now }
    ensures { result ≡ two_octets octets.now at }
{
    u16::from_be_bytes([octets[at], octets[at + 1]])
}

/// The first octets, as many as there are up to this number.
pub(crate) fn front(octets: &[u8], most: usize) -> &[u8]
    ensures { result.now ≡ take most octets.now }
{
    octets.get(..most).unwrap_or(octets)
}

/// The first `count` octets, and the others.
pub(crate) fn cut(octets: &[u8], count: usize) -> Option<(&[u8], &[u8])>
    ensures { MatchOption result
        (length octets.now < count)
        (λ parts. IsCut octets.now count parts.0.now parts.1.now) }
{
    octets.split_at_checked(count)
}
