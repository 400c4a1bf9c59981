//! The octets of a part of a capture, as far as they were read.
ghost use Rattle.std.specs.Prelude.{◌≡◌, ◌≤◌, length, take};

use crate::octets::{ReadFailed, fill_behind};
use crate::packet::PACKET_LIMIT;
use crate::part::PartStop;
use std::alloc::{AllocError, Global};
use std::io::Read;
use text_lines::Counted;

/// The most octets that are kept of a part: those of a packet, and what stands in front of them.
pub(crate) const FRONT_LIMIT: usize = PACKET_LIMIT + 64;

/// Puts these octets in front of those that are there.
fn put_in_front(room: &mut [u8], octets: &[u8])
    requires { length octets.now ≤ length room.old }
    ensures put { take (length octets.now) room.new ≡ octets.now }
    ensures length { length room.new ≡ length room.old }
{
    room[..octets.len()].copy_from_slice(octets);
}

/// The first octets of a part of a capture, and the name of the interface of a packet.
#[derive(Drop)]
pub(crate) struct Front {
    room: Vec<u8>,
    size: usize,
    name: Vec<u8>,
    ghost fits: { size ≤ 65600 },
    ghost wide: { length room.items ≡ 65600 },
}

impl Front {
    ghost use Rattle.std.specs.Prelude.{[], IfOk, MatchResult, OnOk};
    ghost use Rattle.text_lines.specs.Counted.{device_of, HasFailed, HasNotFailed};
    ghost use Rattle.capture_file.specs.Inner.Front.{front_of, name_of};
    ghost use Rattle.capture_file.specs.Inner.Octets.{FillsTo};
    ghost use Rattle.capture_file.specs.Inner.Reading.{Wants, FailedIn};

    /// These octets were read before.
    pub(crate) fn behind(alloc: Global, start: &[u8]) -> Result<Front, AllocError>
        requires { length start.now ≤ 65600 }
        ensures { IfOk result (λ front. front_of front ≡ start.now) }
    {
        let mut room = vec![in alloc; 0; FRONT_LIMIT]?;
        put_in_front(&mut room, start);
        Ok(Front {
            room,
            size: start.len(),
            name: Vec::new(alloc),
        })
    }

    /// The octets that were read.
    pub(crate) fn octets(&self) -> &[u8]
        ensures { result.now ≡ front_of self.now }
    {
        &self.room[..self.size]
    }

    /// The name that was kept.
    pub(crate) fn name(&self) -> &[u8]
        ensures { result.now ≡ name_of self.now }
    {
        &self.name
    }

    /// Keeps the name of an interface.
    pub(crate) fn keep_name(&mut self, name: &[u8]) -> Result<(), AllocError>
        ensures front { front_of self.new ≡ front_of self.old }
        ensures name { OnOk result (name_of self.new ≡ name.now) }
    {
        self.name.clear();
        self.name.extend_from_slice(name)
    }

    /// Begins with the next part.
    pub(crate) fn clear(&mut self)
        ensures { front_of self.new ≡ [] }
    {
        self.size = 0;
    }

    /// Reads until there are so many octets, and not one more. Answers whether so many are there.
    pub(crate) fn fill_to<R: Read>(
        &mut self,
        size: usize,
        input: &mut Counted<R>,
    ) -> Result<bool, ReadFailed>
        requires within { size ≤ 65600 }
        ensures filled { FillsTo size result (front_of self.old) (front_of self.new)
            (R.remaining (device_of input.old)) (R.remaining (device_of input.new)) }
        ensures failures { MatchResult result
            (λ _. HasNotFailed input.old input.new)
            (λ _. HasFailed input.old input.new) }
    {
        let (count, filled) = fill_behind(&mut self.room, self.size, size, input);
        self.size = count;
        filled
    }

    /// Reads until there are so many octets. An input that ends before cuts the part off.
    pub(crate) fn want<R: Read>(
        &mut self,
        size: usize,
        input: &mut Counted<R>,
    ) -> Result<(), PartStop>
        requires within { size ≤ 65600 }
        requires more { length (front_of self.old) ≤ size }
        ensures wanted { Wants size result (front_of self.old) (front_of self.new)
            (R.remaining (device_of input.old)) (R.remaining (device_of input.new)) }
        ensures failures { FailedIn result input.old input.new }
    {
        match self.fill_to(size, input) {
            Ok(true) => Ok(()),
            Ok(false) => Err(PartStop::CUT_OFF),
            Err(ReadFailed) => Err(PartStop::Read),
        }
    }
}
