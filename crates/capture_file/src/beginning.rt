//! The first octets of an input, by which one tells a capture from other input.
ghost use Rattle.std.specs.Prelude.{◌≤◌};

use crate::octets::{ReadFailed, fill_behind};
use crate::reader::{begins_magic, magic_in};
use std::io::Read;
use text_lines::Counted;

/// The octets of a magic.
const MAGIC: usize = 4;

/// The first octets of an input: one with which no magic begins, or four, or all where there are fewer. Whoever read them goes on with
/// `answer_packets_behind`, or otherwise where no capture begins with them.
#[derive(Clone, Copy, Debug)]
pub struct Beginning {
    room: [u8; 4],
    size: usize,
    ghost within: { size ≤ 4 },
}

impl Beginning {
    ghost use Rattle.std.specs.Prelude.{◌≡◌, ◌<◌, ◌↔◌, List, ℕ, length, MatchResult, IsTrue, IsFalse};
    ghost use Rattle.std.specs.Io.KnownBytes.{Consumes};
    ghost use Rattle.text_lines.specs.Counted.{device_of, HasFailed, HasNotFailed};
    ghost use Rattle.text_lines.specs.Lines.{GivesWithin};
    ghost use Rattle.capture_file.specs.Beginning.{first_octets, AreEnough};
    ghost use Rattle.capture_file.specs.Wrong.{HasMagic, HasNoMagic};

    /// Reads one octet, and where a magic begins with it three more, and not one more; fewer only where the input ends. Where the reader
    /// fails, those that it gave before are gone.
    pub fn read<R: Read>(input: &mut Counted<R>) -> Result<Beginning, ReadFailed>
        ensures read { let before = R.remaining (device_of input.old) in
            let after = R.remaining (device_of input.new) in
            MatchResult result
            (λ beginning. Consumes before after (first_octets beginning) × AreEnough (first_octets beginning) after)
            (λ _. (seen : List ℕ) × Consumes before after seen × (length seen < 4)) }
        ensures given { GivesWithin R.remaining 4 input.old input.new }
        ensures failures { MatchResult result
            (λ _. HasNotFailed input.old input.new)
            (λ _. HasFailed input.old input.new) }
    {
        let mut room = [0; MAGIC];
        let (size, filled) = fill_behind(&mut room, 0, 1, input);
        if !filled? || !begins_magic(room[0]) {
            return Ok(Beginning { room, size });
        }
        let (size, filled) = fill_behind(&mut room, 1, MAGIC, input);
        filled?;
        Ok(Beginning { room, size })
    }

    /// The octets that were read, in order.
    pub fn octets(&self) -> &[u8]
        ensures octets { result.now ≡ first_octets self.now }
        ensures most { length result.now ≤ 4 }
    {
        &self.room[..self.size]
    }

    /// Whether a capture begins with them: with the magic of a pcap, or as a section header of a pcapng.
    pub fn is_capture(&self) -> bool
        ensures magic { IsTrue result ↔ HasMagic (first_octets self.now) }
        ensures none { IsFalse result ↔ HasNoMagic (first_octets self.now) }
    {
        let octets = self.octets();
        octets.len() == MAGIC && magic_in(octets).is_some()
    }
}
