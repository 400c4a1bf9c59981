ghost use Rattle.std.specs.Prelude.{◌≡◌, ◌≢◌, ◌<◌, ◌≤◌, ◌-◌, min, [], ◌∷◌, length, take, OnOk, IsOk};
ghost use Rattle.std.specs.Io.{ReadsAtMost};
ghost use Rattle.std.specs.Io.KnownBytes.{Consumes, IsAtEnd, Keeps, ReadConsumes};

use std::io;
use std::io::Read;

/// How many octets are asked for at once.
const CAPACITY: usize = 8192;

/// A reader that asks its source for many octets at once, for callers that read octet by octet. A
/// longer buffer is filled with as many octets as were read ahead.
#[derive(Drop)]
pub struct OctetReader<R> {
    source: R,
    octets: [u8; CAPACITY],
    next: usize,
    end: usize,
    ghost ordered: { next ≤ end },
    ghost within: { end ≤ 8192 },
}

impl<R> OctetReader<R> {
    ghost use Rattle.text_lines.specs.OctetReader.{ahead_of, source_of};

    /// A reader of the source's octets, of which none was read yet.
    pub fn new(source: R) -> OctetReader<R>
        ensures source { source_of result ≡ source }
        ensures ahead { ahead_of result ≡ [] }
    {
        OctetReader {
            source,
            octets: [0; CAPACITY],
            next: 0,
            end: 0,
        }
    }
}

impl<R: Read> OctetReader<R> {
    ghost use Rattle.text_lines.specs.OctetReader.{remaining_of, source_of};

    /// Asks the source for more, where nothing is left.
    fn fill(&mut self) -> io::Result<()>
        requires { self.old.next ≡ self.old.end }
        ensures bytes { Keeps (remaining_of R.remaining self.old) (remaining_of R.remaining self.new) }
        ensures end { OnOk result (self.new.next ≡ self.new.end → IsAtEnd (R.remaining (source_of self.new))) }
    {
        self.next = 0;
        self.end = 0;
        self.end = self.source.read(&mut self.octets)?;
        Ok(())
    }

    /// The next octet of those that were read ahead.
    fn next_octet(&mut self) -> u8
        requires { self.old.next < self.old.end }
        ensures bytes { Consumes (remaining_of R.remaining self.old) (remaining_of R.remaining self.new)
            (result ∷ []) }
        ensures source { source_of self.new ≡ source_of self.old }
    {
        let octet = self.octets[self.next];
        self.next += 1;
        octet
    }

    /// Fills the buffer with octets that were read ahead, as far as it has room and there are any. Answers how many.
    fn next_octets(&mut self, buf: &mut [u8]) -> usize
        ensures count { result ≡ min (length buf.old) (self.old.end - self.old.next) }
        ensures bytes { Consumes (remaining_of R.remaining self.old) (remaining_of R.remaining self.new)
            (take result buf.new) }
        ensures source { source_of self.new ≡ source_of self.old }
    {
        let count = buf.len().min(self.end - self.next);
        buf[..count].copy_from_slice(&self.octets[self.next..self.next + count]);
        self.next += count;
        count
    }
}

impl<R: Read> Read for OctetReader<R> {
    ghost use Rattle.text_lines.specs.OctetReader.{ahead_of, remaining_of, source_of};

    ghost remaining = { remaining_of R.remaining };

    /// Gives as many of the next octets as the buffer has room for and were read ahead. The source is asked, once, only
    /// where none was, and so an error comes only then.
    fn read(&mut self, buf: &mut [u8]) -> io::Result<usize>
        ensures bound { ReadsAtMost result buf.new }
        ensures bytes { ReadConsumes (remaining_of R.remaining self.old) (remaining_of R.remaining self.new)
            result buf.new }
        ensures ahead { ahead_of self.old ≢ [] → source_of self.new ≡ source_of self.old }
        ensures given { ahead_of self.old ≢ [] → IsOk result }
    {
        if self.next == self.end {
            if buf.is_empty() {
                return Ok(0);
            }
            self.fill()?;
            if self.next == self.end {
                return Ok(0);
            }
        }
        match buf {
            [room] => {
                *room = self.next_octet();
                Ok(1)
            }
            _ => Ok(self.next_octets(buf)),
        }
    }
}
