ghost use Rattle.std.specs.Prelude.{◌≡◌, ◌≢◌, All, ℕ, List, false, IsTrue, ◌+◌, ◌≤◌, ◌<◌, if◌then◌else◌, [], ◌∷◌, IfOk};
ghost use Rattle.std.specs.Prelude.{MatchResult, MatchOption, length, take};
ghost use Rattle.std.specs.Option.{ForSome};
ghost use Rattle.std.specs.Io.KnownBytes.{Consumes, IsAtEnd, Keeps, prepend_known};
ghost use Rattle.text_lines.specs.Counted.{device_of, greatest_count, HasFailed, HasNotFailed};
ghost use Rattle.text_lines.specs.Lines.{line_limit, room_of, without_cr, GivesWithin};
ghost use Rattle.text_lines.specs.Inner.Reading.{ReadsLine};
ghost use Rattle.text_lines.specs.Lines.{IsFromReading};
ghost use Rattle.text_lines.specs.Inner.Reading.{StopsReading};

use crate::counted::{Counted, Stop};
use crate::fault::{ReadingFault, Stopped};
use std::io::Read;

/// The most octets of a line, without its LF.
pub const LINE_LIMIT: usize = 4096;

/// The most lines of an input, but of a recording, which has no such limit.
pub const LINES_LIMIT: u64 = 1_048_576;

/// The line that was read last, in the one buffer that all lines share, and how many were read, of
/// at most how many.
#[derive(Drop)]
pub(crate) struct Lines {
    octets: [u8; LINE_LIMIT],
    /// How many of the octets are the line.
    size: usize,
    /// How many of the octets begin the next line; they were read before.
    begun: usize,
    count: u64,
    limit: u64,
    ended: bool,
    ghost fits: { size ≤ 4096 },
    ghost within: { count ≤ limit },
    ghost counted: { limit < greatest_count },
    ghost start_fits: { begun ≤ 4096 },
    ghost unended: { All (λ x. x ≢ 10) (take begun octets) },
    ghost allowed: { 0 < begun → count < limit },
    ghost before_end: { 0 < begun → ended ≡ false },
}

/// The next octet, or None at the end of the input.
fn read_octet<R: Read>(input: &mut Counted<R>) -> Result<Option<u8>, ReadingFault>
    ensures octet { let before = R.remaining (device_of input.old) in
        let after = R.remaining (device_of input.new) in
        MatchResult result
        (λ next. MatchOption next
        (Consumes before after [] × IsAtEnd after)
        (λ octet. Consumes before after (octet ∷ [])))
        (λ _. Keeps before after) }
    ensures given { GivesWithin R.remaining 1 input.old input.new }
    ensures failures { MatchResult result
        (λ _. HasNotFailed input.old input.new)
        (λ kind. (kind ≡ ReadingFault.Read) × HasFailed input.old input.new) }
{
    let mut octet = [0];
    match input.read(&mut octet) {
        Ok(0) => Ok(None),
        Ok(_) => Ok(Some(octet[0])),
        Err(_) => Err(ReadingFault::Read),
    }
}

impl Lines {
    /// No line was read yet, of at most so many, but this start of the first.
    pub(crate) fn new(start: &[u8], limit: u64) -> Lines
        requires counted { limit < greatest_count }
        requires within { length start.now ≤ line_limit }
        requires unended { All (λ x. x ≢ 10) start.now }
        requires allowed { 0 < length start.now → 0 < limit }
        ensures start { take result.begun result.octets ≡ start.now }
        ensures count { result.count ≡ 0 }
        ensures limit { result.limit ≡ limit }
        ensures ended { result.ended ≡ false }
    {
        let begun = start.len();
        let mut octets = [0; LINE_LIMIT];
        octets[..begun].copy_from_slice(start);
        Lines {
            octets,
            size: 0,
            begun,
            count: 0,
            limit,
            ended: false,
        }
    }

    /// How many lines were read.
    pub(crate) fn count(&self) -> u64
        ensures { result ≡ self.now.count }
    {
        self.count
    }

    /// The line that was read last, without a CR at its end.
    pub(crate) fn line(&self) -> &[u8]
        ensures line { result.now ≡ without_cr (take self.now.size self.now.octets) }
        ensures within { length result.now ≤ line_limit }
    {
        match &self.octets[..self.size] {
            [line @ .., b'\r'] => line,
            line => line,
        }
    }

    /// Reads the next line, behind what was read of it before, and answers whether there was one. A
    /// fault stands at that line, which is partly read then; no more than one octet after the limits
    /// is read. Once the input ended in place of an LF, the reader isn't asked again; after the LF of
    /// the last line that is allowed, each call asks it for the end.
    pub(crate) fn read_next<R: Read>(
        &mut self,
        input: &mut Counted<R>,
    ) -> Result<bool, Stopped<ReadingFault>>
        requires { IsTrue self.old.ended → IsAtEnd (R.remaining (device_of input.old)) }
        ensures next { ForSome (prepend_known (take self.old.begun self.old.octets) (R.remaining (device_of input.old))) (λ octets.
            let left = R.remaining (device_of input.new) in
            MatchResult result
            (λ found. ReadsLine found self.old.limit (self.old.count + 1) (take self.new.size self.new.octets) self.new.ended octets left)
            (λ stop. StopsReading stop.what self.old.limit (self.old.count + 1) octets left)) }
        ensures count { MatchResult result
            (λ found. self.new.count ≡ (if found then self.old.count + 1 else self.old.count))
            (λ stop. stop.line ≡ self.old.count + 1) }
        ensures begun { self.new.begun ≡ 0 }
        ensures limit { self.new.limit ≡ self.old.limit }
        ensures ended { IsTrue self.new.ended → IsAtEnd (R.remaining (device_of input.new)) }
        ensures before_end { MatchResult result
            (λ found. IsTrue found → self.old.ended ≡ false)
            (λ _. self.old.ended ≡ false) }
        ensures given { GivesWithin R.remaining (room_of self.old.limit (self.old.count + 1) + 1) input.old input.new }
        ensures failures { MatchResult result
            (λ _. HasNotFailed input.old input.new)
            (λ stop. IsFromReading stop.what input.old input.new) }
    {
        if self.ended {
            return Ok(false);
        }
        let line = self.count + 1;
        if self.count == self.limit {
            return expect_end(input).map_err(|what| Stopped { line, what });
        }
        let found = self
            .read_line(input)
            .map_err(|what| Stopped { line, what })?;
        if found {
            self.count = line;
        }
        Ok(found)
    }

    /// Reads octets up to an LF or the end of the input, and answers whether there was a line.
    fn read_line<R: Read>(&mut self, input: &mut Counted<R>) -> Result<bool, ReadingFault>
        requires within { self.old.count < self.old.limit }
        requires before_end { self.old.ended ≡ false }
        ensures next { ForSome (prepend_known (take self.old.begun self.old.octets) (R.remaining (device_of input.old))) (λ octets.
            let left = R.remaining (device_of input.new) in
            MatchResult result
            (λ found. ReadsLine found self.old.limit (self.old.count + 1) (take self.new.size self.new.octets) self.new.ended octets left)
            (λ kind. StopsReading kind self.old.limit (self.old.count + 1) octets left)) }
        ensures count { self.new.count ≡ self.old.count }
        ensures begun { self.new.begun ≡ 0 }
        ensures limit { self.new.limit ≡ self.old.limit }
        ensures ended { IsTrue self.new.ended → IsAtEnd (R.remaining (device_of input.new)) }
        ensures given { GivesWithin R.remaining (line_limit + 1) input.old input.new }
        ensures failures { MatchResult result
            (λ _. HasNotFailed input.old input.new)
            (λ kind. IsFromReading kind input.old input.new) }
    {
        let begun = self.begun;
        self.begun = 0;
        let (size, stop) = input.read_octets(&mut self.octets, begun);
        self.size = size;
        match stop {
            Stop::LineFeed => Ok(true),
            Stop::End => {
                self.ended = true;
                Ok(self.size != 0)
            }
            Stop::TooLong => Err(ReadingFault::LineTooLong),
            Stop::Failed => Err(ReadingFault::Read),
        }
    }
}

/// Reads after the last line that is allowed.
fn expect_end<R: Read>(input: &mut Counted<R>) -> Result<bool, ReadingFault>
    ensures next { ForSome (R.remaining (device_of input.old)) (λ octets. (limit : ℕ) (line : List ℕ) →
        let left = R.remaining (device_of input.new) in
        MatchResult result
        (λ found. ReadsLine found limit (limit + 1) line false octets left)
        (λ kind. StopsReading kind limit (limit + 1) octets left)) }
    ensures none { IfOk result (λ found. found ≡ false) }
    ensures given { GivesWithin R.remaining 1 input.old input.new }
    ensures failures { MatchResult result
        (λ _. HasNotFailed input.old input.new)
        (λ kind. IsFromReading kind input.old input.new) }
{
    match read_octet(input)? {
        Some(_) => Err(ReadingFault::TooManyLines),
        None => Ok(false),
    }
}
