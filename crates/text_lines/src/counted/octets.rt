//! The octets of a line, which are counted once the line was read.
ghost use Rattle.std.specs.Prelude.{◌≡◌, ◌≤◌, ◌-◌, length, take, None, MatchOption, false};
ghost use Rattle.std.specs.Option.{option_map_or};
ghost use Rattle.std.specs.Io.KnownBytes.{Consumes, prepend_known};
ghost use Rattle.text_lines.specs.Counted.{device_of, given_of, HasFailedIf, HasGiven};
ghost use Rattle.text_lines.specs.Lines.{line_limit};
ghost use Rattle.text_lines.specs.Inner.Reading.{StopsAt, StopsPartAt, IsUnended, count_read, is_failure, octets_of_part};

use crate::counted::Counted;
use crate::lines::LINE_LIMIT;
use std::io::Read;

/// Where the reading of a line's octets stops.
#[derive(Clone, Copy)]
pub(crate) enum Stop {
    /// Behind an LF.
    LineFeed,
    /// At the end of the input.
    End,
    /// Behind one octet more than a line may have.
    TooLong,
    /// Where the reader failed.
    Failed,
}

/// How many octets a part of a line has at the most.
const LINE_PART: usize = 64;

/// Octets of a line, gathered before they go into its room together. A store into the room might, for all a compiler
/// knows, change how far the reader is, which would then be loaded again for each octet.
#[derive(Drop)]
struct LinePart {
    octets: [u8; LINE_PART],
    size: usize,
    /// What stopped it, where it isn't full.
    stop: Option<Stop>,
}

impl<R: Read> Counted<R> {
    /// Reads the octets of a line into the room, one after the other, behind so many at its front that were read
    /// before. Answers how many there are in all, and what stopped it.
    pub(crate) fn read_octets(&mut self, room: &mut [u8; LINE_LIMIT], begun: usize) -> (usize, Stop)
        requires within { begun ≤ line_limit }
        requires unended { IsUnended (take begun room.old) }
        ensures stop { StopsAt result.1 (prepend_known (take begun room.old) (R.remaining (device_of self.old))) (R.remaining (device_of self.new)) (take result.0 room.new) }
        ensures unended { IsUnended (take result.0 room.new) }
        ensures count { length (take result.0 room.new) ≡ result.0 }
        ensures within { result.0 ≤ line_limit }
        ensures begun { begun ≤ result.0 }
        ensures given { HasGiven (count_read result.1 (take result.0 room.new) - begun) self.old self.new }
        ensures failures { HasFailedIf (is_failure result.1) self.old self.new }
    {
        let (count, stop) = self.read_uncounted(room, begun);
        let beyond = match stop {
            Stop::LineFeed | Stop::TooLong => 1,
            Stop::End | Stop::Failed => 0,
        };
        self.count_given(count - begun + beyond);
        (count, stop)
    }

    /// The same, without counting what was read.
    fn read_uncounted(&mut self, room: &mut [u8; LINE_LIMIT], begun: usize) -> (usize, Stop)
        requires within { begun ≤ line_limit }
        requires unended { IsUnended (take begun room.old) }
        ensures stop { StopsAt result.1 (prepend_known (take begun room.old) (R.remaining (device_of self.old))) (R.remaining (device_of self.new)) (take result.0 room.new) }
        ensures unended { IsUnended (take result.0 room.new) }
        ensures count { length (take result.0 room.new) ≡ result.0 }
        ensures within { result.0 ≤ line_limit }
        ensures begun { begun ≤ result.0 }
        ensures given { given_of self.new ≡ given_of self.old }
        ensures failures { HasFailedIf (is_failure result.1) self.old self.new }
    {
        let mut count = begun;
        loop {
            let part = self.read_line_part(LINE_LIMIT - count);
            let end = count + part.size;
            room[count..end].copy_from_slice(&part.octets[..part.size]);
            count = end;
            if let Some(stop) = part.stop {
                return (count, stop);
            }
        }
    }

    /// Reads the next part of a line, which may have so many octets more, one octet after the other.
    fn read_line_part(&mut self, left: usize) -> LinePart
        ensures stop { MatchOption result.stop
            (Consumes (R.remaining (device_of self.old)) (R.remaining (device_of self.new)) (octets_of_part result))
            (λ stop. StopsPartAt left stop (R.remaining (device_of self.old)) (R.remaining (device_of self.new)) (octets_of_part result)) }
        ensures unended { IsUnended (octets_of_part result) }
        ensures fits { result.size ≤ 64 }
        ensures full { result.stop ≡ None → result.size ≡ 64 }
        ensures within { result.size ≤ left }
        ensures given { given_of self.new ≡ given_of self.old }
        ensures failures { HasFailedIf (option_map_or is_failure result.stop false) self.old self.new }
    {
        let mut octet = [0];
        let mut octets = [0; LINE_PART];
        let mut size = 0;
        while size < LINE_PART {
            let stop = match self.ask(&mut octet) {
                Ok(0) => Stop::End,
                Ok(_) if octet[0] == b'\n' => Stop::LineFeed,
                Ok(_) if size == left => Stop::TooLong,
                Ok(_) => {
                    octets[size] = octet[0];
                    size += 1;
                    continue;
                }
                Err(_) => Stop::Failed,
            };
            return LinePart {
                octets,
                size,
                stop: Some(stop),
            };
        }
        LinePart {
            octets,
            size,
            stop: None,
        }
    }
}
