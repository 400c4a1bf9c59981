//! Octets that are read into the room behind those that are there, and octets that nobody looks at.
ghost use Rattle.std.specs.Prelude.{◌≡◌, ◌≤◌, ◌<◌, ◌-◌, length, take, MatchResult, OnErr};
ghost use Rattle.text_lines.specs.Counted.{device_of, HasFailed, HasNotFailed};
ghost use Rattle.text_lines.specs.Lines.{GivesWithin};
ghost use Rattle.capture_file.specs.Inner.Octets.{FillsTo, PassesOver};
ghost use Rattle.capture_file.specs.Inner.Reading.{PassesRest, FailedIn};

use crate::part::PartStop;
use std::io::Read;
use text_lines::Counted;

/// How many octets are passed over at once.
const PASSED_AT_ONCE: usize = 4096;

/// The reader failed.
#[derive(Clone, Copy, Debug, PartialEq, Eq)]
pub struct ReadFailed;

/// Reads behind the first `from` octets of the room, until `to` are there, and not one more. Answers how many there are,
/// and whether these are so many.
pub(crate) fn fill_behind<R: Read>(
    room: &mut [u8],
    from: usize,
    to: usize,
    input: &mut Counted<R>,
) -> (usize, Result<bool, ReadFailed>)
    requires from { from ≤ length room.old }
    requires to { to ≤ length room.old }
    ensures filled { FillsTo to result.1 (take from room.old) (take result.0 room.new)
        (R.remaining (device_of input.old)) (R.remaining (device_of input.new)) }
    ensures within { result.0 ≤ length room.new }
    ensures short { OnErr result.1 (result.0 < to) }
    ensures given { from ≤ to → GivesWithin R.remaining (to - from) input.old input.new }
    ensures room { length room.new ≡ length room.old }
    ensures failures { MatchResult result.1
        (λ _. HasNotFailed input.old input.new)
        (λ _. HasFailed input.old input.new) }
{
    let mut size = from;
    while size < to {
        match input.read(&mut room[size..to]) {
            Ok(0) => return (size, Ok(false)),
            Ok(count) => size += count,
            Err(_) => return (size, Err(ReadFailed)),
        }
    }
    (size, Ok(true))
}

/// Passes over so many octets. Answers whether so many were there.
fn pass_over<R: Read>(count: u64, input: &mut Counted<R>) -> Result<bool, ReadFailed>
    ensures passed { PassesOver count result (R.remaining (device_of input.old)) (R.remaining (device_of input.new)) }
    ensures failures { MatchResult result
        (λ _. HasNotFailed input.old input.new)
        (λ _. HasFailed input.old input.new) }
{
    let mut room = [0; PASSED_AT_ONCE];
    let mut left = count;
    while left > 0 {
        let most = left.min(PASSED_AT_ONCE as u64) as usize;
        match input.read(&mut room[..most]) {
            Ok(0) => return Ok(false),
            Ok(passed) => left -= passed as u64,
            Err(_) => return Err(ReadFailed),
        }
    }
    Ok(true)
}

/// Passes over so many octets. An input that ends before cuts the part off.
pub(crate) fn pass_rest<R: Read>(count: u32, input: &mut Counted<R>) -> Result<(), PartStop>
    ensures passed { PassesRest count result (R.remaining (device_of input.old)) (R.remaining (device_of input.new)) }
    ensures failures { FailedIn result input.old input.new }
{
    if count == 0 {
        return Ok(());
    }
    match pass_over(u64::from(count), input) {
        Ok(true) => Ok(()),
        Ok(false) => Err(PartStop::CUT_OFF),
        Err(_) => Err(PartStop::Read),
    }
}
