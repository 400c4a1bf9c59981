//! The writing of octets and of a text.
ghost use Rattle.std.specs.Prelude.{MatchResult};
ghost use Rattle.std.specs.Io.KnownBytes.{Appends};
ghost use Rattle.text_lines.specs.Counted.{device_of, HasFailed, HasNotFailed};

use crate::counted::Counted;
use std::io::Write;

/// The writer failed.
#[derive(Clone, Copy, Debug, PartialEq, Eq)]
pub struct WriteFailed;

/// Writes octets, in one write. Where the writer fails, the fault is what is made of that.
pub fn write_octets<W: Write, F: From<WriteFailed>>(
    octets: &[u8],
    output: &mut Counted<W>,
) -> Result<(), F>
    ensures written { MatchResult result
        (λ _. Appends (W.contents (device_of output.old)) (W.contents (device_of output.new)) octets.now)
        (λ fault. (failed : WriteFailed) × F.from_gives failed fault) }
    ensures failures { MatchResult result
        (λ _. HasNotFailed output.old output.new)
        (λ _. HasFailed output.old output.new) }
{
    match output.write_all(octets) {
        Ok(()) => Ok(()),
        Err(_) => Err(F::from(WriteFailed)),
    }
}

/// Writes a text, in one write. Where the writer fails, the fault is what is made of that.
pub fn write_text<W: Write, F: From<WriteFailed>>(
    text: &str,
    output: &mut Counted<W>,
) -> Result<(), F>
    ensures written { MatchResult result
        (λ _. Appends (W.contents (device_of output.old)) (W.contents (device_of output.new)) text.now)
        (λ fault. (failed : WriteFailed) × F.from_gives failed fault) }
    ensures failures { MatchResult result
        (λ _. HasNotFailed output.old output.new)
        (λ _. HasFailed output.old output.new) }
{
    write_octets(text.as_bytes(), output)
}
