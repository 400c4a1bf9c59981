//! `show`, with its faults told by their kinds.
ghost use Rattle.whole_program.specs.Show.{ShowsAnswer};
ghost use Rattle.text_lines.specs.Lines.{input_limit, lines_limit, GivesWithin};
ghost use Rattle.transcript_text.specs.Fault.{FailedWith};

use datagram_text::show_lines;
use std::alloc::Global;
use std::io::{Read, Write};
use text_lines::Counted;
use transcript_text::Fault;

/// Shows one datagram for each line of the input, in hexadecimal digits of either case: for each a
/// line with the fields of the message that it begins with, or with the number of the refusal.
/// Answers how many lines there were. A line is answered before the next one is read.
///
/// An empty line stands for a datagram of no octets. The faults are 801 to 804, 806 for what isn't hexadecimal,
/// and 808; the lines before a fault were answered then.
pub fn show<R: Read, W: Write>(
    alloc: Global,
    input: &mut Counted<R>,
    output: &mut Counted<W>,
) -> Result<u64, Fault>
    ensures shown { ShowsAnswer R.remaining W.contents result input.old input.new output.old output.new }
    // Of any reader only so much is read, whatever the writer is.
    ensures bounded { GivesWithin R.remaining (input_limit lines_limit) input.old input.new }
    ensures failures { FailedWith result input.old input.new output.old output.new }
{
    Ok(show_lines(alloc, input, output)?)
}
