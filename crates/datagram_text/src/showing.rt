//! Lines of hexadecimal digits, each shown as a datagram.
ghost use Rattle.std.specs.Prelude.{◌≡◌, ◌≤◌, length, MatchResult, ◌⊎◌, ⊤};
ghost use Rattle.std.specs.String.{string_bytes};
ghost use Rattle.datagram_text.specs.Show.{IsAnswer, ShowsAnswer, StopsShowing, show_rules};
ghost use Rattle.text_lines.specs.Counted.{HasNotFailed};
ghost use Rattle.text_lines.specs.Lines.{input_limit, line_limit, lines_limit, GivesWithin};
ghost use Rattle.text_lines.specs.Task.{FailedAt};

use crate::shown::push_datagram;
use std::alloc::Global;
use std::io::{Read, Write};
use text_lines::{
    Cause, Counted, LINE_LIMIT, LINES_LIMIT, LineFault, LineTask, Stopped, answer_lines, write_text,
};

/// The most octets of a datagram, which is written in two digits each.
const DATAGRAM_LIMIT: usize = LINE_LIMIT / 2;

/// Shows each line as a datagram, by room and a text that all lines share.
#[derive(Drop)]
struct Showing {
    /// The octets of a line stand at its front.
    room: [u8; DATAGRAM_LIMIT],
    text: String,
}

impl LineTask for Showing {
    type Answer = u64;

    type Fault = LineFault;

    ghost State = { ⊤ };

    ghost rules = { show_rules };

    ghost is_at = { λ _ _. ⊤ };

    fn lines_limit() -> u64 {
        LINES_LIMIT
    }

    /// Answers one line, in one write.
    fn take<W: Write>(&mut self, digits: &[u8], output: &mut Counted<W>) -> Result<(), LineFault> {
        make_answer(&mut self.room, &mut self.text, digits)?;
        write_text(self.text.as_str(), output)
    }

    /// How many lines there were.
    fn finish<W: Write>(&mut self, lines: u64, _output: &mut Counted<W>) -> Result<u64, LineFault> {
        Ok(lines)
    }
}

/// Puts the answer to a line in place of what `text` holds, by way of its octets in the room for them.
fn make_answer(
    room: &mut [u8; DATAGRAM_LIMIT],
    text: &mut String,
    digits: &[u8],
) -> Result<(), LineFault>
    requires { length digits.now ≤ line_limit }
    ensures { MatchResult result
        (λ _. IsAnswer digits.now (string_bytes text.new))
        (λ fault. ((fault ≡ LineFault.Field) ⊎ (fault ≡ LineFault.Memory)) × StopsShowing digits.now fault) }
{
    let datagram = &mut room[..digits.len() / 2];
    if hex::decode_to_slice(digits, datagram).is_err() {
        return Err(LineFault::Field);
    }
    text.clear();
    push_datagram(text, datagram)?;
    text.push('\n')?;
    Ok(())
}

/// Shows one datagram for each line of the input, in hexadecimal digits of either case: for each a
/// line with the fields of the message that it begins with, or with the number of the refusal.
/// Answers how many lines there were. A line is answered before the next one is read.
///
/// An empty line stands for a datagram of no octets. The faults are 801 to 804, 806 for what isn't hexadecimal,
/// and 808; the lines before a fault were answered then.
pub fn show_lines<R: Read, W: Write>(
    alloc: Global,
    input: &mut Counted<R>,
    output: &mut Counted<W>,
) -> Result<u64, Stopped<Cause<LineFault>>>
    ensures shown { ShowsAnswer R.remaining W.contents result input.old input.new output.old output.new }
    // Of any reader only so much is read, whatever the writer is.
    ensures bounded { GivesWithin R.remaining (input_limit lines_limit) input.old input.new }
    ensures failures { MatchResult result
        (λ _. HasNotFailed input.old input.new × HasNotFailed output.old output.new)
        (λ stop. FailedAt show_rules stop.what input.old input.new output.old output.new) }
{
    let mut task = Showing {
        room: [0; DATAGRAM_LIMIT],
        text: String::new(alloc),
    };
    answer_lines(&mut task, input, output)
}
