//! An input that is followed: lines, or a capture.
ghost use Rattle.std.specs.Prelude.{◌≡◌};
ghost use Rattle.std.specs.Option.{ForSome};
ghost use Rattle.text_lines.specs.Counted.{device_of};
ghost use Rattle.datagram_source.specs.Input.{OutcomeFailed};
ghost use Rattle.tap_follow.specs.Rules.{follow_rules};
ghost use Rattle.tap_follow.specs.Input.{FollowsInput, head_text};
ghost use Rattle.tap_follow.specs.Ending.{unit_of};
ghost use Rattle.tap_follow.specs.Told.{TellsInput, unit_told};

use crate::ending::InputUnit;
use crate::fault::FollowFault;
use crate::following::Form;
use crate::summary::Summary;
use crate::task::Taking;
use datagram_source::{InputOutcome, answer_datagrams};
use std::alloc::Global;
use std::io::{Read, Write};
use tap_choice::WantedTaps;
use tap_sums::table_head;
use text_lines::Counted;

/// Follows messages between two taps, and writes each crossing when its record closes. `answer_datagrams` says which inputs there are, and
/// when goes out what they bring. A packet was met at the tap that its interface is.
///
/// What a packet or line brings goes out in one write. Whose messages are followed, and between which taps, is told in lines as soon as
/// that is known, before the first crossing; a slave that is known later, then. What can't be written there is lost.
///
/// The faults are those of reading and of a capture, 802 (the writer failed), 806 (a line that tells no datagram), 808 (memory was
/// refused) and 809 (a third tap). What was told before is written then.
pub fn follow<R: Read, W: Write, E: Write>(
    alloc: Global,
    wanted: &WantedTaps,
    form: Form,
    input: &mut Counted<R>,
    output: &mut Counted<W>,
    errors: &mut E,
) -> (InputOutcome<FollowFault>, Summary)
    ensures followed { FollowsInput form wanted.now R.remaining W.contents result.0
        input.old input.new output.old output.new }
    ensures summary { ForSome (R.remaining (device_of input.old)) (λ octets.
        TellsInput form wanted.now octets result.0 result.1) }
    ensures unit { unit_told result.1 ≡ unit_of result.0 }
    ensures failures { OutcomeFailed follow_rules result.0 input.old input.new output.old output.new }
{
    let task = Taking::new(alloc, wanted, form);
    let (outcome, taking, packets) = answer_datagrams(
        alloc,
        head(form),
        task,
        input,
        output,
        errors,
    );
    let unit = unit_of(&outcome);
    (outcome, Summary::new(taking, unit, packets))
}

/// What an input has, by what came of it.
fn unit_of(outcome: &InputOutcome<FollowFault>) -> InputUnit
    ensures { result ≡ unit_of outcome.now }
{
    match outcome {
        InputOutcome::Lines(_) => InputUnit::Line,
        InputOutcome::Capture(_) => InputUnit::Packet,
    }
}

/// What goes out before anything is read.
fn head(form: Form) -> &'static str
    ensures { result.now ≡ head_text form }
{
    match form {
        Form::Json | Form::Sums => "",
        Form::Table => table_head(),
    }
}
