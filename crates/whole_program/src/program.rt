//! The whole program over its arguments.
ghost use Rattle.std.specs.Prelude.{◌≡◌, ◌≢◌, ◌⊎◌, map, string_bytes};
ghost use Rattle.whole_program.specs.Program.{EndsBefore, IsLimited, Runs};
ghost use Rattle.command_line.specs.Arguments.{AsksNothing, HasHelpFlag, Names, NamesNothing};
ghost use Rattle.command_line.specs.Named.{EndsUnread};
ghost use Rattle.text_lines.specs.Lines.{input_limit, lines_limit, GivesWithin};

use audit_command::run_audit;
use command_line::{Subcommand, named_subcommand};
use explain_command::run_explain;
use extract_command::run_extract;
use follow_command::run_follow;
use measure_command::run_measure;
use show_command::run_show;
use std::alloc::Global;
use std::io::{Read, Write};
use text_lines::Counted;
use transcript_command::{run_check, run_replay};

/// The whole program over its arguments, of which the first is its own name: runs the subcommand that
/// they name, and answers the exit status. Status 0: done or accepted, or help was asked for, which
/// goes to `output`. Status 1: `check` or `explain` refused the transcript. Status 2: the arguments are no command, or
/// don't name the two taps that `follow` met, and the reason goes to `errors`. Status 3: a fault, whose number and line go to `errors`; at line 0
/// stand want of memory before the subcommand ran, and a help text that can't be written. That nobody reads any
/// more what `explain` writes, as behind `head`, is no fault: it ends then with status 0. What can't
/// be written to `errors` is lost. Where that is a terminal, a line after the fault of `show`, `replay` or
/// `check` says what its number means, and which subcommand says more.
pub fn command<R: Read, W: Write, E: Write>(
    alloc: Global,
    words: &[String],
    input: &mut Counted<R>,
    output: &mut Counted<W>,
    errors: &mut E,
    is_terminal: bool,
) -> u8
    // Where they name a subcommand, it gives the status and what is read and written, unless memory was
    // refused before it.
    ensures runs { (s : Subcommand) → Names (map string_bytes words.now) s →
        Runs R.remaining W.contents s result input.old input.new output.old output.new
        ⊎ EndsBefore result input.old input.new output.old output.new }
    // Of any reader only so much is read, whatever the arguments and the writer are, unless these name a subcommand whose
    // input has no limit.
    ensures bounded { ((s : Subcommand) → Names (map string_bytes words.now) s → IsLimited s) →
        GivesWithin R.remaining (input_limit lines_limit) input.old input.new }
    // Other arguments read nothing. Which text help is, and what comes of arguments that begin with `help`, is clap's.
    ensures unread { NamesNothing (map string_bytes words.now) →
        (input.new ≡ input.old) × EndsUnread W.contents result output.old output.new }
    // A flag for help is no mistake.
    ensures help { HasHelpFlag (map string_bytes words.now) → (input.new ≡ input.old) × (result ≢ 2) }
    // Arguments that ask for nothing are no command.
    ensures mistake { AsksNothing (map string_bytes words.now) →
        ((result ≡ 2) ⊎ (result ≡ 3)) × (input.new ≡ input.old) × (output.new ≡ output.old) }
{
    match named_subcommand(alloc, words, output, errors) {
        Ok(subcommand) => run(alloc, subcommand, input, output, errors, is_terminal),
        Err(status) => status,
    }
}

/// Runs a subcommand, and answers its exit status.
fn run<R: Read, W: Write, E: Write>(
    alloc: Global,
    subcommand: Subcommand,
    input: &mut Counted<R>,
    output: &mut Counted<W>,
    errors: &mut E,
    is_terminal: bool,
) -> u8
    ensures runs { Runs R.remaining W.contents subcommand result input.old input.new output.old output.new }
    ensures bounded { IsLimited subcommand → GivesWithin R.remaining (input_limit lines_limit) input.old input.new }
{
    match subcommand {
        Subcommand::Show => run_show(alloc, is_terminal, input, output, errors),
        Subcommand::Replay => run_replay(alloc, is_terminal, input, output, errors),
        Subcommand::Check => run_check(alloc, is_terminal, input, output, errors),
        Subcommand::Extract(options) => run_extract(alloc, options, input, output, errors),
        Subcommand::Measure(options) => run_measure(alloc, options, input, output, errors),
        Subcommand::Audit(options) => run_audit(alloc, options, input, output, errors),
        Subcommand::Follow(options) => run_follow(alloc, options, input, output, errors),
        Subcommand::Explain(options) => run_explain(alloc, options, input, output, errors),
    }
}
