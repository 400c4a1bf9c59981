//! The subcommand that the arguments name, and what comes of those that name none.
ghost use Rattle.std.specs.Prelude.{◌≡◌, map, MatchResult, string_bytes};
ghost use Rattle.command_line.specs.Arguments.{Names};
ghost use Rattle.command_line.specs.Named.{EndsUnnamed};

use crate::arguments::{Invocation, parse};
use crate::commands::{Subcommand, subcommands};
use fault_report::report;
use std::alloc::Global;
use std::io::Write;
use text_lines::{Counted, LineFault, Stopped};

/// Arguments that are no command.
const MISTAKE: u8 = 2;

/// The subcommand that the arguments name, of which the first is the program's own name. Where they name none, this ends
/// the program and answers its exit status. Status 0: help was asked for, which goes to `output`. Status 2: the arguments
/// are no command, and the reason goes to `errors`. Status 3: memory was refused (808), or the help can't be written (802),
/// each told as a fault at line 0. What can't be written to `errors` is lost.
pub fn named_subcommand<W: Write, E: Write>(
    alloc: Global,
    words: &[String],
    output: &mut Counted<W>,
    errors: &mut E,
) -> Result<Subcommand, u8>
    ensures named { MatchResult result
        (λ s. Names (map string_bytes words.now) s × (output.new ≡ output.old))
        (λ status. EndsUnnamed W.contents (map string_bytes words.now) status output.old output.new) }
{
    match parse(alloc, words) {
        Ok(Invocation::Run(subcommand)) => Ok(subcommand),
        Ok(Invocation::Help(text)) => Err(match output.write_all(text.as_bytes()) {
            Ok(()) => 0,
            Err(_) => report(errors, before_lines(LineFault::Write)),
        }),
        Ok(Invocation::Mistake(text)) => {
            let _ = errors.write_all(text.as_bytes());
            tell_file(words, text.as_str(), errors);
            Err(MISTAKE)
        }
        Err(_) => Err(report(errors, before_lines(LineFault::Memory))),
    }
}

/// A fault before any line is read.
fn before_lines(what: LineFault) -> Stopped<LineFault> {
    Stopped { line: 0, what }
}

/// The argument that is one too many and may be a file's name, by the mistake that clap tells.
fn file_in(mistake: &str) -> Option<&str> {
    let (_, behind) = mistake.split_once("unexpected argument '")?;
    let (word, _) = behind.split_once("' found")?;
    if word.is_empty() || word.starts_with('-') {
        return None;
    }
    Some(word)
}

/// Tells, where a subcommand has an argument that may be a file's name, how it reads that. What can't be written is lost.
fn tell_file<E: Write>(words: &[String], mistake: &str, errors: &mut E) {
    let Some(subcommand) = words.get(1) else {
        return;
    };
    let Some(file) = file_in(mistake) else {
        return;
    };
    if !subcommands()
        .iter()
        .any(|row| subcommand.as_str() == row.name)
    {
        return;
    }
    let _ = write!(
        errors,
        "\nptpx: {subcommand} reads its standard input: ptpx {subcommand}"
    );
    for word in &words[2..] {
        let _ = match word.as_str() {
            "--" => Ok(()),
            word if word == file => write!(errors, " < {word}"),
            word => write!(errors, " {word}"),
        };
    }
    let _ = writeln!(errors, "");
}
