//! What the arguments of `ptpx` ask for, as `clap` reads them.
ghost use Rattle.std.specs.Prelude.{◌≡◌, IfOk, false, map, string_bytes};
ghost use Rattle.clap.specs.declared.builder.command.Command.TheViews.{out-Command as fields_of};
ghost use Rattle.clap.specs.Simple.{app_of, shape_of, subcommand_rows_of};
ghost use Rattle.clap.specs.Values.{kind_of};
ghost use Rattle.clap.specs.Walk.{rule_of};
ghost use Rattle.clap.specs.declared.error.kind.ErrorKind.TheVariants.{ValueValidation};
ghost use Rattle.command_line.specs.Arguments.{Asks};
ghost use Rattle.command_line.specs.Commands.{chosen_of};
ghost use Rattle.command_line.specs.Inner.Shown.{Chooses, ShowsKind};
ghost use Rattle.command_line.specs.Program.{bare_program, program_of, row_of, rule_for, shape_for};

use crate::commands::{Subcommand, chosen, subcommands};
use crate::help;
use crate::options::WrongValue;
use crate::table::{OptionRow, SubcommandRow};
use clap::error::ErrorKind;
use clap::{Arg, ArgAction, ArgMatches, Command, Error};
use std::alloc::{AllocError, Global};

/// What the arguments ask for.
#[derive(Debug, Drop)]
pub enum Invocation {
    /// Run the subcommand.
    Run(Subcommand),
    /// Write this help to standard output, with exit status 0.
    Help(String),
    /// The arguments are no command: write this text to standard error, with exit status 2.
    Mistake(String),
}

/// An option of the table, as `clap` has it.
fn option<'a>(alloc: Global, row: &OptionRow) -> Arg<'a>
    ensures rule { rule_of result ≡ rule_for row.now }
    ensures local { result.global ≡ false }
{
    let option = Arg::new(alloc, row.name).long(row.name).help(row.about);
    match row.value {
        Some(value) => option.value_name(value),
        None => option.action(ArgAction::SetTrue),
    }
}

/// A subcommand of the table with its options, as `clap` has it.
fn with_options<'a>(alloc: Global, row: &SubcommandRow) -> Result<Command<'a>, AllocError>
    ensures shape { IfOk result (λ c. shape_of c ≡ shape_for (row_of row.now)) }
    ensures local { IfOk result (λ c. (fields_of c).has_globals ≡ false) }
{
    let mut command = Command::new(alloc, row.name)
        .about(row.about)
        .after_help(row.help.text());
    for next in row.options {
        command = command.arg(option(alloc, next))?;
    }
    Ok(command)
}

/// `ptpx` without its subcommands, as `clap` has it.
fn bare_program<'a>(alloc: Global) -> Result<Command<'a>, AllocError>
    ensures app { IfOk result (λ c. app_of c ≡ bare_program) }
{
    let program = Command::new(alloc, "ptpx")
        .bin_name("ptpx")?
        .about("The delay request-response exchange of the Precision Time Protocol (IEEE 1588)")
        .after_help(help::PROGRAM)
        .subcommand_required(true);
    Ok(program)
}

/// `ptpx` with the subcommands of a table, as `clap` has it.
fn program<'a>(alloc: Global, rows: &[SubcommandRow]) -> Result<Command<'a>, AllocError>
    ensures app { IfOk result (λ c. app_of c ≡ program_of (map row_of rows.now)) }
{
    let mut program = bare_program(alloc)?;
    for row in rows {
        program = program.subcommand(with_options(alloc, row)?)?;
    }
    Ok(program)
}

/// Reads the arguments, of which the first is the program's own name. Memory fails by `AllocError`.
pub fn parse(alloc: Global, words: &[String]) -> Result<Invocation, AllocError>
    ensures asked { IfOk result (Asks (map string_bytes words.now)) }
{
    match program(alloc, subcommands())?.try_get_matches_from(words) {
        Ok(matches) => read_matches(alloc, &matches),
        Err(error) => refusal(alloc, error),
    }
}

/// What `clap`'s matches ask for.
fn read_matches(alloc: Global, matches: &ArgMatches<'_>) -> Result<Invocation, AllocError>
    ensures { IfOk result (Chooses (chosen_of (subcommand_rows_of matches.now))) }
{
    match chosen(matches) {
        Ok(Some(subcommand)) => Ok(Invocation::Run(subcommand)),
        Ok(None) => Ok(Invocation::Mistake(String::new(alloc))),
        Err(wrong) => refusal(alloc, mistake(alloc, matches, wrong)?),
    }
}

/// The mistake of a value, with the usage of the subcommand that was met.
fn mistake(
    alloc: Global,
    matches: &ArgMatches<'_>,
    wrong: WrongValue<'_>,
) -> Result<Error, AllocError>
    ensures kind { IfOk result (λ e. kind_of e ≡ ValueValidation) }
{
    let WrongValue {
        option,
        value,
        name,
        wanted,
    } = wrong;
    let subcommand_name = matches.subcommand_name().unwrap_or("");
    let message = if name.is_empty() {
        format!(in alloc; "'--{option}' can't be used here: wanted is {wanted}")?
    } else {
        format!(in alloc; "invalid value '{value}' for '--{option} <{name}>': wanted is {wanted}")?
    };
    let program_name = format!(in alloc; "ptpx {subcommand_name}")?;
    let command = match subcommands().iter().find(|row| row.name == subcommand_name) {
        Some(row) => with_options(alloc, row)?,
        None => bare_program(alloc)?,
    };
    command
        .bin_name(program_name.as_str())?
        .error(ErrorKind::ValueValidation, &message)
}

/// The text of an error of `clap`.
fn refusal(alloc: Global, error: Error) -> Result<Invocation, AllocError>
    ensures kind { IfOk result (ShowsKind (kind_of error)) }
{
    match error.kind() {
        ErrorKind::OutOfMemory => Err(AllocError),
        ErrorKind::DisplayHelp => Ok(Invocation::Help(error.to_string(alloc)?)),
        _ => Ok(Invocation::Mistake(error.to_string(alloc)?)),
    }
}
