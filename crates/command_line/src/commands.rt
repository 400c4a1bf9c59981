//! The subcommands of `ptpx`, in the order of the help: a further one is a file with its row, a line of the table, a
//! variant, and an arm of `chosen`; and the same in `specs/Commands.antt`.
ghost use Rattle.std.specs.Prelude.{◌≡◌, map, MatchResult, None};
ghost use Rattle.clap.specs.Simple.{subcommand_rows_of};
ghost use Rattle.command_line.specs.Commands.{chosen_of, subcommands};
ghost use Rattle.command_line.specs.Program.{row_of};

mod audit;
mod check;
mod explain;
mod extract;
mod follow;
mod measure;
mod replay;
mod show;

use crate::commands::audit::audit_options;
use crate::commands::explain::explain_options;
use crate::commands::extract::extract_options;
use crate::commands::follow::follow_options;
use crate::commands::measure::measure_options;
use crate::options::WrongValue;
use crate::table::SubcommandRow;
use clap::ArgMatches;
use command_options::{
    AuditOptions, ExplainOptions, ExtractOptions, FollowOptions, MeasureOptions,
};

static SUBCOMMANDS: [SubcommandRow; 8] = [
    show::ROW,
    replay::ROW,
    check::ROW,
    extract::ROW,
    measure::ROW,
    audit::ROW,
    follow::ROW,
    explain::ROW,
];

/// A subcommand of `ptpx`.
#[derive(Clone, Copy, Debug, PartialEq, Eq)]
pub enum Subcommand {
    /// Print the datagrams that standard input gives in hexadecimal.
    Show,
    /// Print what comes of the schedule that standard input gives.
    Replay,
    /// Print the verdict on the transcript that standard input gives.
    Check,
    /// Print what the capture that standard input gives has of PTP.
    Extract(ExtractOptions),
    /// Print what the datagrams that standard input gives, recorded at a slave, say of its clock.
    Measure(MeasureOptions),
    /// Judge the results that standard input gives, by the readings that it gives.
    Audit(AuditOptions),
    /// Print what happened to messages between two taps, which standard input gives.
    Follow(FollowOptions),
    /// Print what is wrong with the transcript or the schedule that standard input gives.
    Explain(ExplainOptions),
}

/// Which text the help of a subcommand has below its usage. A row names it, and doesn't have it: the table is proved word by word.
#[derive(Clone, Copy, Debug, PartialEq, Eq)]
pub enum Help {
    /// That of `show`.
    Show,
    /// That of `replay`.
    Replay,
    /// That of `check`.
    Check,
    /// That of `extract`.
    Extract,
    /// That of `measure`.
    Measure,
    /// That of `audit`.
    Audit,
    /// That of `follow`.
    Follow,
    /// That of `explain`.
    Explain,
}

impl Help {
    /// The text.
    pub(crate) fn text(self) -> &'static str {
        match self {
            Help::Show => show::HELP,
            Help::Replay => replay::HELP,
            Help::Check => check::HELP,
            Help::Extract => extract::HELP,
            Help::Measure => measure::HELP,
            Help::Audit => audit::HELP,
            Help::Follow => follow::HELP,
            Help::Explain => explain::HELP,
        }
    }
}

/// The subcommands of `ptpx`, each with its options, as clap is given them.
pub fn subcommands() -> &'static [SubcommandRow]
    ensures table { map row_of result.now ≡ subcommands }
{
    &SUBCOMMANDS
}

/// The subcommand that was met, or the value that an option of it doesn't take. `clap` takes no words in which it meets none of the
/// table.
pub(crate) fn chosen<'a>(matches: &ArgMatches<'a>) -> Result<Option<Subcommand>, WrongValue<'a>>
    ensures { let wanted = chosen_of (subcommand_rows_of matches.now) in
        MatchResult result (λ found. found ≡ wanted) (λ _. wanted ≡ None) }
{
    let subcommand = match matches.subcommand() {
        Some(("show", _)) => Subcommand::Show,
        Some(("replay", _)) => Subcommand::Replay,
        Some(("check", _)) => Subcommand::Check,
        Some(("extract", options)) => Subcommand::Extract(extract_options(options)?),
        Some(("measure", options)) => match measure_options(options) {
            Ok(options) => Subcommand::Measure(options),
            Err(wrong) => return Err(wrong),
        },
        Some(("audit", options)) => match audit_options(options) {
            Ok(options) => Subcommand::Audit(options),
            Err(wrong) => return Err(wrong),
        },
        Some(("follow", options)) => match follow_options(options) {
            Ok(options) => Subcommand::Follow(options),
            Err(wrong) => return Err(wrong),
        },
        Some(("explain", options)) => Subcommand::Explain(explain_options(options)),
        _ => return Ok(None),
    };
    Ok(Some(subcommand))
}
