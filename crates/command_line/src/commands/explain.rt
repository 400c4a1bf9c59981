//! `ptpx explain`: its options and its help.
ghost use Rattle.std.specs.Prelude.{◌≡◌};
ghost use Rattle.clap.specs.Matches.{found_of};
ghost use Rattle.clap.specs.Walk.{rows_of};
ghost use Rattle.command_line.specs.Commands.{explain_options_of};

use crate::commands::Help;
use crate::options::is_used;
use crate::table::{OptionRow, SubcommandRow};
use clap::ArgMatches;
use command_options::ExplainOptions;

/// The options of `explain`.
const OPTIONS: [OptionRow; 2] = [
    OptionRow {
        name: "first",
        value: None,
        about: "Tell only the first report that is refused, in place of each",
    },
    OptionRow {
        name: "json",
        value: None,
        about: "Write JSON, a line a report, in place of text",
    },
];

/// The row of `explain`.
pub(crate) const ROW: SubcommandRow = SubcommandRow {
    name: "explain",
    about: "Print what is wrong with what standard input gives, where, and by how much",
    help: Help::Explain,
    options: &OPTIONS,
};

/// The options that were met.
pub(crate) fn explain_options(matches: &ArgMatches<'_>) -> ExplainOptions
    ensures { result ≡ explain_options_of (rows_of (found_of matches.now)) }
{
    ExplainOptions {
        first: is_used(matches, "first"),
        json: is_used(matches, "json"),
    }
}

/// What the help of `explain` says below its usage.
pub(crate) const HELP: &str =
    r#"Standard input is a transcript, in lines of JSON as 'ptpx replay' writes them, or a schedule, as it reads
them, whoever wrote these; the lines tell which. Standard output says, as text for a person:
  of a line that isn't one        what is wrong with it, and what is wanted; of the first 20 of them, and
                                  how many more there are. No report is judged after the first
  of input of another kind        which it is, and the command that makes of it what is wanted
  of a schedule                   which event its network refuses, and why
  of each report that is refused  each reason that stands against it, the journeys of its Sync and its
                                  Delay_Req, and by how much its results differ from those of the readings;
                                  where the messages told the slave something else, the results by these,
                                  and which message does. A sound one has no line but with --json
  at the end                      how many reports there are, how many are sound, how many each reason
                                  stands against, how many have the results by the messages and how many
                                  those by the readings, what is wrong with octets, how many completions
                                  have no report, how many outcomes aren't those of a slave here for the
                                  messages that came, and the verdict of 'ptpx check'
What is said of a line goes out before the next is read. The line
  event 13, line 17: the report of S is refused, 706: the two results aren't those of the readings
is of the report with n 13, at line 17 of the input; lines count from 1. With --first, of all reports only
the first that is refused is told.

With --json standard output has a line for each report, before the next line is read, or with --first for
that report alone, and nothing else:
  {"brackets":{"a":"2000","b":"0"},"by_messages":{"offset2":"131072000","path2":"131072000"},
  "by_readings":{"offset2":"131072000","path2":"131072000"},"error":{"by_messages":{"offset":"0.5",
  "path":"0"},"by_readings":{"offset":"0.5","path":"0"}},"event":13,"line":17,"node":"S","octets":null,
  "offset2":"131137536","otherwise":null,"path2":"131072000","reasons":[706],"t1":[1,0,0],
  "t2":[1,4000,0],"t3":[2,1000,0],"t4":[2,4500,16384],"tags":[5,7,8,13],"time":[2,1000,0]}
in one line. reasons are all that stand against the report, none where it is sound: 701 alone, or else 704
alone, or else each that applies of 702, 703, 705, 707, 706 and 708, in this order. by_readings is what
the results are by the readings, by_messages what they are by what the messages told the slave and its own
readings; both are null where 701 or 704 stands, as are error, brackets and all times, by_messages also
where one of these messages can't be read. error is how many nanoseconds the results are too much against
each of the two. a is t2 - t1 less the time in clocks, b is t4 - t3 less it, in nanoseconds, and t1 to t4
are what the clocks read. octets is "told" where 708 stands and a field differs that a slave or a master
reads (behind a two-step transparent clock no finding), and otherwise is then the event that made the first
such message; "other" where only fields differ that nobody here reads. offset2 is twice offsetFromMaster
and path2 twice meanPathDelay, in units of 2^-16 ns. time is what the slave read at the later of the Sync's
arrival and the Delay_Req's departure.

Reasons and faults are those that 'ptpx check --help' lists, and of a schedule those of 'ptpx replay --help'.
The first fault goes as 'ptpx: fault 806 at line 3' to standard error.

Exit statuses:
  0  each report of the transcript is sound, or each event of the schedule can happen; or nobody reads any
     more what is told, as with 'head', and then it is no verdict
  1  a report is refused
  2  the arguments aren't a command
  3  a fault

Limits: a line has 4096 octets before its LF at the most, and an input has 1048576 lines. Of a line
that ends in CR this one CR isn't read. The last line may lack its LF."#;
