//! `ptpx audit`: its options and its help.
ghost use Rattle.std.specs.Prelude.{◌≡◌};
ghost use Rattle.std.specs.Result.{result_ok};
ghost use Rattle.clap.specs.Matches.{found_of};
ghost use Rattle.clap.specs.Walk.{rows_of};
ghost use Rattle.command_line.specs.Commands.{audit_options_of};

use crate::commands::Help;
use crate::options::{
    WrongValue, domain_option, interface_option, is_used, limit_option, port_option,
    readings_option,
};
use crate::table::{OptionRow, SubcommandRow};
use clap::ArgMatches;
use command_options::AuditOptions;

/// The options of `audit`.
const OPTIONS: [OptionRow; 8] = [
    OptionRow {
        name: "slave",
        value: Some("PORT"),
        about: "The slave's port; else the source of the first Delay_Req of the domain",
    },
    OptionRow {
        name: "master",
        value: Some("PORT"),
        about: "The master's port; else the source of the first Sync of the domain",
    },
    OptionRow {
        name: "domain",
        value: Some("NUMBER"),
        about: "domainNumber; else that of the first Sync, of the master where that is given",
    },
    OptionRow {
        name: "interface",
        value: Some("NAME"),
        about: "The interface of a capture; else that of the first stream in which all three are known",
    },
    OptionRow {
        name: "readings",
        value: Some("WHOSE"),
        about: "own or capture; else the slave's own if any come before the first report",
    },
    OptionRow {
        name: "tolerance",
        value: Some("NS"),
        about: "By how many nanoseconds a number may be off; else by 1",
    },
    OptionRow {
        name: "csv",
        value: None,
        about: "Write CSV, in place of JSON",
    },
    OptionRow {
        name: "offset-only",
        value: None,
        about: "Judge offsets alone, of results that have no path delay",
    },
];

/// The row of `audit`.
pub(crate) const ROW: SubcommandRow = SubcommandRow {
    name: "audit",
    about: "Judge the results that a slave reported, by its own readings or by what was captured",
    help: Help::Audit,
    options: &OPTIONS,
};

/// The options that were met.
pub(crate) fn audit_options<'a>(matches: &ArgMatches<'a>) -> Result<AuditOptions, WrongValue<'a>>
    ensures { result_ok result ≡ audit_options_of (rows_of (found_of matches.now)) }
{
    let readings = match readings_option(matches, "readings") {
        Ok(readings) => readings,
        Err(wrong) => return Err(wrong),
    };
    let tolerance = match limit_option(matches, "tolerance") {
        Ok(tolerance) => tolerance,
        Err(wrong) => return Err(wrong),
    };
    Ok(AuditOptions {
        slave: port_option(matches, "slave")?,
        master: port_option(matches, "master")?,
        domain: domain_option(matches, "domain")?,
        interface: interface_option(matches, "interface")?,
        readings,
        tolerance,
        csv: is_used(matches, "csv"),
        offset_only: is_used(matches, "offset-only"),
    })
}

/// What the help of `audit` says below its usage.
pub(crate) const HELP: &str =
    r#"Standard input is what 'ptpx measure' reads, a capture or lines of a time and a datagram, and among lines, or in
front of either, results that the slave reported: objects of JSON, one a line, as
  {"offset":"-12.5","path":"1000"}
with offsetFromMaster and meanPathDelay in nanoseconds, as numbers or as texts, with up to 16 decimals. A
result is of the newest Sync in front of it, or of the newest Delay_Resp, if that came behind the Sync and fits
better, unless it names its Sync: by sequence, its sequenceId, or by line, the line or packet behind which the
result belongs. Such results stand in front of their Syncs, in their order, and lines of results count, too.

The delay and the offset that the slave has to have are computed from its own readings, which it tells in
Signaling messages (ptp4l, slave_event_monitor), or from what was captured, as 'ptpx measure' does. Standard
output has a line for each result, as soon as it is decided, which is
  {"beyond":"0","line":5,"offset":"351","offset_error":"0.5","path":"850","path_error":"-0.5","path_is":"latest",
  "sequence":17,"sum_error":"0","tags":[5,null,4,4],"time":"1795328934.357259633","verdict":"within"}
in one line; times are nanoseconds with all their decimals. line, sequence, tags and time are of the report of
'ptpx measure' that it is compared with; time is when its Sync arrived. offset_error is the offset less the
exact one, path_error the path less meanPathDelay by the newest exchange, sum_error both together less what the
Sync tells, t2 - t1 - correction, and beyond by how much path lies outside of the least and the greatest delay
at the last 16 responses and the newest. path_is says which of these path is: latest, response 1 for the newest,
median or mean of so many, between or outside. verdict is the first of these that holds:
  exact     both errors are 0
  within    both are at most --tolerance, either way
  filtered  sum_error and beyond are: the path is a filter's, and the offset is by this
  older     offset_error is, and path is the delay at a response: the offset is by the newest delay
  wrong     none of these; standard error says why
  unjudged  no Sync behind an exchange is there of which it could be; or it would be wrong, and a message is
            missing beside its own, or not each of the last 16 delays is known; standard error says which
A wrong result is held until the next Sync and the next exchange, which tell whether one is missing. Where no
Sync comes behind its own, an offset alone accuses nobody, and where no exchange comes, nothing does. Set a
filter of the slave to 16 delays at the most: one over more of them may be called wrong.
With --offset-only results need no path: exact, within and filtered are by the offset alone.

Standard error says why a result is wrong or unjudged, and at the end how many there are of each verdict, the
worst, how many Syncs have no result, and by whose readings it was judged. What was captured is stamped by the
clock of the capture: then a wrong result may be the capture's fault, and standard error says 'beware'.

PORT, NUMBER, NAME and WHOSE are those of 'ptpx measure', and so are the faults. 806 is also a result that is
none: no JSON, an offset or a path that is no number of nanoseconds, or a line or a sequence that isn't a number.

Exit statuses:
  0  no result is wrong
  1  one is wrong
  2  the arguments aren't a command
  3  a fault

Limits are those of 'ptpx measure'."#;
