//! `ptpx follow`: its options and its help.
ghost use Rattle.std.specs.Prelude.{◌≡◌};
ghost use Rattle.std.specs.Result.{result_ok};
ghost use Rattle.clap.specs.Matches.{found_of};
ghost use Rattle.clap.specs.Walk.{rows_of};
ghost use Rattle.command_line.specs.Commands.{follow_options_of, sum_besides};

use crate::commands::Help;
use crate::options::{WrongValue, domain_option, is_used, limit_option, port_option, tap_option};
use crate::table::{OptionRow, SubcommandRow};
use clap::ArgMatches;
use command_options::FollowOptions;

/// The options of `follow`.
const OPTIONS: [OptionRow; 8] = [
    OptionRow {
        name: "from",
        value: Some("TAP"),
        about: "The tap that a Sync meets first; else the one at which the first Sync met at both was earlier",
    },
    OptionRow {
        name: "to",
        value: Some("TAP"),
        about: "The tap that a Delay_Req meets first; else the other one",
    },
    OptionRow {
        name: "slave",
        value: Some("PORT"),
        about: "The slave's port; else the source of the first Delay_Req of the domain at --to",
    },
    OptionRow {
        name: "master",
        value: Some("PORT"),
        about: "The master's port; else the source of the first Sync of the domain",
    },
    OptionRow {
        name: "domain",
        value: Some("NUMBER"),
        about: "domainNumber; else that of the first Sync, of the master where that is given",
    },
    OptionRow {
        name: "limit",
        value: Some("NS"),
        about: "Answer 1 where a rest is greater than so many nanoseconds, either way",
    },
    OptionRow {
        name: "csv",
        value: None,
        about: "Write CSV, in place of JSON",
    },
    OptionRow {
        name: "sum",
        value: None,
        about: "Write sums at the end, in place of crossings",
    },
];

/// The row of `follow`.
pub(crate) const ROW: SubcommandRow = SubcommandRow {
    name: "follow",
    about: "Print how long messages took between two taps of a capture, and how much of that was corrected",
    help: Help::Follow,
    options: &OPTIONS,
};

/// Whether sums are asked for, unless CSV is, too.
fn sum_besides<'a>(csv: bool, sum: bool) -> Result<bool, WrongValue<'a>>
    ensures { result_ok result ≡ sum_besides csv sum }
{
    if csv && sum {
        Err(WrongValue {
            option: "sum",
            value: "",
            name: "",
            wanted: "one of --sum and --csv",
        })
    } else {
        Ok(sum)
    }
}

/// The options that were met.
pub(crate) fn follow_options<'a>(matches: &ArgMatches<'a>) -> Result<FollowOptions, WrongValue<'a>>
    ensures { result_ok result ≡ follow_options_of (rows_of (found_of matches.now)) }
{
    let from = match tap_option(matches, "from", None) {
        Ok(from) => from,
        Err(wrong) => return Err(wrong),
    };
    let to = match tap_option(matches, "to", from) {
        Ok(to) => to,
        Err(wrong) => return Err(wrong),
    };
    let limit = match limit_option(matches, "limit") {
        Ok(limit) => limit,
        Err(wrong) => return Err(wrong),
    };
    Ok(FollowOptions {
        from,
        to,
        slave: port_option(matches, "slave")?,
        master: port_option(matches, "master")?,
        domain: domain_option(matches, "domain")?,
        limit,
        csv: is_used(matches, "csv"),
        sum: sum_besides(is_used(matches, "csv"), is_used(matches, "sum"))?,
    })
}

/// What the help of `follow` says below its usage.
pub(crate) const HELP: &str =
    r#"Standard input is what was met at two taps of a network: a capture at two interfaces or more, as
'dumpcap -i left -i right -w taps.pcapng' writes it, or lines, one datagram each; the first four octets tell
which. A line is the name of a tap, a blank, the time at which the tap met the datagram, a blank, and its
octets in hexadecimal digits of either case. The time is seconds, then nothing, or a point and 1 to 9 digits.
A name has 1 to 16 letters, digits, '_', '-' or '.'; an interface is the tap of its name where that is one,
else if0, if1, .. by its place in the section. Standard output has a line for each crossing, before the next
line or packet is read. It is
  {"corrected":"79403","from":"left","kind":"sync","lines":[3,6,4,7],"number":0,"rest":"-3635",
  "taken":"75768","time":"1795645064.377389335","to":"right"}
in one line, or with --csv, below the head time,kind,number,taken_ns,corrected_ns,rest_ns,
  1795645064.377389335,sync,0,75768,79403,-3635
With --sum three lines stand in their place at the end, or after a fault but 808 and 809: the count of Syncs,
the greatest, the least and the mean of each number, and step, the greatest change of rest from one to the
next; the same of Delay_Reqs; and asymmetry, the mean rest of Syncs less that of Delay_Reqs, and mean_rest,
half of their sum. Means are rounded to 2^-16 ns, half to even, those two from the exact means. null stands
where there is none.
A crossing is a Sync that went from the tap --from to the tap --to, or a Delay_Req that went from --to to
--from, as kind says, and number is its sequenceId. taken, corrected and rest are nanoseconds, exactly those
of the times and corrections that stand there: taken is the time at its second tap less that at its first;
corrected is by how much its correction grew, and that of its Follow_Up or Delay_Resp from --from to --to; a
Follow_Up at --to alone counts whole. rest is taken less corrected: cables, what a clock in between told
wrong, by how much the taps' own clocks differ, and the errors of their stamps. time is that at its first tap,
with nine decimals. lines are the lines or packets of the event message at its first and its second tap, and
of its Follow_Up or Delay_Resp at --from and at --to, null where there is none.
Lines count from 1, and so do packets, those without PTP, too.

Unless they are asked for, the two taps are those that have PTP; of one alone that is asked for, the other
one is the other of two. --from is then that at which the first Sync of the master that was met at both was
met earlier, of each tap the last 256 Syncs looked at; the domain is that of the first Sync, of the master
that is asked for if one is; the master sent the first Sync of the domain, and the slave the first Delay_Req
of the domain at --to. Up to 1024 messages are kept until all is known; after so many, and at an end without
a fault, Syncs are followed without a slave. Where the rest is known later still, messages are followed from
then on.

Lines and packets may come in another order, as long as no 256 other Syncs, or Delay_Reqs, come between the
messages of one: the last 256 of each are kept until all of their messages were met, at both taps. One that
was met twice at a tap is told of no more. None is told of that has a correction which is too big, or another
timestamp at one tap than at the other, or a Sync that is two-step at --from alone.

A PORT is a portIdentity: 16 hexadecimal digits, '/' and the number, as 'ptpx show' writes it, or as pmc
of linuxptp does, 00aabb.fffe.ccddee-1. Number and domain may have zeros in front. NS is nanoseconds, written
as the time of a line is.

Standard error tells the two taps, the domain, the master and the slave as soon as they are known, before the
first crossing, and a slave that is known later, then. At the end it tells of a capture how many packets there
are, then of the crossings of each kind the least, the median of the last 4096, the mean and the greatest of
each number, where 16 Syncs crossed or more by how much their rest grows with what was corrected, from 1 ppm
on, the asymmetry and what that means, which fields but the correction differ between the taps, and in how
many messages, how many Syncs and Delay_Reqs were met at one tap alone, those among them that came again when
all was told, or behind 256 others, how many lack a Follow_Up or a Delay_Resp, and of how many nothing is
told, and why.

Faults, each of which ends the run with 'ptpx: fault 806 at line 3' on standard error, or of a capture with
'ptpx: fault 1006 at octet 6300, after 41 packets: the capture ends within a packet or a block'. Lines count
from 1 and octets from 0, and what was written before stands. Line 0 is before all lines.
   801  the input can't be read
   802  the output can't be written
   803  the line has more than 4096 octets
   806  the line isn't a name, a time and pairs of hexadecimal digits, with a blank between them
   808  memory was refused
   809  PTP was met at a third tap
  1002  the version of the capture isn't known
  1003  the octets that tell the order of numbers are none
  1004  a length can't be
  1005  a packet is of an interface that wasn't described
  1006  the capture ends within a packet or a block

Exit statuses:
  0  each line or packet was read
  1  each was, and a rest is greater than --limit, either way
  2  the arguments aren't a command; or 809: --from and --to have to name two of three taps; or each was
     read, and nothing was met at a tap that --from or --to names
  3  any other fault

Limits: a line has 4096 octets before its LF at the most, and there may be any number of lines. Of a line
that ends in CR this one CR isn't read. The last line may lack its LF. Of a capture the limits are those of
'ptpx extract'."#;
