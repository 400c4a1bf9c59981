//! `ptpx measure`: its options and its help.
ghost use Rattle.std.specs.Prelude.{◌≡◌};
ghost use Rattle.std.specs.Result.{result_ok};
ghost use Rattle.clap.specs.Matches.{found_of};
ghost use Rattle.clap.specs.Walk.{rows_of};
ghost use Rattle.command_line.specs.Commands.{measure_options_of, sum_alone};

use crate::commands::Help;
use crate::options::{
    WrongValue, domain_option, interface_option, is_used, limit_option, port_option,
    readings_option,
};
use crate::table::{OptionRow, SubcommandRow};
use clap::ArgMatches;
use command_options::MeasureOptions;

/// The options of `measure`.
const OPTIONS: [OptionRow; 10] = [
    OptionRow {
        name: "slave",
        value: Some("PORT"),
        about: "The slave's port; else the source of the first Delay_Req of the domain",
    },
    OptionRow {
        name: "master",
        value: Some("PORT"),
        about: "The master's port; else the source of the first Sync of the domain",
    },
    OptionRow {
        name: "domain",
        value: Some("NUMBER"),
        about: "domainNumber; else that of the first Sync, of the master where that is given",
    },
    OptionRow {
        name: "interface",
        value: Some("NAME"),
        about: "The interface of a capture; else that of the first stream in which all three are known",
    },
    OptionRow {
        name: "readings",
        value: Some("WHOSE"),
        about: "own or capture; else the slave's own if any come before the first report",
    },
    OptionRow {
        name: "limit",
        value: Some("NS"),
        about: "Answer 1 where an offset is greater than so many nanoseconds, either way",
    },
    OptionRow {
        name: "csv",
        value: None,
        about: "Write CSV, in place of JSON",
    },
    OptionRow {
        name: "full",
        value: None,
        about: "Write also what each report was made of",
    },
    OptionRow {
        name: "strict",
        value: None,
        about: "Answer 1 where anything speaks against the numbers, or there is no report",
    },
    OptionRow {
        name: "sum",
        value: None,
        about: "Write what the reports come to at the end, in place of these",
    },
];

/// The row of `measure`.
pub(crate) const ROW: SubcommandRow = SubcommandRow {
    name: "measure",
    about: "Print the offsets and delays in a capture at a slave, or in a recording of its datagrams",
    help: Help::Measure,
    options: &OPTIONS,
};

/// Whether sums are asked for, unless CSV or what reports were made of is, too.
fn sum_alone<'a>(csv: bool, full: bool, sum: bool) -> Result<bool, WrongValue<'a>>
    ensures { result_ok result ≡ sum_alone csv full sum }
{
    if (csv || full) && sum {
        Err(WrongValue {
            option: "sum",
            value: "",
            name: "",
            wanted: "--sum without --csv and --full",
        })
    } else {
        Ok(sum)
    }
}

/// The options that were met.
pub(crate) fn measure_options<'a>(
    matches: &ArgMatches<'a>,
) -> Result<MeasureOptions, WrongValue<'a>>
    ensures { result_ok result ≡ measure_options_of (rows_of (found_of matches.now)) }
{
    let readings = match readings_option(matches, "readings") {
        Ok(readings) => readings,
        Err(wrong) => return Err(wrong),
    };
    let limit = match limit_option(matches, "limit") {
        Ok(limit) => limit,
        Err(wrong) => return Err(wrong),
    };
    Ok(MeasureOptions {
        slave: port_option(matches, "slave")?,
        master: port_option(matches, "master")?,
        domain: domain_option(matches, "domain")?,
        interface: interface_option(matches, "interface")?,
        readings,
        limit,
        csv: is_used(matches, "csv"),
        full: is_used(matches, "full"),
        strict: is_used(matches, "strict"),
        sum: sum_alone(
            is_used(matches, "csv"),
            is_used(matches, "full"),
            is_used(matches, "sum"),
        )?,
    })
}

/// What the help of `measure` says below its usage.
pub(crate) const HELP: &str =
    r#"Standard input is what was recorded at a slave: a capture, as 'ptpx extract' reads it, or lines, one
datagram each; the first four octets tell which. A line is the time at which the slave's port sent or
received the datagram, a blank, and its octets in hexadecimal digits of either case. The time is seconds,
then nothing, or a point and 1 to 9 digits. Standard output has a line for each report of the slave,
before the next line or packet is read. It is
  {"by":"sync","line":17,"offset":"-12.5","offset2":"-1638400","path":"1000","path2":"131072000",
  "tags":[12,13,9,11],"time":"1795328934.357259633"}
in one line, or with --csv, below the head time,offset_ns,path_ns,by,line,
  1795328934.357259633,-12.5,1000,sync,17
offset is offsetFromMaster and path meanPathDelay, in nanoseconds; offset2 and path2 are twice these, in
units of 2^-16 ns. These four are exact for the times in the input. by says which half completed the report,
sync or response, line which line or packet did, and time is the time of that one, of a packet with nine
decimals. tags are the lines or packets of Sync, Follow_Up, Delay_Req and Delay_Resp; that of Follow_Up is
null where the Sync is a one-step one. Lines count from 1, and so do packets, those without PTP, too.

With --full each has also t1 to t4 in seconds (t1 and t4 as the master says, t2 and t3 as the input does, or by
the slave's own clock where its own readings are measured), sync_correction (of Sync and Follow_Up),
delay_correction and t2_to_t3, the time between t2 and t3, whichever is later, in nanoseconds, and the
sequenceIds sync_number and request_number.

With --sum one line of JSON stands in place of the reports, at the end or after a fault but 808: of offsets
and paths the mean, the standard deviation, the least, the greatest, and of the last 4096 the median and the
95th and the 99th percentile; what came and what is missing, what the master announces, names of what speaks
against the numbers, whom they are of, and whose readings.

A slave that tells its own readings in Signaling messages (ptp4l, slave_event_monitor) is measured by these, if
any come before the first report: by is then own sync or own response, and no time of the input counts. With
--readings own they are taken alone, and with --readings capture none of them. Standard error says at the end
how many messages are left aside so, and where --readings own is in vain.

A PORT is a portIdentity: 16 hexadecimal digits, '/' and the number, as 'ptpx show' writes it, or as pmc
of linuxptp does, 00aabb.fffe.ccddee-1. Number and domain may have zeros in front. NS is nanoseconds, written
as the time of a line is.

Unless they are asked for, the domain is that of the first Sync, of the master that is asked for if one
is; the master sent the first Sync of the domain, and the slave its first Delay_Req. Up to 1024 lines or
datagrams are kept until all three are known.

Each stream at an interface of a capture is a recording of its own, and one alone is measured: the first in
which all three are known. A stream is of one sdoId, of one VLAN, and of one slave by unicast, or of multicast.
What is asked for is known in a stream once a message of that domain, or from that port, was met in it.
Interfaces that are called alike, as 'ptpx extract' calls them, are one, also in several sections. Of more
than 64 streams the first 64 are looked at. With --interface the packets of one interface alone are looked at;
lines have none.

The results are exact for the times in the input, and the offset is that of the clock that stamped it: of the
slave's where its own port did, at a tap or a mirror port of the box that captured. A capture on the slave's
own host stamps what the slave sends before it leaves, so that the offset comes out too low and the path too
high by half of that: use stamps by the hardware of the slave's port. Taken at the master's host, both come
near 0. A capture in UTC of a master in TAI gives an offset of -37 s. A Sync takes the last delay, however old,
up to two ticks, of which there is one after each 4096 Syncs.

Standard error tells the domain, the master and the slave as soon as they are known, and at the end what speaks
against the numbers, how many reports there are, which datagrams gave none, and why, what the master announces,
and statistics.

Faults, each of which ends the run with 'ptpx: fault 806 at line 3' on standard error, or of a capture with
'ptpx: fault 1006 at octet 6300, after 41 packets: the capture ends within a packet or a block'. Lines count
from 1 and octets from 0, and what was written before stands. Line 0 is before all lines.
   801  the input can't be read
   802  the output can't be written
   803  the line has more than 4096 octets
   806  the line isn't a time, a blank and pairs of hexadecimal digits
   808  memory was refused
  1002  the version of the capture isn't known
  1003  the octets that tell the order of numbers are none
  1004  a length can't be
  1005  a packet is of an interface that wasn't described
  1006  the capture ends within a packet or a block

Exit statuses:
  0  each line or packet was read
  1  each was, and an offset is greater than --limit, either way, or with --strict there is no report, or
     standard error says 'beware'
  2  the arguments aren't a command
  3  a fault

Limits: a line has 4096 octets before its LF at the most, and there may be any number of lines. Of a line
that ends in CR this one CR isn't read. The last line may lack its LF. Of a capture the limits are those of
'ptpx extract'."#;
