//! `ptpx extract`: its options and its help.
ghost use Rattle.std.specs.Prelude.{◌≡◌};
ghost use Rattle.std.specs.Result.{result_ok};
ghost use Rattle.clap.specs.Matches.{found_of};
ghost use Rattle.clap.specs.Walk.{rows_of};
ghost use Rattle.command_line.specs.Commands.{extract_options_of};

use crate::commands::Help;
use crate::options::{WrongValue, interface_option, is_used};
use crate::table::{OptionRow, SubcommandRow};
use clap::ArgMatches;
use command_options::ExtractOptions;

/// The options of `extract`.
const OPTIONS: [OptionRow; 3] = [
    OptionRow {
        name: "octets",
        value: None,
        about: "Write the octets alone, without times, as 'ptpx show' reads them",
    },
    OptionRow {
        name: "list",
        value: None,
        about: "Write a table of who sent what, in place of lines",
    },
    OptionRow {
        name: "interface",
        value: Some("NAME"),
        about: "Take the packets of this interface alone; else those of all",
    },
];

/// The row of `extract`.
pub(crate) const ROW: SubcommandRow = SubcommandRow {
    name: "extract",
    about: "Print what the capture that standard input gives has of PTP, one datagram a line",
    help: Help::Extract,
    options: &OPTIONS,
};

/// The options that were met.
pub(crate) fn extract_options<'a>(
    matches: &ArgMatches<'a>,
) -> Result<ExtractOptions, WrongValue<'a>>
    ensures { result_ok result ≡ extract_options_of (rows_of (found_of matches.now)) }
{
    Ok(ExtractOptions {
        interface: interface_option(matches, "interface")?,
        octets: is_used(matches, "octets"),
        list: is_used(matches, "list"),
    })
}

/// What the help of `extract` says below its usage.
pub(crate) const HELP: &str = "\
Standard input is a capture: a pcap, with times in microseconds or nanoseconds, or a pcapng, with any
sections and interfaces. Standard output has a line for each packet that carries a datagram of PTP,
before the next packet is read: the packet's time, a blank, and the datagram's octets in lower case
hexadecimal. The time is seconds since the beginning of the capture's timescale, a point and nine
decimals. The line
  1795328934.357259633 0012002c00000200000000000000000000000000001122fffe334455000100010100...
is cut short here. 'ptpx measure' reads such lines: 'ptpx extract < capture.pcap | ptpx measure'. With
--octets time and blank are left away, as 'ptpx show' reads lines. With --interface packets of one interface
alone are taken. An interface is called as the capture names it, or, where it has no name, one of 'if' and
digits alone, or one that an earlier interface of its section has, as in a pcap, if0, if1, .. by its place.

With --list standard output has a table in place of lines, once all packets were read, or those before a
fault: at which interface and in which stream who sent how many messages of each type, and below it how to
call 'ptpx measure'. A stream is of one sdoId, of one VLAN, and of one slave by unicast, or of multicast (-).

PTP is what UDP carries to port 319 or 320, over IPv4 or IPv6, and what Ethernet carries in packets of
type 0x88f7, behind any VLAN tags. Link types are Ethernet (1), Linux cooked captures (113, 276), raw IP
(101, 228, 229) and loopbacks (0, 108). Of a datagram all is written that was captured of it, over Ethernet
with what stands behind messageLength. IP that was cut in fragments isn't put together.

At the end standard error tells how many packets there are, how many of them have PTP, and why others
gave no line; with --interface also which other interfaces had packets.

Faults, each of which ends the run with 'ptpx: fault 1006 at octet 6300, after 41 packets: the capture
ends within a packet or a block' on standard error. Octets count from 0, and what was written for the
packets before stands.
   801  the input can't be read
   802  the output can't be written
   808  memory was refused
  1001  the input doesn't begin as a capture does
  1002  the version of the capture isn't known
  1003  the octets that tell the order of numbers are none
  1004  a length can't be
  1005  a packet is of an interface that wasn't described
  1006  the capture ends within a packet or a block

Exit statuses:
  0  each packet was read
  2  the arguments aren't a command
  3  a fault

Limits: of a packet the first 65536 octets are looked at, and of the options of an interface the first
65584; a datagram of more than 2035 octets gives no line. There may be any number of packets, of any
length.";
