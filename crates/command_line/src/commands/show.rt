//! `ptpx show`: its help.

use crate::commands::Help;
use crate::table::SubcommandRow;

/// The row of `show`.
pub(crate) const ROW: SubcommandRow = SubcommandRow {
    name: "show",
    about: "Print the datagrams that standard input gives in hexadecimal, one a line",
    help: Help::Show,
    options: &[],
};

/// What the help of `show` says below its usage.
pub(crate) const HELP: &str = "\
Each line of standard input is one datagram in hexadecimal digits of either case. For each, before the
next is read, one line goes to standard output: the fields of the message that the datagram begins
with, or the number of the first rule that it breaks. The line
  0012002c00000200000000000000000000000000001122fffe33445500010000000000000000000000000000
gives, in one line,
  Sync sdo=000 version=2.1 domain=0 flags=0200 correction=0 specific=00000000
  source=001122fffe334455/1 seq=0 control=0 log=0 stamp=0.000000000 suffix=0 used=44
A correction counts units of 2^-16 ns, or is too-big. A stamp has seconds and nanoseconds. suffix is
the count of octets after the fields, and used is messageLength. A Delay_Resp has requesting, too.

Refusals, each an answer to its line:
  refused 201          there are fewer than the 34 octets of a header
  refused 202          versionPTP isn't 2
  refused 203 type 11  messageType 11 isn't Sync (0), Delay_Req (1), Follow_Up (8) or Delay_Resp (9)
  refused 204          messageLength is below 44, or 54 for a Delay_Resp
  refused 205          there are fewer octets than messageLength
  refused 206          the nanoseconds of the timestamp are 10^9 or more

Faults, each of which ends the run with 'ptpx: fault 806 at line 3' on standard error. Lines count
from 1, and what was written for those before stands. Line 0 is before all lines.
  801  the input can't be read
  802  the output can't be written
  803  the line has more than 4096 octets
  804  an octet comes after the last of 1048576 lines
  806  the line isn't pairs of hexadecimal digits
  808  memory was refused

Exit statuses:
  0  each line was answered, with its fields or its refusal
  2  the arguments aren't a command
  3  a fault

Limits: a line has 4096 octets before its LF at the most, so a datagram has 2048, and an input has
1048576 lines. Of a line that ends in CR this one CR isn't read. The last line may lack its LF.";
