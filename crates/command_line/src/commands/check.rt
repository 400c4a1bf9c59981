//! `ptpx check`: its help.

use crate::commands::Help;
use crate::table::SubcommandRow;

/// The row of `check`.
pub(crate) const ROW: SubcommandRow = SubcommandRow {
    name: "check",
    about: "Print whether each report of the transcript that standard input gives is sound",
    help: Help::Check,
    options: &[],
};

/// What the help of `check` says below its usage.
pub(crate) const HELP: &str = "\
Standard input is a transcript, in lines of JSON as 'ptpx replay' writes them, whoever wrote these: the
nodes of a network, then its events with what came of each. Standard output has one line at the end:
  accepted 1             there are so many reports, and each is sound
  refused event 13: 706  the report with n 13 is the first that isn't sound, for this reason

Reasons, of which the first in this order is given:
  701  a tag of the report isn't that of an event as the report needs it, or no event tells when the
       Delay_Req left
  704  the journey of the Sync or of the Delay_Req can't be followed back to where it was sent, or a stay
       on it was left twice
  702  the Sync isn't the one of the Follow_Up, or the Delay_Req isn't the one of the report
  703  a message isn't of the present master of the slave, or came before the slave was told this master
  705  a reading isn't that of the clock of its node, or falls while a message is in a clock
  707  the Sync or the Delay_Req was in clocks for longer than a correction can say
  706  the two results aren't those of the readings
  708  the octets of a message aren't those that a port or a clock writes
'ptpx explain' says of each report which of them stand against it, and by how much its results are wrong.

Faults, each of which ends the run with 'ptpx: fault 806 at line 3', or 'ptpx: fault 807 (601) at line
3', on standard error, and with no verdict. Lines count from 1. Line 0 is before all lines.
  801  the input can't be read
  802  the output can't be written
  803  the line has more than 4096 octets
  804  an octet comes after the last of 1048576 lines
  805  the line isn't UTF-8, or isn't JSON
  806  the line is neither a node nor an event with what came of it, or a node comes after an event, or n
       isn't the place of the event, from 0 on
  807  there is no such network: (601) two nodes have one name, (602) two ports have one identity
  808  memory was refused
'ptpx explain' says what is wrong with the line.

Exit statuses:
  0  accepted
  1  refused
  2  the arguments aren't a command
  3  a fault

Limits: a line has 4096 octets before its LF at the most, and an input has 1048576 lines. Of a line
that ends in CR this one CR isn't read. The last line may lack its LF.";
