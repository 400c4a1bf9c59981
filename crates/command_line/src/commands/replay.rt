//! `ptpx replay`: its help.

use crate::commands::Help;
use crate::table::SubcommandRow;

/// The row of `replay`.
pub(crate) const ROW: SubcommandRow = SubcommandRow {
    name: "replay",
    about: "Print what comes of the events that standard input gives, one a line",
    help: Help::Replay,
    options: &[],
};

/// What the help of `replay` says below its usage.
pub(crate) const HELP: &str =
    r#"Standard input is a schedule, in lines of JSON: the nodes of a network, then what happens in it, event
by event. From the first event on standard output has the same lines, each event with what came of it,
before the next is read. The line
  {"at":[1,2500,0],"ev":"leave","node":"T","transit":3}
gives, in one line,
  {"at":[1,2500,0],"ev":"leave","hex":"0012002c000002000000000007d0000000000000001122fffe334455
  00010000000000000000000000000000","n":4,"node":"T","out":"made","reading":[1,2500,0],"transit":3}

Nodes, with names of 1 to 16 letters, digits, _ and -:
  {"node":"M","kind":"master","id":"001122fffe334455","port":1,"domain":0,"first":0,"log":0}
  {"node":"S","kind":"slave","id":"00aabbfffeccddee","port":1,"domain":0,"first":0,"log":0}
  {"node":"T","kind":"clock"}

Events as ev, with their keys beside node:
  sync       a master sends a two-step Sync: at
  syncone    a master sends a one-step Sync: at
  follow     a master sends the Follow_Up of its last two-step Sync
  request    a slave sends a Delay_Req: at
  stamped    a slave learns when its last Delay_Req left
  enter      a Sync or a Delay_Req enters a clock: copy, at
  leave      it leaves the clock: transit, at
  arrive     a Sync comes to a slave, or a Delay_Req to a master, which answers it: copy, at
  hear       a Follow_Up or a Delay_Resp comes to a slave: copy
  tick       a slave drops older messages
  setmaster  a slave is told its master: master
  stepclock  the clock of any node is set to true time and this difference: diff
copy is the tag of the event that sent the message, transit the tag of the event by which it entered: its
place among the events, from 0 on, which is its n. at is the true time as [seconds,nanoseconds,fraction],
and diff a text of digits; a fraction and diff are in units of 2^-16 ns.

What came of an event, as out:
  done, entered, held, completed
  made     a message, with its octets as hex
  report   offset2 is twice offsetFromMaster and path2 twice meanPathDelay, in units of 2^-16 ns;
           tags are the events by which Sync, Follow_Up, Delay_Req and Delay_Resp came or went
  refused  with the reason as code:
           303  at a master: the message is no Delay_Req
           304  at a master: domainNumber isn't that of the master
           402  at a clock: the message is neither Sync nor Delay_Req
           403  at a clock: the clock reads less than when the message entered
           511  at a slave: no held Delay_Req has this number
  ignored  by a slave, with the reason as code:
           502  the message is of another type than the ones that are heard here
           503  domainNumber isn't that of the slave
           504  the slave has no master
           505  sourcePortIdentity isn't that of the present master
           507  the correction is too big to be represented
           508  requestingPortIdentity isn't that of the slave
           509  no held Delay_Req has this sequenceId
           510  it isn't known when the Delay_Req of this sequenceId left
           512  sequenceId is neither that of the last Sync that was completed nor newer

Faults, each of which ends the run with 'ptpx: fault 806 at line 3', or 'ptpx: fault 807 (603) at line
3', on standard error. Lines count from 1, and what was written for those before stands. Line 0 is
before all lines.
  801  the input can't be read
  802  the output can't be written
  803  the line has more than 4096 octets
  804  an octet comes after the last of 1048576 lines
  805  the line isn't UTF-8, or isn't JSON
  806  the line is neither a node nor an event as above, or a node comes after an event
  807  there is no such network, or the event can't happen in it:
       (601) two nodes have one name
       (602) two ports have one identity
       (603) no node has this name
       (604) the event doesn't happen at nodes of this kind
       (605) no event of this tag sent a message
       (606) no message that entered by the event of this tag is still in this clock
       (607) the clock of the node would read no moment
       (608) no Sync waits for its Follow_Up, or no Delay_Req for its departure time
  808  memory was refused
'ptpx explain' says what is wrong with the line.

Exit statuses:
  0  each event happened
  2  the arguments aren't a command
  3  a fault

Limits: a line has 4096 octets before its LF at the most, and an input has 1048576 lines. Of a line
that ends in CR this one CR isn't read. The last line may lack its LF."#;
