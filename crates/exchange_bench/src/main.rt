//! Exchanges through a master, one clock and a slave, or the same messages merely decoded and
//! encoded, as often as the arguments say: `exchange 1000000`, or `codec 1000000` over the octets
//! of a Sync, a Follow_Up, a Delay_Req and a Delay_Resp on standard input; or numbers put in a table
//! and sought there, `list16`, `ring16`, `list256` or `ring256`; or exchanges through two clocks, of
//! so many events, in a `world`, which then tells its memory, or by calls of the `ports`; or so many
//! lines that a checker is fed, of whole exchanges, `checked`, which then tells the memory, of one
//! `journey` that is reported again and again, or of a `tree` of copies whose stays are left twice.
//! It also writes so many names or identities that meet in a table, `fixed_names`, `guessed_names` or
//! `fixed_identities`.
#![tactic(auto)]

mod checked;
mod meeting;
mod networks;
mod tables;

use event_codec::{PortConfig, PortIdentity, decode, encode};
use master_port::MasterPort;
use pairing::ListTable;
use ptp_units::{ScaledTime, Seq};
use slave_port::{Heard, HeldFollow, HeldRequest, HeldSync, SlavePort};
use std::io::Read;
use std::{env, fs, io};
use transparent_clock::enter;

type Slave = SlavePort<
    ListTable<HeldSync, 16>,
    ListTable<HeldFollow, 16>,
    ListTable<HeldRequest, 16>,
>;

const MASTER: PortConfig = PortConfig {
    identity: PortIdentity {
        clock: [0x00, 0x11, 0x22, 0xff, 0xfe, 0x33, 0x44, 0x55],
        port: 1,
    },
    domain: 0,
    log: 0,
};

const SLAVE: PortConfig = PortConfig {
    identity: PortIdentity {
        clock: [0x00, 0xaa, 0xbb, 0xff, 0xfe, 0xcc, 0xdd, 0xee],
        port: 1,
    },
    domain: 0,
    log: 0,
};

/// The moment so many nanoseconds after the beginning of a second.
fn moment(second: u64, nanoseconds: u32) -> ScaledTime {
    let nanoseconds = u128::from(second) * 1_000_000_000 + u128::from(nanoseconds);
    ScaledTime::new(nanoseconds * 65_536).unwrap_or_default()
}

/// One exchange, and whether it ended in a report.
fn exchange(master: &mut MasterPort, slave: &mut Slave, second: u64) -> bool {
    let (mut sync, number) = master.next_sync();
    if enter(moment(second, 500))
        .leave(&mut sync, moment(second, 2_500))
        .is_err()
    {
        return false;
    }
    slave.sync(&sync, moment(second, 4_000), second);
    if let Ok(follow_up) = master.sync_left(number, moment(second, 0)) {
        slave.general(&follow_up, second);
    }

    let (mut request, number) = slave.next_request(second);
    if enter(moment(second, 500_000))
        .leave(&mut request, moment(second, 503_500))
        .is_err()
    {
        return false;
    }
    if slave.request_left(number, moment(second, 501_000)).is_err() {
        return false;
    }
    match master.delay_req(&request, moment(second, 504_500)) {
        Ok(response) => matches!(slave.general(&response, second), Heard::Report(_)),
        Err(_) => false,
    }
}

/// How many of so many exchanges end in a report.
fn exchanges(rounds: u64) -> u64 {
    let mut master = MasterPort::new(MASTER, Seq(0));
    let mut slave = Slave::new(SLAVE, Seq(0));
    slave.set_master(MASTER.identity);
    let mut reports: u64 = 0;
    for round in 0..rounds {
        if exchange(&mut master, &mut slave, round) {
            reports = reports.saturating_add(1);
        }
    }
    reports
}

/// How many octets the messages have that stand one after the other in `messages`, decoded and
/// encoded so many times, each time with another sequenceId.
fn coded(messages: &[u8], rounds: u64) -> u64 {
    let mut octets: u64 = 0;
    for round in 0..rounds {
        for start in [0, 44, 88, 132] {
            octets = octets.saturating_add(coded_length(messages, start, (round % 256) as u8));
        }
    }
    octets
}

/// The length of the message that begins there, decoded and encoded with this low octet of its
/// sequenceId.
fn coded_length(messages: &[u8], start: usize, sequence: u8) -> u64 {
    let mut octets = [0; 54];
    let mut written = [0; 54];
    let end = messages.len().min(start.saturating_add(54));
    if end < start {
        return 0;
    }
    let length = end - start;
    octets[..length].copy_from_slice(&messages[start..end]);
    octets[31] = sequence;
    match decode(&octets[..length]) {
        Ok((message, _)) => match encode(&message, &mut written) {
            Ok(length) => length as u64,
            Err(_) => 0,
        },
        Err(_) => 0,
    }
}

/// The most memory that a process had, in kilobytes, from its status as Linux tells it.
fn kilobytes(status: &str) -> u64 {
    let line = status.lines().find(|line| line.starts_with("VmHWM:"));
    line.and_then(|line| line.split_whitespace().nth(1))
        .and_then(|kilobytes| kilobytes.parse::<u64>().ok())
        .unwrap_or(0)
}

/// Prints the most memory that this process had at once.
fn tell_memory(rt: &HostRuntime) -> io::Result<()> {
    let status = fs::read_to_string(rt, "/proc/self/status")?;
    println!(rt; "{} kB", kilobytes(status.as_str()))
}

fn main(rt: HostRuntime) -> io::Result<()> {
    let arguments: Vec<String> = env::args(&rt)?.collect(rt.alloc())?;
    let word = |place: usize| arguments.get(place).map(|argument| argument.as_str());
    let measured = word(1).unwrap_or("exchange");
    let rounds = word(2)
        .and_then(|word| word.parse::<u64>().ok())
        .unwrap_or(1);
    match measured {
        "codec" => {
            let mut messages = Vec::new(rt.alloc());
            rt.reader().read_to_end(&mut messages)?;
            println!(rt; "{} octets", coded(&messages, rounds))
        }
        "world" => {
            let reports = networks::reports_in_world(rt.alloc(), rounds).unwrap_or(0);
            println!(rt; "{reports} reports")?;
            tell_memory(&rt)
        }
        "checked" => {
            println!(rt; "{:?}", checked::mixed(rt.alloc(), rounds))?;
            tell_memory(&rt)
        }
        "journey" => println!(rt; "{:?}", checked::long_journey(rt.alloc(), rounds)),
        "tree" => println!(rt; "{:?}", checked::broken_tree(rt.alloc(), rounds)),
        "ports" => println!(rt;
            "{} reports",
            networks::reports_of_ports(rounds).unwrap_or(0)
        ),
        _ => {
            if let Some(lines) = meeting::lines_of(rt.alloc(), measured, rounds) {
                return print!(rt; "{}", lines?);
            }
            match tables::found_in(measured, rounds) {
                Some(found) => println!(rt; "{found} found"),
                None => println!(rt; "{} reports", exchanges(rounds)),
            }
        }
    }
}
