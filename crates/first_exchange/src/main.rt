//! One exchange, in calls of the crates: a slave that is 1,000 ns ahead of its master, with 2,000 ns between them.
//!
//! In this crate's folder `rt run` proves it and runs it; `rt try` runs it with nothing proved.
#![tactic(auto)]

use event_codec::{PortConfig, PortIdentity};
use master_port::MasterPort;
use pairing::RingTable;
use ptp_units::{ScaledTime, Seq, Timestamp};
use slave_port::{Heard, HeldFollow, HeldRequest, HeldSync, Report, SlavePort};
use std::io;

/// A slave that holds 16 Syncs, 16 Follow_Ups and 16 Delay_Reqs at most.
type Slave = SlavePort<
    RingTable<HeldSync, 16>,
    RingTable<HeldFollow, 16>,
    RingTable<HeldRequest, 16>,
>;

/// Units of 2^-16 ns in two nanoseconds.
const TWO_NANOSECONDS: i128 = 131_072;

/// A port of domain 0, told apart by the last octet of its clockIdentity.
fn config(last: u8) -> PortConfig {
    let clock = [0, 0x11, 0x22, 0xff, 0xfe, 0x33, 0x44, last];
    PortConfig {
        identity: PortIdentity { clock, port: 1 },
        domain: 0,
        log: 0,
    }
}

/// What a clock reads: so many seconds, and so many nanoseconds past them.
fn at(seconds: u64, nanos: u32) -> Option<ScaledTime> {
    Some(ScaledTime::join(Timestamp::new(seconds, nanos).ok()?, 0))
}

/// The octets go from one port to the other. The master's clock reads t1 and t4, the slave's t2 and t3, as the messages
/// leave and arrive. The tags 1 to 4 are ours, and the report names them.
fn exchange() -> Option<Report> {
    let mut master = MasterPort::new(config(1), Seq(0));
    let mut slave = Slave::new(config(2), Seq(0));
    slave.set_master(config(1).identity);

    let (sync, number) = master.next_sync();
    slave.sync(&sync, at(1, 3_000)?, 1); // t2
    let follow_up = master.sync_left(number, at(1, 0)?).ok()?; // t1
    slave.general(&follow_up, 2);

    let (request, number) = slave.next_request(3);
    slave.request_left(number, at(2, 1_000)?).ok()?; // t3
    let response = master.delay_req(&request, at(2, 2_000)?).ok()?; // t4
    match slave.general(&response, 4) {
        Heard::Report(report) => Some(report),
        Heard::Held | Heard::Completed | Heard::Ignored(_) => None,
    }
}

fn main(rt: HostRuntime) -> io::Result<()> {
    match exchange() {
        Some(report) => {
            let offset = report.offset2.div_euclid(TWO_NANOSECONDS);
            let delay = report.path2.div_euclid(TWO_NANOSECONDS);
            println!(rt; "offset {offset} ns, path delay {delay} ns")
        }
        None => println!(rt; "no report"),
    }
}
