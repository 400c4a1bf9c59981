//! What the exchange of the last report is, and when there is none.

use crate::values::{MASTER, MASTER_PORT, SLAVE, SLAVE_PORT, moment};
use event_codec::{Header, NO_FLAGS, TWO_STEP};
use pairing::ListTable;
use ptp_units::{Interval, ScaledTime, Seq, Timestamp};
use slave_port::{Heard, HeldFollow, HeldRequest, HeldSync, LastExchange, Report, SlavePort};
use std::test::Fail;

/// A slave with 4 places of each kind.
type Slave = SlavePort<ListTable<HeldSync, 4>, ListTable<HeldFollow, 4>, ListTable<HeldRequest, 4>>;

/// A slave of the master, whose first Delay_Req has the number 40.
fn new_slave() -> Slave {
    let mut slave = Slave::new(SLAVE_PORT, Seq(40));
    slave.set_master(MASTER);
    slave
}

/// The header of a message of the master.
fn header(flags: [u8; 2], correction: i64, number: u16) -> Header {
    MASTER_PORT.header(flags, Interval(correction), Seq(number), 0, 0)
}

/// What the slave answers to the Delay_Resp of its next Delay_Req, which left at `t3`.
fn request(
    slave: &mut Slave,
    t3: ScaledTime,
    receive: Timestamp,
    correction: i64,
) -> Result<Heard, Fail> {
    let (_, number) = slave.next_request(3);
    slave.request_left(number, t3)?;
    let response = header(NO_FLAGS, correction, number.0).delay_resp(receive, SLAVE);
    Ok(slave.general(&response, 4))
}

#[test]
fn it_has_what_the_report_was_made_of(rt: HostRuntime) -> Result<(), Fail> {
    let mut slave = new_slave();
    // The Sync left at 1 s and 16,384 units, and stayed in a clock for 2,000 ns.
    let sync = header(TWO_STEP, 131_072_000, 7).sync(Timestamp::default());
    let follow_up = header(TWO_STEP, 16_384, 7).follow_up(Timestamp::new(1, 0)?);
    slave.sync(&sync, moment(1, 4_000, 5)?, 1);
    slave.general(&follow_up, 2);
    assert_eq!(rt; slave.last_exchange(), None);
    let left = moment(2, 1_000, 65_535)?;
    let answered = request(&mut slave, left, Timestamp::new(2, 4_500)?, 229_376_000)?;
    let exchange = LastExchange {
        t1: moment(1, 0, 0)?,
        t2: moment(1, 4_000, 5)?,
        t3: left,
        t4: moment(2, 4_500, 0)?,
        sync_correction: 131_072_000,
        follow_correction: 16_384,
        response_correction: 229_376_000,
        sync_number: Seq(7),
        request_number: Seq(40),
    };
    assert_eq!(rt; slave.last_exchange(), Some(exchange));
    // 999,997,000 ns and 65,530 units.
    assert_eq!(rt; exchange.age(), 65_535_803_457_530);
    // a = 4,000 ns 5 - 16,384 - 2,000 ns = 131,055,621; b = 3,500 ns - 3,500 ns - 65,535 = -65,535.
    let report = Report {
        offset2: 131_121_156,
        path2: 130_990_086,
        sync_tag: 1,
        follow_tag: Some(2),
        request_tag: 3,
        response_tag: 4,
    };
    assert_eq!(rt; answered, Heard::Report(report));
    Ok(())
}

#[test]
fn a_newer_half_takes_the_place_of_the_older(rt: HostRuntime) -> Result<(), Fail> {
    let mut slave = new_slave();
    let sync = header(NO_FLAGS, -1, 7).sync(Timestamp::new(1, 1)?);
    slave.sync(&sync, moment(1, 5, 0)?, 1);
    let left = moment(2, 0, 0)?;
    request(&mut slave, left, Timestamp::new(2, 3)?, 0)?;
    let sync = header(NO_FLAGS, -3, 9).sync(Timestamp::new(3, 1)?);
    slave.sync(&sync, moment(3, 5, 0)?, 5);
    let exchange = LastExchange {
        t1: moment(3, 1, 0)?,
        t2: moment(3, 5, 0)?,
        t3: left,
        t4: moment(2, 3, 0)?,
        sync_correction: -3,
        follow_correction: 0,
        response_correction: 0,
        sync_number: Seq(9),
        request_number: Seq(40),
    };
    assert_eq!(rt; slave.last_exchange(), Some(exchange));
    // 1,000,000,005 ns.
    assert_eq!(rt; exchange.age(), 65_536_000_327_680);
    Ok(())
}

/// What happens to a slave, and at which second of its clock.
#[derive(Clone, Copy)]
enum Step {
    /// A one-step Sync of this number arrives.
    Sync(u64, u16),
    /// A two-step Sync of this number arrives.
    TwoStepSync(u64, u16),
    /// A Delay_Req leaves, and its Delay_Resp comes.
    Request(u64),
    Tick,
    SetMaster,
    Restart,
}

/// The seconds of t2 and t3 of the last exchange after each step.
type Row = (&'static str, &'static [(Step, Option<(u64, u64)>)]);

const WHEN_IT_IS_THERE: [Row; 5] = [
    (
        "once both halves are, whichever came first",
        &[
            (Step::Request(10), None),
            (Step::Sync(11, 1), Some((11, 10))),
            (Step::Request(12), Some((11, 12))),
            (Step::Sync(13, 1), Some((13, 12))),
        ],
    ),
    (
        "a message that is held or ignored changes nothing",
        &[
            (Step::Sync(11, 5), None),
            (Step::Request(12), Some((11, 12))),
            (Step::TwoStepSync(13, 6), Some((11, 12))),
            (Step::Sync(14, 4), Some((11, 12))),
        ],
    ),
    (
        "until the second tick after its older half",
        &[
            (Step::Sync(11, 1), None),
            (Step::Tick, None),
            (Step::Request(12), Some((11, 12))),
            (Step::Tick, None),
            (Step::Sync(13, 2), Some((13, 12))),
            (Step::Tick, None),
            (Step::Request(14), Some((13, 14))),
        ],
    ),
    (
        "none of a new master, be it the same",
        &[
            (Step::Sync(11, 1), None),
            (Step::Request(12), Some((11, 12))),
            (Step::SetMaster, None),
            (Step::Sync(13, 2), None),
            (Step::Request(14), Some((13, 14))),
        ],
    ),
    (
        "none after a restart",
        &[
            (Step::Sync(11, 1), None),
            (Step::Request(12), Some((11, 12))),
            (Step::Restart, None),
            (Step::SetMaster, None),
            (Step::Request(14), None),
            (Step::Sync(15, 1), Some((15, 14))),
        ],
    ),
];

fn take(slave: &mut Slave, step: Step) -> Result<(), Fail> {
    let origin = Timestamp::new(1, 0)?;
    match step {
        Step::Sync(second, number) => {
            let sync = header(NO_FLAGS, 0, number).sync(origin);
            slave.sync(&sync, moment(second, 0, 0)?, 1);
        }
        Step::TwoStepSync(second, number) => {
            let sync = header(TWO_STEP, 0, number).sync(origin);
            slave.sync(&sync, moment(second, 0, 0)?, 2);
        }
        Step::Request(second) => {
            request(slave, moment(second, 0, 0)?, origin, 0)?;
        }
        Step::Tick => slave.tick(),
        Step::SetMaster => slave.set_master(MASTER),
        Step::Restart => slave.restart(Seq(50)),
    }
    Ok(())
}

#[test]
fn it_is_there_while_both_halves_are(rt: HostRuntime) -> Result<(), Fail> {
    for (name, steps) in &WHEN_IT_IS_THERE {
        let mut slave = new_slave();
        for (step, expected) in *steps {
            take(&mut slave, *step)?;
            let times = slave.last_exchange().map(|last| (last.t2, last.t3));
            let wanted = match *expected {
                Some((t2, t3)) => Some((moment(t2, 0, 0)?, moment(t3, 0, 0)?)),
                None => None,
            };
            assert_eq!(rt; times, wanted, "{name}");
        }
    }
    Ok(())
}
