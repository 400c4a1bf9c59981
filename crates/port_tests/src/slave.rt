//! What a slave answers, call by call.

use crate::values::{MASTER, MASTER_PORT, Moment, SLAVE, SLAVE_PORT, moment};
use SyncKind::{Forwarded, ForwardedOneStep, OneStep, TwoStep};
use event_codec::{DecodeRefusal, Header, NO_FLAGS, PortConfig, PortIdentity, TWO_STEP};
use pairing::{ListTable, PairTable};
use ptp_units::{Interval, ScaledTime, Seq, Timestamp};
use slave_port::{Heard, HeldFollow, HeldRequest, HeldSync, Reason, SlavePort};
use std::process::Abort;
use std::test::Fail;

/// A slave with 16 places of each kind.
type Slave = SlavePort<
    ListTable<HeldSync, 16>,
    ListTable<HeldFollow, 16>,
    ListTable<HeldRequest, 16>,
>;

/// A slave with few places, of each kind another number.
type SmallSlave = SlavePort<
    ListTable<HeldSync, 1>,
    ListTable<HeldFollow, 2>,
    ListTable<HeldRequest, 3>,
>;

const OTHER_MASTER: PortIdentity = PortIdentity {
    clock: [0x00, 0x11, 0x22, 0xff, 0xfe, 0x33, 0x44, 0x55],
    port: 2,
};

/// A slave of this master, or of none.
fn slave_of(master: Option<PortIdentity>) -> Slave {
    let mut slave = Slave::new(SLAVE_PORT, Seq(0));
    if let Some(master) = master {
        slave.set_master(master);
    }
    slave
}

/// Every flag but the twoStepFlag.
const NOT_TWO_STEP: [u8; 2] = [0xfd, 0xff];

/// The header of a two-step message of the master.
fn header(correction: i64, number: u16) -> Header {
    MASTER_PORT.header(TWO_STEP, Interval(correction), Seq(number), 0, 0)
}

fn sync(header: Header) -> [u8; 44] {
    header.sync(Timestamp::default())
}

/// The Sync of the master of this number.
fn plain_sync(number: u16) -> [u8; 44] {
    sync(header(0, number))
}

/// The one-step Sync of the master with this correction, of this number.
fn one_step_sync(correction: i64, number: u16) -> [u8; 44] {
    sync(MASTER_PORT.header(NOT_TWO_STEP, Interval(correction), Seq(number), 0, 0))
}

/// The Follow_Up of the master of this number.
fn plain_follow_up(number: u16) -> [u8; 44] {
    header(0, number).follow_up(Timestamp::default())
}

/// The master's Delay_Resp to the slave of this number.
fn plain_delay_resp(number: u16) -> [u8; 54] {
    header(0, number).delay_resp(Timestamp::default(), SLAVE)
}

/// Seconds and nanoseconds.
type Stamp = (u64, u32);

const ZERO: Stamp = (0, 0);

const START: Moment = (0, 0, 0);

const SECOND: Moment = (1, 0, 0);

/// A Sync of the master, with its number.
#[derive(Clone, Copy)]
enum SyncKind {
    TwoStep(u16),
    OneStep(u16),
    /// These have number 0, and were in a clock for 131,072,000 units. The one-step Sync left a quarter of a nanosecond after 1 s.
    Forwarded,
    ForwardedOneStep,
}

/// What happens to a slave.
#[derive(Clone, Copy)]
enum Step {
    /// This is its master from now on.
    Master(PortIdentity),
    /// Its timer ticks.
    Tick,
    /// It draws a Delay_Req.
    Request,
    /// The Delay_Req of this number left at this moment.
    Left(u16, Moment),
    /// A Sync arrives at this moment.
    Sync(SyncKind, Moment),
    /// A Follow_Up comes, of this number, with this correction and this timestamp.
    FollowUp(u16, i64, Stamp),
    /// A Delay_Resp comes, of this number, with this correction and this timestamp.
    DelayResp(u16, i64, Stamp),
}

/// What it answers.
#[derive(Clone, Copy, Debug, PartialEq, Eq)]
enum Answer {
    /// There is nothing to answer.
    Done,
    /// It drew a Delay_Req of this number.
    Drawn(u16),
    /// A refusal of this number.
    Refused(u16),
    Held,
    Completed,
    /// Its two results, and the tags of the Sync, the Follow_Up, the Delay_Req and the Delay_Resp.
    Report(i128, i128, (u64, Option<u64>, u64, u64)),
    /// For the reason of this number.
    Ignored(u16),
}

/// A title, and what a slave of the master answers to each step. The tag of a step is its place, from 0.
type Row = (&'static str, &'static [(Step, Answer)]);

fn answer_of(heard: Heard) -> Answer {
    match heard {
        Heard::Held => Answer::Held,
        Heard::Completed => Answer::Completed,
        Heard::Report(it) => {
            let tags = (it.sync_tag, it.follow_tag, it.request_tag, it.response_tag);
            Answer::Report(it.offset2, it.path2, tags)
        }
        Heard::Ignored(reason) => Answer::Ignored(reason.code()),
    }
}

/// The slave's Delay_Req of this number.
fn delay_req(number: Seq) -> [u8; 44] {
    SLAVE_PORT
        .header(NO_FLAGS, Interval(0), number, 1, 127)
        .delay_req(Timestamp::default())
}

/// The number of a Delay_Req that was drawn.
fn drawn(rt: &impl Abort, octets: [u8; 44], number: Seq) -> Answer {
    assert_eq!(rt; octets, delay_req(number));
    Answer::Drawn(number.0)
}

fn octets_of(kind: SyncKind) -> Result<[u8; 44], Fail> {
    Ok(match kind {
        SyncKind::TwoStep(number) => plain_sync(number),
        SyncKind::OneStep(number) => one_step_sync(0, number),
        SyncKind::Forwarded => sync(header(131_072_000, 0)),
        SyncKind::ForwardedOneStep => MASTER_PORT
            .header(NO_FLAGS, Interval(131_088_384), Seq(0), 0, 0)
            .sync(Timestamp::new(1, 0)?),
    })
}

/// What a slave answers to a step of this tag.
fn answer_to<S, F, Q>(
    rt: &impl Abort,
    slave: &mut SlavePort<S, F, Q>,
    step: Step,
    tag: u64,
) -> Result<Answer, Fail>
where
    S: PairTable<HeldSync>,
    F: PairTable<HeldFollow>,
    Q: PairTable<HeldRequest>,
{
    Ok(match step {
        Step::Master(master) => {
            slave.set_master(master);
            Answer::Done
        }
        Step::Tick => {
            slave.tick();
            Answer::Done
        }
        Step::Request => {
            let (octets, number) = slave.next_request(tag);
            drawn(rt, octets, number)
        }
        Step::Left(number, (seconds, nanos, fraction)) => {
            match slave.request_left(Seq(number), moment(seconds, nanos, fraction)?) {
                Ok(()) => Answer::Done,
                Err(refusal) => Answer::Refused(refusal.code()),
            }
        }
        Step::Sync(sync, (seconds, nanos, fraction)) => {
            let arrival = moment(seconds, nanos, fraction)?;
            answer_of(slave.sync(&octets_of(sync)?, arrival, tag))
        }
        Step::FollowUp(number, correction, (seconds, nanos)) => {
            let precise = Timestamp::new(seconds, nanos)?;
            answer_of(slave.general(&header(correction, number).follow_up(precise), tag))
        }
        Step::DelayResp(number, correction, (seconds, nanos)) => {
            let receive = Timestamp::new(seconds, nanos)?;
            let octets = header(correction, number).delay_resp(receive, SLAVE);
            answer_of(slave.general(&octets, tag))
        }
    })
}

/// The slave of the master answers each step of the row as it says.
fn assert_answers<S, F, Q>(
    rt: &impl Abort,
    slave: &mut SlavePort<S, F, Q>,
    (title, steps): Row,
) -> Result<(), Fail>
where
    S: PairTable<HeldSync>,
    F: PairTable<HeldFollow>,
    Q: PairTable<HeldRequest>,
{
    slave.set_master(MASTER);
    for (tag, (step, expected)) in steps.iter().enumerate() {
        let answer = answer_to(rt, slave, *step, tag as u64)?;
        assert_eq!(rt; answer, *expected, "{title}: step {tag}");
    }
    Ok(())
}

const ROWS: [Row; 16] = [
    // Whole exchanges.
    (
        "the Delay_Req went twice, its second journey took another time, and the Follow_Up comes again",
        &[
            (Step::Sync(Forwarded, (1, 4_000, 0)), Answer::Held),
            (Step::FollowUp(0, 0, (1, 0)), Answer::Completed),
            (Step::Request, Answer::Drawn(0)),
            (Step::Left(0, (2, 1_000, 0)), Answer::Done),
            (
                Step::DelayResp(0, 229_376_000, (2, 4_500)),
                Answer::Report(131_072_000, 131_072_000, (0, Some(1), 2, 4)),
            ),
            (
                Step::DelayResp(0, 557_056_000, (2, 9_700)),
                Answer::Report(117_964_800, 144_179_200, (0, Some(1), 2, 5)),
            ),
            (
                Step::FollowUp(0, 0, (1, 0)),
                Answer::Report(117_964_800, 144_179_200, (0, Some(6), 2, 5)),
            ),
        ],
    ),
    (
        "results may be odd and negative",
        &[
            (Step::Sync(Forwarded, (1, 3_000, 0)), Answer::Held),
            (Step::FollowUp(0, 0, (1, 0)), Answer::Completed),
            (Step::Request, Answer::Drawn(0)),
            (Step::Left(0, (1, 999_999_999, 65_535)), Answer::Done),
            (
                Step::DelayResp(0, 229_376_000, (2, 4_500)),
                Answer::Report(-1, 131_072_001, (0, Some(1), 2, 4)),
            ),
        ],
    ),
    (
        "with a one-step Sync",
        &[
            (
                Step::Sync(ForwardedOneStep, (1, 4_000, 0)),
                Answer::Completed,
            ),
            (Step::Request, Answer::Drawn(0)),
            (Step::Left(0, (2, 1_000, 0)), Answer::Done),
            (
                Step::DelayResp(0, 229_376_000, (2, 4_500)),
                Answer::Report(131_055_616, 131_055_616, (0, None, 1, 3)),
            ),
        ],
    ),
    (
        "a Delay_Req that left again has the later time",
        &[
            (Step::Request, Answer::Drawn(0)),
            (Step::Left(0, SECOND), Answer::Done),
            (Step::Left(0, (2, 0, 0)), Answer::Done),
            (Step::Sync(TwoStep(0), START), Answer::Held),
            (Step::FollowUp(0, 0, ZERO), Answer::Completed),
            (
                Step::DelayResp(0, 0, (2, 1)),
                Answer::Report(-65_536, 65_536, (3, Some(4), 0, 5)),
            ),
        ],
    ),
    (
        "the second tick drops, but no Delay_Req, and a completion one tick later",
        &[
            (Step::Request, Answer::Drawn(0)),
            (Step::Left(0, SECOND), Answer::Done),
            (Step::Sync(TwoStep(0), SECOND), Answer::Held),
            (Step::FollowUp(1, 0, ZERO), Answer::Held),
            (Step::Tick, Answer::Done),
            (Step::FollowUp(0, 0, ZERO), Answer::Completed),
            (Step::Tick, Answer::Done),
            (Step::FollowUp(0, 0, ZERO), Answer::Held),
            (Step::Sync(TwoStep(1), SECOND), Answer::Held),
            (
                Step::DelayResp(0, 0, ZERO),
                Answer::Report(131_072_000_000_000, 0, (2, Some(5), 0, 9)),
            ),
            (Step::Tick, Answer::Done),
            (Step::DelayResp(0, 0, ZERO), Answer::Completed),
        ],
    ),
    // Syncs and Follow_Ups in any order.
    (
        "what is older isn't used until the second tick, and what is completed completes again",
        &[
            (Step::FollowUp(0, 0, ZERO), Answer::Held),
            (Step::FollowUp(1, 0, ZERO), Answer::Held),
            (Step::Sync(TwoStep(1), START), Answer::Completed),
            (Step::Sync(TwoStep(0), START), Answer::Ignored(512)),
            (Step::Sync(TwoStep(1), START), Answer::Completed),
            (Step::Tick, Answer::Done),
            (Step::Tick, Answer::Done),
            (Step::Sync(TwoStep(0), START), Answer::Held),
            (Step::FollowUp(0, 0, ZERO), Answer::Completed),
        ],
    ),
    (
        "in the order sent",
        &[
            (Step::FollowUp(0, 0, ZERO), Answer::Held),
            (Step::FollowUp(1, 0, ZERO), Answer::Held),
            (Step::Sync(TwoStep(0), START), Answer::Completed),
            (Step::Sync(TwoStep(1), START), Answer::Completed),
        ],
    ),
    (
        "0 is newer than 65535",
        &[
            (Step::Sync(TwoStep(65_535), START), Answer::Held),
            (Step::Sync(TwoStep(0), START), Answer::Held),
            (Step::FollowUp(0, 0, ZERO), Answer::Completed),
            (Step::FollowUp(65_535, 0, ZERO), Answer::Ignored(512)),
        ],
    ),
    (
        "over the end of the numbers, in the order sent",
        &[
            (Step::Sync(TwoStep(65_535), START), Answer::Held),
            (Step::Sync(TwoStep(0), START), Answer::Held),
            (Step::FollowUp(65_535, 0, ZERO), Answer::Completed),
            (Step::FollowUp(0, 0, ZERO), Answer::Completed),
        ],
    ),
    // One-step Syncs.
    (
        "completes by itself, and what is older isn't used",
        &[
            (Step::Sync(OneStep(5), START), Answer::Completed),
            (Step::Sync(OneStep(4), START), Answer::Ignored(512)),
            (Step::Sync(TwoStep(4), START), Answer::Ignored(512)),
            (Step::FollowUp(4, 0, ZERO), Answer::Ignored(512)),
            (Step::Sync(OneStep(5), START), Answer::Completed),
            (Step::Sync(TwoStep(5), START), Answer::Held),
            (Step::FollowUp(5, 0, ZERO), Answer::Completed),
        ],
    ),
    (
        "a Follow_Up plays no part",
        &[
            (Step::FollowUp(0, 0, ZERO), Answer::Held),
            (Step::Sync(OneStep(0), START), Answer::Completed),
            (Step::FollowUp(0, 0, ZERO), Answer::Held),
            (Step::Sync(TwoStep(0), START), Answer::Completed),
        ],
    ),
    (
        "its number stands until the second tick",
        &[
            (Step::Sync(OneStep(5), START), Answer::Completed),
            (Step::Tick, Answer::Done),
            (Step::Sync(OneStep(4), START), Answer::Ignored(512)),
            (Step::Tick, Answer::Done),
            (Step::Sync(OneStep(4), START), Answer::Completed),
        ],
    ),
    (
        "half a turn ahead isn't newer",
        &[
            (Step::Sync(OneStep(0), START), Answer::Completed),
            (Step::Sync(TwoStep(32_768), START), Answer::Ignored(512)),
            (Step::FollowUp(32_768, 0, ZERO), Answer::Ignored(512)),
            (Step::Sync(TwoStep(32_767), START), Answer::Held),
            (Step::Sync(OneStep(32_767), START), Answer::Completed),
            (Step::Sync(OneStep(65_534), START), Answer::Completed),
            (Step::Sync(OneStep(0), START), Answer::Completed),
        ],
    ),
    // Changes of master, and Delay_Reqs.
    (
        "a change of master drops what is held, and so does the same master again",
        &[
            (Step::Sync(TwoStep(3), SECOND), Answer::Held),
            (Step::Master(OTHER_MASTER), Answer::Done),
            (Step::FollowUp(3, 0, ZERO), Answer::Ignored(505)),
            (Step::Master(MASTER), Answer::Done),
            (Step::FollowUp(3, 0, ZERO), Answer::Held),
            (Step::Sync(TwoStep(3), SECOND), Answer::Completed),
            (Step::Master(MASTER), Answer::Done),
            (Step::Sync(TwoStep(3), SECOND), Answer::Held),
        ],
    ),
    (
        "a Delay_Req is answered once it left, and dropped with its master",
        &[
            (Step::Left(0, SECOND), Answer::Refused(511)),
            (Step::Request, Answer::Drawn(0)),
            (Step::DelayResp(0, 0, ZERO), Answer::Ignored(510)),
            (Step::Left(0, SECOND), Answer::Done),
            (Step::DelayResp(0, 0, ZERO), Answer::Completed),
            (Step::Request, Answer::Drawn(1)),
            (Step::Master(MASTER), Answer::Done),
            (Step::Left(1, SECOND), Answer::Refused(511)),
        ],
    ),
    (
        "too big comes before not newer, and a Delay_Resp has a number of another pool",
        &[
            (Step::Sync(OneStep(1), START), Answer::Completed),
            (Step::FollowUp(0, i64::MAX, ZERO), Answer::Ignored(507)),
            (Step::FollowUp(0, 0, ZERO), Answer::Ignored(512)),
            (Step::DelayResp(0, 0, ZERO), Answer::Ignored(509)),
        ],
    ),
];

const OVER_THE_END: Row = (
    "Delay_Reqs are numbered over the end",
    &[
        (Step::Request, Answer::Drawn(65_535)),
        (Step::Request, Answer::Drawn(0)),
    ],
);

const FEW_PLACES: Row = (
    "a one-step Sync pushes no two-step one out",
    &[
        (Step::Sync(TwoStep(0), SECOND), Answer::Held),
        (Step::Sync(TwoStep(1), SECOND), Answer::Held),
        (Step::FollowUp(0, 0, ZERO), Answer::Held),
        (Step::Sync(OneStep(0), SECOND), Answer::Completed),
        (Step::FollowUp(1, 0, ZERO), Answer::Completed),
        (Step::FollowUp(2, 0, ZERO), Answer::Held),
        (Step::FollowUp(3, 0, ZERO), Answer::Held),
        (Step::Sync(TwoStep(1), SECOND), Answer::Held),
        (Step::Sync(TwoStep(2), SECOND), Answer::Completed),
        (Step::Request, Answer::Drawn(7)),
        (Step::Left(7, SECOND), Answer::Done),
        (Step::Request, Answer::Drawn(8)),
        (Step::Left(8, SECOND), Answer::Done),
        (Step::Request, Answer::Drawn(9)),
        (Step::Left(9, SECOND), Answer::Done),
        (Step::Request, Answer::Drawn(10)),
        (Step::Left(10, SECOND), Answer::Done),
        (Step::DelayResp(7, 0, ZERO), Answer::Ignored(509)),
        (
            Step::DelayResp(8, 0, ZERO),
            Answer::Report(131_072_000_000_000, 0, (8, Some(5), 11, 18)),
        ),
    ],
);

#[test]
fn slaves_answer_each_step(rt: HostRuntime) -> Result<(), Fail> {
    for row in &ROWS {
        assert_answers(&rt, &mut Slave::new(SLAVE_PORT, Seq(0)), *row)?;
    }
    Ok(())
}

#[test]
fn first_numbers_and_capacities_may_differ(rt: HostRuntime) -> Result<(), Fail> {
    assert_answers(&rt, &mut Slave::new(SLAVE_PORT, Seq(65_535)), OVER_THE_END)?;
    assert_answers(&rt, &mut SmallSlave::new(SLAVE_PORT, Seq(7)), FEW_PLACES)
}

#[test]
fn the_last_sixteen_syncs_are_held(rt: HostRuntime) -> Result<(), Fail> {
    let mut slave = slave_of(Some(MASTER));
    for number in 0..17 {
        let sync = Step::Sync(TwoStep(number), SECOND);
        assert_eq!(rt; answer_to(&rt, &mut slave, sync, 1)?, Answer::Held);
    }
    for (number, answer) in [(0, Answer::Held), (1, Answer::Completed)] {
        let follow_up = Step::FollowUp(number, 0, ZERO);
        assert_eq!(rt; answer_to(&rt, &mut slave, follow_up, 2)?, answer);
    }
    Ok(())
}

/// What a slave answers to the Delay_Resp of the first Delay_Req, after so many more.
fn answer_after(rt: &impl Abort, later: usize) -> Result<Answer, Fail> {
    let mut slave = slave_of(Some(MASTER));
    answer_to(rt, &mut slave, Step::Request, 1)?;
    answer_to(rt, &mut slave, Step::Left(0, SECOND), 2)?;
    for _ in 0..later {
        answer_to(rt, &mut slave, Step::Request, 3)?;
    }
    answer_to(rt, &mut slave, Step::DelayResp(0, 0, ZERO), 4)
}

#[test]
fn the_last_sixteen_requests_are_held(rt: HostRuntime) -> Result<(), Fail> {
    assert_eq!(rt; answer_after(&rt, 15)?, Answer::Completed);
    assert_eq!(rt; answer_after(&rt, 16)?, Answer::Ignored(509));
    Ok(())
}

#[test]
fn octets_that_are_no_message_are_ignored(rt: HostRuntime) {
    for (place, octet, refusal) in [
        (1, 0x01, DecodeRefusal::Version),
        (0, 0x0b, DecodeRefusal::OtherType(11)),
    ] {
        let mut octets = plain_sync(0);
        octets[place] = octet;
        let ignored = Heard::Ignored(Reason::Decode(refusal));
        let heard = slave_of(None).sync(&octets, ScaledTime::default(), 1);
        assert_eq!(rt; heard, ignored);
        assert_eq!(rt; slave_of(None).general(&octets, 1), ignored);
        assert_eq!(rt; code(heard), Some(501));
    }
}

/// The number of the reason, where a message was ignored.
fn code(heard: Heard) -> Option<u16> {
    match heard {
        Heard::Ignored(reason) => Some(reason.code()),
        Heard::Held | Heard::Completed | Heard::Report(_) => None,
    }
}

/// The master of a slave or none, what the slave is sent, and for which reason it ignores that.
type ReasonRow<'a> = (Option<PortIdentity>, &'a [u8], Option<u16>);

const PRESENT: Option<PortIdentity> = Some(MASTER);

const ANOTHER: Option<PortIdentity> = Some(OTHER_MASTER);

/// The header of a message of the master, in another domain.
fn header_in_other_domain() -> Header {
    let other_domain = PortConfig {
        domain: 1,
        ..MASTER_PORT
    };
    other_domain.header(TWO_STEP, Interval(0), Seq(0), 0, 0)
}

#[test]
fn reasons_of_the_event_port_in_order(rt: HostRuntime) {
    let too_big = sync(header(i64::MAX, 0));
    let rows: [ReasonRow<'_>; 10] = [
        (None, &delay_req(Seq(0)), Some(502)),
        (None, &plain_follow_up(0), Some(502)),
        (None, &sync(header_in_other_domain()), Some(503)),
        (None, &one_step_sync(0, 0), Some(504)),
        (ANOTHER, &too_big, Some(505)),
        (PRESENT, &one_step_sync(0, 0), None),
        (PRESENT, &one_step_sync(i64::MAX, 0), Some(507)),
        (PRESENT, &one_step_sync(i64::MAX - 1, 0), None),
        (PRESENT, &too_big, Some(507)),
        (PRESENT, &sync(header(i64::MAX - 1, 0)), None),
    ];
    for (master, octets, reason) in rows {
        let heard = slave_of(master).sync(octets, ScaledTime::default(), 1);
        assert_eq!(rt; code(heard), reason);
    }
}

#[test]
fn reasons_of_the_general_port_in_order(rt: HostRuntime) {
    let stamp = Timestamp::default();
    let too_big = header(i64::MAX, 0).follow_up(stamp);
    let other_domain = header_in_other_domain().follow_up(stamp);
    let both = header(i64::MAX, 0).delay_resp(stamp, MASTER);
    let other_requester = header(0, 0).delay_resp(stamp, MASTER);
    let rows: [ReasonRow<'_>; 8] = [
        (None, &sync(header_in_other_domain()), Some(502)),
        (None, &other_domain, Some(503)),
        (None, &too_big, Some(504)),
        (ANOTHER, &too_big, Some(505)),
        (PRESENT, &too_big, Some(507)),
        (PRESENT, &both, Some(507)),
        (PRESENT, &other_requester, Some(508)),
        (PRESENT, &plain_delay_resp(0), Some(509)),
    ];
    for (master, octets, reason) in rows {
        assert_eq!(rt; code(slave_of(master).general(octets, 1)), reason);
    }
}
