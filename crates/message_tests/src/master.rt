//! What a master writes, octet for octet, worked by hand from the layout of the messages.

use crate::values::{
    DELAY_RESP, FOLLOW_UP, FORWARDED_DELAY_REQ, MASTER_PORT, ONE_STEP_SYNC, SYNC, changed, moment,
    padded, with_correction,
};
use event_codec::{DecodeRefusal, PortConfig};
use master_port::{MasterPort, MasterRefusal};
use ptp_units::Seq;
use std::process::Abort;
use std::test::Fail;

#[test]
fn writes_an_exchange(rt: HostRuntime) -> Result<(), Fail> {
    let mut port = MasterPort::new(MASTER_PORT, Seq(0));
    assert_eq!(rt; port.next_sync(), (SYNC, Seq(0)));
    assert_eq!(rt; port.sync_left(Seq(0), moment(1, 0, 0)?), Ok(FOLLOW_UP));
    let arrival = moment(2, 4_500, 16_384)?;
    assert_eq!(rt;
        port.delay_req(&FORWARDED_DELAY_REQ, arrival),
        Ok(DELAY_RESP)
    );
    Ok(())
}

#[test]
fn follow_up_carries_the_fraction(rt: HostRuntime) -> Result<(), Fail> {
    let cases: [(u32, u16, &[(usize, u8)]); 4] = [
        (0, 0, &[]),
        (0, 16_384, &[(14, 0x40)]),
        (0, 65_535, &[(14, 0xff), (15, 0xff)]),
        (256, 1, &[(15, 0x01), (42, 0x01)]),
    ];
    for (nanos, fraction, changes) in cases {
        let mut port = MasterPort::new(MASTER_PORT, Seq(0));
        let (_, number) = port.next_sync();
        let left = port.sync_left(number, moment(1, nanos, fraction)?);
        assert_eq!(rt;
            left,
            Ok(changed(FOLLOW_UP, changes)),
            "fraction {fraction}"
        );
    }
    Ok(())
}

#[test]
fn a_one_step_sync_carries_its_departure(rt: HostRuntime) -> Result<(), Fail> {
    let cases: [(u64, u16, &[(usize, u8)]); 3] = [
        (1, 16_384, &[]),
        (1, 0, &[(14, 0x00)]),
        (0, 65_535, &[(14, 0xff), (15, 0xff), (39, 0x00)]),
    ];
    for (seconds, fraction, changes) in cases {
        let mut port = MasterPort::new(MASTER_PORT, Seq(0));
        let written = port.one_step_sync(moment(seconds, 0, fraction)?);
        assert_eq!(rt;
            written,
            (changed(ONE_STEP_SYNC, changes), Seq(0)),
            "{seconds} s, fraction {fraction}"
        );
    }
    Ok(())
}

/// What a port is asked.
#[derive(Clone, Copy)]
enum Step {
    Sync,
    /// A one-step Sync leaves a quarter of a nanosecond after 1 s.
    OneStepSync,
    /// The Sync of this number left at 1 s.
    Left(u16),
}

/// What it answers. The octets are those of the message above, with its number.
#[derive(Clone, Copy, Debug, PartialEq, Eq)]
enum Answer {
    /// A Sync of this number.
    Drawn(u16),
    FollowUp,
    /// A refusal of this number.
    Refused(u16),
}

/// A title, the first number of a port, and what it answers to each step.
type Row = (&'static str, u16, &'static [(Step, Answer)]);

const NUMBERS: [Row; 3] = [
    (
        "a two-step Sync goes on waiting, and a one-step one of the same pool never waits",
        0,
        &[
            (Step::Sync, Answer::Drawn(0)),
            (Step::OneStepSync, Answer::Drawn(1)),
            (Step::Left(1), Answer::Refused(301)),
            (Step::Left(0), Answer::FollowUp),
            (Step::Sync, Answer::Drawn(2)),
        ],
    ),
    (
        "one Sync waits, and gets one Follow_Up",
        0,
        &[
            (Step::Left(0), Answer::Refused(301)),
            (Step::Sync, Answer::Drawn(0)),
            (Step::Sync, Answer::Drawn(1)),
            (Step::Left(0), Answer::Refused(301)),
            (Step::Left(1), Answer::FollowUp),
            (Step::Left(1), Answer::Refused(301)),
        ],
    ),
    (
        "numbers wrap",
        65_535,
        &[
            (Step::Sync, Answer::Drawn(65_535)),
            (Step::Sync, Answer::Drawn(0)),
            (Step::Sync, Answer::Drawn(1)),
        ],
    ),
];

/// The octets with this sequenceId.
fn numbered(octets: [u8; 44], number: Seq) -> [u8; 44] {
    let [high, low] = number.0.to_be_bytes();
    changed(octets, &[(30, high), (31, low)])
}

fn answer_to(rt: &impl Abort, port: &mut MasterPort, step: Step) -> Result<Answer, Fail> {
    match step {
        Step::Sync => {
            let (octets, number) = port.next_sync();
            assert_eq!(rt; octets, numbered(SYNC, number));
            Ok(Answer::Drawn(number.0))
        }
        Step::OneStepSync => {
            let (octets, number) = port.one_step_sync(moment(1, 0, 16_384)?);
            assert_eq!(rt; octets, numbered(ONE_STEP_SYNC, number));
            Ok(Answer::Drawn(number.0))
        }
        Step::Left(number) => match port.sync_left(Seq(number), moment(1, 0, 0)?) {
            Ok(octets) => {
                assert_eq!(rt; octets, numbered(FOLLOW_UP, Seq(number)));
                Ok(Answer::FollowUp)
            }
            Err(refusal) => Ok(Answer::Refused(refusal.code())),
        },
    }
}

#[test]
fn syncs_have_numbers(rt: HostRuntime) -> Result<(), Fail> {
    for (title, first, steps) in NUMBERS {
        let mut port = MasterPort::new(MASTER_PORT, Seq(first));
        for (step, expected) in steps {
            let answer = answer_to(&rt, &mut port, *step)?;
            assert_eq!(rt; answer, *expected, "{title}");
        }
    }
    Ok(())
}

#[test]
fn domain_and_log_are_those_of_the_port(rt: HostRuntime) -> Result<(), Fail> {
    let config = PortConfig {
        domain: 7,
        log: -3,
        ..MASTER_PORT
    };
    let mut port = MasterPort::new(config, Seq(0));
    let changes = [(4, 7), (33, 0xfd)];
    assert_eq!(rt; port.next_sync(), (changed(SYNC, &changes), Seq(0)));
    let left = port.sync_left(Seq(0), moment(1, 0, 0)?);
    assert_eq!(rt; left, Ok(changed(FOLLOW_UP, &changes)));
    let request = changed(FORWARDED_DELAY_REQ, &[(4, 7)]);
    let answer = port.delay_req(&request, moment(2, 4_500, 16_384)?);
    assert_eq!(rt; answer, Ok(changed(DELAY_RESP, &changes)));
    Ok(())
}

/// Changes to the Delay_Req and how many octets are given, and the changes to its Delay_Resp.
type AnswerRow = (&'static [(usize, u8)], usize, &'static [(usize, u8)]);

#[test]
fn answers_what_a_delay_req_says(rt: HostRuntime) -> Result<(), Fail> {
    let port = MasterPort::new(MASTER_PORT, Seq(0));
    let rows: [AnswerRow; 6] = [
        (&[], 44, &[]),
        (&[], 60, &[]),
        (&[(3, 46), (44, 0xab), (45, 0xcd)], 46, &[]),
        (&[(3, 46), (44, 0xab), (45, 0xcd)], 60, &[]),
        (&[(30, 0xff), (31, 0xfe)], 44, &[(30, 0xff), (31, 0xfe)]),
        (
            &[
                (0, 0x31),
                (1, 0x02),
                (5, 9),
                (6, 0x02),
                (16, 9),
                (33, 3),
                (43, 1),
            ],
            44,
            &[],
        ),
    ];
    let arrival = moment(2, 4_500, 16_384)?;
    for (changes, length, expected) in rows {
        let octets = changed(padded(&FORWARDED_DELAY_REQ), changes);
        let answer = octets
            .get(..length)
            .map(|given| port.delay_req(given, arrival));
        assert_eq!(rt; answer, Some(Ok(changed(DELAY_RESP, expected))));
    }
    Ok(())
}

#[test]
fn takes_the_fraction_off_the_correction(rt: HostRuntime) -> Result<(), Fail> {
    let port = MasterPort::new(MASTER_PORT, Seq(0));
    let cases = [
        (0, 0, Some(0)),
        (0, 65_535, Some(-65_535)),
        (1, 1, Some(0)),
        (i64::MAX, 5, Some(i64::MAX)),
        (i64::MAX - 1, 5, Some(i64::MAX - 6)),
        (i64::MIN, 0, Some(i64::MIN)),
        (i64::MIN, 1, None),
        (i64::MIN + 1, 1, Some(i64::MIN)),
    ];
    for (correction, fraction, difference) in cases {
        let request = with_correction(FORWARDED_DELAY_REQ, correction);
        let answer = port.delay_req(&request, moment(2, 4_500, fraction)?);
        let expected = difference
            .map(|units| with_correction(DELAY_RESP, units))
            .ok_or(MasterRefusal::CorrectionTooLow);
        assert_eq!(rt; answer, expected, "{correction} - {fraction}");
    }
    // Too big stays too big, at 1 s and five units.
    let request = with_correction(FORWARDED_DELAY_REQ, i64::MAX);
    let answer = port.delay_req(&request, moment(1, 0, 5)?);
    let stamp = [(39, 0x01), (42, 0x00), (43, 0x00)];
    let expected = changed(with_correction(DELAY_RESP, i64::MAX), &stamp);
    assert_eq!(rt; answer, Ok(expected));
    Ok(())
}

#[test]
fn refuses_what_is_no_request_to_it(rt: HostRuntime) -> Result<(), Fail> {
    let port = MasterPort::new(MASTER_PORT, Seq(0));
    let lowest = with_correction(FORWARDED_DELAY_REQ, i64::MIN);
    let other_type = MasterRefusal::Decode(DecodeRefusal::OtherType(11));
    let version = MasterRefusal::Decode(DecodeRefusal::Version);
    let rows: [(&[u8], MasterRefusal, u16); 9] = [
        (&[], MasterRefusal::Decode(DecodeRefusal::Short), 302),
        (&changed(SYNC, &[(0, 0x0b)]), other_type, 302),
        (&changed(SYNC, &[(1, 0x01)]), version, 302),
        (&SYNC, MasterRefusal::NotRequest, 303),
        (&FOLLOW_UP, MasterRefusal::NotRequest, 303),
        (&DELAY_RESP, MasterRefusal::NotRequest, 303),
        (&changed(SYNC, &[(4, 1)]), MasterRefusal::NotRequest, 303),
        (&changed(lowest, &[(4, 1)]), MasterRefusal::OtherDomain, 304),
        (&lowest, MasterRefusal::CorrectionTooLow, 305),
    ];
    for (octets, refusal, code) in rows {
        assert_eq!(rt; port.delay_req(octets, moment(1, 0, 1)?), Err(refusal));
        assert_eq!(rt; refusal.code(), code);
    }
    assert_eq!(rt; MasterRefusal::NotWaiting.code(), 301);
    Ok(())
}
