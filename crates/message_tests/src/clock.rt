//! What a clock does to messages, octet for octet, worked by hand from the layout of the messages.

use crate::values::{
    DELAY_REQ, DELAY_RESP, FOLLOW_UP, Moment, SYNC, changed, moment, with_correction,
};
use event_codec::DecodeRefusal;
use ptp_units::UnitRefusal;
use std::test::Fail;
use transparent_clock::{ClockRefusal, Transit, enter};

/// A Sync of the 2008 edition, with messageTypeSpecific 01020304, the suffix abcd, and padding.
const PADDED_SYNC: [u8; 50] = [
    0x30, 0x02, 0x00, 0x2e, 0x05, 0x06, 0x02, 0x01, 0x00, 0x00, 0x00, 0x00, 0x00, 0x00, 0x00, 0x00,
    0x01, 0x02, 0x03, 0x04, 0x00, 0x11, 0x22, 0xff, 0xfe, 0x33, 0x44, 0x55, 0x00, 0x01, 0x12, 0x34,
    0x09, 0xfd, 0x00, 0x00, 0x00, 0x00, 0x00, 0x07, 0x00, 0x00, 0x00, 0x08, 0xab, 0xcd, 0xee, 0xee,
    0xee, 0xee,
];

const FIRST: Moment = (0, 0, 0);

const START: Moment = (1, 0, 0);

/// So many units after the first moment as no correction says.
const END: Moment = (140_737, 488_355_327, 65_535);

const LAST: Moment = (281_474_976_710_655, 999_999_999, 65_535);

/// A message, its correction, when it enters and leaves, and its correction then.
type Row = ([u8; 44], i64, Moment, Moment, i64);

const RESIDENCES: [Row; 14] = [
    (SYNC, 0, (1, 500, 0), (1, 2_500, 0), 131_072_000),
    (DELAY_REQ, 0, (2, 500, 0), (2, 4_000, 16_384), 229_392_384),
    (SYNC, 0, START, START, 0),
    (SYNC, 7, START, START, 7),
    (SYNC, -5, START, (1, 0, 3), -2),
    (SYNC, i64::MIN, START, (1, 0, 1), i64::MIN + 1),
    (SYNC, i64::MAX - 2, START, (1, 0, 1), i64::MAX - 1),
    (SYNC, i64::MAX - 1, START, START, i64::MAX - 1),
    (SYNC, i64::MAX - 1, START, (1, 0, 1), i64::MAX),
    (SYNC, i64::MAX, START, START, i64::MAX),
    (SYNC, i64::MAX, START, (2, 0, 0), i64::MAX),
    (SYNC, 0, (0, 0, 1), END, i64::MAX - 1),
    (SYNC, 0, FIRST, END, i64::MAX),
    (DELAY_REQ, i64::MIN, FIRST, LAST, i64::MAX),
];

fn transit((seconds, nanos, fraction): Moment) -> Result<Transit, UnitRefusal> {
    Ok(enter(moment(seconds, nanos, fraction)?))
}

#[test]
fn adds_the_residence(rt: HostRuntime) -> Result<(), Fail> {
    for (octets, correction, entered, (seconds, nanos, fraction), sum) in RESIDENCES {
        let mut forwarded = with_correction(octets, correction);
        let left = moment(seconds, nanos, fraction)?;
        assert_eq!(rt; transit(entered)?.leave(&mut forwarded, left), Ok(()));
        assert_eq!(rt;
            forwarded,
            with_correction(octets, sum),
            "{correction} to {sum}"
        );
    }
    Ok(())
}

#[test]
fn keeps_all_other_octets(rt: HostRuntime) -> Result<(), Fail> {
    let mut forwarded = PADDED_SYNC;
    let transit = enter(moment(1, 0, 0)?);
    assert_eq!(rt;
        transit.leave(&mut forwarded, moment(1, 2, 32_768)?),
        Ok(())
    );
    assert_eq!(rt; forwarded, with_correction(PADDED_SYNC, 0x0002_8000));
    Ok(())
}

const OTHER_TYPE: ClockRefusal = ClockRefusal::Decode(DecodeRefusal::OtherType(11));

const OTHER_VERSION: ClockRefusal = ClockRefusal::Decode(DecodeRefusal::Version);

const CUT: ClockRefusal = ClockRefusal::Decode(DecodeRefusal::Truncated);

const NEGATIVE: ClockRefusal = ClockRefusal::NegativeResidence;

/// The last moment before `START`.
const BEFORE: Moment = (0, 999_999_999, 65_535);

/// A message with other octets at some places, which enters at `START`, when it leaves, and why it doesn't.
type RefusedRow = ([u8; 44], &'static [(usize, u8)], Moment, ClockRefusal, u16);

const REFUSED: [RefusedRow; 7] = [
    (SYNC, &[(0, 0x0b)], START, OTHER_TYPE, 401),
    (SYNC, &[(1, 0x01)], START, OTHER_VERSION, 401),
    (SYNC, &[(3, 45)], BEFORE, CUT, 401),
    (FOLLOW_UP, &[], START, ClockRefusal::NotEvent, 402),
    (FOLLOW_UP, &[], BEFORE, ClockRefusal::NotEvent, 402),
    (SYNC, &[], BEFORE, NEGATIVE, 403),
    (DELAY_REQ, &[], (0, 999_999_999, 0), NEGATIVE, 403),
];

#[test]
fn refuses_and_leaves_the_octets(rt: HostRuntime) -> Result<(), Fail> {
    for (message, changes, (seconds, nanos, fraction), refusal, code) in REFUSED {
        let octets = changed(message, changes);
        let mut given = octets;
        let left = moment(seconds, nanos, fraction)?;
        assert_eq!(rt; transit(START)?.leave(&mut given, left), Err(refusal));
        assert_eq!(rt; given, octets);
        assert_eq!(rt; refusal.code(), code);
    }
    Ok(())
}

#[test]
fn refuses_a_delay_resp_and_nothing(rt: HostRuntime) -> Result<(), Fail> {
    let start = moment(1, 0, 0)?;
    let mut delay_resp = DELAY_RESP;
    let refused = enter(start).leave(&mut delay_resp, moment(2, 0, 0)?);
    assert_eq!(rt; refused, Err(ClockRefusal::NotEvent));
    assert_eq!(rt; delay_resp, DELAY_RESP);
    let nothing = ClockRefusal::Decode(DecodeRefusal::Short);
    assert_eq!(rt; enter(start).leave(&mut [], start), Err(nothing));
    Ok(())
}
