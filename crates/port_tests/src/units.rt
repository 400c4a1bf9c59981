//! Worked values, computed by hand from the standard's formulas.

use crate::values::moment;
use ptp_units::{
    BOUND, Interval, ScaledTime, Seq, TOO_BIG, Timestamp, UnitRefusal, delay_bracket, offset2,
    path2, sync_bracket,
};
use std::test::Fail;

#[test]
fn timestamps_in_range(rt: HostRuntime) -> Result<(), Fail> {
    for (seconds, nanos) in [(0, 0), (1, 999_999_999), (281_474_976_710_655, 999_999_999)] {
        let timestamp = Timestamp::new(seconds, nanos)?;
        assert_eq!(rt; timestamp.seconds(), seconds);
        assert_eq!(rt; timestamp.nanos(), nanos);
    }
    Ok(())
}

#[test]
fn timestamps_out_of_range(rt: HostRuntime) {
    let cases = [
        (281_474_976_710_656, 0, UnitRefusal::Seconds),
        (281_474_976_710_656, 1_000_000_000, UnitRefusal::Seconds),
        (u64::MAX, u32::MAX, UnitRefusal::Seconds),
        (281_474_976_710_655, 1_000_000_000, UnitRefusal::Nanoseconds),
        (0, 1_000_000_000, UnitRefusal::Nanoseconds),
    ];
    for (seconds, nanos, refusal) in cases {
        assert_eq!(rt; Timestamp::new(seconds, nanos), Err(refusal));
    }
}

#[test]
fn moments_split_and_join(rt: HostRuntime) -> Result<(), Fail> {
    let cases = [
        (0, 0, 0, 0),
        (65_535, 0, 0, 65_535),
        (65_536, 0, 1, 0),
        (65_536_000_000_000, 1, 0, 0),
        (131_072_000_065_537, 2, 1, 1),
        (BOUND - 1, 281_474_976_710_655, 999_999_999, 65_535),
    ];
    for (units, seconds, nanos, fraction) in cases {
        let time = ScaledTime::new(units)?;
        assert_eq!(rt; time.split(), (Timestamp::new(seconds, nanos)?, fraction));
        assert_eq!(rt; moment(seconds, nanos, fraction)?.value(), units);
    }
    Ok(())
}

#[test]
fn moments_out_of_range(rt: HostRuntime) {
    for units in [BOUND, BOUND + 1, u128::MAX] {
        assert_eq!(rt; ScaledTime::new(units), Err(UnitRefusal::OutOfRange));
    }
}

#[test]
fn moments_are_shifted(rt: HostRuntime) -> Result<(), Fail> {
    let last = BOUND - 1;
    let cases = [
        (0, -1, None),
        (0, 0, Some(0)),
        (5, -5, Some(0)),
        (5, -6, None),
        (5, 7, Some(12)),
        (last, 0, Some(last)),
        (last, 1, None),
        (last, i128::MAX, None),
        (last, i128::MIN, None),
    ];
    for (units, difference, sum) in cases {
        let shifted = ScaledTime::new(units)?.shifted(difference);
        assert_eq!(rt; shifted.map(ScaledTime::value).ok(), sum);
    }
    Ok(())
}

#[test]
fn residence_is_added(rt: HostRuntime) {
    let cases = [
        (0, 131_072_000, 131_072_000),
        (i64::MAX - 1, 0, i64::MAX - 1),
        (i64::MAX - 1, 1, i64::MAX),
        (i64::MAX - 2, 0, i64::MAX - 2),
        (i64::MAX - 2, 1, i64::MAX - 1),
        (i64::MAX - 2, 2, i64::MAX),
        (-1, (1 << 63) - 2, i64::MAX - 2),
        (-1, (1 << 63) - 1, i64::MAX - 1),
        (-1, 1 << 63, i64::MAX),
        (i64::MIN, 0, i64::MIN),
        (i64::MIN, (1 << 64) - 3, i64::MAX - 2),
        (i64::MIN, (1 << 64) - 2, i64::MAX - 1),
        (i64::MIN, (1 << 64) - 1, i64::MAX),
        (0, u128::MAX, i64::MAX),
        (i64::MAX, 0, i64::MAX),
        (i64::MAX, u128::MAX, i64::MAX),
    ];
    for (correction, residence, sum) in cases {
        assert_eq!(rt;
            Interval(correction).plus_residence(residence),
            Interval(sum),
            "{correction} + {residence}"
        );
    }
}

#[test]
fn fractions_are_taken_off(rt: HostRuntime) {
    let cases = [
        (TOO_BIG, 5, Ok(TOO_BIG)),
        (TOO_BIG, 0, Ok(TOO_BIG)),
        (Interval(i64::MAX - 1), 1, Ok(Interval(i64::MAX - 2))),
        (Interval(229_392_384), 16_384, Ok(Interval(229_376_000))),
        (Interval(0), 65_535, Ok(Interval(-65_535))),
        (Interval(i64::MIN + 1), 1, Ok(Interval(i64::MIN))),
        (Interval(i64::MIN), 0, Ok(Interval(i64::MIN))),
        (Interval(i64::MIN), 1, Err(UnitRefusal::TooLow)),
    ];
    for (correction, fraction, difference) in cases {
        assert_eq!(rt; correction.minus_fraction(fraction), difference);
    }
}

#[test]
fn too_big_has_no_units(rt: HostRuntime) {
    let cases = [
        (TOO_BIG, None),
        (Interval(i64::MAX - 1), Some(i64::MAX - 1)),
        (Interval(0), Some(0)),
        (Interval(i64::MIN), Some(i64::MIN)),
    ];
    for (correction, units) in cases {
        assert_eq!(rt; correction.exact(), units);
    }
}

#[test]
fn numbers_wrap(rt: HostRuntime) {
    for (number, next) in [(0, 1), (65_534, 65_535), (65_535, 0)] {
        assert_eq!(rt; Seq(number).next(), Seq(next));
    }
    for (count, number) in [
        (0, 0),
        (65_535, 65_535),
        (65_536, 0),
        (131_073, 1),
        (u64::MAX, 65_535),
    ] {
        assert_eq!(rt; Seq::of_count(count), Seq(number));
    }
}

#[test]
fn newer_numbers(rt: HostRuntime) {
    let cases = [
        (0, 65_535, true),
        (65_535, 0, false),
        (32_768, 0, false),
        (0, 32_768, false),
        (32_767, 0, true),
        (0, 32_767, false),
        (32_766, 65_535, true),
        (7, 7, false),
    ];
    for (number, other, newer) in cases {
        assert_eq!(rt;
            Seq(number).newer_than(Seq(other)),
            newer,
            "{number} and {other}"
        );
    }
}

/// A master, 500 ns of cable, a transparent clock, 500 ns of cable, a slave. The clock keeps the
/// Sync 2,000 ns and the Delay_Req 3,500.25 ns. In the first row the slave is 1,000 ns ahead, in the
/// second one unit behind, and there the Sync takes one unit more on its last cable.
#[test]
fn worked_exchanges(rt: HostRuntime) -> Result<(), Fail> {
    let precise = Timestamp::new(1, 0)?;
    let receive = Timestamp::new(2, 4500)?;
    let cases = [
        (
            moment(1, 4000, 0)?,
            moment(2, 1000, 0)?,
            131_072_000,
            0,
            131_072_000,
            131_072_000,
        ),
        (
            moment(1, 3000, 0)?,
            moment(1, 999_999_999, 65_535)?,
            65_536_000,
            65_536_001,
            -1,
            131_072_001,
        ),
    ];
    for (t2, t3, sync, delay, offset, path) in cases {
        let a = sync_bracket(t2, precise, 0, 131_072_000);
        let b = delay_bracket(receive, 229_376_000, t3);
        assert_eq!(rt; (a, b), (sync, delay));
        assert_eq!(rt; (offset2(a, b), path2(a, b)), (offset, path));
    }
    Ok(())
}

#[test]
fn zero_is_the_default(rt: HostRuntime) -> Result<(), Fail> {
    assert_eq!(rt; ScaledTime::default().split(), (Timestamp::default(), 0));
    assert_eq!(rt; Timestamp::default(), Timestamp::new(0, 0)?);
    assert_eq!(rt; Seq::default(), Seq(0));
    assert!(rt; moment(1, 0, 0)? > moment(0, 999_999_999, 65_535)?);
    Ok(())
}
