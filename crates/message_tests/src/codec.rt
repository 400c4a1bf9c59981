//! Messages octet for octet, worked by hand from their layout.

ghost use Rattle.std.specs.Prelude.{◌≤◌, length};

use crate::values::{
    DELAY_REQ, DELAY_RESP, FOLLOW_UP, FORWARDED_DELAY_REQ, FORWARDED_SYNC, MASTER, SLAVE, SYNC,
    changed, padded,
};
use event_codec::{
    Body, DecodeRefusal, EncodeRefusal, Header, Message, Nibble, PortIdentity, decode, encode,
    patch_correction,
};
use ptp_units::{Interval, Seq, Timestamp};
use std::process::Abort;
use std::test::Fail;

/// A header as the ports of the exchange write it.
fn header(flags: u8, correction: i64, source: PortIdentity, control: u8, log: i8) -> Header {
    Header {
        major_sdo: Nibble::new(0).unwrap(),
        minor_version: Nibble::new(1).unwrap(),
        domain: 0,
        minor_sdo: 0,
        flags: [flags, 0],
        correction: Interval(correction),
        specific: [0; 4],
        source,
        sequence: Seq(0),
        control,
        log,
    }
}

/// The octets of each message of the exchange, its header and its body.
fn exchange(precise: Timestamp, receive: Timestamp) -> [(&'static [u8], Header, Body); 6] {
    let origin = Timestamp::default();
    [
        (&SYNC, header(0x02, 0, MASTER, 0, 0), Body::Sync { origin }),
        (
            &FORWARDED_SYNC,
            header(0x02, 131_072_000, MASTER, 0, 0),
            Body::Sync { origin },
        ),
        (
            &FOLLOW_UP,
            header(0x00, 0, MASTER, 2, 0),
            Body::FollowUp { precise },
        ),
        (
            &DELAY_REQ,
            header(0x00, 0, SLAVE, 1, 127),
            Body::DelayReq { origin },
        ),
        (
            &FORWARDED_DELAY_REQ,
            header(0x00, 229_392_384, SLAVE, 1, 127),
            Body::DelayReq { origin },
        ),
        (
            &DELAY_RESP,
            header(0x00, 229_376_000, MASTER, 3, 0),
            Body::DelayResp {
                receive,
                requesting: SLAVE,
            },
        ),
    ]
}

#[test]
fn reads_an_exchange(rt: HostRuntime) -> Result<(), Fail> {
    for (octets, header, body) in exchange(Timestamp::new(1, 0)?, Timestamp::new(2, 4_500)?) {
        let message = header.with_body(body).message();
        assert!(rt; decode(octets) == Ok((message, octets.len())));
    }
    Ok(())
}

#[test]
fn writes_an_exchange(rt: HostRuntime) -> Result<(), Fail> {
    for (octets, header, body) in exchange(Timestamp::new(1, 0)?, Timestamp::new(2, 4_500)?) {
        let mut buffer = [0xee; 60];
        let message = header.with_body(body).message();
        assert_eq!(rt; encode(&message, &mut buffer), Ok(octets.len()));
        assert_eq!(rt; buffer.get(..octets.len()), Some(octets));
        assert!(rt; buffer.iter().skip(octets.len()).all(|octet| *octet == 0xee));
    }
    Ok(())
}

fn assert_written_again(rt: &impl Abort, octets: &[u8], used: usize) {
    let mut buffer = [0xee; 60];
    match decode(octets) {
        Ok((message, _)) => assert_eq!(rt; encode(&message, &mut buffer), Ok(used)),
        Err(refusal) => assert!(rt; false, "{refusal:?}"),
    }
    assert_eq!(rt; buffer.get(..used), octets.get(..used));
}

/// Octets of a Sync, how many of them are given, and what they say: minorVersionPTP, the suffix and
/// messageLength.
type SyncRow = ([u8; 60], usize, u8, &'static [u8], usize);

#[test]
fn leaves_padding_and_keeps_the_suffix(rt: HostRuntime) -> Result<(), Fail> {
    let sync = padded(&SYNC);
    let with_suffix = changed(sync, &[(3, 46), (44, 0xab), (45, 0xcd)]);
    let rows: [SyncRow; 6] = [
        (sync, 44, 1, &[], 44),
        (sync, 46, 1, &[], 44),
        (sync, 60, 1, &[], 44),
        (with_suffix, 46, 1, &[0xab, 0xcd], 46),
        (with_suffix, 60, 1, &[0xab, 0xcd], 46),
        (changed(sync, &[(1, 0x02)]), 44, 0, &[], 44),
    ];
    for (octets, length, minor_version, suffix, used) in rows {
        let mut header = header(0x02, 0, MASTER, 0, 0);
        header.minor_version = Nibble::new(minor_version).ok_or("a nibble")?;
        let body = Body::Sync {
            origin: Timestamp::default(),
        };
        let message = Message {
            header,
            body,
            suffix,
        };
        let front = octets.get(..length).ok_or("so many octets")?;
        assert_eq!(rt; decode(front), Ok((message, used)));
        assert_written_again(&rt, front, used);
    }
    Ok(())
}

/// Changes to a Sync, how many of its octets are given, and why they are no message.
type RefusedRow = (&'static [(usize, u8)], usize, DecodeRefusal, u16);

const REFUSED: [RefusedRow; 7] = [
    (&[], 0, DecodeRefusal::Short, 201),
    (&[], 33, DecodeRefusal::Short, 201),
    (&[(1, 0x01)], 44, DecodeRefusal::Version, 202),
    (&[(0, 0x0b)], 44, DecodeRefusal::OtherType(11), 203),
    (&[(3, 43)], 44, DecodeRefusal::LengthField, 204),
    (&[], 34, DecodeRefusal::Truncated, 205),
    (&[], 43, DecodeRefusal::Truncated, 205),
];

#[test]
fn refuses_what_is_no_message(rt: HostRuntime) -> Result<(), Fail> {
    for (changes, length, refusal, code) in REFUSED {
        let octets = changed(padded(&SYNC), changes);
        let front = octets.get(..length).ok_or("so many octets")?;
        assert_eq!(rt; decode(front), Err(refusal));
        assert_eq!(rt; refusal.code(), code);
    }
    Ok(())
}

/// Of a Follow_Up with 999,999,999 ns, and with one more.
#[test]
fn reads_the_last_nanosecond_of_a_second(rt: HostRuntime) -> Result<(), Fail> {
    let last = [(40, 0x3b), (41, 0x9a), (42, 0xc9), (43, 0xff)];
    let precise = Timestamp::new(1, 999_999_999)?;
    let octets = changed(padded(&FOLLOW_UP), &last);
    match decode(&octets) {
        Ok((message, _)) => assert_eq!(rt; message.body, Body::FollowUp { precise }),
        Err(refusal) => assert!(rt; false, "{refusal:?}"),
    }
    let octets = changed(FOLLOW_UP, &[(40, 0x3b), (41, 0x9a), (42, 0xca)]);
    assert_eq!(rt; decode(&octets), Err(DecodeRefusal::Nanoseconds));
    assert_eq!(rt; DecodeRefusal::Nanoseconds.code(), 206);
    Ok(())
}

const LEAST: [&[u8]; 4] = [&SYNC, &DELAY_REQ, &FOLLOW_UP, &DELAY_RESP];

fn assert_prefixes_are_refused(rt: &impl Abort, octets: &[u8]) {
    for length in 0..octets.len() {
        let refusal = if length < 34 {
            DecodeRefusal::Short
        } else {
            DecodeRefusal::Truncated
        };
        assert_eq!(rt; decode(&octets[..length]), Err(refusal), "{length} octets");
    }
}

#[test]
fn refuses_each_part_of_a_message(rt: HostRuntime) {
    for octets in LEAST {
        assert_prefixes_are_refused(&rt, octets);
    }
}

#[derive(Clone, Copy, Debug, PartialEq, Eq)]
struct Shape {
    message_type: u8,
    major_sdo: u8,
    minor_version: u8,
    suffix_length: usize,
    message_length: usize,
}

/// What the octets say, with other ones at some places.
fn shape_with(octets: &[u8], changes: &[(usize, u8)]) -> Result<Shape, DecodeRefusal>
    requires { length octets.now ≤ 60 }
{
    let room = changed(padded(octets), changes);
    match decode(&room[..octets.len()]) {
        Ok((message, message_length)) => Ok(Shape {
            message_type: match message.body {
                Body::Sync { .. } => 0,
                Body::DelayReq { .. } => 1,
                Body::FollowUp { .. } => 8,
                Body::DelayResp { .. } => 9,
            },
            major_sdo: message.header.major_sdo.value(),
            minor_version: message.header.minor_version.value(),
            suffix_length: message.suffix.len(),
            message_length,
        }),
        Err(refusal) => Err(refusal),
    }
}

/// What the octets of a message of this length say once octet 0 is another.
fn shape_by_first_octet(octet: u8, message_length: usize) -> Result<Shape, DecodeRefusal> {
    let message_type = octet & 0x0f;
    let fields_length = match message_type {
        0 | 1 | 8 => 44,
        9 => 54,
        _ => return Err(DecodeRefusal::OtherType(message_type)),
    };
    let suffix_length = message_length
        .checked_sub(fields_length)
        .ok_or(DecodeRefusal::LengthField)?;
    Ok(Shape {
        message_type,
        major_sdo: octet >> 4,
        minor_version: 1,
        suffix_length,
        message_length,
    })
}

/// minorVersionPTP, where octet 1 says version 2.
fn minor_version_by_second_octet(octet: u8) -> Result<u8, DecodeRefusal> {
    if octet & 0x0f != 2 {
        return Err(DecodeRefusal::Version);
    }
    Ok(octet >> 4)
}

fn assert_first_octets(rt: &impl Abort, octets: &[u8])
    requires { length octets.now ≤ 60 }
{
    for octet in 0..=255 {
        let expected = shape_by_first_octet(octet, octets.len());
        assert_eq!(rt;
            shape_with(octets, &[(0, octet)]),
            expected,
            "octet 0 {octet}"
        );
        let minor_version = shape_with(octets, &[(1, octet)]).map(|shape| shape.minor_version);
        let expected = minor_version_by_second_octet(octet);
        assert_eq!(rt; minor_version, expected, "octet 1 {octet}");
    }
}

#[test]
fn reads_each_first_and_second_octet(rt: HostRuntime) {
    for octets in LEAST {
        assert!(rt; octets.len() <= 60);
        assert_first_octets(&rt, octets);
    }
}

type LengthRow = (
    u16,
    Result<usize, DecodeRefusal>,
    Result<usize, DecodeRefusal>,
);

/// messageLength, and the octets that are used of a message with 44 octets, and of a Delay_Resp with
/// 54.
fn message_lengths() -> [LengthRow; 6] {
    let length_field = Err(DecodeRefusal::LengthField);
    let truncated = Err(DecodeRefusal::Truncated);
    [
        (0, length_field, length_field),
        (43, length_field, length_field),
        (44, Ok(44), length_field),
        (53, truncated, length_field),
        (54, truncated, Ok(54)),
        (65_535, truncated, truncated),
    ]
}

fn assert_message_length(
    rt: &impl Abort,
    octets: &[u8],
    message_length: u16,
    used: Result<usize, DecodeRefusal>,
)
    requires { length octets.now ≤ 60 }
{
    let [high, low] = message_length.to_be_bytes();
    let shape = shape_with(octets, &[(2, high), (3, low)]);
    let read = shape.map(|shape| shape.message_length);
    assert_eq!(rt; read, used, "messageLength {message_length}");
}

#[test]
fn reads_each_message_length(rt: HostRuntime) {
    for (length, used, used_of_delay_resp) in message_lengths() {
        assert_message_length(&rt, &SYNC, length, used);
        assert_message_length(&rt, &DELAY_REQ, length, used);
        assert_message_length(&rt, &FOLLOW_UP, length, used);
        assert_message_length(&rt, &DELAY_RESP, length, used_of_delay_resp);
    }
}

#[test]
fn nibbles_end_at_15(rt: HostRuntime) {
    for value in 0..=255 {
        let expected = (value < 16).then_some(value);
        assert_eq!(rt; Nibble::new(value).map(Nibble::value), expected);
    }
}

/// A Sync with this suffix.
fn sync_with(suffix: &[u8]) -> Message<'_> {
    Message {
        header: header(0x02, 0, MASTER, 0, 0),
        body: Body::Sync {
            origin: Timestamp::default(),
        },
        suffix,
    }
}

#[test]
fn writes_the_longest_message(rt: HostRuntime) -> Result<(), Fail> {
    let suffix = vec![in rt.alloc(); 0x5a; 65_491]?;
    let mut buffer = vec![in rt.alloc(); 0xee; 65_536]?;
    assert_eq!(rt; encode(&sync_with(&suffix), &mut buffer), Ok(65_535));
    for (place, octet) in [
        (2, 0xff),
        (3, 0xff),
        (44, 0x5a),
        (65_534, 0x5a),
        (65_535, 0xee),
    ] {
        assert_eq!(rt; buffer.get(place), Some(&octet), "octet {place}");
    }
    Ok(())
}

#[test]
fn writes_nothing_that_has_no_room(rt: HostRuntime) -> Result<(), Fail> {
    let too_long = vec![in rt.alloc(); 0x5a; 65_492]?;
    let rows: [(&[u8], usize, EncodeRefusal, u16); 4] = [
        (&[], 43, EncodeRefusal::NoRoom, 211),
        (&[0xab, 0xcd], 45, EncodeRefusal::NoRoom, 211),
        (&too_long, 65_535, EncodeRefusal::NoRoom, 211),
        (&too_long, 65_536, EncodeRefusal::SuffixTooLong, 212),
    ];
    for (suffix, room, refusal, code) in rows {
        let mut buffer = vec![in rt.alloc(); 0xee; room]?;
        assert_eq!(rt; encode(&sync_with(suffix), &mut buffer), Err(refusal));
        assert!(rt; buffer.iter().all(|octet| *octet == 0xee));
        assert_eq!(rt; refusal.code(), code);
    }
    Ok(())
}

#[test]
fn patches_octets_8_to_15_alone(rt: HostRuntime) {
    let rows: [(i64, [u8; 8]); 4] = [
        (0, [0x00; 8]),
        (163_840, [0x00, 0x00, 0x00, 0x00, 0x00, 0x02, 0x80, 0x00]),
        (-2, [0xff, 0xff, 0xff, 0xff, 0xff, 0xff, 0xff, 0xfe]),
        (i64::MAX, [0x7f, 0xff, 0xff, 0xff, 0xff, 0xff, 0xff, 0xff]),
    ];
    let with_suffix = changed(padded(&SYNC), &[(3, 46), (44, 0xab), (45, 0xcd)]);
    let specific = [(7, 0x11), (16, 1), (17, 2), (18, 3), (19, 4)];
    let with_specific = changed(with_suffix, &specific);
    for (correction, written) in rows {
        let mut octets = with_specific;
        patch_correction(&mut octets, Interval(correction));
        assert_eq!(rt; octets[..8], with_specific[..8]);
        assert_eq!(rt; octets[8..16], written[..]);
        assert_eq!(rt; octets[16..], with_specific[16..]);
    }
}
