//! Octets that ptp4l 3.1.1 sent as a slave, and what becomes of them where they are bent.

use super::*;
use event_codec::{Header, Nibble, PortIdentity};
use ptp_units::{Interval, Seq, Timestamp};
use std::alloc::Global;
use std::error::Error;
use std::process::Abort;
use std::test::Fail;

/// The header and the target of a Signaling message, up to its TLVs.
const FRONT: &[u8] =
    b"\x0c\x02\0\x5c\0\0\0\0\0\0\0\0\0\0\0\0\0\0\0\0\x02\0\0\xff\xfe\xaa\xbb\xcc\0\0\0\x02\x05\x7f\
\xff\xff\xff\xff\xff\xff\xff\xff\xff\xff";

/// tlvType and lengthField of a SLAVE_RX_SYNC_TIMING_DATA with one record, of one with none, and of a
/// SLAVE_DELAY_TIMING_DATA_NP with one.
const SYNC_HEAD: &[u8] = b"\x80\x04\0\x2c";

const EMPTY_HEAD: &[u8] = b"\x80\x04\0\x0a";

const DELAY_HEAD: &[u8] = b"\x7f\0\0\x28";

/// The master.
const MASTER_OCTETS: &[u8] = b"\x02\0\0\xff\xfe\x11\x22\x33\0\x01";

/// A record of a Sync, and one of a Delay_Req.
const SYNC: &[u8] = b"\0\x09\0\0\x6b\x02\x8c\x29\x0b\x6f\xe5\x15\0\0\0\0\x57\xf3\0\0\0\0\0\0\
\0\0\x6b\x02\x8c\x29\x0b\x70\x3e\xc0";

const DELAY: &[u8] =
    b"\0\0\0\0\x6b\x02\x8c\x28\x39\xa8\x88\x76\0\0\0\0\x75\x41\0\0\0\0\x6b\x02\x8c\x28\x39\xa9\x01\x63";

/// A TLV of another type, REQUEST_UNICAST_TRANSMISSION.
const OTHER: &[u8] = b"\0\x04\0\x06\0\x00\0\0\x01\x2c";

const MASTER: PortIdentity = PortIdentity {
    clock: [0x02, 0, 0, 0xff, 0xfe, 0x11, 0x22, 0x33],
    port: 1,
};

/// The parts behind each other, with their length as messageLength.
fn joined(alloc: Global, parts: &[&[u8]]) -> Result<Vec<u8>, Fail> {
    let mut octets = Vec::new(alloc);
    for part in parts {
        octets.extend_from_slice(part)?;
    }
    let length = u16::try_from(octets.len())?;
    let mut message = Vec::new(alloc);
    message.extend_from_slice(octets.get(..2).ok_or("a header")?)?;
    message.extend_from_slice(&length.to_be_bytes())?;
    message.extend_from_slice(octets.get(4..).ok_or("a header")?)?;
    Ok(message)
}

fn sync_reading() -> Result<SyncReading, Fail> {
    Ok(SyncReading {
        sequence: Seq(9),
        origin: Timestamp::new(1_795_329_065, 191_882_517)?,
        correction: Interval(1_475_543_040),
        rate: 0,
        ingress: Timestamp::new(1_795_329_065, 191_905_472)?,
    })
}

fn delay_reading() -> Result<DelayReading, Fail> {
    Ok(DelayReading {
        sequence: Seq(0),
        departure: Timestamp::new(1_795_329_064, 967_346_294)?,
        correction: Interval(1_967_194_112),
        receipt: Timestamp::new(1_795_329_064, 967_377_251)?,
    })
}

/// What the message tells is this, in order, and nothing else.
fn assert_told(rt: &impl Abort, octets: &[u8], told: &[Reading]) {
    match decode_signaling(octets) {
        Ok(message) => {
            let mut readings = message.readings();
            for reading in told {
                let own = OwnReading {
                    master: MASTER,
                    reading: *reading,
                };
                assert_eq!(rt; readings.next(), Some(own));
            }
            assert_eq!(rt; readings.next(), None);
            assert_eq!(rt; readings.next(), None);
        }
        Err(refusal) => assert!(rt; false, "{refusal:?}"),
    }
}

fn assert_refused(rt: &impl Abort, octets: &[u8], refusal: SignalingRefusal, code: u16) {
    match decode_signaling(octets) {
        Ok(_) => assert!(rt; false, "it is read"),
        Err(first) => {
            assert_eq!(rt; first, refusal);
            assert_eq!(rt; first.code(), code);
        }
    }
}

#[test]
fn reads_what_a_slave_sent(rt: HostRuntime) -> Result<(), Fail> {
    let sync = Reading::Sync(sync_reading()?);
    let delay = Reading::Delay(delay_reading()?);
    let alloc = rt.alloc();
    let of_sync = joined(alloc, &[FRONT, SYNC_HEAD, MASTER_OCTETS, SYNC])?;
    assert_told(&rt, &of_sync, &[sync]);
    let of_delay = joined(alloc, &[FRONT, DELAY_HEAD, MASTER_OCTETS, DELAY])?;
    assert_told(&rt, &of_delay, &[delay]);
    let message = decode_signaling(&of_sync)?;
    let slave = PortIdentity {
        clock: [0x02, 0, 0, 0xff, 0xfe, 0xaa, 0xbb, 0xcc],
        port: 0,
    };
    assert_eq!(rt; message.header.source, slave);
    assert_eq!(rt; message.header.sequence, Seq(2));
    let all = PortIdentity {
        clock: [0xff; 8],
        port: 0xffff,
    };
    assert_eq!(rt; message.target, all);
    Ok(())
}

#[test]
fn passes_other_tlvs_over(rt: HostRuntime) -> Result<(), Fail> {
    let sync = Reading::Sync(sync_reading()?);
    let delay = Reading::Delay(delay_reading()?);
    let alloc = rt.alloc();
    let message = joined(
        alloc,
        &[
            FRONT,
            OTHER,
            SYNC_HEAD,
            MASTER_OCTETS,
            SYNC,
            OTHER,
            EMPTY_HEAD,
            MASTER_OCTETS,
            b"\x80\x04\0\x4e",
            MASTER_OCTETS,
            SYNC,
            SYNC,
            DELAY_HEAD,
            MASTER_OCTETS,
            DELAY,
            b"\0\x03\0\0",
        ],
    )?;
    assert_told(&rt, &message, &[sync, sync, sync, delay]);
    let empty = joined(alloc, &[FRONT, EMPTY_HEAD, MASTER_OCTETS])?;
    assert_told(&rt, &empty, &[]);
    let other = joined(alloc, &[FRONT, OTHER])?;
    assert_told(&rt, &other, &[]);
    let none = joined(alloc, &[FRONT])?;
    assert_told(&rt, &none, &[]);
    Ok(())
}

#[test]
fn reads_signs_and_all_octets(rt: HostRuntime) -> Result<(), Fail> {
    let record =
        b"\xff\xfe\xff\xff\xff\xff\xff\xff\x3b\x9a\xc9\xff\xff\xff\xff\xff\xff\xff\xff\xfe\x80\0\0\0\
\x01\x02\x03\x04\x05\x06\x07\x08\x09\x0a";
    let message = joined(rt.alloc(), &[FRONT, SYNC_HEAD, MASTER_OCTETS, record])?;
    let reading = SyncReading {
        sequence: Seq(65_534),
        origin: Timestamp::new(281_474_976_710_655, 999_999_999)?,
        correction: Interval(-2),
        rate: i32::MIN,
        ingress: Timestamp::new(1_108_152_157_446, 117_967_114)?,
    };
    assert_told(&rt, &message, &[Reading::Sync(reading)]);
    Ok(())
}

/// The octets with this one in a place of its own.
fn changed(alloc: Global, octets: &[u8], at: usize, octet: u8) -> Result<Vec<u8>, Fail> {
    let mut changed = Vec::new(alloc);
    changed.extend_from_slice(octets)?;
    *changed.get_mut(at).ok_or("an octet")? = octet;
    Ok(changed)
}

/// A place, what stands there in its place, and why that is no message.
type Bent = (usize, u8, SignalingRefusal, u16);

#[test]
fn refuses_what_is_bent(rt: HostRuntime) -> Result<(), Fail> {
    let alloc = rt.alloc();
    let message = joined(alloc, &[FRONT, SYNC_HEAD, MASTER_OCTETS, SYNC])?;
    let rows: [Bent; 20] = [
        (0, 0x0d, SignalingRefusal::NoSignaling, 221),
        (0, 0x00, SignalingRefusal::NoSignaling, 221),
        (1, 0x01, SignalingRefusal::NoSignaling, 221),
        (3, 43, SignalingRefusal::LengthField, 222),
        (3, 0, SignalingRefusal::LengthField, 222),
        (3, 93, SignalingRefusal::Truncated, 223),
        (3, 94, SignalingRefusal::Truncated, 223),
        (2, 1, SignalingRefusal::Truncated, 223),
        (3, 91, SignalingRefusal::TlvLength, 224),
        (3, 90, SignalingRefusal::TlvLength, 224),
        (3, 47, SignalingRefusal::TlvLength, 224),
        (3, 45, SignalingRefusal::TlvLength, 224),
        (46, 1, SignalingRefusal::TlvLength, 224),
        (47, 46, SignalingRefusal::TlvLength, 224),
        (47, 45, SignalingRefusal::TlvLength, 224),
        (47, 43, SignalingRefusal::TlvLength, 224),
        (47, 42, SignalingRefusal::TlvLength, 224),
        (47, 9, SignalingRefusal::TlvLength, 224),
        (66, 0x3c, SignalingRefusal::Nanoseconds, 225),
        (88, 0xff, SignalingRefusal::Nanoseconds, 225),
    ];
    for (at, octet, refusal, code) in rows {
        let bent = changed(alloc, &message, at, octet)?;
        assert_refused(&rt, &bent, refusal, code);
    }
    let front = message.get(..33).ok_or("33 octets")?;
    assert_refused(&rt, front, SignalingRefusal::NoSignaling, 221);
    assert_refused(&rt, &[], SignalingRefusal::NoSignaling, 221);
    Ok(())
}

#[test]
fn takes_the_first_wrong_tlv(rt: HostRuntime) -> Result<(), Fail> {
    let alloc = rt.alloc();
    let late = b"\0\x09\0\0\x6b\x02\x8c\x29\x3b\x9a\xca\0\0\0\0\0\x57\xf3\0\0\0\0\0\0\
\0\0\x6b\x02\x8c\x29\x0b\x70\x3e\xc0";
    let length_first = joined(
        alloc,
        &[
            FRONT,
            b"\x80\x04\0\x0b",
            MASTER_OCTETS,
            b"\0",
            SYNC_HEAD,
            MASTER_OCTETS,
            late,
        ],
    )?;
    assert_refused(&rt, &length_first, SignalingRefusal::TlvLength, 224);
    let late_first = joined(
        alloc,
        &[
            FRONT,
            SYNC_HEAD,
            MASTER_OCTETS,
            late,
            b"\x80\x04\0\x0b",
            MASTER_OCTETS,
            b"\0",
        ],
    )?;
    assert_refused(&rt, &late_first, SignalingRefusal::Nanoseconds, 225);
    let second_record = joined(
        alloc,
        &[FRONT, b"\x80\x04\0\x4e", MASTER_OCTETS, SYNC, late],
    )?;
    assert_refused(&rt, &second_record, SignalingRefusal::Nanoseconds, 225);
    let cut = joined(alloc, &[FRONT, SYNC_HEAD, MASTER_OCTETS, SYNC, b"\0\x03\0"])?;
    assert_refused(&rt, &cut, SignalingRefusal::TlvLength, 224);
    let of_delay = joined(alloc, &[FRONT, b"\x7f\0\0\x2c", MASTER_OCTETS, SYNC])?;
    assert_refused(&rt, &of_delay, SignalingRefusal::TlvLength, 224);
    Ok(())
}

#[test]
fn reads_no_padding(rt: HostRuntime) -> Result<(), Fail> {
    let mut message = joined(rt.alloc(), &[FRONT, DELAY_HEAD, MASTER_OCTETS, DELAY])?;
    message.extend_from_slice(SYNC_HEAD)?;
    assert_told(&rt, &message, &[Reading::Delay(delay_reading()?)]);
    Ok(())
}

fn header() -> Header {
    Header {
        major_sdo: Nibble::new(0).unwrap(),
        minor_version: Nibble::new(0).unwrap(),
        domain: 0,
        minor_sdo: 0,
        flags: [0, 0],
        correction: Interval(0),
        specific: [0; 4],
        source: PortIdentity {
            clock: [0x02, 0, 0, 0xff, 0xfe, 0xaa, 0xbb, 0xcc],
            port: 0,
        },
        sequence: Seq(2),
        control: 5,
        log: 127,
    }
}

#[test]
fn writes_what_a_slave_sent(rt: HostRuntime) -> Result<(), Fail> {
    let all = PortIdentity {
        clock: [0xff; 8],
        port: 0xffff,
    };
    let sync = [sync_reading()?];
    let delay = [delay_reading()?];
    let tlvs = [
        Tlv::SyncTiming {
            master: MASTER,
            readings: &sync,
        },
        Tlv::DelayTiming {
            master: MASTER,
            readings: &delay,
        },
    ];
    let owed = joined(
        rt.alloc(),
        &[
            FRONT,
            SYNC_HEAD,
            MASTER_OCTETS,
            SYNC,
            DELAY_HEAD,
            MASTER_OCTETS,
            DELAY,
        ],
    )?;
    let mut buffer = [0xee; 140];
    assert_eq!(rt;
        encode_signaling(&header(), all, &tlvs, &mut buffer),
        Ok(136)
    );
    assert_eq!(rt; buffer.get(..136), Some(owed.as_slice()));
    assert!(rt; buffer.iter().skip(136).all(|octet| *octet == 0xee));
    let mut short = [0xee; 135];
    let refused = encode_signaling(&header(), all, &tlvs, &mut short);
    assert_eq!(rt; refused, Err(SignalingEncodeRefusal::NoRoom));
    assert!(rt; short.iter().all(|octet| *octet == 0xee));
    Ok(())
}

#[test]
fn refuses_what_is_too_long(rt: HostRuntime) -> Result<(), Fail> {
    // 44 octets, and 14 and 34 for each record: 1,926 of them take 65,542.
    let readings = [sync_reading()?; 1_926];
    let tlvs = [Tlv::SyncTiming {
        master: MASTER,
        readings: &readings,
    }];
    let refused = encode_signaling(&header(), MASTER, &tlvs, &mut []);
    assert_eq!(rt; refused, Err(SignalingEncodeRefusal::TooLong));
    assert_eq!(rt; SignalingEncodeRefusal::TooLong.code(), 231);
    assert_eq!(rt; SignalingEncodeRefusal::NoRoom.code(), 232);
    Ok(())
}

/// Each of these errors says its text.
fn assert_said<E: Error>(
    rt: &(impl Abort + AllocGlobal),
    errors: &[(E, &str)],
) -> Result<(), Fail> {
    for (error, text) in errors {
        let said = format!(in rt.alloc(); "{error}")?;
        assert_eq!(rt; said.as_str(), *text);
    }
    Ok(())
}

#[test]
fn says_why(rt: HostRuntime) -> Result<(), Fail> {
    let reading = [
        (
            SignalingRefusal::NoSignaling,
            "there is no header of Signaling: 34 octets, versionPTP 2, messageType 12",
        ),
        (
            SignalingRefusal::LengthField,
            "messageLength of Signaling is below 44",
        ),
        (
            SignalingRefusal::Truncated,
            "there are fewer octets than messageLength of Signaling",
        ),
        (
            SignalingRefusal::TlvLength,
            "a TLV passes messageLength, or its value isn't 10 octets and whole records",
        ),
        (
            SignalingRefusal::Nanoseconds,
            "the nanoseconds of a timestamp in a TLV are 10^9 or more",
        ),
    ];
    assert_said(&rt, &reading)?;
    let writing = [
        (
            SignalingEncodeRefusal::TooLong,
            "the TLVs are too long: messageLength would pass 65535",
        ),
        (
            SignalingEncodeRefusal::NoRoom,
            "the buffer is shorter than the Signaling message",
        ),
    ];
    assert_said(&rt, &writing)
}
