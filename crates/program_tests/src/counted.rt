//! Devices that count their failures, and the reader that reads ahead.

use failing_devices::{Sink, Source, WRITE_FAILURES};
use std::io::{ErrorKind, Read, Write};
use std::test::Fail;
use text_lines::{Counted, OctetReader};

#[test]
fn devices_count_their_failures(rt: HostRuntime) -> Result<(), Fail> {
    for kind in [ErrorKind::UnexpectedEof, ErrorKind::Interrupted] {
        let mut octets = [0; 3];
        let mut reader = Counted::new(Source::failing(b"abc", 2, kind));
        assert_eq!(rt; reader.read(&mut octets)?, 2);
        assert_eq!(rt; octets, *b"ab\0");
        assert_eq!(rt; reader.failures(), 0);
        assert!(rt; reader.read(&mut octets).is_err());
        assert_eq!(rt; reader.failures(), 1);
        assert_eq!(rt;
            reader.octets_given(),
            2,
            "and not those that were asked for"
        );
        assert_eq!(rt; reader.read(&mut octets)?, 1, "it goes on");
        assert_eq!(rt; octets, *b"cb\0");
        assert_eq!(rt; reader.failures(), 1);
        assert_eq!(rt; reader.octets_given(), 3);
    }

    // An error, and a write that takes nothing; a flush isn't counted.
    for kind in WRITE_FAILURES {
        let mut writer = Counted::new(Sink::full(rt.alloc(), 1, kind));
        assert_eq!(rt; writer.write(b"ab")?, 2);
        assert_eq!(rt; writer.failures(), 0);
        assert_eq!(rt; writer.write(b"cd").is_err(), kind.is_some());
        assert_eq!(rt; writer.failures(), 1);
        assert_eq!(rt; writer.flush().is_err(), kind.is_some());
        assert_eq!(rt; writer.failures(), 1);
        writer.write_all(b"ef")?;
        assert_eq!(rt; writer.failures(), 1);
        assert_eq!(rt; writer.into_inner().text(), b"abef".as_slice());

        let mut writer = Counted::new(Sink::full(rt.alloc(), 0, kind));
        assert!(rt; writer.write_all(b"ab").is_err());
        assert_eq!(rt; writer.failures(), 1);
        assert_eq!(rt; writer.into_inner().text(), b"".as_slice());
    }
    Ok(())
}

#[test]
fn an_octet_reader_fails_as_its_source_and_goes_on(rt: HostRuntime) -> Result<(), Fail> {
    for kind in [ErrorKind::UnexpectedEof, ErrorKind::Interrupted] {
        let mut source = Counted::new(Source::failing(b"abc", 2, kind));
        let mut reader = OctetReader::new(&mut source);
        let mut room = [0];
        for octet in *b"ab" {
            assert_eq!(rt; reader.read(&mut room)?, 1);
            assert_eq!(rt; room[0], octet);
        }
        assert!(rt; reader.read(&mut room).is_err());
        assert_eq!(rt; reader.read(&mut room)?, 1);
        assert_eq!(rt; room[0], b'c');
        assert_eq!(rt; source.failures(), 1);
    }
    Ok(())
}

#[test]
fn reads_ahead_and_gives_the_octets_in_order(rt: HostRuntime) -> Result<(), Fail> {
    let mut octets = Vec::new(rt.alloc());
    for k in 0..20_000_u32 {
        octets.push((k % 251) as u8)?;
    }
    // Pieces of up to 8,192 octets, and of 5,000; then the end is asked for, and once more.
    for (most, asked) in [(usize::MAX, 5), (5000, 6)] {
        let mut pieces = Source::in_pieces(octets.as_slice(), most);
        let mut reader = OctetReader::new(&mut pieces);
        let mut room = [0];
        assert_eq!(rt; reader.read(&mut [])?, 0);
        for octet in octets.as_slice() {
            assert_eq!(rt; reader.read(&mut room)?, 1);
            assert_eq!(rt; room[0], *octet);
        }
        assert_eq!(rt; reader.read(&mut room)?, 0);
        assert_eq!(rt; reader.read(&mut room)?, 0);
        assert_eq!(rt; pieces.asked(), asked, "{most}");
    }
    Ok(())
}

#[test]
fn fills_a_long_buffer_with_what_was_read_ahead(rt: HostRuntime) -> Result<(), Fail> {
    let mut octets = Vec::new(rt.alloc());
    for k in 0..10_000_u32 {
        octets.push((k % 251) as u8)?;
    }
    // Of 8,192 octets, and of what is left of 10,000.
    let mut pieces = Source::new(octets.as_slice());
    let mut reader = OctetReader::new(&mut pieces);
    let mut given = Vec::new(rt.alloc());
    for count in [1, 3000, 3000, 2191, 1808, 0] {
        let mut room = [0; 3000];
        let n = if count == 1 {
            reader.read(&mut room[..1])?
        } else {
            reader.read(&mut room)?
        };
        assert_eq!(rt; n, count);
        given.extend_from_slice(&room[..n])?;
    }
    assert_eq!(rt; given, octets);
    assert_eq!(rt; pieces.asked(), 3);
    Ok(())
}
