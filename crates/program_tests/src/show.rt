//! `show` over lines and devices of all kinds.

use failing_devices::{Sink, Source, WRITE_FAILURES, lines_in};
use std::alloc::Global;
use std::io::ErrorKind;
use std::test::Fail;
use whole_program::{Counted, Fault, FaultKind, show};

/// What is answered where this line has a fault.
fn fault<T>(line: u64, what: FaultKind) -> Result<T, Fault> {
    Err(Fault { line, what })
}

/// What `show` answers to these octets, what it wrote, and what it left unread.
fn shown(alloc: Global, input: &[u8]) -> (Result<u64, Fault>, Vec<u8>, &[u8]) {
    let mut reader = Counted::new(Source::new(input));
    let mut writer = Counted::new(Sink::new(alloc));
    let answer = show(alloc, &mut reader, &mut writer);
    let written = writer.into_inner().into_text();
    (answer, written, reader.into_inner().unread())
}

/// The answer to so many lines of fewer than 34 octets.
fn short_answers(alloc: Global, lines: usize) -> Result<Vec<u8>, Fail> {
    let mut text = Vec::new(alloc);
    for _ in 0..lines {
        text.extend_from_slice(b"refused 201\n")?;
    }
    Ok(text)
}

#[test]
fn leaves_the_lines_after_a_fault(rt: HostRuntime) -> Result<(), Fail> {
    let (answer, _, unread) = shown(rt.alloc(), b"00\n0\n0001\n\n");
    assert_eq!(rt; answer, fault(2, FaultKind::Field));
    assert_eq!(rt; unread, b"0001\n\n".as_slice());

    let (answer, written, unread) = shown(rt.alloc(), unread);
    assert_eq!(rt; answer, Ok(2));
    assert_eq!(rt; written, short_answers(rt.alloc(), 2)?);
    assert_eq!(rt; unread.len(), 0);
    Ok(())
}

/// So many times an octet, and these after it: what is wrong with the line, and how many octets are unread.
const LENGTHS: [(u8, usize, &[u8], Option<FaultKind>, usize); 9] = [
    (b'x', 4096, b"\n", Some(FaultKind::Field), 0),
    (b'x', 4097, b"\n", Some(FaultKind::LineTooLong), 1),
    (b'x', 4097, b"", Some(FaultKind::LineTooLong), 0),
    (b'x', 5000, b"\n\n", Some(FaultKind::LineTooLong), 905),
    (b'x', 4096, b"\r\n", Some(FaultKind::LineTooLong), 1),
    (b'0', 4096, b"\r\n", Some(FaultKind::LineTooLong), 1),
    (b'0', 4095, b"\r\n", Some(FaultKind::Field), 0),
    (b'0', 4094, b"\r\n", None, 0),
    (b'0', 4096, b"", None, 0),
];

#[test]
fn lines_have_at_most_4096_octets(rt: HostRuntime) -> Result<(), Fail> {
    for (octet, count, end, wrong, left) in LENGTHS {
        let mut input = vec![in rt.alloc(); octet; count]?;
        input.extend_from_slice(end)?;
        let (answer, written, unread) = shown(rt.alloc(), input.as_slice());
        // A datagram of zeros has versionPTP 0.
        let (wanted, text): (_, &[u8]) = match wrong {
            Some(what) => (fault(1, what), b""),
            None => (Ok(1), b"refused 202\n"),
        };
        assert_eq!(rt; answer, wanted, "{count}");
        assert_eq!(rt; unread.len(), left, "{count}");
        assert_eq!(rt; written.as_slice(), text, "{count}");
    }
    Ok(())
}

#[test]
fn ends_at_endless_lines(rt: HostRuntime) -> Result<(), Fail> {
    let mut reader = Counted::new(Source::endless(b'x'));
    let mut writer = Counted::new(Sink::new(rt.alloc()));
    let answer = show(rt.alloc(), &mut reader, &mut writer);
    assert_eq!(rt; answer, fault(1, FaultKind::LineTooLong));
    assert_eq!(rt; reader.failures(), 0);
    assert_eq!(rt; reader.into_inner().given(), 4097);
    assert_eq!(rt; writer.into_inner().text(), b"".as_slice());

    let mut reader = Counted::new(Source::endless(b'\n'));
    let mut writer = Counted::new(Sink::new(rt.alloc()));
    let answer = show(rt.alloc(), &mut reader, &mut writer);
    assert_eq!(rt; answer, fault(1_048_577, FaultKind::TooManyLines));
    assert_eq!(rt; reader.into_inner().given(), 1_048_577);
    assert_eq!(rt; writer.failures(), 0);
    let text = writer.into_inner().into_text();
    assert_eq!(rt; text, short_answers(rt.alloc(), 1_048_576)?);
    Ok(())
}

const SHORT: &[u8] = b"00\n\n\r\n0012\n0b\n";

#[test]
fn stops_where_the_reader_fails(rt: HostRuntime) -> Result<(), Fail> {
    for given in 0..=SHORT.len() {
        for kind in [ErrorKind::UnexpectedEof, ErrorKind::Interrupted] {
            let ended = lines_in(&SHORT[..given]);
            let mut reader = Counted::new(Source::failing(SHORT, given, kind));
            let mut writer = Counted::new(Sink::new(rt.alloc()));
            let answer = show(rt.alloc(), &mut reader, &mut writer);
            let line = (ended as u64).saturating_add(1);
            assert_eq!(rt; answer, fault(line, FaultKind::Read), "{given}");
            assert_eq!(rt; reader.failures(), 1, "{given}");
            let left = reader.into_inner().left();
            assert_eq!(rt; left, SHORT.len().saturating_sub(given), "{given}");
            assert_eq!(rt; writer.failures(), 0, "{given}");
            let text = writer.into_inner().into_text();
            assert_eq!(rt; text, short_answers(rt.alloc(), ended)?, "{given}");
        }
    }
    Ok(())
}

#[test]
fn stops_where_the_writer_fails(rt: HostRuntime) -> Result<(), Fail> {
    for room in 0..=5 {
        for kind in WRITE_FAILURES {
            let mut reader = Counted::new(Source::new(SHORT));
            let mut writer = Counted::new(Sink::full(rt.alloc(), room, kind));
            let answer = show(rt.alloc(), &mut reader, &mut writer);
            let wanted = if room < 5 {
                fault((room as u64).saturating_add(1), FaultKind::Write)
            } else {
                Ok(5)
            };
            assert_eq!(rt; answer, wanted, "{room}");
            assert_eq!(rt; reader.failures(), 0, "{room}");
            assert_eq!(rt; writer.failures(), u64::from(room < 5), "{room}");
            let text = writer.into_inner().into_text();
            assert_eq!(rt; text, short_answers(rt.alloc(), room)?, "{room}");
        }
    }
    Ok(())
}
