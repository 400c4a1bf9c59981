//! `check_text` over transcripts and devices of all kinds.

use crate::replay::{TRANSCRIPT, fault, joined};
use failing_devices::{Sink, Source, WRITE_FAILURES, lines_in};
use std::io::ErrorKind;
use std::test::Fail;
use whole_program::{Counted, FaultKind, check_text};

#[test]
fn stops_where_the_reader_fails(rt: HostRuntime) -> Result<(), Fail> {
    let text = joined(rt.alloc(), &TRANSCRIPT)?;
    let transcript = text.as_bytes();
    for given in (0..=transcript.len()).step_by(17) {
        for kind in [ErrorKind::UnexpectedEof, ErrorKind::Interrupted] {
            let line = (lines_in(&transcript[..given]) as u64).saturating_add(1);
            let mut reader = Counted::new(Source::failing(transcript, given, kind));
            let mut writer = Counted::new(Sink::new(rt.alloc()));
            let answer = check_text(rt.alloc(), &mut reader, &mut writer);
            assert_eq!(rt; answer, fault(line, FaultKind::Read), "{given}");
            assert_eq!(rt; reader.failures(), 1, "{given}");
            let left = reader.into_inner().left();
            assert_eq!(rt; left, transcript.len().saturating_sub(given), "{given}");
            assert_eq!(rt; writer.into_inner().text(), b"".as_slice(), "{given}");
        }
    }
    Ok(())
}

#[test]
fn stops_where_the_writer_fails(rt: HostRuntime) -> Result<(), Fail> {
    let transcript = joined(rt.alloc(), &TRANSCRIPT)?;
    for kind in WRITE_FAILURES {
        let mut reader = Counted::new(Source::new(transcript.as_bytes()));
        let mut writer = Counted::new(Sink::full(rt.alloc(), 0, kind));
        let answer = check_text(rt.alloc(), &mut reader, &mut writer);
        assert_eq!(rt; answer, fault(18, FaultKind::Write));
        assert_eq!(rt; writer.failures(), 1);
        assert_eq!(rt; writer.into_inner().text(), b"".as_slice());
    }
    Ok(())
}
