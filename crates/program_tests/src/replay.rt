//! `replay` over schedules and devices of all kinds.

use failing_devices::{Sink, Source, WRITE_FAILURES, lines_in};
use std::alloc::Global;
use std::io::ErrorKind;
use std::test::Fail;
use whole_program::{Counted, Fault, FaultKind, OctetReader, replay};

/// One exchange with a slave behind a clock.
const SCHEDULE: [&str; 17] = [
    r#"{"domain":0,"first":0,"id":"001122fffe334455","kind":"master","log":0,"node":"M","port":1}"#,
    r#"{"domain":0,"first":0,"id":"00aabbfffeccddee","kind":"slave","log":0,"node":"S","port":1}"#,
    r#"{"kind":"clock","node":"T"}"#,
    r#"{"diff":"65536000","ev":"stepclock","node":"S"}"#,
    r#"{"ev":"setmaster","master":"M","node":"S"}"#,
    r#"{"at":[1,0,0],"ev":"sync","node":"M"}"#,
    r#"{"at":[1,500,0],"copy":2,"ev":"enter","node":"T"}"#,
    r#"{"at":[1,2500,0],"ev":"leave","node":"T","transit":3}"#,
    r#"{"at":[1,3000,0],"copy":4,"ev":"arrive","node":"S"}"#,
    r#"{"ev":"follow","node":"M"}"#,
    r#"{"copy":6,"ev":"hear","node":"S"}"#,
    r#"{"at":[2,0,0],"ev":"request","node":"S"}"#,
    r#"{"at":[2,500,0],"copy":8,"ev":"enter","node":"T"}"#,
    r#"{"at":[2,4000,16384],"ev":"leave","node":"T","transit":9}"#,
    r#"{"at":[2,4500,16384],"copy":10,"ev":"arrive","node":"M"}"#,
    r#"{"ev":"stamped","node":"S"}"#,
    r#"{"copy":11,"ev":"hear","node":"S"}"#,
];

/// What comes of it.
pub(crate) const TRANSCRIPT: [&str; 17] = [
    r#"{"domain":0,"first":0,"id":"001122fffe334455","kind":"master","log":0,"node":"M","port":1}"#,
    r#"{"domain":0,"first":0,"id":"00aabbfffeccddee","kind":"slave","log":0,"node":"S","port":1}"#,
    r#"{"kind":"clock","node":"T"}"#,
    r#"{"diff":"65536000","ev":"stepclock","n":0,"node":"S","out":"done"}"#,
    r#"{"ev":"setmaster","master":"M","n":1,"node":"S","out":"done"}"#,
    r#"{"at":[1,0,0],"ev":"sync","hex":"0012002c00000200000000000000000000000000001122fffe33445500010000000000000000000000000000","n":2,"node":"M","out":"made","reading":[1,0,0]}"#,
    r#"{"at":[1,500,0],"copy":2,"ev":"enter","n":3,"node":"T","out":"entered","reading":[1,500,0]}"#,
    r#"{"at":[1,2500,0],"ev":"leave","hex":"0012002c000002000000000007d0000000000000001122fffe33445500010000000000000000000000000000","n":4,"node":"T","out":"made","reading":[1,2500,0],"transit":3}"#,
    r#"{"at":[1,3000,0],"copy":4,"ev":"arrive","n":5,"node":"S","out":"held","reading":[1,4000,0]}"#,
    r#"{"ev":"follow","hex":"0812002c00000000000000000000000000000000001122fffe33445500010000020000000000000100000000","n":6,"node":"M","out":"made"}"#,
    r#"{"copy":6,"ev":"hear","n":7,"node":"S","out":"completed"}"#,
    r#"{"at":[2,0,0],"ev":"request","hex":"0112002c0000000000000000000000000000000000aabbfffeccddee00010000017f00000000000000000000","n":8,"node":"S","out":"made","reading":[2,1000,0]}"#,
    r#"{"at":[2,500,0],"copy":8,"ev":"enter","n":9,"node":"T","out":"entered","reading":[2,500,0]}"#,
    r#"{"at":[2,4000,16384],"ev":"leave","hex":"0112002c00000000000000000dac40000000000000aabbfffeccddee00010000017f00000000000000000000","n":10,"node":"T","out":"made","reading":[2,4000,16384],"transit":9}"#,
    r#"{"at":[2,4500,16384],"copy":10,"ev":"arrive","hex":"0912003600000000000000000dac000000000000001122fffe3344550001000003000000000000020000119400aabbfffeccddee0001","n":11,"node":"M","out":"made","reading":[2,4500,16384]}"#,
    r#"{"ev":"stamped","n":12,"node":"S","out":"done"}"#,
    r#"{"copy":11,"ev":"hear","n":13,"node":"S","offset2":"131072000","out":"report","path2":"131072000","tags":[5,7,8,13]}"#,
];

/// What is answered where this line has a fault.
pub(crate) fn fault<T>(line: u64, what: FaultKind) -> Result<T, Fault> {
    Err(Fault { line, what })
}

/// Lines, each with its LF.
pub(crate) fn joined(alloc: Global, lines: &[&str]) -> Result<String, Fail> {
    let mut text = String::new(alloc);
    for line in lines {
        text.push_str(line)?;
        text.push('\n')?;
    }
    Ok(text)
}

/// The first lines of the transcript.
fn begun(alloc: Global, count: usize) -> Result<String, Fail> {
    let mut text = String::new(alloc);
    for line in TRANSCRIPT.iter().take(count) {
        text.push_str(line)?;
        text.push('\n')?;
    }
    Ok(text)
}

#[test]
fn ends_at_endless_lines(rt: HostRuntime) -> Result<(), Fail> {
    for (octet, what, given) in [
        (b'\n', FaultKind::Json, 1),
        (b'x', FaultKind::LineTooLong, 4097),
    ] {
        let mut reader = Counted::new(Source::endless(octet));
        let mut writer = Counted::new(Sink::new(rt.alloc()));
        let answer = replay(rt.alloc(), &mut reader, &mut writer);
        assert_eq!(rt; answer, fault(1, what));
        assert_eq!(rt; reader.failures(), 0);
        assert_eq!(rt; reader.into_inner().given(), given);
        assert_eq!(rt; writer.into_inner().text(), b"".as_slice());
    }
    Ok(())
}

#[test]
fn stops_where_the_reader_fails(rt: HostRuntime) -> Result<(), Fail> {
    let text = joined(rt.alloc(), &SCHEDULE)?;
    let schedule = text.as_bytes();
    for given in 0..=schedule.len() {
        for kind in [ErrorKind::UnexpectedEof, ErrorKind::Interrupted] {
            let ended = lines_in(&schedule[..given]);
            let mut device = Source::failing(schedule, given, kind);
            let mut reader = Counted::new(OctetReader::new(&mut device));
            let mut writer = Counted::new(Sink::new(rt.alloc()));
            let answer = replay(rt.alloc(), &mut reader, &mut writer);
            let wanted = fault((ended as u64).saturating_add(1), FaultKind::Read);
            assert_eq!(rt; answer, wanted, "{given}");
            assert_eq!(rt; reader.failures(), 1, "{given}");
            assert_eq!(rt; device.left(), schedule.len().saturating_sub(given));
            let lines = if ended > 3 { ended } else { 0 };
            let written = writer.into_inner();
            assert_eq!(rt;
                written.text(),
                begun(rt.alloc(), lines)?.as_bytes(),
                "{given}"
            );
        }
    }
    Ok(())
}

#[test]
fn stops_where_the_writer_fails(rt: HostRuntime) -> Result<(), Fail> {
    let schedule = joined(rt.alloc(), &SCHEDULE)?;
    for room in 0..=17usize {
        for kind in WRITE_FAILURES {
            let mut reader = Counted::new(Source::new(schedule.as_bytes()));
            let mut writer = Counted::new(Sink::full(rt.alloc(), room, kind));
            let answer = replay(rt.alloc(), &mut reader, &mut writer);
            let wanted = if room < 17 {
                fault((room as u64).max(3).saturating_add(1), FaultKind::Write)
            } else {
                Ok(14)
            };
            assert_eq!(rt; answer, wanted, "{room}");
            assert_eq!(rt; writer.failures(), u64::from(room < 17), "{room}");
            let written = writer.into_inner();
            assert_eq!(rt;
                written.text(),
                begun(rt.alloc(), room)?.as_bytes(),
                "{room}"
            );
        }
    }
    Ok(())
}
