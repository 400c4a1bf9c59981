//! The whole program: statuses, and where its texts go.

use failing_devices::{Sink, Source, WRITE_FAILURES};
use std::alloc::Global;
use std::io::ErrorKind;
use std::test::Fail;
use whole_program::{Counted, command};

/// A Sync whose fields are 0, but for messageLength, versionPTP and twoStepFlag.
const SYNC: &[u8] =
    b"0012002c00000200000000000000000000000000001122fffe33445500010000000000000000000000000000\n";

/// What the program answered and wrote.
#[derive(Drop)]
struct Ended {
    status: u8,
    output: Vec<u8>,
    errors: Vec<u8>,
}

/// Runs the program over these words, with blanks between them, and these devices, where a person reads
/// errors on a terminal, or nobody does.
fn run(
    alloc: Global,
    line: &str,
    input: Source<'_>,
    output: Sink,
    mut errors: Sink,
    is_terminal: bool,
) -> Result<Ended, Fail> {
    let mut arguments = Vec::new(alloc);
    for argument in line.split(' ').filter(|_| !line.is_empty()) {
        arguments.push(String::from_str(alloc, argument)?)?;
    }
    let mut reader = Counted::new(input);
    let mut writer = Counted::new(output);
    let status = command(
        alloc,
        arguments.as_slice(),
        &mut reader,
        &mut writer,
        &mut errors,
        is_terminal,
    );
    Ok(Ended {
        status,
        output: writer.into_inner().into_text(),
        errors: errors.into_text(),
    })
}

/// A clock and its first event, which no clock may have.
const SCHEDULE: &[u8] = b"{\"node\":\"T\",\"kind\":\"clock\"}\n{\"ev\":\"tick\",\"node\":\"T\"}\n";

/// A slave that is said to have reported at a tick.
const NO_REPORT: &[u8] =
    b"{\"domain\":0,\"first\":0,\"id\":\"00aabbfffeccddee\",\"kind\":\"slave\",\
\"log\":0,\"node\":\"S\",\"port\":1}\n{\"ev\":\"tick\",\"n\":0,\"node\":\"S\",\"offset2\":\"0\",\"out\":\"report\",\
\"path2\":\"0\",\"tags\":[0,0,0,0]}\n";

/// One octet more than a line may have.
const LONG: [u8; 4097] = [b'0'; 4097];

/// Arguments and an input, and what is said to a person.
const SAID: [((&str, &[u8]), &[u8]); 7] = texts! {
    ("ptpx show", SYNC) => b"",
    ("ptpx show", b"xy\n") => b"ptpx: fault 806 at line 1\n\
ptpx: 806 is a line that isn't pairs of hexadecimal digits\n",
    ("ptpx replay", NO_REPORT) => b"ptpx: fault 806 at line 2\n\
ptpx: 806 is a line that isn't what a schedule asks for; 'ptpx explain' says what is wrong with it\n",
    ("ptpx replay", SCHEDULE) => b"ptpx: fault 807 (604) at line 2\n\
ptpx: 807 is a network or an event that can't be; 'ptpx explain' says why\n",
    ("ptpx check", SCHEDULE) => b"ptpx: fault 806 at line 2\n\
ptpx: 806 is a line that isn't what a transcript asks for; 'ptpx explain' says what is wrong with it\n",
    ("ptpx check", SYNC) => b"ptpx: fault 805 at line 1\n\
ptpx: 805 is a line that isn't UTF-8 or isn't JSON; 'ptpx explain' says where\n",
    ("ptpx check", &LONG) => b"ptpx: fault 803 at line 1\n\
ptpx: 803 is a line of more than 4096 octets; 'ptpx explain' says what the input looks like\n",
};

#[test]
fn says_more_on_a_terminal(rt: HostRuntime) -> Result<(), Fail> {
    for ((line, input), said) in SAID {
        let (output, errors) = (Sink::new(rt.alloc()), Sink::new(rt.alloc()));
        let ended = run(rt.alloc(), line, Source::new(input), output, errors, true)?;
        assert_eq!(rt; ended.errors.as_slice(), said, "{line}");
    }
    Ok(())
}

/// Arguments, and whether the reader, the writer and the writer of errors fail, each once, at the
/// first call; and what is said. What failed isn't tried again, and what can't be said is passed over.
const BROKEN: [((&str, bool, bool, bool), &[u8]); 4] = texts! {
    ("ptpx show", true, false, false) => b"ptpx: fault 801 at line 1\n",
    ("ptpx show", false, true, false) => b"ptpx: fault 802 at line 1\n",
    ("ptpx help", false, true, false) => b"ptpx: fault 802 at line 0\n",
    ("ptpx show", true, true, true) => b"",
};

/// A reader of a Sync.
fn source(is_broken: bool) -> Source<'static> {
    if is_broken {
        Source::failing(SYNC, 0, ErrorKind::Interrupted)
    } else {
        Source::new(SYNC)
    }
}

fn sink(alloc: Global, is_broken: bool, kind: Option<ErrorKind>) -> Sink {
    Sink::full(alloc, if is_broken { 0 } else { usize::MAX }, kind)
}

#[test]
fn says_which_device_failed(rt: HostRuntime) -> Result<(), Fail> {
    for ((line, reader, writer, of_errors), said) in BROKEN {
        for kind in WRITE_FAILURES {
            let output = sink(rt.alloc(), writer, kind);
            let errors = sink(rt.alloc(), of_errors, Some(ErrorKind::BrokenPipe));
            let ended = run(rt.alloc(), line, source(reader), output, errors, false)?;
            assert_eq!(rt; ended.status, 3, "{said:?}");
            assert_eq!(rt; ended.output.as_slice(), b"".as_slice(), "{said:?}");
            assert_eq!(rt; ended.errors.as_slice(), said, "{said:?}");
        }
    }
    Ok(())
}

/// No arguments at all are no command, and nothing is written then.
#[test]
fn refuses_no_arguments(rt: HostRuntime) -> Result<(), Fail> {
    let output = sink(rt.alloc(), true, Some(ErrorKind::BrokenPipe));
    let errors = Sink::new(rt.alloc());
    let ended = run(rt.alloc(), "", source(false), output, errors, false)?;
    assert_eq!(rt; ended.status, 2);
    Ok(())
}
