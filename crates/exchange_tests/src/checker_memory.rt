//! The checker where memory is withheld: each growth in turn, by the script that runs these tests.

use crate::worked_exchange::{REPORT, specs, told};
use exchange_check::{CheckFault, Checker, TraceOut, Verdict, Why, check};
use network_model::{Nodes, Report};
use std::test::Fail;

/// With ample memory there is a checker, and lines that it can be fed, so the tests that withhold memory have something to try.
#[test]
fn there_is_something_to_try(rt: HostRuntime) -> Result<(), Fail> {
    let nodes = Nodes::new(rt.alloc(), &specs()?)?;
    assert!(rt; Checker::new(rt.alloc(), nodes).is_ok());
    assert!(rt; told(rt.alloc())?.is_some());
    Ok(())
}

/// The verdict is that of ample memory, or memory was refused, and the same lines get it then: of the
/// exchange, and where a result is one unit more.
#[test]
fn checks_whatever_memory_there_is(rt: HostRuntime) -> Result<(), Fail> {
    let Ok(nodes) = Nodes::new(rt.alloc(), &specs()?) else {
        return Ok(());
    };
    let Some(mut lines) = told(rt.alloc())? else {
        return Ok(());
    };
    let wrong = Verdict::Refused {
        line: 13,
        why: Why::WrongValue,
    };
    for (offset2, wanted) in [(131_072_000, Verdict::Accepted(1)), (131_072_001, wrong)] {
        let last = lines.last_mut().ok_or("no line")?;
        last.out = TraceOut::Report(Report { offset2, ..REPORT });
        let verdict = match check(rt.alloc(), &nodes, &lines) {
            Ok(verdict) => verdict,
            Err(fault) => {
                assert_eq!(rt; fault, CheckFault::Memory);
                check(rt.alloc(), &nodes, &lines)?
            }
        };
        assert_eq!(rt; verdict, wanted);
    }
    Ok(())
}

/// A line that is refused for want of memory changes nothing, and can be fed again.
#[test]
fn is_fed_whatever_memory_there_is(rt: HostRuntime) -> Result<(), Fail> {
    let Ok(nodes) = Nodes::new(rt.alloc(), &specs()?) else {
        return Ok(());
    };
    let mut checker = match Checker::new(rt.alloc(), nodes) {
        Ok(checker) => checker,
        Err(fault) => {
            assert_eq!(rt; fault, CheckFault::Memory);
            return Ok(());
        }
    };
    let (Some(lines), Some(again)) = (told(rt.alloc())?, told(rt.alloc())?) else {
        return Ok(());
    };
    for (line, again) in lines.into_iter().zip(again) {
        let before = checker.verdict();
        if let Err(fault) = checker.feed(line) {
            assert_eq!(rt; fault, CheckFault::Memory);
            assert_eq!(rt; checker.verdict(), before);
            checker.feed(again)?;
        }
    }
    assert_eq!(rt; checker.verdict(), Verdict::Accepted(1));
    Ok(())
}
