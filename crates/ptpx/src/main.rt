//! `ptpx`: reads standard input, writes standard output, and leaves the rest to `command`.
#![tactic(auto)]

use std::io::{ErrorKind, IsTerminal};
use std::process::ExitCode;
use std::{env, io};
use whole_program::{Counted, OctetReader, command};

/// Arguments that aren't UTF-8 are no command.
const NO_COMMAND: u8 = 2;

/// A fault before a line is read.
const FAULT: u8 = 3;

fn main(rt: HostRuntime) -> ExitCode {
    ExitCode::from(run(&rt))
}

/// Runs the program, and answers its exit status.
fn run(rt: &HostRuntime) -> u8 {
    let alloc = rt.alloc();
    let arguments: Vec<String> = match env::args(rt).and_then(|args| Ok(args.collect(alloc)?)) {
        Ok(arguments) => arguments,
        Err(error) if error.kind() == ErrorKind::InvalidData => return no_command(rt),
        Err(_) => return no_memory(rt),
    };
    let mut input = Counted::new(OctetReader::new(rt.stdin()));
    let mut output = Counted::new(rt.stdout());
    command(
        alloc,
        arguments.as_slice(),
        &mut input,
        &mut output,
        &mut rt.stderr(),
        rt.stderr().is_terminal(),
    )
}

fn no_command(rt: &HostRuntime) -> u8 {
    let _ = eprintln!(rt; "error: an argument isn't UTF-8\n\nUsage: ptpx <COMMAND>");
    NO_COMMAND
}

fn no_memory(rt: &HostRuntime) -> u8 {
    let _ = eprintln!(rt; "ptpx: fault 808 at line 0");
    FAULT
}
