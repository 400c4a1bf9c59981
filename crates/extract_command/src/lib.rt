//! What `ptpx extract` runs.
#![tactic(auto)]

ghost use Rattle.extract_command.specs.Run.{RunsExtract, RunsLines, RunsList};

use capture_extract::{ExtractForm, Extraction, extract, list};
use capture_file::InterfaceName;
use capture_report::finish_capture;
use command_options::ExtractOptions;
use std::alloc::Global;
use std::io::{Read, Write};
use text_lines::Counted;

/// Writes what a capture has of PTP, as lines or as a table, tells what came of its packets, and answers the exit status.
pub fn run_extract<R: Read, W: Write, E: Write>(
    alloc: Global,
    options: ExtractOptions,
    input: &mut Counted<R>,
    output: &mut Counted<W>,
    errors: &mut E,
) -> u8
    ensures { RunsExtract R.remaining W.contents options result input.old input.new output.old output.new }
{
    if options.list {
        run_list(alloc, options.interface, input, output, errors)
    } else {
        run_lines(alloc, options, input, output, errors)
    }
}

/// Writes a table of who sent what in a capture.
fn run_list<R: Read, W: Write, E: Write>(
    alloc: Global,
    interface: Option<InterfaceName>,
    input: &mut Counted<R>,
    output: &mut Counted<W>,
    errors: &mut E,
) -> u8
    ensures { RunsList interface R.remaining W.contents result input.old input.new output.old output.new }
{
    let (answer, packets) = list(alloc, interface, input, output, errors);
    let status = finish_capture(errors, answer);
    packets.tell(errors);
    status
}

/// Writes the lines of what a capture has of PTP.
fn run_lines<R: Read, W: Write, E: Write>(
    alloc: Global,
    options: ExtractOptions,
    input: &mut Counted<R>,
    output: &mut Counted<W>,
    errors: &mut E,
) -> u8
    ensures { RunsLines R.remaining W.contents options result input.old input.new output.old output.new }
{
    let form = if options.octets {
        ExtractForm::Octets
    } else {
        ExtractForm::Timed
    };
    let extraction = Extraction {
        form,
        interface: options.interface,
    };
    let (answer, packets) = extract(alloc, &extraction, input, output, errors);
    let status = finish_capture(errors, answer);
    packets.tell(errors);
    status
}
