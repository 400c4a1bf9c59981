//! What is told of an input that is compressed.

use std::io::Write;

/// With these octets begins what gzip compressed.
const GZIP: &[u8] = &[0x1f, 0x8b];

/// Tells, where a line begins as what gzip compressed does, how a subcommand reads that. What can't be written is lost.
pub fn tell_compressed<E: Write>(line: &[u8], subcommand: &'static str, errors: &mut E) {
    if line.starts_with(GZIP) {
        let _ = writeln!(
            errors,
            "ptpx: the input is compressed, as by gzip; unpack it: gunzip -c FILE | ptpx {subcommand}"
        );
    }
}
