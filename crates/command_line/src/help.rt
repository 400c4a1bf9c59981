//! The help of the whole program.

/// The help of the whole program. Its last line has the version, which the file VERSION has too, and the logic of the kit.
pub(crate) const PROGRAM: &str = "\
'ptpx <COMMAND> --help' says what a subcommand reads and writes, its exit statuses, faults and limits.
docs/NUMBERS.md has each number that is answered, and what to do about it.

ptpx 0.9.0, made with the Rattle kit, logic dac8208d650f15bf";
