//! What the arguments of `ptpx` ask for: a subcommand, help, or nothing, as `clap` reads them.
#![tactic(auto)]

mod arguments;
pub mod commands;
mod help;
mod limit;
mod named;
mod number;
mod options;
mod port_identity;
mod table;

pub use arguments::{Invocation, parse};
pub use commands::{Subcommand, subcommands};
pub use named::named_subcommand;
pub use table::{OptionRow, SubcommandRow};
