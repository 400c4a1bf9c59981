//! A subcommand with its options, as a table has it.

use crate::commands::Help;

/// An option of a subcommand.
#[derive(Clone, Copy)]
pub struct OptionRow {
    /// What stands after two hyphens.
    pub name: &'static str,
    /// What the help calls the option's value; none: the option has no value.
    pub value: Option<&'static str>,
    /// The line that says what it is.
    pub about: &'static str,
}

/// A subcommand.
#[derive(Clone, Copy)]
pub struct SubcommandRow {
    /// The argument that names it.
    pub name: &'static str,
    /// The line that says what it does.
    pub about: &'static str,
    /// Which text its help has below the usage.
    pub help: Help,
    /// Its options, in the order of the help.
    pub options: &'static [OptionRow],
}
