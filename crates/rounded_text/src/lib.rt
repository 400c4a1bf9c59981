//! Rounded numbers as text, with three decimals each.
#![tactic(auto)]

mod milliseconds;
mod thousandths;

pub use milliseconds::Milliseconds;
pub use thousandths::Thousandths;
