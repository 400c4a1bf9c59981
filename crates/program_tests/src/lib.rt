//! Tests by the public calls of the program and of its devices, devices of all kinds and statuses; and the texts of refusals and faults, of all crates.
#![tactic(auto)]

/// Cases, each with its text.
macro_rules! texts {
    ($($case:expr => $text:expr,)*) => {
        [$(($case, $text)),*]
    };
}

#[cfg(test)]
mod counted;
#[cfg(test)]
mod program;
#[cfg(test)]
mod refusals;
#[cfg(test)]
mod replay;
#[cfg(test)]
mod show;
#[cfg(test)]
mod transcripts;
