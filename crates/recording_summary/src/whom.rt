//! Whom an input is of.

use event_codec::PortIdentity;

/// What is known, and by which line or packet; by none where it was asked for.
#[derive(Clone, Copy)]
pub struct Known<T> {
    /// What is known.
    pub value: T,
    /// The line or packet that told it.
    pub line: Option<u64>,
}

/// Whom an input is of, as far as that is known.
#[derive(Clone, Copy)]
pub struct Whom {
    /// The domain of both.
    pub domain: Option<Known<u8>>,
    /// The master that the slave follows.
    pub master: Option<Known<PortIdentity>>,
    /// The slave, whose port sent and received what was recorded.
    pub slave: Option<Known<PortIdentity>>,
}
