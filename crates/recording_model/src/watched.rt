use event_codec::PortIdentity;

/// The slave at whose port datagrams were recorded, the master that it follows, and their domain.
#[derive(Clone, Copy, Debug, PartialEq, Eq)]
pub struct Watched {
    /// The portIdentity of the slave.
    pub slave: PortIdentity,
    /// The portIdentity of the master.
    pub master: PortIdentity,
    /// The domainNumber of both.
    pub domain: u8,
}
