/// The identity of a port: its clock's identity and its number there (IEEE 1588-2019, 5.3.5). Ports of one clock stand together.
#[derive(Clone, Copy, Debug, PartialEq, Eq, PartialOrd, Ord, Hash)]
pub struct PortIdentity {
    /// clockIdentity, an EUI-64.
    pub clock: [u8; 8],
    /// portNumber.
    pub port: u16,
}

/// What a port is set up with.
#[derive(Clone, Copy, Debug, PartialEq, Eq)]
pub struct PortConfig {
    /// portIdentity.
    pub identity: PortIdentity,
    /// domainNumber.
    pub domain: u8,
    /// logMessageInterval of what the port writes as a master.
    pub log: i8,
}
