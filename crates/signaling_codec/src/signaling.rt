use crate::tlvs::Tlvs;
use event_codec::{Header, PortIdentity};

/// A Signaling message (IEEE 1588-2019, 13.12).
#[derive(Drop, Debug)]
pub struct Signaling<'a> {
    /// The fields that all messages have; sourcePortIdentity is that of the slave, where it tells its own readings.
    pub header: Header,
    /// targetPortIdentity.
    pub target: PortIdentity,
    /// Its TLVs.
    pub tlvs: Tlvs<'a>,
}
