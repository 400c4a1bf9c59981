use crate::tap_name::TapName;
use event_codec::PortIdentity;

/// Which taps and whose messages are asked for, as far as they are.
#[derive(Clone, Copy, Debug, PartialEq, Eq)]
pub struct WantedTaps {
    /// The tap that a Sync meets first.
    pub from: Option<TapName>,
    /// The tap that a Delay_Req meets first.
    pub to: Option<TapName>,
    /// domainNumber.
    pub domain: Option<u8>,
    /// Who sends the Syncs.
    pub master: Option<PortIdentity>,
    /// Who sends the Delay_Reqs.
    pub slave: Option<PortIdentity>,
}
