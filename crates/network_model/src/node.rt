ghost use Rattle.std.specs.Prelude.{◌≡◌};

use crate::name::Name;
use event_codec::{PortConfig, PortIdentity};
use ptp_units::Seq;

/// What a node is. A port draws its sequence numbers one after the other, `first` before all.
#[derive(Clone, Copy, Debug, PartialEq, Eq)]
pub enum NodeKind {
    /// A master, which sends two-step and one-step Syncs.
    Master {
        /// What its port is set up with.
        config: PortConfig,
        /// The number of its first Sync.
        first: Seq,
    },
    /// A slave that uses the delay request-response mechanism.
    Slave {
        /// What its port is set up with.
        config: PortConfig,
        /// The number of its first Delay_Req.
        first: Seq,
    },
    /// A one-step end-to-end transparent clock, which has no identity.
    Clock,
}

impl NodeKind {
    ghost use Rattle.network_model.specs.Network.{identity_of};

    /// The identity of its port, which a transparent clock hasn't.
    pub(crate) fn identity(&self) -> Option<PortIdentity>
        ensures { result ≡ identity_of self.now }
    {
        match self {
            NodeKind::Master { config, .. } | NodeKind::Slave { config, .. } => {
                Some(config.identity)
            }
            NodeKind::Clock => None,
        }
    }
}

/// A node of a network.
#[derive(Clone, Copy, Debug, PartialEq, Eq)]
pub struct NodeSpec {
    /// What events call it.
    pub name: Name,
    /// What it is.
    pub kind: NodeKind,
}
