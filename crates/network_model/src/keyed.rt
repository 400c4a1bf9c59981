//! How the tables of names and identities hash.
ghost use Rattle.std.specs.Prelude.{ℕ, ◌≡◌, ◌++◌, List};
ghost use Rattle.sha2.specs.Hashers.{Holds256};
ghost use Rattle.network_model.specs.Inner.Keyed.{keyed_by, octets_of_node};

use crate::node::NodeSpec;
use sha2::{Digest, Sha256};
use std::hash::{BuildHasher, DefaultHasher, Hasher};

/// SipHash that has taken a digest of all names and identities of a network as its key. The key is known only once all of them
/// are picked, and another name or identity gives another key. That none meet is not said.
#[derive(Clone, Copy)]
pub(crate) struct KeyedState {
    keyed: DefaultHasher,
}

impl KeyedState {
    /// The state for these nodes.
    pub(crate) fn new(nodes: &[NodeSpec]) -> KeyedState
        ensures { result.keyed ≡ keyed_by nodes.now }
    {
        let mut digest = Sha256::new();
        for node in nodes {
            take_node(&mut digest, node);
        }
        let mut keyed = DefaultHasher::new();
        keyed.write(&digest.finalize());
        KeyedState { keyed }
    }
}

impl BuildHasher for KeyedState {
    type Hasher = DefaultHasher;

    ghost build_hasher = { λ state. state.keyed };

    fn build_hasher(&self) -> DefaultHasher {
        self.keyed
    }
}

// A name and an identity, each behind the number of its octets, so that other names and identities give other octets.
fn take_node(digest: &mut Sha256, node: &NodeSpec)
    ensures { (octets : List ℕ) → Holds256 digest.old octets → Holds256 digest.new (octets ++ octets_of_node node.now) }
{
    let name = node.name.text().as_bytes();
    let length = [name.len() as u8];
    digest.update(length);
    digest.update(name);
    match node.kind.identity() {
        Some(identity) => {
            let length = [10];
            let clock = identity.clock;
            let port = identity.port.to_be_bytes();
            digest.update(length);
            digest.update(clock);
            digest.update(port);
        }
        None => {
            let length = [0];
            digest.update(length);
        }
    }
}
