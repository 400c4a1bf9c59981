//! The nodes of a network, found by name; and that a call succeeds where memory is there, which no contract says.

use crate::worked_exchange::{MASTER, SLAVE, clock, master, name, slave};
use network_model::{NodeSpec, Nodes, WorldRefusal};
use std::alloc::Global;
use std::test::Fail;

/// The number of nodes of a network, or why there is none.
fn size(alloc: Global, nodes: &[NodeSpec]) -> Result<usize, WorldRefusal> {
    Ok(Nodes::new(alloc, nodes)?.len())
}

/// Names that differ in the last of sixteen octets, and a slave of domain 3.
#[test]
fn nodes_by_name(rt: HostRuntime) -> Result<(), Fail> {
    let nodes = [
        clock("sixteen-octets-x")?,
        slave("S", SLAVE, 3)?,
        clock("sixteen-octets-y")?,
    ];
    let network = Nodes::new(rt.alloc(), &nodes)?;
    for node in nodes.iter() {
        assert_eq!(rt; network.get(&node.name).copied(), Some(*node));
    }
    for text in ["sixteen-octets-", "sixteen-octets-z", "s", "M"] {
        assert_eq!(rt; network.get(&name(text)?).copied(), None, "{text}");
    }
    assert!(rt; !network.is_empty());
    assert!(rt; Nodes::new(rt.alloc(), &[])?.is_empty());
    Ok(())
}

/// For runs in which one growth after the other is refused: each answer is that of ample memory,
/// or that memory was refused.
#[test]
fn networks_whatever_memory_there_is(rt: HostRuntime) -> Result<(), Fail> {
    let fine = [
        master("M", MASTER, 0)?,
        slave("S", SLAVE, 0)?,
        clock("T")?,
        clock("U")?,
        clock("V")?,
    ];
    let found = size(rt.alloc(), &fine);
    assert!(rt;
        found == Ok(5) || found == Err(WorldRefusal::Memory),
        "{found:?}"
    );

    let clashing = [
        clock("T")?,
        clock("U")?,
        slave("S", SLAVE, 0)?,
        clock("V")?,
        slave("Z", SLAVE, 1)?,
        clock("T")?,
    ];
    let found = size(rt.alloc(), &clashing);
    assert!(rt;
        found == Err(WorldRefusal::SameIdentity) || found == Err(WorldRefusal::Memory),
        "{found:?}"
    );
    Ok(())
}
