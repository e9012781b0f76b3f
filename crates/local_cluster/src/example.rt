//! The example cluster.

ghost use Rattle.std.specs.Prelude.{◌≡◌, ◌<◌, IfOk};
ghost use Rattle.node_model.specs.Nodes.{IsOpening};
ghost use Rattle.slot_map.specs.Map.{node_after};
ghost use Rattle.world_laws.specs.Headline.{IsNew};
ghost use Rattle.local_cluster.specs.Example.{thirds};

use node_model::{Cluster, ClusterFault};
use slot_hash::Slot;
use slot_map::{MapOp, NodeId, SlotMap};
use std::alloc::Global;

/// Three nodes with no keys: slots 0 to 5460, 5461 to 10922, and 10923 to 16383.
pub fn three_nodes(alloc: Global) -> Result<Cluster, ClusterFault>
    ensures owners { IfOk result (λ cluster. IsOpening 3 (node_after thirds) cluster) }
    ensures new { IfOk result IsNew }
{
    crate::laws::opened_is_new();
    let Ok(mut owners) = SlotMap::new(alloc) else {
        return Err(ClusterFault::NoMemory);
    };
    owners.apply(range(0, 5460, 0));
    owners.apply(range(5461, 10922, 1));
    owners.apply(range(10923, 16383, 2));
    let cluster = Cluster::new(alloc, 3, &owners)?;
    Ok(cluster)
}

/// The slots are the node's.
fn range(first: u16, last: u16, node: u8) -> MapOp
    requires first { first < 16384 }
    requires last { last < 16384 }
    requires node { node < 64 }
    ensures { result ≡ MapOp.SetRange first last node }
{
    MapOp::SetRange(
        Slot::new(first).unwrap(),
        Slot::new(last).unwrap(),
        NodeId::new(node).unwrap(),
    )
}
