//! Tables of nodes.

ghost use Rattle.std.specs.Prelude.{◌≡◌, ◌<◌, ◌+◌, ◌⊎◌, IfSome, IfNone};

use resp_wire::NoMemory;
use slot_map::{NodeId, NodeTable};
use std::alloc::Global;

/// The ports at which three nodes listen.
pub const PORTS: [u16; 3] = [7001, 7002, 7003];

/// A table of nodes at these ports of this machine.
pub fn table_at(alloc: Global, ports: &[u16]) -> Result<NodeTable, NoMemory> {
    let mut table = NodeTable::new(alloc);
    for port in ports {
        if table.intern(b"127.0.0.1", *port).is_err() {
            return Err(NoMemory);
        }
    }
    Ok(table)
}

/// The one of the three nodes that listens at this port.
pub fn node_at(port: u16) -> Option<NodeId>
    ensures there { IfSome result (λ node. (node < 3) × (port ≡ 7001 + node)) }
    ensures nobody { IfNone result ((port < 7001) ⊎ (7003 < port)) }
{
    match port {
        7001 => NodeId::new(0),
        7002 => NodeId::new(1),
        7003 => NodeId::new(2),
        _ => None,
    }
}
