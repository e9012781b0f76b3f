//! Where the nodes of a cluster in one process are listed. Nobody listens there: a port to a node takes the lock instead.

ghost use Rattle.std.specs.Prelude.{◌≡◌, ◌<◌, ◌≤◌, ◌+◌, IfOk, OnOk};
ghost use Rattle.local_cluster.specs.Addresses.{addresses, IsListedAt};

use resp_wire::NoMemory;
use slot_map::{NodeId, NodeTable};
use std::alloc::Global;

/// How many nodes a cluster has at most.
const NODES: u16 = 64;

/// The host of each node.
const HOST: &[u8] = b"127.0.0.1";

/// The port of node 0; the others' follow.
const FIRST_PORT: u16 = 7001;

/// The table of 64 places in which the nodes of a cluster in one process are listed.
pub fn node_table(alloc: Global) -> Result<NodeTable, NoMemory>
    ensures { IfOk result (λ table. table ≡ addresses 64) }
{
    let mut table = NodeTable::new(alloc);
    for node in 0..NODES {
        list(&mut table, node)?;
    }
    Ok(table)
}

/// Lists the next node.
fn list(table: &mut NodeTable, node: u16) -> Result<(), NoMemory>
    requires table { table.old ≡ addresses node }
    requires room { node < 64 }
    ensures { OnOk result (table.new ≡ addresses (node + 1)) }
{
    match table.intern(HOST, FIRST_PORT + node) {
        Ok(_) => Ok(()),
        Err(_) => Err(NoMemory),
    }
}

/// The node of a cluster of `nodes` that is listed there.
pub(crate) fn node_at(nodes: u8, host: &[u8], port: u16) -> Option<NodeId>
    requires { nodes ≤ 64 }
    ensures { IsListedAt nodes (record { host = host.now; port = port }) result }
{
    if host != HOST || port < FIRST_PORT || port - FIRST_PORT >= u16::from(nodes) {
        return None;
    }
    NodeId::new((port - FIRST_PORT) as u8)
}
