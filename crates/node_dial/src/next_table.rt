//! The table of nodes with which a proxy begins anew.

ghost use Rattle.std.specs.Prelude.{◌≡◌, ◌<◌, ◌↔◌, [], IsTrue, IfOk, Err, slice_get};
ghost use Rattle.slot_map.specs.declared.fault.MapFault.TheVariants as fault;
ghost use Rattle.node_dial.specs.NextTable.{Adds, IsNextTable, Keeps, with_nodes, with_place};

use crate::place::put;
use resp_wire::{NoMemory, Value, is_one_line};
use slot_map::{MapFault, NODE_LIMIT, NodeId, NodeTable, ops_of};
use std::alloc::Global;

/// A table of the node at this endpoint, of those that its answer to CLUSTER SLOTS names, and of the seeds. Since it answers, it is the
/// first, which is dialled first.
pub(crate) fn next_table(
    alloc: Global,
    seeds: &NodeTable,
    host: &[u8],
    port: u16,
    answer: &Value,
) -> Result<NodeTable, MapFault>
    ensures { IsNextTable seeds.now (record { host = host.now; port = port }) answer.now result }
{
    if !is_one_line(host) {
        return Err(MapFault::NotSlots);
    }
    let mut table = NodeTable::new(alloc);
    let asked = table.intern(host, port)?;
    drop(ops_of(answer, asked, &mut table)?);
    add_all(seeds, &mut table)?;
    Ok(table)
}

/// The same nodes in a table of their own.
pub fn copy_table(alloc: Global, nodes: &NodeTable) -> Result<NodeTable, NoMemory>
    ensures { IfOk result (λ table. table ≡ with_nodes [] nodes.now) }
{
    let mut table = NodeTable::new(alloc);
    match add_all(nodes, &mut table) {
        Ok(()) => Ok(table),
        Err(_) => Err(NoMemory),
    }
}

/// Adds the nodes of one table to another.
fn add_all(nodes: &NodeTable, table: &mut NodeTable) -> Result<(), MapFault>
    ensures { Adds (with_nodes table.old nodes.now) result table.new }
{
    for number in 0..NODE_LIMIT {
        add_at(nodes, number, table)?;
    }
    Ok(())
}

/// Adds the node of this number, where there is one.
fn add_at(nodes: &NodeTable, number: usize, table: &mut NodeTable) -> Result<(), MapFault>
    requires { number < 64 }
    ensures { Adds (with_place table.old (slice_get nodes.now number)) result table.new }
{
    let Some(node) = NodeId::new(number as u8) else {
        return Ok(());
    };
    let Some((host, port)) = nodes.endpoint(node) else {
        return Ok(());
    };
    table.intern(host, port)?;
    Ok(())
}

/// Whether there are more nodes than a table has places.
pub(crate) fn are_too_many(read: &Result<NodeTable, MapFault>) -> bool
    ensures { IsTrue result ↔ (read.now ≡ Err fault.TooManyNodes) }
{
    matches!(read, Err(MapFault::TooManyNodes))
}

/// Keeps the table that was read, where one was.
pub(crate) fn keep(kept: &mut Option<NodeTable>, read: Result<NodeTable, MapFault>)
    ensures { Keeps kept.old read kept.new }
{
    match read {
        Ok(table) => put(kept, Some(table)),
        Err(fault) => drop(fault),
    }
}
