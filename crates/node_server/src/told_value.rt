//! What a node says of what it did with a command.

ghost use Rattle.std.specs.Prelude.{◌≡◌, ◌≤◌, IfOk, OnErr, [], true, false, is_some, length, slice_get, vec_capacity};
ghost use Rattle.node_server.specs.NodeAnswers.{can_write, cluster_down, refused_in, IsSaid, IsSaidTogether};
ghost use Rattle.node_server.specs.NodeSaying.{is_reply, Parted, PartedAll};

use key_split::{Told, error_line, told_value};
use resp_wire::{NoMemory, Value, Values};
use slot_map::{NodeId, NodeTable};
use std::alloc::Global;

/// What a node says: the reply as it stands, or a refusal by the table.
pub(crate) fn value_of_told(alloc: Global, told: Told, table: &NodeTable) -> Result<Value, NoMemory>
    ensures value { IfOk result (IsSaid table.now told) }
    ensures refused { OnErr result (is_reply told ≡ false) }
{
    match reply_in(told) {
        Ok(value) => Ok(value),
        Err(told) => value_of_refusal(alloc, &told, table),
    }
}

/// What a node says of commands that it served together: the replies in an array, or the refusal by the table. `room` is
/// for the replies.
pub(crate) fn value_of_tolds(
    alloc: Global,
    tolds: Vec<Told>,
    room: Vec<Value>,
    table: &NodeTable,
) -> Result<Value, NoMemory>
    requires empty { room.items ≡ [] }
    requires room { length tolds.items ≤ vec_capacity room }
    ensures value { IfOk result (IsSaidTogether table.now tolds.items) }
    ensures refused { OnErr result (is_some (refused_in tolds.items) ≡ true) }
{
    match replies_in(tolds, room) {
        Ok(replies) => Ok(Value::Array(Values::new(replies))),
        Err(told) => value_of_refusal(alloc, &told, table),
    }
}

/// The replies, or the first of what was told that is none.
fn replies_in(tolds: Vec<Told>, room: Vec<Value>) -> Result<Vec<Value>, Told>
    requires empty { room.items ≡ [] }
    requires room { length tolds.items ≤ vec_capacity room }
    ensures { PartedAll tolds.items result }
{
    let mut replies = room;
    for told in tolds {
        match reply_in(told) {
            Ok(value) => replies.push_reserved(value),
            Err(told) => return Err(told),
        }
    }
    Ok(replies)
}

/// The reply, or what else was told.
fn reply_in(told: Told) -> Result<Value, Told>
    ensures { Parted told result }
{
    match told {
        Told::Reply(value) => Ok(value),
        Told::Moved(slot, node) => Err(Told::Moved(slot, node)),
        Told::Ask(slot, node) => Err(Told::Ask(slot, node)),
        Told::TryAgain => Err(Told::TryAgain),
        Told::ClusterDown => Err(Told::ClusterDown),
        Told::Unclear => Err(Told::Unclear),
        Told::Lost => Err(Told::Lost),
        Told::Unsent => Err(Told::Unsent),
    }
}

/// What a node says where it did not execute a command.
pub(crate) fn value_of_refusal(
    alloc: Global,
    told: &Told,
    table: &NodeTable,
) -> Result<Value, NoMemory>
    ensures { IfOk result (IsSaid table.now told.now) }
{
    if can_write(told, table) {
        told_value(alloc, told, table)
    } else {
        cluster_down(alloc)
    }
}

/// Whether a node writes it, and the node that it names is in the table.
fn can_write(told: &Told, table: &NodeTable) -> bool
    ensures { result ≡ can_write table.now told.now }
{
    match told {
        Told::Reply(_) => true,
        Told::Moved(_, node) => is_known(*node, table),
        Told::Ask(_, node) => is_known(*node, table),
        Told::TryAgain => true,
        Told::ClusterDown => true,
        Told::Unclear => false,
        Told::Lost => false,
        Told::Unsent => false,
    }
}

fn is_known(node: NodeId, table: &NodeTable) -> bool
    ensures { result ≡ is_some (slice_get table.now node) }
{
    table.endpoint(node).is_some()
}

pub(crate) fn cluster_down(alloc: Global) -> Result<Value, NoMemory>
    ensures { IfOk result (λ value. value ≡ cluster_down) }
{
    error_line(alloc, b"CLUSTERDOWN Hash slot not served")
}
