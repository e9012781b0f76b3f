//! How a node of a play serves commands.

ghost use Rattle.std.specs.Prelude.{◌≡◌, ◌∷◌, ◌≤◌, ◌<◌, ◌↔◌, IfOk, IfErr, IsTrue, [], length};
ghost use Rattle.std.specs.VecDeque.{deque_capacity};
ghost use Rattle.key_split.specs.Told.{CanBeWritten};
ghost use Rattle.node_model.specs.Runs.{HaveOneSlot};
ghost use Rattle.turn_play.specs.Serving.{CannotServeRun, IsRefusal, IsRunSaid, ReplyOutcome, WriteAllOutcome, WriteOutcome, okay};

use crate::fault::PlayFault;
use key_split::{Part, Told, told_value};
use node_model::{Cluster, Verdict};
use resp_wire::{Line, NoMemory, Value};
use slot_map::{NodeId, NodeTable};
use std::alloc::Global;
use std::collections::VecDeque;

pub(crate) fn okay(alloc: Global) -> Result<Value, NoMemory>
    ensures { IfOk result (λ value. value ≡ okay) }
{
    let line = Line::from_text(alloc, b"OK")?;
    Ok(Value::Simple(line))
}

pub(crate) fn one_value(alloc: Global, value: Value) -> Result<VecDeque<Value>, NoMemory>
    ensures { IfOk result (λ said. said.items ≡ value ∷ []) }
{
    let mut said = VecDeque::with_capacity(alloc, 1)?;
    said.push_back_reserved(value);
    Ok(said)
}

// The room for the values is made first: a reply is moved there, and only what is said in place of executing may want memory.
pub(crate) fn serve_parts(
    alloc: Global,
    parts: &[Part],
    node: NodeId,
    asking: bool,
    verdict: Verdict,
    cluster: &mut Cluster,
    nodes: &NodeTable,
) -> Result<VecDeque<Value>, PlayFault>
    requires { HaveOneSlot parts.now }
    ensures ok { IfOk result (λ said. IsRunSaid nodes.now cluster.old node asking parts.now verdict cluster.new said.items) }
    ensures err { IfErr result (λ fault. (cluster.new ≡ cluster.old) × CannotServeRun nodes.now cluster.old node asking parts.now verdict fault) }
{
    let mut said = VecDeque::with_capacity(alloc, parts.len())?;
    let tolds = cluster.serve_run(node, asking, parts, verdict)?;
    write_all(alloc, tolds, nodes, &mut said)?;
    Ok(said)
}

/// What a node writes of each.
pub(crate) fn write_all(
    alloc: Global,
    tolds: Vec<Told>,
    nodes: &NodeTable,
    said: &mut VecDeque<Value>,
) -> Result<(), PlayFault>
    requires empty { said.old.items ≡ [] }
    requires room { length tolds.items ≤ deque_capacity said.old }
    ensures { WriteAllOutcome nodes.now tolds.items result said.new.items }
{
    for told in tolds {
        let value = write(alloc, told, nodes)?;
        said.push_back_reserved(value);
    }
    Ok(())
}

/// What a node writes, where it can. A reply needs no memory.
fn write(alloc: Global, told: Told, nodes: &NodeTable) -> Result<Value, PlayFault>
    ensures { WriteOutcome nodes.now told result }
{
    match into_reply(told) {
        Ok(value) => Ok(value),
        Err(told) => write_refusal(alloc, &told, nodes),
    }
}

/// What a node writes in place of a reply, where it can.
fn write_refusal(alloc: Global, told: &Told, nodes: &NodeTable) -> Result<Value, PlayFault>
    requires { IsRefusal told.now }
    ensures { WriteOutcome nodes.now told.now result }
{
    if !can_be_written(told, nodes) {
        return Err(PlayFault::NotServed);
    }
    let value = told_value(alloc, told, nodes)?;
    Ok(value)
}

/// The value of a reply; anything else comes back.
pub(crate) fn into_reply(told: Told) -> Result<Value, Told>
    ensures { ReplyOutcome told result }
{
    match told {
        Told::Reply(value) => Ok(value),
        Told::Moved(slot, node) => Err(Told::Moved(slot, node)),
        Told::Ask(slot, node) => Err(Told::Ask(slot, node)),
        Told::TryAgain => Err(Told::TryAgain),
        Told::ClusterDown => Err(Told::ClusterDown),
        Told::Unclear => Err(Told::Unclear),
        Told::Lost => Err(Told::Lost),
        Told::Unsent => Err(Told::Unsent),
    }
}

fn can_be_written(told: &Told, nodes: &NodeTable) -> bool
    ensures { IsTrue result ↔ CanBeWritten told.now nodes.now }
{
    match told {
        Told::Reply(_) => true,
        Told::Moved(_, node) => is_listed(*node, nodes),
        Told::Ask(_, node) => is_listed(*node, nodes),
        Told::TryAgain => true,
        Told::ClusterDown => true,
        Told::Unclear => false,
        Told::Lost => false,
        Told::Unsent => false,
    }
}

fn is_listed(node: NodeId, nodes: &NodeTable) -> bool
    ensures { IsTrue result ↔ (node < length nodes.now) }
{
    nodes.endpoint(node).is_some()
}
