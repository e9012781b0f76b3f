//! What a node writes to the item that it read.

ghost use Rattle.std.specs.Prelude.{◌≡◌, ◌≤◌, ◌<◌, ◌∷◌, [], IfOk, IfErr, length, map, replicate, vec_capacity};
ghost use Rattle.std.specs.VecDeque.{deque_capacity, deque_len};
ghost use Rattle.node_model.specs.Runs.{HaveOneSlot};
ghost use Rattle.turn_laws.specs.ByteWires.{IsPlainItem};
ghost use Rattle.turn_laws.specs.Wire.{Runs};
ghost use Rattle.turn_play.specs.Answering.{Answers, BlockOutcome, IsDoneRun, RefuseOutcome, replies_in};
ghost use Rattle.turn_play.specs.Hearing.{item_of, unnumbered};
ghost use Rattle.turn_play.specs.Serving.{CannotServeRun, okay};
ghost use Rattle.turn_play.specs.Stream.{CannotBeServed, IsReplied, queued};

use crate::fault::PlayFault;
use crate::hearing::Heard;
use crate::readable::are_readable;
use crate::serving::{into_reply, okay, one_value, serve_parts, write_all};
use key_split::{Part, Told, error_line, simple_line};
use node_model::{Cluster, Verdict, have_one_slot};
use resp_wire::{NoMemory, Value, Values};
use slot_map::{NodeId, NodeTable};
use std::alloc::Global;
use std::collections::VecDeque;

/// A node serves the item, and gives the replies that it writes.
pub(crate) fn answer(
    alloc: Global,
    heard: &Heard,
    node: NodeId,
    asking: bool,
    verdict: Verdict,
    cluster: &mut Cluster,
    nodes: &NodeTable,
) -> Result<VecDeque<Value>, PlayFault>
    requires { IsPlainItem (item_of heard.now) }
    ensures { Answers nodes.now cluster.old node asking (item_of heard.now) verdict result cluster.new }
{
    let replies = reply(alloc, heard, node, asking, verdict, cluster, nodes)?;
    if !are_readable(&replies) {
        return Err(PlayFault::TooLong);
    }
    Ok(replies)
}

/// The same, whether or not the replies can be read. After a fault nothing was executed.
fn reply(
    alloc: Global,
    heard: &Heard,
    node: NodeId,
    asking: bool,
    verdict: Verdict,
    cluster: &mut Cluster,
    nodes: &NodeTable,
) -> Result<VecDeque<Value>, PlayFault>
    requires { IsPlainItem (item_of heard.now) }
    ensures ok { IfOk result (λ replies. IsReplied nodes.now cluster.old node asking (item_of heard.now) verdict cluster.new replies.items) }
    ensures err { IfErr result (λ fault. (cluster.new ≡ cluster.old) × CannotBeServed nodes.now cluster.old node asking (item_of heard.now) verdict fault) }
{
    match heard {
        Heard::Asking => Ok(one_value(alloc, okay(alloc)?)?),
        Heard::Commands(parts) => {
            reply_to_commands(
                alloc,
                parts.as_slice(),
                node,
                asking,
                verdict,
                cluster,
                nodes,
            )
        }
        Heard::Slots => Ok(one_value(alloc, cluster.slots_value(nodes)?)?),
    }
}

/// A node serves one command, or a block.
fn reply_to_commands(
    alloc: Global,
    parts: &[Part],
    node: NodeId,
    asking: bool,
    verdict: Verdict,
    cluster: &mut Cluster,
    nodes: &NodeTable,
) -> Result<VecDeque<Value>, PlayFault>
    requires { 0 < length parts.now }
    ensures ok { IfOk result (λ replies. IsReplied nodes.now cluster.old node asking (Runs (map unnumbered parts.now)) verdict cluster.new replies.items) }
    ensures err { IfErr result (λ fault. (cluster.new ≡ cluster.old) × CannotServeRun nodes.now cluster.old node asking parts.now verdict fault) }
{
    if !have_one_slot(parts) {
        return Err(PlayFault::NotServed);
    }
    if parts.len() == 1 {
        return serve_parts(alloc, parts, node, asking, verdict, cluster, nodes);
    }
    serve_block(alloc, parts, node, asking, verdict, cluster, nodes)
}

// The room for the replies is made before a command is executed.
fn serve_block(
    alloc: Global,
    parts: &[Part],
    node: NodeId,
    asking: bool,
    verdict: Verdict,
    cluster: &mut Cluster,
    nodes: &NodeTable,
) -> Result<VecDeque<Value>, PlayFault>
    requires some { 0 < length parts.now }
    requires one_slot { HaveOneSlot parts.now }
    ensures ok { IfOk result (λ replies. BlockOutcome nodes.now cluster.old node asking parts.now verdict cluster.new replies.items) }
    ensures err { IfErr result (λ fault. (cluster.new ≡ cluster.old) × CannotServeRun nodes.now cluster.old node asking parts.now verdict fault) }
{
    let mut replies = queued_replies(alloc, parts.len())?;
    let room = Vec::with_capacity(alloc, parts.len())?;
    let tolds = cluster.serve_run(node, asking, parts, verdict)?;
    if !is_done(tolds.as_slice()) {
        return refuse_block(alloc, tolds, nodes);
    }
    let values = values_of(tolds, room);
    replies.push_back_reserved(Value::Array(Values::new(values)));
    Ok(replies)
}

/// The replies to MULTI and to so many commands, with room for one more.
fn queued_replies(alloc: Global, count: usize) -> Result<VecDeque<Value>, NoMemory>
    ensures items { IfOk result (λ replies. replies.items ≡ okay ∷ replicate count queued) }
    ensures room { IfOk result (λ replies. deque_len replies < deque_capacity replies) }
{
    let mut replies = one_value(alloc, okay(alloc)?)?;
    for _ in 0..count {
        replies.reserve(1)?;
        replies.push_back_reserved(simple_line(alloc, b"QUEUED")?);
    }
    replies.reserve(1)?;
    Ok(replies)
}

/// Whether a node executed the commands of which these are told.
fn is_done(tolds: &[Told]) -> bool
    ensures { IsDoneRun tolds.now result }
{
    match tolds {
        [] => false,
        [told, ..] => is_reply(told),
    }
}

fn is_reply(told: &Told) -> bool
    ensures { IsDoneRun (told.now ∷ []) result }
{
    match told {
        Told::Reply(_) => true,
        Told::Moved(_, _) => false,
        Told::Ask(_, _) => false,
        Told::TryAgain => false,
        Told::ClusterDown => false,
        Told::Unclear => false,
        Told::Lost => false,
        Told::Unsent => false,
    }
}

/// The values of the replies, up to the first that is none. `room` is for them.
fn values_of(tolds: Vec<Told>, room: Vec<Value>) -> Vec<Value>
    requires empty { room.items ≡ [] }
    requires room { length tolds.items ≤ vec_capacity room }
    ensures { result.items ≡ replies_in tolds.items }
{
    let mut values = room;
    for told in tolds {
        match into_reply(told) {
            Ok(value) => values.push_reserved(value),
            Err(told) => {
                drop(told);
                return values;
            }
        }
    }
    values
}

/// The replies to MULTI, to each of the commands, which are refused, and to EXEC.
fn refuse_block(
    alloc: Global,
    tolds: Vec<Told>,
    nodes: &NodeTable,
) -> Result<VecDeque<Value>, PlayFault>
    ensures { RefuseOutcome nodes.now tolds.items result }
{
    let mut replies = VecDeque::with_capacity(alloc, tolds.len())?;
    write_all(alloc, tolds, nodes, &mut replies)?;
    let aborted = error_line(
        alloc,
        b"EXECABORT Transaction discarded because of previous errors.",
    )?;
    replies.reserve(2)?;
    replies.push_front_reserved(okay(alloc)?);
    replies.push_back_reserved(aborted);
    Ok(replies)
}
