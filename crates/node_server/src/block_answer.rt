//! What a node answers between MULTI and EXEC.

ghost use Rattle.std.specs.Prelude.{◌≡◌, ◌<◌, IfOk, OnErr, IsTrue, length};
ghost use Rattle.resp_wire.specs.Text.{is_one_line};
ghost use Rattle.node_model.specs.Runs.{HaveOneSlot};
ghost use Rattle.node_server.specs.NodeAnswers.{one_key_only, planned, AnswersExec, AnswersWithin, ExecutesBlock, ExecutesTogether, KeepsData, Queues, QueuesPart, QueuesParts, Waits};

use crate::answer::{Answer, refuse_several, say_error};
use crate::block::Block;
use crate::call::Call;
use crate::caller::Caller;
use crate::told_value::{cluster_down, value_of_refusal, value_of_tolds};
use key_split::{Part, Planned, error_line, plan, refusal, simple_line};
use local_cluster::{GhostHistory, LocalState};
use node_model::{Cluster, ServeFault, have_one_slot};
use resp_wire::{Bytes, NoMemory, Value};
use slot_map::{NodeId, NodeTable};
use std::alloc::Global;

/// What is said to a request that no run of commands can hold.
const KEYS_ONLY: &[u8] = b"ERR node: only commands on keys between MULTI and EXEC";

/// Answers a request that comes between MULTI and EXEC, or one of these two.
pub(crate) fn answer_within(
    alloc: Global,
    caller: Caller,
    block: &mut Block,
    state: &mut LocalState<GhostHistory>,
    table: &NodeTable,
    words: &[Bytes],
    call: Call,
) -> Result<Answer, NoMemory>
    requires { 0 < length words.now }
    ensures answer { IfOk result (λ answer. AnswersWithin table.now caller block.old state.old words.now call answer block.new state.new) }
    ensures refused { OnErr result (KeepsData state.old state.new) }
    ensures block { OnErr result (block.new ≡ block.old) }
{
    match call {
        Call::Multi => say_error(alloc, b"ERR MULTI calls can not be nested"),
        Call::Exec => {
            let value = answer_exec(alloc, caller, block, state, table)?;
            *block = Block::Closed;
            Ok(Answer::Says(value))
        }
        Call::Discard => {
            let okay = simple_line(alloc, b"OK")?;
            *block = Block::Closed;
            Ok(Answer::Says(okay))
        }
        Call::Asking => abort_with(alloc, block, KEYS_ONLY),
        Call::Slots => abort_with(alloc, block, KEYS_ONLY),
        Call::Command => queue_command(alloc, caller.node, block, state, table, words),
    }
}

/// Refuses a request, so that EXEC will abort.
fn abort_with(alloc: Global, block: &mut Block, text: &[u8]) -> Result<Answer, NoMemory>
    requires { IsTrue (is_one_line text.now) }
    ensures answer { IfOk result (λ answer. (answer ≡ Answer.Says (Value.Error text.now)) × (block.new ≡ Block.Aborted)) }
    ensures block { OnErr result (block.new ≡ block.old) }
{
    let line = error_line(alloc, text)?;
    *block = Block::Aborted;
    Ok(Answer::Says(line))
}

/// Lets a command wait for EXEC, or refuses it.
fn queue_command(
    alloc: Global,
    node: NodeId,
    block: &mut Block,
    state: &LocalState<GhostHistory>,
    table: &NodeTable,
    words: &[Bytes],
) -> Result<Answer, NoMemory>
    requires { 0 < length words.now }
    ensures answer { IfOk result (λ answer. Queues table.now node block.old state.now.nodes (planned words.now) answer block.new) }
    ensures block { OnErr result (block.new ≡ block.old) }
{
    match plan(alloc, words) {
        Ok(Planned::Local(reply)) => {
            drop(reply);
            abort_with(alloc, block, KEYS_ONLY)
        }
        Ok(Planned::Close) => Ok(Answer::Closes(simple_line(alloc, b"OK")?)),
        Ok(Planned::Parts(_, parts)) => {
            queue_parts(alloc, node, block, state.cluster(), table, parts.into_vec())
        }
        Err(why) => {
            let line = refusal(alloc, &why)?;
            *block = Block::Aborted;
            Ok(Answer::Says(line))
        }
    }
}

/// Lets a command of these parts wait: only one may.
fn queue_parts(
    alloc: Global,
    node: NodeId,
    block: &mut Block,
    cluster: &Cluster,
    table: &NodeTable,
    mut parts: Vec<Part>,
) -> Result<Answer, NoMemory>
    ensures answer { IfOk result (λ answer. QueuesParts table.now node block.old cluster.now parts.items answer block.new) }
    ensures block { OnErr result (block.new ≡ block.old) }
{
    let Some(part) = parts.pop() else {
        return abort_several(alloc, block);
    };
    if !parts.is_empty() {
        return abort_several(alloc, block);
    }
    Ok(Answer::Says(queue_part(alloc, node, block, cluster, table, part)?))
}

/// Refuses a command that has not one part, so that EXEC will abort.
fn abort_several(alloc: Global, block: &mut Block) -> Result<Answer, NoMemory>
    ensures answer { IfOk result (λ answer. (answer ≡ Answer.Says one_key_only) × (block.new ≡ Block.Aborted)) }
    ensures block { OnErr result (block.new ≡ block.old) }
{
    let answer = refuse_several(alloc)?;
    *block = Block::Aborted;
    Ok(answer)
}

/// Lets a part wait for EXEC, unless the node would refuse it now.
fn queue_part(
    alloc: Global,
    node: NodeId,
    block: &mut Block,
    cluster: &Cluster,
    table: &NodeTable,
    part: Part,
) -> Result<Value, NoMemory>
    ensures answer { IfOk result (λ value. QueuesPart table.now node block.old cluster.now part value block.new) }
    ensures block { OnErr result (block.new ≡ block.old) }
{
    match cluster.refusal(node, false, &part) {
        Some(told) => {
            let line = value_of_refusal(alloc, &told, table)?;
            *block = Block::Aborted;
            Ok(line)
        }
        None => let_wait(alloc, block, part),
    }
}

/// Lets a part wait for EXEC, where there is room.
fn let_wait(alloc: Global, block: &mut Block, part: Part) -> Result<Value, NoMemory>
    ensures answer { IfOk result (λ value. Waits block.old part value block.new) }
    ensures block { OnErr result (block.new ≡ block.old) }
{
    if !block.has_room() {
        let line = error_line(alloc, b"ERR node: too many commands between MULTI and EXEC")?;
        *block = Block::Aborted;
        return Ok(line);
    }
    let line = simple_line(alloc, b"QUEUED")?;
    block.push(part)?;
    Ok(line)
}

/// What EXEC answers.
fn answer_exec(
    alloc: Global,
    caller: Caller,
    block: &Block,
    state: &mut LocalState<GhostHistory>,
    table: &NodeTable,
) -> Result<Value, NoMemory>
    ensures answer { IfOk result (λ value. AnswersExec table.now caller block.now state.old (Answer.Says value) state.new) }
    ensures refused { OnErr result (KeepsData state.old state.new) }
{
    if block.aborts() {
        return error_line(
            alloc,
            b"EXECABORT Transaction discarded because of previous errors.",
        );
    }
    execute_block(alloc, caller, state, table, block.parts())
}

/// Executes the commands that wait, where they have one slot.
fn execute_block(
    alloc: Global,
    caller: Caller,
    state: &mut LocalState<GhostHistory>,
    table: &NodeTable,
    parts: &[Part],
) -> Result<Value, NoMemory>
    ensures answer { IfOk result (λ value. ExecutesBlock table.now caller state.old parts.now value state.new) }
    ensures refused { OnErr result (KeepsData state.old state.new) }
{
    if !have_one_slot(parts) {
        return error_line(
            alloc,
            b"CROSSSLOT Keys in request don't hash to the same slot",
        );
    }
    execute_together(alloc, caller, state, table, parts)
}

/// Executes commands of one slot together, or none of them. There is memory for the list of replies before one is executed.
fn execute_together(
    alloc: Global,
    caller: Caller,
    state: &mut LocalState<GhostHistory>,
    table: &NodeTable,
    parts: &[Part],
) -> Result<Value, NoMemory>
    requires { HaveOneSlot parts.now }
    ensures answer { IfOk result (λ value. ExecutesTogether table.now caller state.old parts.now value state.new) }
    ensures refused { OnErr result (KeepsData state.old state.new) }
{
    let room = Vec::with_capacity(alloc, parts.len())?;
    let node = caller.node;
    match state.serve_run(caller.ticket(), node, parts) {
        Ok(tolds) => value_of_tolds(alloc, tolds, room, table),
        Err(ServeFault::NoMemory) => Err(NoMemory),
        Err(ServeFault::NoSuchNode) => cluster_down(alloc),
        Err(ServeFault::NotThisVerdict) => cluster_down(alloc),
    }
}
