//! What a node answers to a request.

ghost use Rattle.std.specs.Prelude.{◌≡◌, ◌<◌, IfOk, OnErr, IsTrue, length};
ghost use Rattle.resp_wire.specs.Text.{is_one_line};
ghost use Rattle.node_server.specs.NodeAnswers.{one_key_only, planned, Answers, AnswersAlone, AnswersCall, AnswersParts, AnswersPlan, Executes, KeepsData};

use crate::block::Block;
use crate::block_answer::answer_within;
use crate::call::{Call, call_of};
use crate::caller::Caller;
use crate::told_value::{cluster_down, value_of_told};
use key_split::{Part, Planned, error_line, plan, refusal, simple_line};
use local_cluster::{GhostHistory, LocalState};
use node_model::ServeFault;
use resp_wire::{Bytes, NoMemory, Value};
use slot_map::NodeTable;
use std::alloc::Global;

/// What a node answers.
pub enum Answer {
    Says(Value),
    /// The reply to QUIT, after which the connection is closed.
    Closes(Value),
}

// By hand, so that a proof has one call where a value is let go, and no case for each variant.
impl Drop for Answer {
    fn drop(self) {
        match self {
            Answer::Says(value) | Answer::Closes(value) => drop(value),
        }
    }
}

/// Answers the caller's next request.
pub(crate) fn answer_request(
    alloc: Global,
    caller: &mut Caller,
    block: &mut Block,
    state: &mut LocalState<GhostHistory>,
    table: &NodeTable,
    words: &[Bytes],
) -> Result<Answer, NoMemory>
    requires { 0 < length words.now }
    ensures { Answers table.now caller.old block.old state.old words.now result caller.new block.new state.new }
{
    let call = call_of(words);
    let answer = answer_call(alloc, *caller, block, state, table, words, call)?;
    *caller = caller.after_request(call.is_asking());
    Ok(answer)
}

/// Answers a request that asks this, between MULTI and EXEC or elsewhere.
fn answer_call(
    alloc: Global,
    caller: Caller,
    block: &mut Block,
    state: &mut LocalState<GhostHistory>,
    table: &NodeTable,
    words: &[Bytes],
    call: Call,
) -> Result<Answer, NoMemory>
    requires { 0 < length words.now }
    ensures answer { IfOk result (λ answer. AnswersCall table.now caller block.old state.old words.now call answer block.new state.new) }
    ensures refused { OnErr result (KeepsData state.old state.new) }
    ensures block { OnErr result (block.new ≡ block.old) }
{
    if block.is_open() {
        answer_within(alloc, caller, block, state, table, words, call)
    } else {
        answer_alone(alloc, caller, block, state, table, words, call)
    }
}

/// Answers a request that comes outside of MULTI and EXEC.
fn answer_alone(
    alloc: Global,
    caller: Caller,
    block: &mut Block,
    state: &mut LocalState<GhostHistory>,
    table: &NodeTable,
    words: &[Bytes],
    call: Call,
) -> Result<Answer, NoMemory>
    requires { 0 < length words.now }
    ensures answer { IfOk result (λ answer. AnswersAlone table.now caller block.old state.old words.now call answer block.new state.new) }
    ensures refused { OnErr result (KeepsData state.old state.new) }
    ensures block { OnErr result (block.new ≡ block.old) }
{
    match call {
        Call::Asking => say_line(alloc, b"OK"),
        Call::Slots => Ok(Answer::Says(state.cluster().slots_value(table)?)),
        Call::Multi => {
            let okay = simple_line(alloc, b"OK")?;
            *block = Block::open(alloc);
            Ok(Answer::Says(okay))
        }
        Call::Exec => say_error(alloc, b"ERR EXEC without MULTI"),
        Call::Discard => say_error(alloc, b"ERR DISCARD without MULTI"),
        Call::Command => answer_command(alloc, caller, state, table, words),
    }
}

fn say_line(alloc: Global, text: &[u8]) -> Result<Answer, NoMemory>
    requires { IsTrue (is_one_line text.now) }
    ensures { IfOk result (λ answer. answer ≡ Answer.Says (Value.Simple text.now)) }
{
    Ok(Answer::Says(simple_line(alloc, text)?))
}

pub(crate) fn say_error(alloc: Global, text: &[u8]) -> Result<Answer, NoMemory>
    requires { IsTrue (is_one_line text.now) }
    ensures { IfOk result (λ answer. answer ≡ Answer.Says (Value.Error text.now)) }
{
    Ok(Answer::Says(error_line(alloc, text)?))
}

/// Answers a command.
fn answer_command(
    alloc: Global,
    caller: Caller,
    state: &mut LocalState<GhostHistory>,
    table: &NodeTable,
    words: &[Bytes],
) -> Result<Answer, NoMemory>
    requires { 0 < length words.now }
    ensures answer { IfOk result (λ answer. AnswersPlan table.now caller state.old (planned words.now) answer state.new) }
    ensures refused { OnErr result (KeepsData state.old state.new) }
{
    match plan(alloc, words) {
        Ok(Planned::Local(reply)) => Ok(Answer::Says(reply)),
        Ok(Planned::Close) => Ok(Answer::Closes(simple_line(alloc, b"OK")?)),
        Ok(Planned::Parts(_, parts)) => {
            answer_parts(alloc, caller, state, table, parts.into_vec())
        }
        Err(why) => Ok(Answer::Says(refusal(alloc, &why)?)),
    }
}

/// Answers a command of these parts: only one is executed.
fn answer_parts(
    alloc: Global,
    caller: Caller,
    state: &mut LocalState<GhostHistory>,
    table: &NodeTable,
    mut parts: Vec<Part>,
) -> Result<Answer, NoMemory>
    ensures answer { IfOk result (λ answer. AnswersParts table.now caller state.old parts.items answer state.new) }
    ensures refused { OnErr result (KeepsData state.old state.new) }
{
    let Some(part) = parts.pop() else {
        return refuse_several(alloc);
    };
    if !parts.is_empty() {
        return refuse_several(alloc);
    }
    Ok(Answer::Says(execute(alloc, caller, state, table, part)?))
}

/// The answer to a command that has not one part.
pub(crate) fn refuse_several(alloc: Global) -> Result<Answer, NoMemory>
    ensures { IfOk result (λ answer. answer ≡ Answer.Says one_key_only) }
{
    say_error(alloc, b"ERR node: one key only")
}

/// Executes the part at the caller's node, if the node has its slot.
fn execute(
    alloc: Global,
    caller: Caller,
    state: &mut LocalState<GhostHistory>,
    table: &NodeTable,
    part: Part,
) -> Result<Value, NoMemory>
    ensures answer { IfOk result (λ value. Executes table.now caller state.old part value state.new) }
    ensures refused { OnErr result (KeepsData state.old state.new) }
{
    match state.serve(&caller.batch(part)) {
        Ok(told) => value_of_told(alloc, told, table),
        Err(ServeFault::NoMemory) => Err(NoMemory),
        Err(ServeFault::NoSuchNode) => cluster_down(alloc),
        Err(ServeFault::NotThisVerdict) => cluster_down(alloc),
    }
}
