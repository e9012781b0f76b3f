//! One line of an input.

ghost use Rattle.std.specs.Prelude.{◌≡◌, ◌++◌, IfOk, OnOk, map};
ghost use Rattle.resp_wire.specs.Data.{array, bulk, items_of};
ghost use Rattle.resp_wire.specs.Seen.{data_of};
ghost use Rattle.cluster_world.specs.Schedule.{word_at};
ghost use Rattle.script_runs.specs.Scripts.{kind_of, move_steps, places_in, recall_steps, spelled, task_of, where_fits, with_kind, with_words};

use cluster_world::{node_in, slot_in};
use local_cluster::MoveStep;
use resp_wire::{Bytes, NoMemory, Value, Values, Words, write_value};
use slot_hash::Slot;
use slot_map::NodeId;
use std::alloc::{AllocError, Global};

/// The scripts of clients, and the steps by which slots move while these run.
#[derive(Drop)]
pub(crate) struct Scripts {
    pub(crate) clients: Vec<Bytes>,
    pub(crate) moves: Vec<MoveStep>,
}

/// What a line is, by its first word.
#[derive(Clone, Copy)]
enum Kind {
    /// The next client begins.
    Client,
    /// A slot moves to a node.
    Move,
    /// A slot begins to move to a node, and is called back.
    Recall,
    /// A request of the last client.
    Request,
}

fn kind_of(word: &[u8]) -> Kind
    ensures { result ≡ kind_of word.now }
{
    if word == b"client".as_slice() {
        Kind::Client
    } else if word == b"move".as_slice() {
        Kind::Move
    } else if word == b"recall".as_slice() {
        Kind::Recall
    } else {
        Kind::Request
    }
}

/// Adds what a line says. It is false where the line does not fit.
#[tactic(auto, unfolding(crate::specs::Scripts::with_words))]
pub(crate) fn add_line(alloc: Global, scripts: &mut Scripts, words: Words) -> Result<bool, NoMemory>
    ensures { IfOk result (λ fits. with_words (task_of scripts.old) words ≡ where_fits fits (task_of scripts.new)) }
{
    match kind_of(first_word(&words)) {
        Kind::Client => add_client(alloc, scripts, &words),
        Kind::Move => add_move(scripts, &words),
        Kind::Recall => add_recall(scripts, &words),
        Kind::Request => add_request(alloc, scripts, words),
    }
}

/// The first word, or nothing where there is none.
fn first_word(words: &Words) -> &[u8]
    ensures { result.now ≡ word_at words.now 0 }
{
    match words.as_slice() {
        [] => b"",
        [first, ..] => first.as_slice(),
    }
}

/// The next client begins.
fn add_client(alloc: Global, scripts: &mut Scripts, words: &Words) -> Result<bool, NoMemory>
    ensures { IfOk result (λ fits. with_kind (task_of scripts.old) Kind.Client words.now ≡ where_fits fits (task_of scripts.new)) }
{
    if words.as_slice().len() != 1 {
        return Ok(false);
    }
    scripts.clients.push(Bytes::new(Vec::new(alloc)))?;
    Ok(true)
}

/// A slot moves to a node.
fn add_move(scripts: &mut Scripts, words: &Words) -> Result<bool, NoMemory>
    ensures { IfOk result (λ fits. with_kind (task_of scripts.old) Kind.Move words.now ≡ where_fits fits (task_of scripts.new)) }
{
    let Some((slot, node)) = slot_and_node(words) else {
        return Ok(false);
    };
    push_move(&mut scripts.moves, slot, node)?;
    Ok(true)
}

/// A slot begins to move to a node, and is called back.
fn add_recall(scripts: &mut Scripts, words: &Words) -> Result<bool, NoMemory>
    ensures { IfOk result (λ fits. with_kind (task_of scripts.old) Kind.Recall words.now ≡ where_fits fits (task_of scripts.new)) }
{
    let Some((slot, node)) = slot_and_node(words) else {
        return Ok(false);
    };
    push_recall(&mut scripts.moves, slot, node)?;
    Ok(true)
}

/// SLOT NODE, behind the first word.
fn slot_and_node(words: &Words) -> Option<(Slot, NodeId)>
    ensures { result ≡ places_in words.now }
{
    let [_, slot, node] = words.as_slice() else {
        return None;
    };
    let slot = slot_in(slot.as_slice())?;
    let node = node_in(node.as_slice())?;
    Some((slot, node))
}

fn push_move(moves: &mut Vec<MoveStep>, slot: Slot, node: NodeId) -> Result<(), AllocError>
    ensures { OnOk result (moves.new.items ≡ moves.old.items ++ move_steps slot node) }
{
    moves.reserve(5)?;
    moves.push_reserved(MoveStep::Import(slot, node));
    moves.push_reserved(MoveStep::Migrate(slot));
    moves.push_reserved(MoveStep::MoveRest(slot));
    moves.push_reserved(MoveStep::Own(slot));
    moves.push_reserved(MoveStep::Release(slot));
    Ok(())
}

fn push_recall(moves: &mut Vec<MoveStep>, slot: Slot, node: NodeId) -> Result<(), AllocError>
    ensures { OnOk result (moves.new.items ≡ moves.old.items ++ recall_steps slot node) }
{
    moves.reserve(4)?;
    moves.push_reserved(MoveStep::Import(slot, node));
    moves.push_reserved(MoveStep::Migrate(slot));
    moves.push_reserved(MoveStep::Forget(slot));
    moves.push_reserved(MoveStep::Stay(slot));
    Ok(())
}

/// Adds a request to those of the last client, where there is one.
fn add_request(alloc: Global, scripts: &mut Scripts, words: Words) -> Result<bool, NoMemory>
    ensures { IfOk result (λ fits. with_kind (task_of scripts.old) Kind.Request words ≡ where_fits fits (task_of scripts.new)) }
{
    let Some(last) = scripts.clients.pop() else {
        return Ok(false);
    };
    let longer = with_request(alloc, last, words)?;
    scripts.clients.push(longer)?;
    Ok(true)
}

/// These bytes, and a request behind them.
#[tactic(auto, unfolding(crate::specs::Scripts::spelled))]
fn with_request(alloc: Global, bytes: Bytes, words: Words) -> Result<Bytes, NoMemory>
    ensures { IfOk result (λ longer. longer ≡ bytes ++ spelled words) }
{
    let request = request_of(alloc, words)?;
    let mut bytes = bytes.into_vec(alloc)?;
    write_value(&mut bytes, &request)?;
    Ok(Bytes::new(bytes))
}

/// A request of these words: an array of bulk strings.
fn request_of(alloc: Global, words: Words) -> Result<Value, NoMemory>
    ensures { IfOk result (λ value. data_of value ≡ array (items_of (map bulk words))) }
{
    let mut items = Vec::new(alloc);
    for word in words.into_vec() {
        items.push(Value::Bulk(word))?;
    }
    Ok(Value::Array(Values::new(items)))
}
