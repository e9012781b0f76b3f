//! What the replies to a block of commands tell them.

ghost use Rattle.std.specs.Prelude.{◌≡◌, ◌+◌, IfOk, length, option_map, reverse};
ghost use Rattle.std.specs.List.{find, list_all};
ghost use Rattle.node_link.specs.Runs.{BlockOutcome, common_ask, ends_block, is_answer, is_ask_to_all, is_error, is_error_of, is_moved, is_queued, is_text, redirect_of, told_of_none};
ghost use Rattle.node_link.specs.Items.{AreItems};

use crate::block_told::BlockTold;
use crate::port::PortFault;
use crate::redirect::{self, split_word};
use key_split::error_line;
use resp_wire::{NoMemory, Value};
use std::alloc::Global;

/// Takes what the replies to a block of `count` commands tell them. Where memory is wanting, and where they are no replies to such a
/// block, they stay.
pub fn take_told(
    alloc: Global,
    replies: &mut Vec<Value>,
    count: usize,
) -> Result<BlockTold, PortFault>
    requires { length replies.old.items ≡ count + 2 }
    ensures { BlockOutcome count replies.old.items result replies.new.items }
{
    if !is_answer(replies, count) {
        return Err(PortFault::BadWire);
    }
    if !is_error(&replies[count + 1]) {
        let executed = replies.pop();
        replies.clear();
        return Ok(BlockTold::Each(items_backwards(alloc, executed)));
    }
    match told_of_none(alloc, &replies[1..count + 1], &replies[count + 1]) {
        Ok(value) => {
            replies.clear();
            Ok(BlockTold::Same(value, count))
        }
        Err(NoMemory) => Err(PortFault::NoMemory),
    }
}

fn is_answer(replies: &[Value], count: usize) -> bool
    requires { length replies.now ≡ count + 2 }
    ensures { result ≡ is_answer count replies.now }
{
    let [begun, later @ ..] = replies else {
        return false;
    };
    0 < count
        && is_text(begun, b"OK")
        && are_queued(&later[..count])
        && ends_block(&later[count], count)
}

fn are_queued(replies: &[Value]) -> bool
    ensures { result ≡ list_all is_queued replies.now }
{
    let mut rest = replies;
    while let [reply, later @ ..] = rest {
        if !is_queued(reply) {
            return false;
        }
        rest = later;
    }
    true
}

fn is_queued(reply: &Value) -> bool
    ensures { result ≡ is_queued reply.now }
{
    is_error(reply) || is_text(reply, b"QUEUED")
}

fn ends_block(reply: &Value, count: usize) -> bool
    ensures { result ≡ ends_block count reply.now }
{
    match reply {
        Value::Error(_) => true,
        Value::Array(items) => items.as_slice().len() == count,
        Value::Simple(_)
        | Value::Integer(_)
        | Value::Bulk(_)
        | Value::NullBulk
        | Value::NullArray => false,
    }
}

fn is_error(reply: &Value) -> bool
    ensures { result ≡ is_error reply.now }
{
    matches!(reply, Value::Error(_))
}

fn is_text(reply: &Value, text: &[u8]) -> bool
    ensures { result ≡ is_text text.now reply.now }
{
    let Value::Simple(line) = reply else {
        return false;
    };
    line.bytes() == text
}

// The items of an array, the last first.
fn items_backwards(alloc: Global, reply: Option<Value>) -> Vec<Value>
    ensures { AreItems reply (reverse result.items) }
{
    let Some(Value::Array(items)) = reply else {
        return Vec::new(alloc);
    };
    let mut items = items.into_vec();
    items.reverse();
    items
}

// What each command is told where none was executed.
fn told_of_none(alloc: Global, queued: &[Value], exec: &Value) -> Result<Value, NoMemory>
    ensures { IfOk result (λ told. told ≡ told_of_none queued.now exec.now) }
{
    match redirect_of(queued, exec) {
        Some(redirect) => redirect.copy(alloc),
        None => error_line(alloc, b"TRYAGAIN"),
    }
}

fn redirect_of<'a>(queued: &'a [Value], exec: &'a Value) -> Option<&'a Value>
    ensures { option_map (λ redirect. redirect.now) result ≡ redirect_of queued.now exec.now }
{
    if is_moved(exec) {
        return Some(exec);
    }
    match first_moved(queued) {
        Some(moved) => Some(moved),
        None => common_ask(queued),
    }
}

fn first_moved(queued: &[Value]) -> Option<&Value>
    ensures { option_map (λ moved. moved.now) result ≡ find is_moved queued.now }
{
    let mut rest = queued;
    while let [reply, later @ ..] = rest {
        if is_moved(reply) {
            return Some(reply);
        }
        rest = later;
    }
    None
}

fn is_moved(reply: &Value) -> bool
    ensures { result ≡ is_moved reply.now }
{
    let Value::Error(line) = reply else {
        return false;
    };
    redirect::is_moved(split_word(line.bytes()).0)
}

// The ASK that all commands got.
fn common_ask(queued: &[Value]) -> Option<&Value>
    ensures { option_map (λ ask. ask.now) result ≡ common_ask queued.now }
{
    let [first, later @ ..] = queued else {
        return None;
    };
    if is_ask_to_all(first, later) {
        return Some(first);
    }
    None
}

fn is_ask_to_all(first: &Value, later: &[Value]) -> bool
    ensures { result ≡ is_ask_to_all first.now later.now }
{
    let Value::Error(line) = first else {
        return false;
    };
    redirect::is_ask(split_word(line.bytes()).0) && are_errors_of(line.bytes(), later)
}

fn are_errors_of(line: &[u8], replies: &[Value]) -> bool
    ensures { result ≡ list_all (is_error_of line.now) replies.now }
{
    let mut rest = replies;
    while let [reply, later @ ..] = rest {
        if !is_error_of(line, reply) {
            return false;
        }
        rest = later;
    }
    true
}

fn is_error_of(line: &[u8], reply: &Value) -> bool
    ensures { result ≡ is_error_of line.now reply.now }
{
    let Value::Error(other) = reply else {
        return false;
    };
    other.bytes() == line
}
