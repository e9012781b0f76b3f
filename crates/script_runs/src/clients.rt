//! What the clients of a run were answered, held against their scripts.

ghost use Rattle.std.specs.Prelude.{◌≡◌, ◌↔◌, ◌&&◌, ◌<◌, ◌≤◌, ◌^◌, List, [], IfOk, IsTrue, length, replicate, slice_set};
ghost use Rattle.std.specs.List.{flat_map};
ghost use Rattle.script_runs.specs.Answered.{ends_noted, replies_in, Agrees};
ghost use Rattle.script_runs.specs.Requests.{Requested};
ghost use Rattle.script_runs.specs.Run.{parts_from, AreAnswered, AskFor, IsFront, IsStopped};

use crate::client_id::ClientId;
use crate::ends::EndTable;
use crate::record::ClientRecord;
use crate::replay::{Replay, replay_script};
use key_split::{Ended, Part, Ticket};
use resp_wire::{Bytes, NoMemory};
use std::alloc::Global;

/// The parts of all scripts, and whether each client was answered as its script and the ends say.
pub(crate) fn replay_all(
    alloc: Global,
    scripts: &[Bytes],
    workers: u16,
    stopped: &[u16],
    ends: &[(Ticket, Ended)],
    replies: &[Bytes],
) -> Result<(Vec<(Ticket, Part)>, bool), NoMemory>
    requires some { 0 < workers }
    requires few { length scripts.now ≤ 2 ^ 32 }
    requires each { length replies.now ≡ length scripts.now }
    ensures { IfOk result (λ made. (asked : List Requested) × AskFor scripts.now asked × (made.0.items ≡ parts_from workers 0 asked)
        × (IsTrue made.1 ↔ AreAnswered workers stopped.now ends.now 0 asked replies.now)) }
{
    let table = EndTable::new(alloc, ends)?;
    let mut parts = Vec::new(alloc);
    let mut are_answered = true;
    for client in 0..scripts.len() {
        let client_id = ClientId::of(client as u32, workers);
        let made = replay_script(alloc, &scripts[client], client_id, &table, parts)?;
        let agreed = agrees(
            &made,
            is_stopped(stopped, client_id.worker),
            &replies[client],
        );
        are_answered = both(are_answered, agreed);
        parts = made.into_parts();
    }
    Ok((parts, are_answered))
}

fn is_stopped(stopped: &[u16], worker: u16) -> bool
    ensures { IsTrue result ↔ IsStopped stopped.now worker }
{
    stopped.contains(&worker)
}

/// Whether the client's bytes are what it is to be answered: a front of it where its worker was stopped, else all of it.
fn agrees(made: &Replay, is_stopped: bool, bytes: &Bytes) -> bool
    ensures { IsTrue result ↔ Agrees made.now.is_whole made.now.output.items is_stopped bytes.now }
{
    if is_stopped {
        is_front(bytes.as_slice(), &made.output)
    } else {
        made.is_whole && made.output.as_slice() == bytes.as_slice()
    }
}

fn is_front(bytes: &[u8], whole: &[u8]) -> bool
    ensures { IsTrue result ↔ IsFront bytes.now whole.now }
{
    if whole.len() < bytes.len() {
        return false;
    }
    let front = &whole[..bytes.len()];
    front == bytes
}

fn both(first: bool, second: bool) -> bool
    ensures { result ≡ first && second }
{
    first && second
}

/// Each client's bytes at its place, and all ends in order.
pub(crate) fn gather(
    alloc: Global,
    count: usize,
    clients: Vec<ClientRecord>,
) -> Result<(Vec<Bytes>, Vec<(Ticket, Ended)>), NoMemory>
    ensures replies { IfOk result (λ made. made.0.items ≡ replies_in count clients.items) }
    ensures ends { IfOk result (λ made. made.1.items ≡ flat_map ends_noted clients.items) }
{
    let mut replies = unanswered(alloc, count)?;
    let mut ends = Vec::new(alloc);
    for client in clients {
        let ClientRecord {
            client,
            replies: bytes,
            ends: mut own,
        } = client;
        ends.append(&mut own)?;
        put(&mut replies, client, bytes);
    }
    Ok((replies, ends))
}

/// No bytes for each of `count` clients.
fn unanswered(alloc: Global, count: usize) -> Result<Vec<Bytes>, NoMemory>
    ensures { IfOk result (λ made. made.items ≡ replicate count []) }
{
    let mut replies = Vec::with_capacity(alloc, count)?;
    for _ in 0..count {
        replies.push_reserved(Bytes::new(Vec::new(alloc)));
    }
    Ok(replies)
}

/// Puts a client's bytes at its place, where there is one.
fn put(replies: &mut Vec<Bytes>, client: u32, bytes: Bytes)
    ensures { replies.new.items ≡ slice_set replies.old.items client bytes }
{
    let place = client as usize;
    if place < replies.len() {
        replies[place] = bytes;
    }
}
