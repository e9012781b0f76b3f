//! The item that a node reads first in the bytes that came.

ghost use Rattle.std.specs.Prelude.{◌≡◌, ◌<◌, ◌↔◌, ◌∷◌, [], IfOk, IsTrue, codes};
ghost use Rattle.turn_laws.specs.ByteWires.{asking_after};
ghost use Rattle.turn_play.specs.Hearing.{BeginsRequest, Hears, item_of, most_replies};

use crate::block::{Block, commands_at, is_word};
use crate::first_words::{FirstWords, first_words};
use crate::plain_part::plain_part;
use key_split::Part;
use resp_wire::{Bytes, NoMemory};
use std::alloc::Global;

/// What a node serves at once.
#[derive(Drop)]
pub enum Heard {
    Asking,
    /// One command, or those between MULTI and EXEC.
    Commands(Vec<Part>),
    Slots,
}

impl Heard {
    /// How many replies the node writes to it at most.
    pub(crate) fn most_replies(&self) -> usize
        ensures { result ≡ most_replies (item_of self.now) }
    {
        match self {
            Heard::Asking => 1,
            Heard::Commands(parts) => parts.len() + 2,
            Heard::Slots => 1,
        }
    }

    /// The flag that ASKING sets, after it was served.
    pub(crate) fn asking_after(&self, asking: bool) -> bool
        ensures { result ≡ asking_after (item_of self.now) asking }
    {
        match self {
            Heard::Asking => true,
            Heard::Commands(_) => false,
            Heard::Slots => asking,
        }
    }
}

/// What a node reads first.
#[derive(Drop)]
pub enum Hearing {
    /// This, in so many bytes.
    Item(Heard, usize),
    /// Less than what a node serves at once.
    Short,
    /// What it doesn't serve.
    Other,
}

/// The item that the bytes begin with: a block is one, and none before its EXEC came.
pub(crate) fn hear(alloc: Global, bytes: &[u8]) -> Result<Hearing, NoMemory>
    ensures { Hears bytes.now result }
{
    match first_words(alloc, bytes)? {
        FirstWords::Words(words, count) => hear_words(alloc, bytes, words.as_slice(), count),
        FirstWords::Short => Ok(Hearing::Short),
        FirstWords::Other => Ok(Hearing::Other),
    }
}

/// The item that bytes begin with whose first request has these words and so many bytes.
fn hear_words(
    alloc: Global,
    bytes: &[u8],
    words: &[Bytes],
    count: usize,
) -> Result<Hearing, NoMemory>
    requires { BeginsRequest bytes.now words.now count }
    ensures { Hears bytes.now result }
{
    if is_word(words, b"ASKING") {
        return Ok(Hearing::Item(Heard::Asking, count));
    }
    if are_words(words, b"CLUSTER", b"SLOTS") {
        return Ok(Hearing::Item(Heard::Slots, count));
    }
    if is_word(words, b"MULTI") {
        return hear_block(alloc, bytes, count);
    }
    match plain_part(alloc, words)? {
        Some(part) => Ok(Hearing::Item(Heard::Commands(alone(alloc, part)?), count)),
        None => Ok(Hearing::Other),
    }
}

/// The block that bytes begin with whose MULTI has so many bytes. One of less than two commands is no item.
fn hear_block(alloc: Global, bytes: &[u8], count: usize) -> Result<Hearing, NoMemory>
    requires { BeginsRequest bytes.now (codes "MULTI" ∷ []) count }
    ensures { Hears bytes.now result }
{
    match commands_at(alloc, &bytes[count..])? {
        Block::Whole(parts, more) => {
            if parts.len() < 2 {
                return Ok(Hearing::Other);
            }
            Ok(Hearing::Item(Heard::Commands(parts), count + more))
        }
        Block::Short => Ok(Hearing::Short),
        Block::Other => Ok(Hearing::Other),
    }
}

fn alone(alloc: Global, part: Part) -> Result<Vec<Part>, NoMemory>
    ensures { IfOk result (λ parts. parts.items ≡ part ∷ []) }
{
    let mut parts = Vec::with_capacity(alloc, 1)?;
    parts.push_reserved(part);
    Ok(parts)
}

/// Whether these are the words.
fn are_words(words: &[Bytes], first: &[u8], second: &[u8]) -> bool
    ensures { IsTrue result ↔ (words.now ≡ first.now ∷ second.now ∷ []) }
{
    match words {
        [word, argument] => word.as_slice() == first && argument.as_slice() == second,
        _ => false,
    }
}
