//! The first request of an input.

ghost use Rattle.std.specs.Prelude.{◌≡◌, ◌≢◌, ◌≤◌, ◌<◌, ◌+◌, ◌++◌, ℕ, List, Some, IfOk, MatchBool, length, take};
ghost use Rattle.std.specs.Io.KnownBytes.{Consumes, IsAtEnd};
ghost use Rattle.cluster_world.specs.Opening.{Opens};
ghost use Rattle.resp_wire.specs.Data.{Data, null_array};
ghost use Rattle.resp_wire.specs.Seen.{data_of};
ghost use Rattle.resp_wire.specs.Words.{words_of};
ghost use Rattle.cluster_world.specs.Looks.{HasWords, IsOpen, Looks, Shows, opening_of};

use super::OneFault;
use crate::input::INPUT_LIMIT;
use crate::watched::WatchedReader;
use resp_wire::laws::{front_is_faulty, front_keeps_fault};
use resp_wire::{Limits, Reader, Value, WireFault, Words};
use std::alloc::Global;
use std::io::Read;

/// How many bytes one read takes at most.
const PIECE: usize = 4096;

/// What an input asks first.
#[derive(Drop)]
pub enum First {
    /// The words of a request.
    Asks(Words),
    /// A fault of the wire, or a value that is no request.
    Breaks,
    /// Nothing, up to the end of the input or the limit of its bytes.
    Ends,
}

/// What a look at the bytes that were read shows.
#[derive(Drop)]
enum Look {
    Found(First),
    Skipped,
    Partial,
}

/// Reads until a request is whole, a fault is found, the input ends, or as many bytes were read as the limit says.
pub fn first_request<R: Read>(
    alloc: Global,
    reader: &mut WatchedReader<R>,
) -> Result<First, OneFault>
    ensures asked { IfOk result HasWords }
    ensures opens { IfOk result (λ first. (input : List ℕ) → R.remaining reader.old.reader ≡ Some input
        → Opens (take INPUT_LIMIT input) (opening_of first)) }
    ensures reads { reader.new.reads ≤ reader.old.reads + INPUT_LIMIT }
{
    let mut wire = Reader::new(alloc, Limits::full());
    let mut left = INPUT_LIMIT;
    loop {
        match look_at(alloc, &mut wire)? {
            Look::Found(first) => return Ok(first),
            Look::Skipped => {}
            Look::Partial => {
                if left == 0 {
                    return Ok(First::Ends);
                }
                let count = read_more(reader, &mut wire, left)?;
                if count == 0 {
                    return Ok(First::Ends);
                }
                left -= count;
            }
        }
    }
}

/// Takes the next value off the bytes that were read, where one is whole.
fn look_at(alloc: Global, wire: &mut Reader) -> Result<Look, OneFault>
    requires { IsOpen wire.old }
    ensures { IfOk result (λ look. Looks wire.old look wire.new) }
{
    front_is_faulty();
    front_keeps_fault();
    match wire.next() {
        Ok(Some(value)) => asked(alloc, value),
        Ok(None) => Ok(Look::Partial),
        Err(fault) => match fault {
            WireFault::NoMemory => Err(OneFault::NoMemory),
            _ => Ok(Look::Found(First::Breaks)),
        },
    }
}

/// What a value asks.
fn asked(alloc: Global, value: Value) -> Result<Look, OneFault>
    ensures { IfOk result (Shows (data_of value)) }
{
    if is_null_array(&value) {
        return Ok(Look::Skipped);
    }
    if !value.is_request() {
        return Ok(Look::Found(First::Breaks));
    }
    match value.into_words(alloc) {
        Ok(words) => Ok(look_of(words)),
        Err(_value) => Err(OneFault::NoMemory),
    }
}

fn is_null_array(value: &Value) -> bool
    ensures { MatchBool result (data_of value.now ≡ null_array) (data_of value.now ≢ null_array) }
{
    matches!(value, Value::NullArray)
}

/// A request of these words, or nothing where there is none.
fn look_of(words: Words) -> Look
    ensures { (value : Data) → words_of value ≡ Some words → Shows value result }
{
    if words.as_slice().is_empty() {
        return Look::Skipped;
    }
    Look::Found(First::Asks(words))
}

/// Reads a piece of at most `left` bytes, and answers how many came: none at the end.
fn read_more<R: Read>(
    reader: &mut WatchedReader<R>,
    wire: &mut Reader,
    left: usize,
) -> Result<usize, OneFault>
    requires open { IsOpen wire.old }
    requires room { 0 < left }
    ensures within { IfOk result (λ count. count ≤ left) }
    ensures came { IfOk result (λ count. (piece : List ℕ) × (length piece ≡ count) × Consumes (R.remaining reader.old.reader) (R.remaining reader.new.reader) piece
        × (wire.new ≡ record wire.old { unread = wire.old.unread ++ piece })) }
    ensures end { IfOk result (λ count. count ≡ 0 → IsAtEnd (R.remaining reader.new.reader)) }
    ensures reads { reader.new.reads ≤ reader.old.reads + 1 }
{
    let mut piece = [0u8; PIECE];
    let room = left.min(PIECE);
    let Some(count) = reader.read(&mut piece[..room]) else {
        return Err(OneFault::ReadFailed);
    };
    wire.feed(&piece[..count]).map_err(|_| OneFault::NoMemory)?;
    Ok(count)
}
