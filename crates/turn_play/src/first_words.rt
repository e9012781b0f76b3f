//! The words of the request that bytes begin with.

ghost use Rattle.resp_wire.specs.Seen.{data_of};
ghost use Rattle.turn_play.specs.Hearing.{FindsValue, HearsWords, TellsWords};

use resp_wire::{Limits, NoMemory, Reader, Value, WireFault, Words};
use std::alloc::Global;

/// What bytes begin with.
#[derive(Drop)]
pub enum FirstWords {
    /// A request: its words, and how many bytes it has.
    Words(Words, usize),
    /// Less than a value.
    Short,
    /// What is no request.
    Other,
}

/// The words of the request that the bytes begin with.
pub(crate) fn first_words(alloc: Global, bytes: &[u8]) -> Result<FirstWords, NoMemory>
    ensures { HearsWords bytes.now result }
{
    match first_value(alloc, bytes) {
        Ok(Some((value, count))) => words_in(alloc, value, count),
        Ok(None) => Ok(FirstWords::Short),
        Err(WireFault::NoMemory) => Err(NoMemory),
        Err(WireFault::BadType) => Ok(FirstWords::Other),
        Err(WireFault::BadNumber) => Ok(FirstWords::Other),
        Err(WireFault::TooLong) => Ok(FirstWords::Other),
        Err(WireFault::TooMany) => Ok(FirstWords::Other),
        Err(WireFault::TooDeep) => Ok(FirstWords::Other),
        Err(WireFault::BadEnd) => Ok(FirstWords::Other),
    }
}

/// The value that the bytes begin with, and how many bytes it has. The reader is fed byte by byte, so it has taken no byte of what
/// follows.
fn first_value(alloc: Global, bytes: &[u8]) -> Result<Option<(Value, usize)>, WireFault>
    ensures { FindsValue bytes.now result }
{
    let mut reader = Reader::new(alloc, Limits::full());
    for at in 0..bytes.len() {
        reader.feed(&bytes[at..at + 1])?;
        let Some(value) = reader.next()? else {
            continue;
        };
        return Ok(Some((value, at + 1)));
    }
    Ok(None)
}

/// The words of a value that has so many bytes.
fn words_in(alloc: Global, value: Value, count: usize) -> Result<FirstWords, NoMemory>
    ensures { TellsWords (data_of value) count result }
{
    if !value.is_request() {
        return Ok(FirstWords::Other);
    }
    match value.into_words(alloc) {
        Ok(words) => Ok(FirstWords::Words(words, count)),
        Err(value) => {
            drop(value);
            Err(NoMemory)
        }
    }
}
