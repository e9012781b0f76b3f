//! Replies that come in pieces, counted.

ghost use Rattle.std.specs.Prelude.{◌≡◌, ◌++◌, ◌↔◌, ℕ, List, IfOk, OnOk, OnErr, IsTrue, []};
ghost use Rattle.proxy_turns.specs.Owing.{Holds, IsCounted};
ghost use Rattle.proxy_turns.specs.Received.{FeedOutcome, TakeOutcome, CountOutcome};

use resp_wire::laws::{front_keeps_fault, front_keeps_value};
use resp_wire::{Bytes, Limits, NoMemory, Reader, WireFault};
use std::alloc::Global;
use std::marker::Model;

/// The bytes that came, and how many whole replies were read of them.
#[derive(Drop)]
pub(crate) struct Received {
    bytes: Vec<u8>,
    reader: Reader,
    count: u64,
}

impl Model for Received {
    ghost use Rattle.std.specs.Prelude.{List, ℕ};
    ghost use Rattle.proxy_turns.specs.Owing.{IsCounted};

    ghost Value = { List ℕ };

    ghost view = { λ a. a.bytes.items };

    ghost invariant = { λ a. IsCounted a.bytes.items a.reader a.count };
}

impl Received {
    pub(crate) fn new(alloc: Global) -> Received
        ensures { result ≡ [] }
    {
        Received {
            bytes: Vec::new(alloc),
            reader: Reader::new(alloc, Limits::full()),
            count: 0,
        }
    }

    pub(crate) fn push(&mut self, piece: &[u8]) -> Result<(), NoMemory>
        ensures ok { OnOk result (self.new ≡ self.old ++ piece.now) }
        ensures err { OnErr result (self.new ≡ self.old) }
    {
        front_keeps_value();
        front_keeps_fault();
        let start = self.bytes.len();
        self.bytes.extend_from_slice(piece)?;
        match feed(&mut self.reader, piece) {
            Ok(()) => Ok(()),
            Err(NoMemory) => {
                self.bytes.truncate(start);
                Err(NoMemory)
            }
        }
    }

    /// Whether `owed` whole replies came.
    pub(crate) fn holds(&mut self, owed: u64) -> Result<bool, NoMemory>
        ensures kept { self.new ≡ self.old }
        ensures holds { IfOk result (λ all. IsTrue all ↔ Holds owed self.old) }
    {
        count_to(&mut self.reader, &mut self.count, owed)
    }

    pub(crate) fn into_bytes(self) -> Bytes
        ensures { result ≡ self }
    {
        Bytes::new(self.bytes)
    }
}

// Feeds the reader, unless it has met a fault.
fn feed(reader: &mut Reader, piece: &[u8]) -> Result<(), NoMemory>
    ensures { FeedOutcome reader.old piece.now result reader.new }
{
    match reader.feed(piece) {
        Ok(()) => Ok(()),
        Err(WireFault::NoMemory) => Err(NoMemory),
        Err(_) => Ok(()),
    }
}

// Reads replies on, up to this count. True where it is reached.
fn count_to(reader: &mut Reader, count: &mut u64, owed: u64) -> Result<bool, NoMemory>
    ensures counted { (bytes : List ℕ) → IsCounted bytes reader.old count.old → IsCounted bytes reader.new count.new }
    ensures outcome { IfOk result (λ reached. CountOutcome owed reached reader.new count.new) }
{
    while *count < owed {
        if !take(reader)? {
            return Ok(false);
        }
        *count += 1;
    }
    Ok(true)
}

// Takes the next reply off. False where none is whole.
fn take(reader: &mut Reader) -> Result<bool, NoMemory>
    ensures { TakeOutcome reader.old result reader.new }
{
    match reader.next() {
        Ok(Some(reply)) => {
            drop(reply);
            Ok(true)
        }
        Ok(None) => Ok(false),
        Err(WireFault::NoMemory) => Err(NoMemory),
        Err(_) => Ok(false),
    }
}
