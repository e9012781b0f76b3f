//! The bytes that were read and make no value yet.

ghost use Rattle.std.specs.Prelude.{◌≡◌, ◌<◌, ◌≤◌, [], None, OnOk, IfErr, Err, length, take};
ghost use Rattle.node_link.specs.Bytes.{input_of, FillOutcome, IsAsked, ReadChunkOutcome, TakeOutcome};
ghost use Rattle.node_link.specs.Waiting.{WasRead};

use crate::port::PortFault;
use crate::stream::{Flow, Gone, Stream};
use resp_wire::{Limits, NoMemory, Reader, Value, WireFault};
use std::alloc::Global;
use std::marker::Model;

/// Room for one read at least, in bytes.
const CHUNK: usize = 16 * 1024;

/// Bytes that were read, as they come and as a reader holds them. A reader that has nothing unread takes the chunk as its buffer, and
/// gives it back before the next read: so their bytes are not copied, and one buffer is left where nothing comes.
pub struct Inbox {
    reader: Reader,
    chunk: Vec<u8>,
    /// How many bytes of the chunk the reader was not fed yet.
    filled: usize,
    /// The reader has no whole value in what it was fed.
    is_short: bool,
}

// By hand, so that the crates above prove one call.
impl Drop for Inbox {
    fn drop(self) {
        let Inbox {
            reader,
            chunk,
            filled: _,
            is_short: _,
        } = self;
        drop(reader);
        drop(chunk);
    }
}

impl Model for Inbox {
    ghost use Rattle.std.specs.Prelude.{◌≤◌, length, take};
    ghost use Rattle.node_link.specs.Bytes.{InboxModel, IsFaultFirst, IsShortWhere};

    ghost Value = { InboxModel };

    ghost view = { λ a. record { fed = a.reader; unfed = take a.filled a.chunk.items; room = length a.chunk.items } };

    ghost invariant = { λ a. (a.filled ≤ length a.chunk.items) × IsFaultFirst a.reader (take a.filled a.chunk.items) × IsShortWhere a.is_short a.reader };
}

impl Inbox {
    pub fn new(alloc: Global, limits: Limits) -> Inbox
        ensures { result ≡ record { fed = record { bounds = limits; unread = []; fault = None }; unfed = []; room = 0 } }
    {
        Inbox {
            reader: Reader::new(alloc, limits),
            chunk: Vec::new(alloc),
            filled: 0,
            is_short: false,
        }
    }

    /// Takes the first value, where a whole one was read.
    pub fn take(&mut self) -> Result<Option<Value>, PortFault>
        ensures taken { TakeOutcome (input_of self.old) result (input_of self.new) }
        ensures fed { OnOk result ((self.new.unfed ≡ []) × (self.new.fed.fault ≡ None)) }
    {
        if let Err(fault) = self.feed() {
            return Err(fault);
        }
        if self.is_short {
            return Ok(None);
        }
        match self.reader.next() {
            Ok(Some(value)) => Ok(Some(value)),
            Ok(None) => {
                self.is_short = true;
                Ok(None)
            }
            Err(WireFault::NoMemory) => Err(PortFault::NoMemory),
            Err(_) => Err(PortFault::BadWire),
        }
    }

    // Feeds the reader what it was not fed yet.
    fn feed(&mut self) -> Result<(), PortFault>
        ensures ok { OnOk result ((input_of self.new ≡ input_of self.old) × (self.new.unfed ≡ [])) }
        ensures err { IfErr result (λ fault. TakeOutcome (input_of self.old) (Err fault) (input_of self.new)) }
    {
        if self.filled == 0 {
            return Ok(());
        }
        match self.reader.feed_from(&mut self.chunk, self.filled) {
            Ok(()) => {
                self.filled = 0;
                self.is_short = false;
                Ok(())
            }
            Err(WireFault::NoMemory) => Err(PortFault::NoMemory),
            Err(_) => Err(PortFault::BadWire),
        }
    }

    /// Makes room for what will be read.
    pub fn make_room(&mut self) -> Result<(), NoMemory>
        requires { self.old.unfed ≡ [] }
        ensures kept { self.new ≡ record self.old { room = self.new.room } }
        ensures made { OnOk result (0 < self.new.room) }
    {
        if self.chunk.len() >= CHUNK {
            return Ok(());
        }
        self.reader.give_room(&mut self.chunk);
        match self.chunk.resize(CHUNK, 0) {
            Ok(()) => Ok(()),
            Err(_) => Err(NoMemory),
        }
    }

    /// Reads some bytes.
    pub fn fill<S: Stream>(&mut self, stream: &mut S) -> Result<(), Gone>
        requires empty { self.old.unfed ≡ [] }
        requires sound { self.old.fed.fault ≡ None }
        requires room { 0 < self.old.room }
        ensures read { FillOutcome S.failures S.moved stream.old self.old result stream.new self.new }
        ensures count { S.failures stream.old ≤ S.failures stream.new }
        ensures asked { IsAsked S.asked stream.old stream.new }
        ensures read_now { OnOk result (WasRead S.asked stream.old stream.new) }
    {
        match read_chunk(stream, &mut self.chunk) {
            Ok(count) => {
                self.filled = count;
                Ok(())
            }
            Err(Gone) => Err(Gone),
        }
    }
}

// Reads some bytes to the front of the chunk.
fn read_chunk<S: Stream>(stream: &mut S, chunk: &mut Vec<u8>) -> Result<usize, Gone>
    requires { 0 < length chunk.old.items }
    ensures read { ReadChunkOutcome S.failures S.moved stream.old result stream.new chunk.new.items }
    ensures count { S.failures stream.old ≤ S.failures stream.new }
    ensures asked { IsAsked S.asked stream.old stream.new }
    ensures read_now { OnOk result (WasRead S.asked stream.old stream.new) }
{
    match stream.read(chunk) {
        Flow::Bytes(count) => Ok(count),
        Flow::Nothing => Ok(0),
        Flow::Gone => Err(Gone),
    }
}
