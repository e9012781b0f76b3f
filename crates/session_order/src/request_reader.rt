//! A client's bytes, and the request that is next of them.

ghost use Rattle.std.specs.Prelude.{◌≡◌, ◌<◌, ◌≤◌, [], None, Some, OnErr, length, take};
ghost use Rattle.session_order.specs.Ahead.{GiveOutcome};

use crate::request_kind::{RequestKind, kind_of};
use resp_wire::{Limits, Reader, Skipped, Value, WireFault, Words};
use std::alloc::Global;
use std::marker::Model;
use std::mem;

/// What was taken off the bytes and not given, for want of memory.
#[derive(Drop)]
enum Ahead {
    Nothing,
    Value(Value),
    Words(Words),
}

/// Takes requests off a client's bytes.
#[derive(Drop)]
pub struct RequestReader {
    alloc: Global,
    reader: Reader,
    ahead: Ahead,
}

impl Model for RequestReader {
    ghost use Rattle.session_order.specs.RequestReaderModel.{RequestReaderModel};

    ghost Value = { RequestReaderModel };

    ghost use Rattle.session_order.specs.Ahead.{words_ahead, IsAhead};

    ghost view = { λ a. record { input = a.reader; ahead = words_ahead a.ahead } };

    ghost invariant = { λ a. IsAhead a.ahead };
}

impl RequestReader {
    ghost use Rattle.session_order.specs.RequestReaderModel.{TakeOutcome, HasWords, LacksValue};
    ghost use Rattle.resp_wire.specs.FirstValue.{Feeds};

    pub fn new(alloc: Global, limits: Limits) -> RequestReader
        ensures { result ≡ record { input = record { bounds = limits; unread = []; fault = None }; ahead = None } }
    {
        RequestReader {
            alloc,
            reader: Reader::new(alloc, limits),
            ahead: Ahead::Nothing,
        }
    }

    /// Takes the first `count` bytes of a buffer, which may come back as another one.
    pub fn feed(&mut self, buffer: &mut Vec<u8>, count: usize) -> Result<(), WireFault>
        requires { count ≤ length buffer.old.items }
        ensures fed { Feeds self.old.input (take count buffer.old.items) result self.new.input }
        ensures rest { self.new ≡ record self.old { input = self.new.input } }
        ensures kept { OnErr result (buffer.new.items ≡ buffer.old.items) }
    {
        self.reader.feed_from(buffer, count)
    }

    /// Gives the room of the bytes away, where none is left, or few are.
    pub fn give_room(&mut self, room: &mut Vec<u8>)
        ensures { self.new ≡ self.old }
    {
        self.reader.give_room(room);
    }

    /// Takes the next request off the bytes, where one is whole.
    pub fn next(&mut self) -> Result<Option<RequestKind>, WireFault>
        requires { self.old.input.fault ≡ None }
        ensures does { TakeOutcome self.old result self.new }
        ensures words { HasWords result }
    {
        match mem::replace(&mut self.ahead, Ahead::Nothing) {
            Ahead::Words(words) => Ok(Some(RequestKind::Words(words))),
            Ahead::Value(value) => classify(self.alloc, value, &mut self.ahead),
            Ahead::Nothing => match self.reader.next() {
                Ok(Some(value)) => classify(self.alloc, value, &mut self.ahead),
                Ok(None) => Ok(None),
                Err(WireFault::NoMemory) => self.next_without_memory(),
                Err(fault) => Err(fault),
            },
        }
    }

    // A whole value stands first for which there is no memory: it is passed over where it is no request.
    fn next_without_memory(&mut self) -> Result<Option<RequestKind>, WireFault>
        requires { LacksValue self.old }
        ensures does { TakeOutcome self.old result self.new }
        ensures words { HasWords result }
    {
        match self.reader.skip_other() {
            None => Err(WireFault::NoMemory),
            Some(Skipped::Empty) => Ok(Some(RequestKind::Skipped)),
            Some(Skipped::Other) => Ok(Some(RequestKind::Refused)),
        }
    }

    /// Puts the words back that were taken last.
    pub fn put_back(&mut self, words: Words)
        requires none { self.old.ahead ≡ None }
        requires some { 0 < length words }
        ensures { self.new ≡ record self.old { ahead = Some words } }
    {
        self.ahead = Ahead::Words(words);
    }
}

// What a value that was taken off the bytes asks for. A request whose words find no memory is kept ahead.
fn classify(
    alloc: Global,
    value: Value,
    ahead: &mut Ahead,
) -> Result<Option<RequestKind>, WireFault>
    requires { ahead.old ≡ Ahead.Nothing }
    ensures { GiveOutcome value result ahead.new }
{
    match kind_of(alloc, value) {
        Ok(kind) => Ok(Some(kind)),
        Err(value) => {
            *ahead = Ahead::Value(value);
            Err(WireFault::NoMemory)
        }
    }
}
