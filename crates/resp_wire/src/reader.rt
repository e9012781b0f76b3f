//! A stream of values in pieces.

ghost use Rattle.std.specs.Prelude.{◌≡◌, ◌≤◌, [], None, OnErr, length, take};
ghost use Rattle.resp_wire.specs.Stream.{ReaderAnswers};
ghost use Rattle.resp_wire.specs.FirstValue.{Feeds, ReaderTakes};
ghost use Rattle.resp_wire.specs.Skipping.{Skips};
ghost use Rattle.resp_wire.specs.Taken.{TakesOff, TakesAtOnce, AnswersAndTakes};

use crate::build::{Building, build};
use crate::fault::{NoMemory, WireFault};
use crate::limits::Limits;
use crate::place::Place;
use crate::skip::{Skipped, skipped_at};
use crate::unread::Unread;
use crate::value::Value;
use std::alloc::Global;
use std::marker::Model;

/// Reads values from a stream that comes in pieces.
pub struct Reader {
    limits: Limits,
    unread: Unread,
    /// How far the value at the front was read.
    place: Place,
    /// The fault that was found, and is answered from then on.
    fault: Option<WireFault>,
}

// By hand, so that the crates above prove one call.
impl Drop for Reader {
    fn drop(self) {
        let Reader {
            limits: _,
            unread,
            place: _,
            fault: _,
        } = self;
        drop(unread);
    }
}

impl Model for Reader {
    ghost use Rattle.resp_wire.specs.ReaderModel.{ReaderModel};

    ghost Value = { ReaderModel };

    ghost use Rattle.resp_wire.specs.Places.{IsPlace, IsKept};

    ghost view = { λ a. record { bounds = a.limits; unread = a.unread; fault = a.fault } };

    ghost invariant = { λ a. IsPlace a.limits a.unread a.place × IsKept a.fault };
}

impl Reader {
    /// Nothing has been fed.
    pub fn new(alloc: Global, limits: Limits) -> Reader
        ensures { result ≡ record { bounds = limits; unread = []; fault = None } }
    {
        Reader {
            limits,
            unread: Unread::new(alloc),
            place: Place::start(),
            fault: None,
        }
    }

    /// Takes the next piece of the stream.
    pub fn feed(&mut self, piece: &[u8]) -> Result<(), WireFault>
        ensures { Feeds self.old piece.now result self.new }
    {
        if let Some(fault) = self.fault {
            return Err(fault);
        }
        match self.unread.push(piece) {
            Ok(()) => Ok(()),
            Err(NoMemory) => Err(WireFault::NoMemory),
        }
    }

    /// Takes the first `count` bytes of a buffer as the next piece of the stream. Where nothing is unread, the two change buffers, and no
    /// byte is copied. What the buffer holds afterwards is room.
    pub fn feed_from(&mut self, buffer: &mut Vec<u8>, count: usize) -> Result<(), WireFault>
        requires { count ≤ length buffer.old.items }
        ensures fed { Feeds self.old (take count buffer.old.items) result self.new }
        ensures kept { OnErr result (buffer.new.items ≡ buffer.old.items) }
    {
        if let Some(fault) = self.fault {
            return Err(fault);
        }
        match self.unread.push_from(buffer, count) {
            Ok(()) => Ok(()),
            Err(NoMemory) => Err(WireFault::NoMemory),
        }
    }

    /// Gives the reader's buffer away where nothing is unread, or little of it: `room` is then that buffer, if it has more.
    pub fn give_room(&mut self, room: &mut Vec<u8>)
        ensures { self.new ≡ self.old }
    {
        self.unread.give_room(room);
    }

    /// Takes the first value off the front, or None where no whole value is there yet. After a fault of the
    /// stream, each call answers it.
    pub fn next(&mut self) -> Result<Option<Value>, WireFault>
        ensures exact { ReaderAnswers self.old result self.new }
        ensures takes { ReaderTakes self.old result self.new }
    {
        if let Some(fault) = self.fault {
            return Err(fault);
        }
        match self.take_at_once() {
            Some(value) => Ok(Some(value)),
            None => self.read_on(),
        }
    }

    /// Passes over the value at the front, where it is whole and no request with words. It takes no memory.
    pub fn skip_other(&mut self) -> Option<Skipped>
        ensures { Skips self.old result self.new }
    {
        if let Some(_) = self.fault {
            return None;
        }
        match self.place.read_on(&self.limits, self.unread.as_slice()) {
            Ok(true) => {}
            Ok(false) => return None,
            Err(_) => return None,
        }
        let Some(skipped) = skipped_at(&self.limits, self.unread.as_slice()) else {
            return None;
        };
        self.unread.skip(self.place.end());
        self.place = Place::start();
        Some(skipped)
    }

    /// Takes the value at the front off, where it is looked at for the first time and is whole.
    fn take_at_once(&mut self) -> Option<Value>
        ensures { TakesAtOnce self.old result self.new }
    {
        if !self.place.is_start() {
            return None;
        }
        let most_copied = self.unread.least_shared();
        match self.take(most_copied) {
            Ok(Some(value)) => Some(value),
            Ok(None) => None,
            Err(_) => None,
        }
    }

    /// Reads on from where reading stopped, and takes the value at the front off, where it is whole.
    fn read_on(&mut self) -> Result<Option<Value>, WireFault>
        requires { self.old.fault ≡ None }
        ensures { AnswersAndTakes self.old result self.new }
    {
        match self.place.read_on(&self.limits, self.unread.as_slice()) {
            Ok(true) => {
                self.unread.share(self.place.end());
                self.take(usize::MAX)
            }
            Ok(false) => Ok(None),
            Err(fault) => {
                self.fault = Some(fault);
                Err(fault)
            }
        }
    }

    /// Takes the value at the front off, where it is whole. A body is copied that has at most `most_copied` bytes.
    fn take(&mut self, most_copied: usize) -> Result<Option<Value>, WireFault>
        ensures { TakesOff self.old result self.new }
    {
        let bytes = self.unread.as_slice();
        let how = Building {
            alloc: self.unread.allocator(),
            limits: self.limits,
            bodies: self.unread.bodies(most_copied),
        };
        match build(&how, self.limits.depth(), bytes) {
            Ok(Some((value, rest))) => {
                let count = bytes.len() - rest.len();
                self.unread.skip(count);
                self.place = Place::start();
                Ok(Some(value))
            }
            Ok(None) => Ok(None),
            Err(fault) => Err(fault),
        }
    }
}
