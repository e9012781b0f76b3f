//! What a reader was fed and has not read.

ghost use Rattle.std.specs.Prelude.{◌≡◌, ◌≤◌, ◌++◌, [], length, take, drop, OnOk, OnErr};
ghost use Rattle.resp_wire.specs.Bodies.{AreEndOf};

use crate::bodies::{Bodies, LEAST_SHARED_BYTES};
use crate::byte_queue::ByteQueue;
use crate::fault::NoMemory;
use crate::part::Part;
use std::alloc::Global;
use std::marker::Model;

/// Bytes that come in at the back and go off at the front. Before a large value is built, its buffer is shared, so that its
/// bodies are parts of the buffer. What follows the value moves to a buffer of its own, so that neither keeps the other.
pub(crate) struct Unread {
    queue: ByteQueue,
    /// All the bytes, once their buffer is shared. The queue is empty then.
    shared: Option<Part>,
}

// So that a reader's proofs have one case where it goes.
impl Drop for Unread {
    fn drop(self) {
        let Unread { queue, shared } = self;
        drop(queue);
        drop(shared);
    }
}

impl Model for Unread {
    ghost use Rattle.std.specs.Prelude.{List, ℕ};
    ghost use Rattle.resp_wire.specs.Shared.{unread_of, IsLeft};

    ghost Value = { List ℕ };

    ghost view = { λ a. unread_of a.queue a.shared };

    ghost invariant = { λ a. IsLeft a.queue a.shared };
}

impl Unread {
    /// Nothing. It takes no memory.
    pub(crate) fn new(alloc: Global) -> Unread
        ensures { result ≡ [] }
    {
        Unread {
            queue: ByteQueue::new(alloc),
            shared: None,
        }
    }

    /// Where its memory comes from.
    pub(crate) fn allocator(&self) -> Global {
        self.queue.allocator()
    }

    pub(crate) fn as_slice(&self) -> &[u8]
        ensures { result.now ≡ self.now }
    {
        match &self.shared {
            Some(part) => part.as_slice(),
            None => self.queue.as_slice(),
        }
    }

    /// Puts a piece at the back.
    pub(crate) fn push(&mut self, piece: &[u8]) -> Result<(), NoMemory>
        ensures ok { OnOk result (self.new ≡ self.old ++ piece.now) }
        ensures err { OnErr result (self.new ≡ self.old) }
    {
        if let Some(part) = &self.shared {
            self.queue.push(part.as_slice())?;
            self.shared = None;
        }
        self.queue.push(piece)
    }

    /// Puts the first `count` bytes of a buffer at the back. Where nothing is unread, the two change buffers.
    pub(crate) fn push_from(&mut self, buffer: &mut Vec<u8>, count: usize) -> Result<(), NoMemory>
        requires { count ≤ length buffer.old.items }
        ensures ok { OnOk result (self.new ≡ self.old ++ take count buffer.old.items) }
        ensures err { OnErr result (self.new ≡ self.old) }
        ensures kept { OnErr result (buffer.new.items ≡ buffer.old.items) }
    {
        if let Some(_) = &self.shared {
            return self.push(&buffer[..count]);
        }
        self.queue.push_from(buffer, count)
    }

    /// Gives the buffer away where it is spare: `room` is then that buffer, if it has more.
    pub(crate) fn give_room(&mut self, room: &mut Vec<u8>)
        ensures { self.new ≡ self.old }
    {
        self.queue.give_room(room);
    }

    /// Drops this many bytes from the front. Those that are left move to the queue, or where memory is wanting
    /// stay until more come.
    pub(crate) fn skip(&mut self, count: usize)
        requires { count ≤ length self.old }
        ensures { self.new ≡ drop count self.old }
    {
        let Some(part) = &mut self.shared else {
            self.queue.skip(count);
            return;
        };
        part.skip(count);
        if self.queue.push(part.as_slice()).is_ok() {
            self.shared = None;
        }
    }

    /// Shares the buffer for the value at the front, which has `count` bytes, where these are many and half of the buffer.
    /// A part of them then keeps at most twice as much memory.
    pub(crate) fn share(&mut self, count: usize)
        ensures { self.new ≡ self.old }
    {
        if count < self.least_shared() {
            return;
        }
        if let None = self.shared {
            self.shared = self.queue.give_up();
        }
    }

    /// How many bytes share the buffer, and are not copied.
    pub(crate) fn least_shared(&self) -> usize {
        LEAST_SHARED_BYTES.max(self.queue.capacity() / 2)
    }

    /// How the bodies of the value at the front are made: copied, if they have at most `most_copied` bytes, where the buffer is
    /// not shared.
    pub(crate) fn bodies(&self, most_copied: usize) -> Bodies<'_>
        ensures { AreEndOf self.now result }
    {
        match &self.shared {
            Some(part) => Bodies::Shared(part),
            None => Bodies::Copied(most_copied),
        }
    }
}
