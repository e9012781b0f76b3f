//! A stream in memory: it gives the bytes that it was made with, keeps those that it takes, and can be slow or fail.

ghost use Rattle.std.specs.Prelude.{◌^◌};

use node_link::{Flow, Stream};
use std::alloc::{AllocError, Global};

#[derive(Drop)]
pub struct MemoryStream {
    coming: Vec<u8>,
    given: usize,
    /// The bytes that were written.
    pub taken: Vec<u8>,
    /// The most bytes that one call moves.
    pub at_once: usize,
    /// Each second read and each second write would have to wait.
    pub waits: bool,
    read_waited: bool,
    write_waited: bool,
    /// How many bytes are taken before the stream fails.
    pub room: usize,
    /// How often it was read, calls that had to wait among them.
    pub reads: u64,
    /// How often it was written.
    pub writes: u64,
}

impl MemoryStream {
    /// A stream that moves any number of bytes at once, and does not fail.
    pub fn new(alloc: Global, coming: Vec<u8>) -> MemoryStream {
        MemoryStream {
            coming,
            given: 0,
            taken: Vec::new(alloc),
            at_once: usize::MAX,
            waits: false,
            read_waited: false,
            write_waited: false,
            room: usize::MAX,
            reads: 0,
            writes: 0,
        }
    }

    /// Keeps what was written, or nothing of it.
    fn keep(&mut self, first: &[u8], second: &[u8]) -> Result<(), AllocError> {
        self.taken.reserve(first.len() + second.len())?;
        self.taken.extend_from_slice(first)?;
        self.taken.extend_from_slice(second)
    }
}

/// Whether a call would have to wait: each second one, where any does. It notes whether it did.
fn must_wait(waits: bool, waited: &mut bool) -> bool {
    *waited = waits && !*waited;
    *waited
}

impl Stream for MemoryStream {
    // It promises nothing of what it moves: the rows look at the bytes.
    ghost failures = { λ _. 2 ^ 64 };

    ghost moved = { λ _ _ _ _. Unit {0} };

    ghost still = { λ _. tt };

    ghost joined = { λ _ _ _ _ _ _ _ _ _. tt };

    fn read(&mut self, buffer: &mut [u8]) -> Flow {
        self.reads = self.reads.saturating_add(1);
        if must_wait(self.waits, &mut self.read_waited) {
            return Flow::Nothing;
        }
        let left = self.coming.len().saturating_sub(self.given);
        let count = left.min(buffer.len()).min(self.at_once);
        if count == 0 {
            return Flow::Nothing;
        }
        buffer[..count].copy_from_slice(&self.coming[self.given..self.given + count]);
        self.given += count;
        Flow::Bytes(count)
    }

    fn write(&mut self, first: &[u8], second: &[u8]) -> Flow {
        self.writes = self.writes.saturating_add(1);
        if must_wait(self.waits, &mut self.write_waited) {
            return Flow::Nothing;
        }
        let most = self.at_once.min(self.room);
        let first = &first[..most.min(first.len())];
        let second = &second[..(most - first.len()).min(second.len())];
        let count = first.len() + second.len();
        if count == 0 || self.keep(first, second).is_err() {
            return Flow::Gone;
        }
        self.room = self.room.saturating_sub(count);
        Flow::Bytes(count)
    }
}
