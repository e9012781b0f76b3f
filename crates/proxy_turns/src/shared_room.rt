//! What the clients of a worker share: a buffer, and how much is held for all of them together.

use std::alloc::Global;

/// A buffer that goes from client to client, and the sum of what is held for them.
#[derive(Drop)]
pub(crate) struct SharedRoom {
    pub(crate) piece: Vec<u8>,
    // How much may be held.
    most: usize,
    // For the clients that had their turn in this round, and for all in the one before.
    bytes: usize,
    bytes_before: usize,
}

impl SharedRoom {
    pub(crate) fn new(alloc: Global) -> SharedRoom {
        SharedRoom {
            piece: Vec::new(alloc),
            most: 0,
            bytes: 0,
            bytes_before: 0,
        }
    }

    /// Each client has one more turn, where `most` bytes may be held.
    pub(crate) fn begin_round(&mut self, most: usize) {
        self.most = most;
        self.bytes_before = self.bytes;
        self.bytes = 0;
    }

    /// Adds the bytes that are held for the client that has its turn.
    pub(crate) fn count(&mut self, bytes: usize) {
        self.bytes = self.bytes.saturating_add(bytes);
    }

    /// Whether so much is held that each client has its oldest request under way, and few parts behind it.
    pub(crate) fn is_crowded(&self) -> bool {
        self.bytes.max(self.bytes_before) > self.most
    }
}
