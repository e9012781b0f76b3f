//! Whether a node that owes replies is silent for too long.

use proxy_runtime::ReadySet;
use resp_wire::NoMemory;
use std::alloc::Global;
use std::cell::Cell;
use std::sync::Arc;

/// How long a node that owes replies may send no byte and take none, in milliseconds.
const SILENCE_LIMIT_MILLIS: u64 = 30_000;

/// Since when a node that owes replies is silent.
#[derive(Drop)]
pub(crate) struct LinkWatch {
    ready: Arc<ReadySet, Global>,
    owes: Cell<bool>,
    /// When the first read found nothing after the last byte moved, or after the node began to owe replies.
    since: Cell<Option<u64>>,
    /// The socket took less than it was offered. It takes more only as the node does.
    full: Cell<bool>,
}

impl LinkWatch {
    /// Nothing is owed. The time is that of the thread.
    pub(crate) fn new(ready: &Arc<ReadySet, Global>) -> Result<LinkWatch, NoMemory> {
        Ok(LinkWatch {
            ready: Arc::try_clone(ready)?,
            owes: Cell::new(false),
            since: Cell::new(None),
            full: Cell::new(false),
        })
    }

    /// Whether the node owes replies from now on.
    pub(crate) fn note_owed(&self, owes: bool) {
        self.owes.set(owes);
        if !owes {
            self.since.set(None);
        }
    }

    /// Bytes came.
    pub(crate) fn note_read(&self) {
        self.since.set(None);
    }

    /// The socket was offered bytes, and took `taken` of them.
    pub(crate) fn note_written(&self, taken: usize, offered: usize) {
        if self.full.get() && taken > 0 {
            self.since.set(None);
        }
        self.full.set(taken < offered);
    }

    /// A read found nothing. True where the node is silent for too long; the thread is to be awake when it would be.
    pub(crate) fn note_nothing(&self) -> bool {
        if !self.owes.get() {
            return false;
        }
        let now = self.ready.time();
        let since = self.since.get().unwrap_or(now);
        self.since.set(Some(since));
        let limit = since.saturating_add(SILENCE_LIMIT_MILLIS);
        self.ready.wake_at(limit);
        now >= limit
    }
}
