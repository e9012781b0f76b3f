//! What the threads of a run hand back.

use key_split::{Ended, Ticket};
use resp_wire::{Bytes, NoMemory};
use std::alloc::Global;

/// What one client was answered, and how its parts ended, in the order of their ends.
#[derive(Drop)]
pub(crate) struct ClientRecord {
    pub(crate) client: u32,
    pub(crate) replies: Bytes,
    pub(crate) ends: Vec<(Ticket, Ended)>,
}

/// What threads of a run hand back.
#[derive(Drop)]
pub(crate) struct RunRecord {
    pub(crate) clients: Vec<ClientRecord>,
    /// How many steps of moves were skipped.
    pub(crate) skipped: u64,
    /// The workers that the gate stopped.
    pub(crate) stopped: Vec<u16>,
}

impl RunRecord {
    /// Of no thread.
    pub(crate) fn new(alloc: Global) -> RunRecord {
        RunRecord {
            clients: Vec::new(alloc),
            skipped: 0,
            stopped: Vec::new(alloc),
        }
    }

    /// Adds what a further thread hands back.
    pub(crate) fn add(&mut self, mut further: RunRecord) -> Result<(), NoMemory> {
        self.clients.append(&mut further.clients)?;
        self.stopped.append(&mut further.stopped)?;
        self.skipped = self.skipped.saturating_add(further.skipped);
        Ok(())
    }
}
