//! What a worker gives back.

/// Why a worker came to its end.
#[derive(Clone, Copy)]
pub enum WorkerOutcome {
    /// All its clients came and were served.
    Served,
    /// Its gate did not let it go on.
    Stopped,
    /// A turn found no memory.
    NoMemory,
}

/// A worker's number, every port that it still held, and why it came to its end.
#[derive(Drop)]
pub struct WorkerEnd<C> {
    pub worker: u16,
    pub ports: Vec<C>,
    pub outcome: WorkerOutcome,
}
