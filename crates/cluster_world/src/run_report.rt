//! What a run says of itself.

use crate::Entry;
use key_split::{Ended, Part, Ticket};
use resp_wire::Bytes;

/// The parts that a run's clients asked for, how they ended, what the nodes executed, and what the clients were answered.
#[derive(Drop)]
pub struct RunReport {
    pub parts: Vec<(Ticket, Part)>,
    pub ends: Vec<(Ticket, Ended)>,
    /// In the order of execution.
    pub history: Vec<Entry>,
    /// Each client's bytes.
    pub replies: Vec<Bytes>,
    /// How many steps of moves were skipped.
    pub skipped: u64,
    /// The workers that were stopped by the gate.
    pub stopped: Vec<u16>,
}
