//! What one thread reports.

use crate::event::Event;
use crate::figures::{FIGURES, Figure, Figures};
use crate::journal::Journal;
use crate::node_board::{NodeBoard, NodeStanding};
use crate::time_counts::{TimeCounts, TimeSums};
use resp_wire::NoMemory;
use std::alloc::Global;
use std::sync::Arc;

/// The events of a thread that are not logged yet, its counts, and what its events told of the nodes.
#[derive(Drop)]
pub struct ThreadReport {
    journal: Journal,
    figures: Figures,
    times: TimeCounts,
    nodes: NodeBoard,
}

impl ThreadReport {
    /// A report without events, in which nothing is counted.
    pub fn new(alloc: Global) -> Result<Arc<ThreadReport, Global>, NoMemory> {
        let report = ThreadReport {
            journal: Journal::new(alloc)?,
            figures: Figures::new(),
            times: TimeCounts::new(),
            nodes: NodeBoard::new(alloc)?,
        };
        Ok(Arc::new(alloc, report)?)
    }

    /// Adds to this figure.
    pub fn count(&self, figure: Figure, more: u64) {
        self.figures.add(figure, more);
    }

    /// How many of this figure were counted.
    pub fn counted(&self, figure: Figure) -> u64 {
        self.figures.count_of(figure)
    }

    /// Counts `requests` more in the bucket of this place, each of which took `micros`.
    pub fn count_times(&self, place: usize, requests: u64, micros: u64) {
        self.times.add(place, requests, micros);
    }

    /// Adds how long requests took to a sum over all threads.
    pub fn add_times_to(&self, sums: &mut TimeSums) {
        self.times.add_to(sums);
    }

    /// Whether an answer to CLUSTER SLOTS was told.
    pub fn has_map(&self) -> bool {
        self.nodes.has_map()
    }

    /// What the events told of each node that was dialled.
    pub fn nodes(&self, alloc: Global) -> Result<Vec<NodeStanding>, NoMemory> {
        self.nodes.standings(alloc)
    }

    /// Keeps an event for the log.
    pub fn tell(&self, event: Event) {
        self.nodes.note(&event);
        self.journal.keep(event);
    }

    /// Takes the oldest event.
    pub(crate) fn take_event(&self) -> Option<Event> {
        self.journal.take()
    }

    /// Adds the counts to a sum over all threads.
    pub(crate) fn add_to(&self, sums: &mut [u64; FIGURES]) {
        self.figures.add_to(sums);
    }
}
