//! What a thread counts for the line of figures.

use std::sync::atomic::{AtomicU64, Ordering};

/// How many figures the line has.
pub(crate) const FIGURES: usize = 17;

/// How many are counted.
const COUNTS: usize = FIGURES + 2;

/// What is counted, each since the start.
#[derive(Clone, Copy)]
pub enum Figure {
    /// Clients that were accepted.
    Clients,
    ClientsGone,
    /// Requests that were read from clients. An empty array counts as one.
    Requests,
    /// Parts of requests that ended, each of one slot.
    Parts,
    GaveUp,
    Lost,
    /// Parts that were sent to nodes, again after a redirect.
    Sent,
    /// Times that a part could not be sent, since there was no connection to its node. It is tried again, and counts again.
    Unsent,
    Moved,
    Ask,
    TryAgain,
    ClusterDown,
    DialsFailed,
    Links,
    LinksGone,
    /// Bytes from clients.
    BytesIn,
    /// Bytes to clients.
    BytesOut,
    NodeBytesIn,
    NodeBytesOut,
}

/// The keys of the figures in a line.
pub(crate) const FIGURE_NAMES: [&str; FIGURES] = [
    "clients",
    "clients_gone",
    "requests",
    "parts",
    "gave_up",
    "lost",
    "sent",
    "unsent",
    "moved",
    "ask",
    "tryagain",
    "clusterdown",
    "dials_failed",
    "links",
    "links_gone",
    "bytes_in",
    "bytes_out",
];

/// The counts of one thread, which alone changes them.
#[derive(Drop)]
pub(crate) struct Figures {
    counts: [AtomicU64; COUNTS],
}

impl Figures {
    pub(crate) fn new() -> Figures {
        Figures {
            counts: [
                AtomicU64::new(0),
                AtomicU64::new(0),
                AtomicU64::new(0),
                AtomicU64::new(0),
                AtomicU64::new(0),
                AtomicU64::new(0),
                AtomicU64::new(0),
                AtomicU64::new(0),
                AtomicU64::new(0),
                AtomicU64::new(0),
                AtomicU64::new(0),
                AtomicU64::new(0),
                AtomicU64::new(0),
                AtomicU64::new(0),
                AtomicU64::new(0),
                AtomicU64::new(0),
                AtomicU64::new(0),
                AtomicU64::new(0),
                AtomicU64::new(0),
            ],
        }
    }

    /// Adds to the figure.
    pub(crate) fn add(&self, figure: Figure, more: u64) {
        if let Some(count) = self.counts.get(figure as usize) {
            let sum = count.load(Ordering::Relaxed).wrapping_add(more);
            count.store(sum, Ordering::Relaxed);
        }
    }

    /// How many were counted.
    pub(crate) fn count_of(&self, figure: Figure) -> u64 {
        match self.counts.get(figure as usize) {
            Some(count) => count.load(Ordering::Relaxed),
            None => 0,
        }
    }

    /// Adds these counts to a sum over all threads, the bytes of nodes to those of clients.
    pub(crate) fn add_to(&self, sums: &mut [u64; FIGURES]) {
        for (sum, count) in sums.iter_mut().zip(self.counts.iter()) {
            *sum = sum.wrapping_add(count.load(Ordering::Relaxed));
        }
        self.add_to_sum(Figure::NodeBytesIn, sums, Figure::BytesIn);
        self.add_to_sum(Figure::NodeBytesOut, sums, Figure::BytesOut);
    }

    /// Adds the count of one figure to the sum of another.
    fn add_to_sum(&self, figure: Figure, sums: &mut [u64; FIGURES], other: Figure) {
        if let Some(sum) = sums.get_mut(other as usize) {
            *sum = sum.wrapping_add(self.count_of(figure));
        }
    }
}
