//! How long requests took, counted by buckets.

use std::sync::atomic::{AtomicU64, Ordering};

/// How many buckets there are.
pub const TIME_BUCKETS: usize = 16;

/// How long requests took, of one thread or of several together.
#[derive(Clone, Copy)]
pub struct TimeSums {
    /// How many fell into each bucket.
    pub counts: [u64; TIME_BUCKETS],
    /// All of them together, in microseconds.
    pub micros: u64,
}

impl TimeSums {
    /// Nothing was counted.
    pub fn none() -> TimeSums {
        TimeSums {
            counts: [0; TIME_BUCKETS],
            micros: 0,
        }
    }
}

/// The counts of one thread, which alone changes them.
#[derive(Drop)]
pub(crate) struct TimeCounts {
    counts: [AtomicU64; TIME_BUCKETS],
    micros: AtomicU64,
}

impl TimeCounts {
    pub(crate) fn new() -> TimeCounts {
        TimeCounts {
            counts: [
                AtomicU64::new(0),
                AtomicU64::new(0),
                AtomicU64::new(0),
                AtomicU64::new(0),
                AtomicU64::new(0),
                AtomicU64::new(0),
                AtomicU64::new(0),
                AtomicU64::new(0),
                AtomicU64::new(0),
                AtomicU64::new(0),
                AtomicU64::new(0),
                AtomicU64::new(0),
                AtomicU64::new(0),
                AtomicU64::new(0),
                AtomicU64::new(0),
                AtomicU64::new(0),
            ],
            micros: AtomicU64::new(0),
        }
    }

    /// Counts `requests` more in the bucket of this place, each of which took `micros`.
    pub(crate) fn add(&self, place: usize, requests: u64, micros: u64) {
        if let Some(count) = self.counts.get(place) {
            raise(count, requests);
            raise(&self.micros, micros.wrapping_mul(requests));
        }
    }

    /// Adds these counts to a sum over all threads.
    pub(crate) fn add_to(&self, sums: &mut TimeSums) {
        for (sum, count) in sums.counts.iter_mut().zip(self.counts.iter()) {
            *sum = sum.wrapping_add(count.load(Ordering::Relaxed));
        }
        sums.micros = sums
            .micros
            .wrapping_add(self.micros.load(Ordering::Relaxed));
    }
}

fn raise(count: &AtomicU64, more: u64) {
    let sum = count.load(Ordering::Relaxed).wrapping_add(more);
    count.store(sum, Ordering::Relaxed);
}
