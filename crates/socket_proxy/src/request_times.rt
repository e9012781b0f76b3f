//! How long the requests of a client take.

use std::alloc::Global;
use std::cell::{Cell, RefCell};
use std::collections::VecDeque;

/// Requests that were read together.
#[derive(Drop)]
struct Reading {
    /// How many were read with these and before.
    requests: u64,
    /// When, in microseconds.
    micros: u64,
}

/// Replies that were drained together.
#[derive(Drop)]
struct Draining {
    /// How many requests have theirs in these and those before.
    requests: u64,
    /// How many bytes are to be written up to the end of these.
    bytes: u64,
}

/// Requests that were read and whose replies are not all written, each of which is counted once its reply is.
#[derive(Drop)]
pub(crate) struct RequestTimes {
    read: Cell<u64>,
    /// How many have their replies written, as far as was looked.
    answered: Cell<u64>,
    counted: Cell<u64>,
    /// How many bytes were written.
    written: Cell<u64>,
    readings: RefCell<VecDeque<Reading>>,
    drainings: RefCell<VecDeque<Draining>>,
}

impl RequestTimes {
    /// No request was read.
    pub(crate) fn new(alloc: Global) -> RequestTimes {
        RequestTimes {
            read: Cell::new(0),
            answered: Cell::new(0),
            counted: Cell::new(0),
            written: Cell::new(0),
            readings: RefCell::new(VecDeque::new(alloc)),
            drainings: RefCell::new(VecDeque::new(alloc)),
        }
    }

    /// This number of requests was read, at this time. Without memory they are counted as those that are read next.
    pub(crate) fn read(&self, requests: u64, micros: u64) {
        let requests = self.read.get().wrapping_add(requests);
        self.read.set(requests);
        if let Ok(mut readings) = self.readings.try_borrow_mut() {
            let _ = readings.push_back(Reading { requests, micros });
        }
    }

    /// Replies were drained: `unanswered` requests have none yet, and this number of bytes is not written.
    pub(crate) fn drain(&self, unanswered: u64, bytes: u64) {
        let draining = Draining {
            requests: self.read.get().wrapping_sub(unanswered),
            bytes: self.written.get().wrapping_add(bytes),
        };
        if let Ok(mut drainings) = self.drainings.try_borrow_mut() {
            let _ = drainings.push_back(draining);
        }
    }

    /// So many bytes more were written.
    pub(crate) fn write(&self, bytes: u64) {
        self.written.set(self.written.get().wrapping_add(bytes));
        let Ok(mut drainings) = self.drainings.try_borrow_mut() else {
            return;
        };
        for _ in 0..drainings.len() {
            let Some(first) = drainings.front() else {
                return;
            };
            if first.bytes > self.written.get() {
                return;
            }
            self.answered.set(first.requests);
            drop(drainings.pop_front());
        }
    }

    /// Requests that were read together and have their replies: how many, and when they were read. None of them is given again.
    pub(crate) fn next(&self) -> Option<(u64, u64)> {
        let Ok(mut readings) = self.readings.try_borrow_mut() else {
            return None;
        };
        let first = readings.front()?;
        let (last, micros) = (first.requests, first.micros);
        let answered = self.answered.get().min(last);
        if answered == last {
            drop(readings.pop_front());
        }
        let requests = answered.saturating_sub(self.counted.replace(answered));
        (requests > 0).then_some((requests, micros))
    }
}
