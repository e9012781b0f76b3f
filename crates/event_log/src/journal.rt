//! The events that a thread's sockets report, until they are logged.

use crate::event::Event;
use resp_wire::NoMemory;
use std::alloc::Global;
use std::collections::VecDeque;
use std::sync::Mutex;
use std::sync::atomic::{AtomicBool, Ordering};

/// How many events wait at most. Those beyond are dropped.
pub(crate) const EVENTS_WAITING: usize = 64;

/// Events that wait to be logged. Neither side waits for the other: an event that meets the other side at work is dropped, or
/// is taken a moment later.
#[derive(Drop)]
pub(crate) struct Journal {
    waits: AtomicBool,
    events: Mutex<VecDeque<Event>>,
}

impl Journal {
    pub(crate) fn new(alloc: Global) -> Result<Journal, NoMemory> {
        let events = VecDeque::with_capacity(alloc, EVENTS_WAITING)?;
        Ok(Journal {
            waits: AtomicBool::new(false),
            events: Mutex::new(events),
        })
    }

    /// Keeps the event for the log.
    pub(crate) fn keep(&self, event: Event) {
        let Some(mut events) = self.events.try_lock() else {
            return;
        };
        if events.len() < EVENTS_WAITING {
            let _ = events.push_back(event);
            self.waits.store(true, Ordering::SeqCst);
        }
    }

    /// Takes the oldest event.
    pub(crate) fn take(&self) -> Option<Event> {
        if !self.waits.load(Ordering::SeqCst) {
            return None;
        }
        let mut events = self.events.try_lock()?;
        let event = events.pop_front();
        if event.is_none() {
            self.waits.store(false, Ordering::SeqCst);
        }
        event
    }
}
