//! A thread's poll of its sockets.

use crate::ready_set::ReadySet;
use crate::wire_fault::WireRunFault;
use mio::{Events, Poll, Registry, Token, Waker};
use std::alloc::Global;
use std::net::Net;
use std::time::Duration;

/// How many events one poll takes.
const EVENTS: usize = 256;
/// The waker's token, which no socket has.
const WAKER: Token = Token(usize::MAX);

/// A thread's poll of its sockets. What it reports is noted in the thread's ready set.
#[derive(Drop)]
pub struct Poller {
    poll: Poll,
    events: Events<Global>,
}

impl Poller {
    /// A poller, and what wakes the thread that has it.
    pub fn new<R: Net>(rt: &R, alloc: Global) -> Result<(Poller, Waker), WireRunFault> {
        let poll = Poll::new(rt).map_err(WireRunFault::Poll)?;
        let waker = Waker::new(poll.registry(), WAKER).map_err(WireRunFault::Waker)?;
        let events = Events::with_capacity(alloc, EVENTS)?;
        Ok((Poller { poll, events }, waker))
    }

    pub fn registry(&self) -> &Registry {
        self.poll.registry()
    }

    /// Notes what is ready now.
    pub fn poll_now(&mut self, ready: &ReadySet) {
        self.poll_for(ready, Some(Duration::from_millis(0)));
    }

    /// Sleeps until something is ready, another thread wakes this one, or so many milliseconds have passed; without end for
    /// `u64::MAX`.
    pub fn sleep(&mut self, ready: &ReadySet, millis: u64) {
        let limit = if millis == u64::MAX {
            None
        } else {
            Some(Duration::from_millis(millis))
        };
        self.poll_for(ready, limit);
    }

    fn poll_for(&mut self, ready: &ReadySet, limit: Option<Duration>) {
        if self.poll.poll(&mut self.events, limit).is_err() {
            return;
        }
        for event in &self.events {
            ready.note_event(event);
        }
    }
}
