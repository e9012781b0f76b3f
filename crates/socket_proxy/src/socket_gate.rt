//! A worker's gate over sockets.

use crate::share::share_of;
use proxy_runtime::ReadySet;
use proxy_turns::{Gate, MOST_HELD};
use resp_wire::NoMemory;

/// Tells a worker the time of its thread, and of which clients there is news.
#[derive(Drop)]
pub(crate) struct SocketGate<'b> {
    ready: &'b ReadySet,
    /// Its share of what may wait for the clients of all workers.
    most_held: usize,
}

impl<'b> SocketGate<'b> {
    /// The gate of one of so many workers.
    pub(crate) fn new(ready: &'b ReadySet, workers: usize) -> SocketGate<'b> {
        SocketGate {
            ready,
            most_held: share_of(MOST_HELD as u64, workers as u64) as usize,
        }
    }
}

impl Gate for SocketGate<'_> {
    fn pass(&self, _worker: u16, _answered: u64) -> bool {
        true
    }

    fn take_news(&self, news: &mut Vec<u32>) -> Result<(), NoMemory> {
        self.ready.take_news(news)
    }

    fn most_held(&self) -> usize {
        self.most_held
    }

    fn time(&self) -> Option<u64> {
        Some(self.ready.time())
    }

    fn next_due(&self, _time: Option<u64>) {}

    fn idle(&self) {}
}
