//! How the threads of a run are ended.

use proxy_turns::Gate;
use resp_wire::NoMemory;
use std::sync::atomic::{AtomicBool, AtomicU64, Ordering};

/// Raised once, for all threads to see.
#[derive(Drop)]
pub(crate) struct Flag {
    raised: AtomicBool,
}

impl Flag {
    pub(crate) fn new() -> Flag {
        Flag {
            raised: AtomicBool::new(false),
        }
    }

    pub(crate) fn raise(&self) {
        self.raised.store(true, Ordering::SeqCst);
    }

    pub(crate) fn is_raised(&self) -> bool {
        self.raised.load(Ordering::SeqCst)
    }
}

/// What the threads of a run look at in each of their loops.
#[derive(Drop)]
pub(crate) struct Signals {
    /// A thread met a fault: all end as soon as they can.
    pub(crate) stop: Flag,
    // How many threads still run, beside the carrier's.
    running: AtomicU64,
}

impl Signals {
    /// `running` threads are to run, beside the carrier's.
    pub(crate) fn new(running: u64) -> Signals {
        Signals {
            stop: Flag::new(),
            running: AtomicU64::new(running),
        }
    }

    /// A thread has come to its end.
    pub(crate) fn thread_ended(&self) {
        self.running.fetch_sub(1, Ordering::SeqCst);
    }

    /// Whether the carrier has nothing more to do: no thread runs, or all are to end.
    pub(crate) fn are_over(&self) -> bool {
        self.stop.is_raised() || self.running.load(Ordering::SeqCst) == 0
    }
}

/// A gate that lets nobody go on once all are to end, and answers as another until then.
#[derive(Drop)]
pub(crate) struct StopGate<'g, G> {
    pub(crate) gate: &'g G,
    pub(crate) signals: &'g Signals,
}

impl<'g, G: Gate> Gate for StopGate<'g, G> {
    fn pass(&self, worker: u16, answered: u64) -> bool {
        !self.signals.stop.is_raised() && self.gate.pass(worker, answered)
    }

    fn take_news(&self, news: &mut Vec<u32>) -> Result<(), NoMemory> {
        self.gate.take_news(news)
    }

    fn posted(&self, count: u64) {
        self.gate.posted(count);
    }

    fn time(&self) -> Option<u64> {
        self.gate.time()
    }

    fn next_due(&self, time: Option<u64>) {
        self.gate.next_due(time);
    }

    fn idle(&self) {
        self.gate.idle();
    }
}
