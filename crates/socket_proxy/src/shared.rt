//! What all threads of a run share.

use client_door::ClientPassword;
use event_log::{Figure, ThreadReport};
use mio::Waker;
use proxy_runtime::ReadySet;
use resp_wire::NoMemory;
use std::alloc::Global;
use std::sync::Arc;
use std::sync::atomic::{AtomicBool, AtomicU64, Ordering};

/// Of a run that is not drained.
const NO_DRAIN: u64 = u64::MAX;

/// What the others see of a thread: the ready set of its sockets, and what wakes it.
#[derive(Drop)]
pub(crate) struct ThreadHandle {
    pub(crate) ready: Arc<ReadySet, Global>,
    waker: Waker,
    /// The thread takes no client for a time.
    is_closed: AtomicBool,
}

impl ThreadHandle {
    pub(crate) fn new(ready: Arc<ReadySet, Global>, waker: Waker) -> ThreadHandle {
        ThreadHandle {
            ready,
            waker,
            is_closed: AtomicBool::new(false),
        }
    }

    /// Whether clients may be dealt to the thread.
    pub(crate) fn takes_clients(&self) -> bool {
        !self.is_closed.load(Ordering::SeqCst)
    }

    /// Clients may be dealt to the thread from now on, or may not.
    pub(crate) fn set_closed(&self, is_closed: bool) {
        self.is_closed.store(is_closed, Ordering::SeqCst);
    }

    /// What the thread reports.
    pub(crate) fn report(&self) -> &Arc<ThreadReport, Global> {
        self.ready.report()
    }

    /// How much of this figure the thread counted.
    pub(crate) fn counted(&self, figure: Figure) -> u64 {
        self.report().counted(figure)
    }

    /// Wakes the thread, or keeps it from sleeping next.
    pub(crate) fn wake(&self) {
        let _ = self.waker.wake();
    }

    /// Puts what the thread reports behind the others' reports.
    fn push_report(&self, reports: &mut Vec<Arc<ThreadReport, Global>>) -> Result<(), NoMemory> {
        reports.push(Arc::try_clone(self.report())?)?;
        Ok(())
    }
}

/// The handles of all threads, and whether they are to stop.
#[derive(Drop)]
pub(crate) struct Shared {
    pub(crate) workers: Vec<ThreadHandle>,
    /// The thread that accepts clients and writes the log.
    pub(crate) acceptor: ThreadHandle,
    /// What clients have to say, where they have to.
    pub(crate) password: Option<Arc<ClientPassword, Global>>,
    stopped: AtomicBool,
    /// After how many seconds of the drain what is left is cut.
    drain_seconds: AtomicU64,
}

impl Shared {
    pub(crate) fn new(
        workers: Vec<ThreadHandle>,
        acceptor: ThreadHandle,
        password: Option<Arc<ClientPassword, Global>>,
    ) -> Shared {
        Shared {
            workers,
            acceptor,
            password,
            stopped: AtomicBool::new(false),
            drain_seconds: AtomicU64::new(NO_DRAIN),
        }
    }

    /// What each thread reports, the acceptor's first.
    pub(crate) fn reports(
        &self,
        alloc: Global,
    ) -> Result<Vec<Arc<ThreadReport, Global>>, NoMemory> {
        let mut reports = Vec::new(alloc);
        self.acceptor.push_report(&mut reports)?;
        for worker in &self.workers {
            worker.push_report(&mut reports)?;
        }
        Ok(reports)
    }

    /// How many clients are there.
    pub(crate) fn clients(&self) -> u64 {
        self.acceptor
            .counted(Figure::Clients)
            .saturating_sub(self.of_workers(Figure::ClientsGone))
    }

    /// How much of this figure the workers counted together.
    pub(crate) fn of_workers(&self, figure: Figure) -> u64 {
        self.workers.iter().fold(0u64, |sum, worker| {
            sum.wrapping_add(worker.counted(figure))
        })
    }

    /// Whether all threads are to stop.
    pub(crate) fn is_stopped(&self) -> bool {
        self.stopped.load(Ordering::SeqCst)
    }

    /// Tells all threads to stop, and wakes those that sleep.
    pub(crate) fn stop(&self) {
        self.stopped.store(true, Ordering::SeqCst);
        self.wake_all();
    }

    /// After how many seconds of the drain what is left is cut, where the run is drained.
    pub(crate) fn drain_seconds(&self) -> Option<u64> {
        match self.drain_seconds.load(Ordering::SeqCst) {
            NO_DRAIN => None,
            seconds => Some(seconds),
        }
    }

    /// Whether no client is to be taken any more, and no further request read.
    pub(crate) fn is_draining(&self) -> bool {
        self.drain_seconds().is_some()
    }

    /// Has all threads take no client any more, and read no further request. What is left after this number of seconds is cut.
    pub(crate) fn drain(&self, seconds: u16) {
        self.drain_seconds
            .store(u64::from(seconds), Ordering::SeqCst);
        self.wake_all();
    }

    /// Wakes this worker's thread, or keeps it from sleeping next.
    pub(crate) fn wake_worker(&self, worker: usize) {
        if let Some(handle) = self.workers.get(worker) {
            handle.wake();
        }
    }

    fn wake_all(&self) {
        self.acceptor.wake();
        for worker in &self.workers {
            worker.wake();
        }
    }
}
