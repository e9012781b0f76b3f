//! Why a run over sockets ended.

use crate::threads::ThreadsFault;
use resp_wire::NoMemory;
use std::alloc::AllocError;
use std::io;
use thiserror::Error;

/// Why a run over sockets ended before its time.
#[derive(Clone, Copy, Debug, Drop, Error)]
pub enum WireRunFault {
    /// A growth was refused; all threads have ended.
    #[error("out of memory")]
    NoMemory,
    /// A thread, or what it runs on, did not start.
    #[error("cannot start a thread: {0}")]
    Thread(io::Error),
    /// A thread can't wait for its sockets.
    #[error("cannot poll: {0}")]
    Poll(io::Error),
    /// A thread can't be woken.
    #[error("cannot make a waker: {0}")]
    Waker(io::Error),
    /// The listener can't be watched.
    #[error("cannot watch the listener: {0}")]
    Listen(io::Error),
}

impl From<NoMemory> for WireRunFault {
    fn from(_: NoMemory) -> WireRunFault {
        WireRunFault::NoMemory
    }
}

impl From<AllocError> for WireRunFault {
    fn from(_: AllocError) -> WireRunFault {
        WireRunFault::NoMemory
    }
}

impl From<ThreadsFault> for WireRunFault {
    fn from(fault: ThreadsFault) -> WireRunFault {
        match fault {
            ThreadsFault::NoMemory => WireRunFault::NoMemory,
            ThreadsFault::NoThread(error) => WireRunFault::Thread(error),
        }
    }
}
