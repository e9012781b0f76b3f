//! What the runs of the proxy stand on: the bounds of their runtime, the threads, sockets that do not block, how a thread polls
//! them and sleeps, and the faults.
//!
//! ```text
//! let done = run_threads(rt, alloc, tasks, &|task| work(task), &|| stop(), || carry())?;
//!
//! let ready = Arc::new(alloc, ReadySet::new(alloc, report)?)?;
//! let (mut poller, waker) = Poller::new(rt, alloc)?;
//! let mut socket = PolledSocket::new(stream, Registration::new(&ready, Peer::Client)?, poller.registry())?;
//! poller.sleep(&ready, u64::MAX);
//! let flow = socket.read(&mut buffer);
//! ```
//!
//! Promise: none of its own. A `Socket` and a `PolledSocket` are each a `node_link::Stream`, whose contract says which bytes a
//! call may have moved (`node_link/specs/Port.antt`): a call that fails counts as a failure. `run_threads` calls what it is
//! given and joins every thread. That a thread runs, that a poll reports, that a thread wakes, and what the system does with
//! bytes, is not proved.
#![tactic(auto)]

mod host;
mod keepalive;
mod news;
mod polled_socket;
mod poller;
mod ready_set;
mod socket;
mod threads;
mod wire_fault;

pub use host::Host;
pub use polled_socket::PolledSocket;
pub use poller::Poller;
pub use ready_set::{Peer, ReadySet, Registration};
pub use socket::Socket;
pub use threads::{ThreadsFault, run_threads};
pub use wire_fault::WireRunFault;
