//! The proxy over sockets: clients come to a listener, and are served by the nodes of a cluster.
//!
//! ```text
//! let listener = listen(rt, "127.0.0.1", 7000)?;
//! run_wire(rt, rt.alloc(), proxy, None)?;
//! ```
//!
//! Each worker is a proxy of its own in a thread of its own: its clients, its connections to the nodes, its slot map. The caller's
//! thread accepts clients, deals each to a worker than which none has fewer, and writes the log. A thread polls its own sockets,
//! and sleeps in that poll where a turn moved nothing.
//!
//! Promise: `run_wire` is safe, and says what its faults mean. `Credentials` is AUTH, byte by byte; that each connection to a
//! node begins with it is not proved. No dial begins before the node's pause is over, which is as long as `specs/DialPause.antt`
//! says. What a proxy does with bytes is promised by `proxy_engine`. A client is dealt to a worker that has no more clients than
//! any other (`specs/Dealing.antt`), as they are counted, of the workers that take clients now. A worker's thread sleeps only where its
//! proxy is at rest. When it lets its clients go to begin anew, when it begins, and with which table, is exact (`specs/Renewal.antt`,
//! `specs/Seats.antt`). Where a password is wanted, each client's bytes go to its `client_door` first. Of the threads, the
//! sockets and the waking nothing more is proved.
#![tactic(auto)]

mod accept_loop;
mod acceptor;
mod arrivals;
mod client;
mod client_room;
mod dealer;
mod doorway;
mod drain_end;
mod emptiest;
mod linger_end;
mod lingering;
mod pace;
mod page_client;
mod page_figures;
mod page_thread;
mod process_figures;
mod renewal;
mod request_times;
mod resting;
mod run;
mod seat;
mod setup;
mod share;
mod shared;
mod socket_gate;
mod unfinished;
mod upstream;
mod worker_thread;

pub use acceptor::listen;
pub use run::{Admin, Proxy, run_wire};
