//! Runs of scripts over a cluster in one process, in threads.

mod assembly;
mod carrier_thread;
mod client_queue;
mod fused_dial;
mod local;
mod mover;
mod stop;
mod tasks;
mod worker_thread;

pub use local::{run_faulty, run_local};
