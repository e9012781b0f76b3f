//! What the threads of the proxy do in a turn: a worker for its clients, and the carrier between the workers' lanes and the nodes.
//!
//! ```
//! let worker = Worker::new(alloc, ends, &gate, Some(clients));
//! let end = block_on(&rt, worker)?;
//! let moved = carrier.turn()?;
//! ```
//!
//! Promise: exact turns. A turn is a list of events between old and new, and it says that something moved exactly where one of
//! them is a move: for a worker `ClientDoes` of `specs/ClientTurn.antt` and `WorkerDoes` of `specs/WorkerModel.antt`, for the
//! carrier `CarrierDoes` of `specs/CarrierModel.antt`.
//! A worker posts only what its commands want, in the turn of their parts; it is a future, a poll of which is one pass of its
//! gate and one turn (`PollOutcome` of `specs/Worker.antt`), and at its end it gives back every port that it still holds. A turn
//! or poll of it that moved nothing leaves nothing to do (`IsWorkerAtRest` of `specs/WorkerRest.antt`): each of its clients is at
//! rest, and each command that was posted awaits its answer, pauses, or wants its next post at a lane that takes no more.
//! The carrier sends each run as one item; what is given is what a link received, Lost for the tickets that a failed link
//! lost, and Unsent for each command of a run whose dial failed, or that is longer than its link takes; the slot map is renewed
//! by MOVED and CLUSTER SLOTS. A turn of its that moved nothing leaves it at rest (`IsAtRest` of `specs/CarrierModel.antt`):
//! whatever it holds waits for a full lane, no lane to it has a run, and each open link gave nothing when it was asked for a
//! reply. `Script` is a client's port over memory, gone exactly where it holds every reply that is owed to its bytes (`Owes` of
//! `specs/Owing.antt`).
#![tactic(auto)]

mod all_backends;
mod backend;
mod backend_step;
mod carrier;
mod client_bytes;
mod client_limits;
mod client_parts;
mod client_state;
mod client_table;
mod commands;
mod due_commands;
mod gate;
mod held_replies;
mod kept_ports;
pub mod laws;
mod newcomer;
mod owing;
mod pause;
mod pending_run;
mod place;
mod port;
mod received;
mod refused_run;
mod round;
mod script;
mod seed;
mod shared_room;
mod sleepers;
mod tail;
mod turned;
mod unpushed;
mod uplink;
mod worker;
mod worker_end;
mod worker_state;

pub use backend::{Backend, PendingTold};
pub use backend_step::BackendStep;
pub use carrier::Carrier;
pub use gate::{Gate, MOST_HELD};
pub use newcomer::Newcomer;
pub use node_link::{Dial, DialFault};
pub use pending_run::PendingRun;
pub use port::ClientPort;
pub use refused_run::RefusedRun;
pub use script::Script;
pub use worker::Worker;
pub use worker_end::{WorkerEnd, WorkerOutcome};
