//! A cluster in one process: its nodes behind a lock, the connections to them, and the steps by which slots move.
//!
//! ```text
//! let mut state = LocalState::new(alloc, three_nodes(alloc)?);
//! let told = state.serve(&batch)?;
//! state.step(&MoveStep::Import(slot, target))?;
//! ```
//!
//! Promise: lawful locked cluster. `serve` and `step` leave what `ServesLocally` and `Steps` of `specs/Local.antt` say, and
//! the state keeps at each moment what `IsSound` says there: no key is at two nodes, the history is one legal history of one
//! store, that store is what the nodes hold together, and where the target of an ASK that may still be followed is importing
//! the slot, its source holds none of the command's keys. `laws` has the laws by which the state keeps it.
//!
//! A `LocalState` keeps what its nodes executed. A `LocalState<GhostHistory>` has the same clauses, and leaves that to proofs
//! alone: it holds no more for a command that was executed.
//!
//! `LocalCluster` is the state behind a lock; `LockedCluster` is the trait by which generic code can have that state from it
//! alone. `LocalDial` opens connections to its nodes for the carrier, each a `LocalPort` whose conversation with the node
//! `specs/Conversation.antt` says.
#![tactic(auto)]

mod addresses;
mod answer;
mod asked;
mod cluster;
mod dial;
mod example;
mod foresight;
mod held;
mod histories;
pub mod laws;
mod local;
mod locked;
mod moves;
mod notes;
mod place;
mod port;
mod room;
mod step;

pub use addresses::node_table;
pub use asked::Asked;
pub use cluster::LocalCluster;
pub use dial::LocalDial;
pub use example::three_nodes;
pub use histories::{GhostHistory, History};
pub use local::LocalState;
pub use locked::LockedCluster;
pub use port::LocalPort;
pub use step::MoveStep;
