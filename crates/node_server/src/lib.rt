//! The nodes of a cluster in one process, served to plain connections.
//!
//! ```text
//! let mut connection = Connection::new(alloc, node, 0);
//! connection.receive(&mut stream, &mut buffer)?;
//! while connection.answer_next(&mut state, table)? {}
//! connection.send(&mut stream);
//! ```
//!
//! Promise: exact nodes over bytes. A connection's calls are those of `specs/NodeConnections.antt`: each request is answered
//! once and in its order, as `Answers` of `specs/NodeAnswers.antt` says, and what goes out are the canonical spellings of
//! the replies. The commands between MULTI and EXEC are executed together or not at all, as a run of node_model. `run_nodes` serves connections over sockets in one thread; of it is proved that it is safe.
#![tactic(auto)]

mod answer;
mod block;
mod block_answer;
mod call;
mod caller;
mod connection;
mod next_value;
mod node_listener;
mod peer;
mod service;
mod told_value;

pub use answer::Answer;
pub use block::{Block, Queue};
pub use call::Call;
pub use caller::Caller;
pub use connection::Connection;
pub use service::run_nodes;
