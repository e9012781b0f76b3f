//! Connections to the nodes of a cluster, over sockets.
//!
//! ```text
//! let look_ups = LookUps::new(alloc, registry.try_clone()?)?;
//! let connector = Connector::new(rt, alloc, ready, registry, look_ups.clone()?, credentials);
//! let mut dial = SocketDial::new(alloc, connector, seeds)?;
//! let port = dial.open(node, b"127.0.0.1", 7001)?;
//! ```
//!
//! A port is given for a connection that stands, and whose node has accepted AUTH. A node that can't be reached is left alone
//! for a while, and another is asked where its slots are. A host's name is looked up in a thread of its own, which
//! `advance_look_ups` starts; meanwhile no port is given. Runs go as blocks, except to a node whose connection was garbled while a
//! block was under way: it may refuse MULTI. Where the proxy's table has no place for a node that an answer to CLUSTER SLOTS names,
//! the dial keeps another table, with which a proxy may begin anew.
//!
//! Promise: `SocketDial` keeps the contract of `Dial`, and says that no node is to be asked only where a look saw no lost node and no
//! redirect that was not read, or saw that the pause had not passed. `Credentials` is AUTH, byte by byte; that each connection
//! begins with it is not proved. The pauses of dials and of requests after a loss are exact, and so are the sets of nodes that are
//! lost and that take no blocks; that a node is noted there is not proved. The other table is exact, and so
//! is why there is none (`specs/NextTable.antt`).
//! Of the sockets nothing more is proved.
#![tactic(auto)]

mod addresses;
mod ask_schedule;
mod cluster_notes;
mod connection;
mod connector;
mod credentials;
mod dial;
mod dial_pause;
mod handshake;
mod known_node;
mod link_watch;
mod look_up;
mod look_ups;
mod lost_nodes;
mod next_table;
mod node_set;
mod node_stream;
mod place;
mod slot_owners;

pub use connector::Connector;
pub use credentials::Credentials;
pub use dial::{NodeSocket, SocketDial};
pub use look_ups::{LookUps, SharedLookUps, advance_look_ups};
pub use next_table::copy_table;
pub use node_stream::NodeStream;
