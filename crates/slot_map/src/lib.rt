//! Where the slots of a cluster live: the table of its nodes, the map from slots to nodes, and the reading of a reply to
//! CLUSTER SLOTS, which changes both.
//!
//!     let ops = ops_of(&reply, asked, &mut table)?;
//!     for op in ops.as_slice() {
//!         map.apply(*op);
//!     }
//!     let node = map.node_of(slot_of(b"user:1000"));
//!
//! Promise: exact slot map. A slot's node is that of the last operation that covers it (`specs/Map.antt`), a node's number
//! is its endpoint's place in the table (`specs/Table.antt`), and a reply means what `specs/Slots.antt` reads in it.
#![tactic(auto)]

mod draft;
mod endpoint;
mod fault;
mod map;
mod node;
mod ops;
mod slots;
mod table;

pub use fault::MapFault;
pub use map::SlotMap;
pub use node::{NODE_LIMIT, NodeId};
pub use ops::{MapOp, MapOps};
pub use slots::ops_of;
pub use table::NodeTable;
