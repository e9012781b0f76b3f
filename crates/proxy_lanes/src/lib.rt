//! The lanes between workers and the carrier, and the slot map that the carrier publishes to all workers.
//!
//! ```
//! worker.outlet.post(batch)?;
//! let batch = carrier.take(0);
//! carrier.map.publish(&[MapOp::SetSlot(slot, node)])?;
//! let node = worker.view.node_of(slot);
//! ```
//!
//! Promises: whole lanes (`Posts`, `Takes` and `Settles` of `specs/Lane.antt`), maps never go back (`MapView::node_of` and
//! `learn`, `MapWriter::publish` and `tell`), no waiting on the way: only `publish` and what makes or drops a map may wait.
#![tactic(auto)]

mod ends;
mod history;
mod map_view;
mod map_writer;
mod ring;
mod table;
mod tables;

pub use ends::{CarrierEnds, LaneEnds, LeftInLanes, Newcomers, WorkerEnds, lanes};
pub use history::{Front, Naming, Opened};
pub use map_view::{MapView, NotEntered};
pub use map_writer::{MapWriter, Publisher};
pub use ring::{Inlet, LANE_PLACES, Note, Numbered, Outlet, lane};
pub use tables::{ShowsOps, Tables};
