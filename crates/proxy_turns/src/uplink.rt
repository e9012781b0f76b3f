//! A worker's way to the nodes.

use key_split::Run;
use proxy_lanes::{MapView, Naming, Outlet};

/// The lane into which a worker posts, and the slot map by which it chooses the nodes.
#[derive(Drop)]
pub(crate) struct Uplink<J: Naming> {
    pub(crate) outlet: Outlet<Run>,
    pub(crate) view: MapView<J>,
}
