//! New lanes.

ghost use Rattle.std.specs.Prelude.{IfOk};
ghost use Rattle.proxy_lanes.specs.Lane.{IsNewLane};

use super::{InOrder, Inlet, LANE_PLACES, Outlet};
use resp_wire::NoMemory;
use rtrb::RingBuffer;
use std::alloc::Global;

/// A lane in which nothing was posted.
pub fn lane<T: Drop>(alloc: Global) -> Result<(Outlet<T>, Inlet<T>), NoMemory>
    ensures { IfOk result (λ ends. IsNewLane ends.0 ends.1) }
{
    let (producer, consumer) = RingBuffer::with_protocol::<Global, InOrder>(alloc, LANE_PLACES)?;
    Ok((Outlet { producer, next: 0 }, Inlet { consumer }))
}
