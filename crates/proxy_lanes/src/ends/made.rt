//! New lanes.

ghost use Rattle.std.specs.Prelude.{◌≡◌, ◌<◌, ◌≤◌, [], length, IfOk};
ghost use Rattle.proxy_lanes.specs.Carrier.{lanes_of, AreLanes, AreLanesOf};
ghost use Rattle.proxy_lanes.specs.Opened.{book_of};
ghost use Rattle.proxy_lanes.specs.View.{new_view};

use super::{CarrierEnds, LaneEnds, WorkerEnds};
use crate::history::{Naming, Opened};
use crate::map_view::MapView;
use crate::map_writer::{MapWriter, Publisher};
use crate::ring::lane;
use resp_wire::NoMemory;
use std::alloc::Global;
use std::sync::Wait;

/// The ends of `workers` workers, in order, and the carrier's. All places of the lanes and of the map are made here.
/// NoMemory also where a ring or a place of the map was not made for another cause. It may wait, as `publish` may: it publishes
/// two lists of nothing.
pub fn lanes<H: Drop, J: Naming, R: Wait + Drop>(
    alloc: Global,
    rt: R,
    opened: Opened,
    workers: u16,
) -> Result<(Vec<WorkerEnds<H, J>>, CarrierEnds<H, Publisher<J, R>>), NoMemory>
    requires name { book_of opened ≡ J.book }
    requires workers { (0 < workers) × (workers ≤ 64) }
    ensures workers { IfOk result (λ made. (length made.0.items ≡ workers) × (length (lanes_of made.1) ≡ workers)) }
    ensures lanes { IfOk result (λ made. AreLanes workers made.0.items (lanes_of made.1)) }
    ensures map { IfOk result (λ made. made.1.map ≡ []) }
{
    let map = MapWriter::new(alloc, rt, opened, usize::from(workers))?;
    let (ends, lanes) = all_lanes(alloc, &map, workers)?;
    Ok((ends, CarrierEnds { lanes, map }))
}

/// The ends of the workers, in order, and the carrier's ends of their lanes.
fn all_lanes<H: Drop, J: Naming, R: Wait + Drop>(
    alloc: Global,
    map: &Publisher<J, R>,
    workers: u16,
) -> Result<(Vec<WorkerEnds<H, J>>, Vec<LaneEnds<H>>), NoMemory>
    requires map { map.now ≡ [] }
    ensures workers { IfOk result (λ made. (length made.0.items ≡ workers) × (length made.1.items ≡ workers)) }
    ensures lanes { IfOk result (λ made. AreLanes workers made.0.items made.1.items) }
{
    let mut ends = Vec::with_capacity(alloc, usize::from(workers))?;
    let mut lanes = Vec::with_capacity(alloc, usize::from(workers))?;
    for worker in 0..workers {
        let (own, lane) = lanes_of_worker(alloc, worker, workers, map.view()?)?;
        ends.push(own)?;
        lanes.push(lane)?;
    }
    Ok((ends, lanes))
}

/// The ends of one worker, and the carrier's ends of its lanes.
fn lanes_of_worker<H: Drop, J: Naming>(
    alloc: Global,
    worker: u16,
    workers: u16,
    view: MapView<J>,
) -> Result<(WorkerEnds<H, J>, LaneEnds<H>), NoMemory>
    requires view { view ≡ new_view [] }
    ensures lanes { IfOk result (λ made. AreLanesOf workers worker made.0 made.1) }
{
    let (outlet, up) = lane(alloc)?;
    let (down, inlet) = lane(alloc)?;
    let (door, newcomers) = lane(alloc)?;
    let own = WorkerEnds {
        worker,
        workers,
        outlet,
        inlet,
        newcomers,
        view,
    };
    Ok((own, LaneEnds::new(up, down, door)))
}
