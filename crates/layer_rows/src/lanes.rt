//! The lanes between two workers and the carrier, and the map that the carrier publishes, in one thread.

ghost use Rattle.std.specs.Prelude.{◌<◌, length};
ghost use Rattle.proxy_lanes.specs.Carrier.{lanes_of};

use crate::held::is_done;
use crate::maps::{range_in, slot_in};
use crate::notation::{CallFault, Line, Object};
use key_split::{Batch, Run};
use proxy_lanes::{CarrierEnds, Front, Naming, Outlet, Publisher, WorkerEnds};
use slot_map::MapOp;
use std::alloc::Global;
use std::sync::Wait;

#[derive(Drop)]
pub struct LaneObjects<J: Naming, R: Wait + Drop> {
    workers: Vec<WorkerEnds<u32, J>>,
    carrier: CarrierEnds<u32, Publisher<J, R>>,
    /// What was published, as it was told to workers.
    fronts: Vec<Option<Front<J>>>,
}

impl<J: Naming, R: Wait + Drop> LaneObjects<J, R> {
    pub fn new(
        alloc: Global,
        workers: Vec<WorkerEnds<u32, J>>,
        carrier: CarrierEnds<u32, Publisher<J, R>>,
    ) -> LaneObjects<J, R> {
        LaneObjects {
            workers,
            carrier,
            fronts: Vec::new(alloc),
        }
    }

    /// A call of a worker's end of its lane.
    fn call_of_worker(&mut self, line: &mut Line) {
        let Some(worker) = line.read::<usize>() else {
            return;
        };
        match self.workers.get_mut(worker) {
            Some(ends) => call_of_ends(ends, line),
            None => line.refuse(CallFault::NotMade),
        }
    }

    /// Keeps what was published so far, and shows its place among what was kept.
    fn tell(&mut self, line: &mut Line) {
        match self.carrier.map.tell() {
            Some(front) => keep_front(&mut self.fronts, front, line),
            None => line.refuse(CallFault::NotNow),
        }
    }

    /// `learn WORKER PLACE`: a worker learns what was kept at a place, where anything is kept there.
    fn learn(&mut self, line: &mut Line) {
        let Some((worker, place)) = line.read() else {
            return;
        };
        let Some(ends) = self.workers.get_mut(worker) else {
            return line.refuse(CallFault::NotMade);
        };
        if let Some(front) = line.found(kept_at(&mut self.fronts, place), CallFault::NotMade) {
            ends.view.learn(front);
            line.done();
        }
    }
}

impl<J: Naming, R: Wait + Drop> Object for LaneObjects<J, R> {
    fn call(&mut self, line: &mut Line) {
        match line.call() {
            "publish" => {
                if let Some(op) = op_in(line) {
                    line.show(self.carrier.map.publish(&[op]));
                }
            }
            "tell" => self.tell(line),
            "learn" => self.learn(line),
            "give" | "take" | "finish" | "hand" => call_of_carrier(&mut self.carrier, line),
            _ => self.call_of_worker(line),
        }
    }
}

/// `range FIRST LAST NODE` or `slot SLOT NODE`
fn op_in(line: &mut Line) -> Option<MapOp> {
    match line.name()? {
        "range" => range_in(line),
        "slot" => slot_in(line),
        _ => {
            line.refuse(CallFault::NoSuchCall);
            None
        }
    }
}

fn keep_front<F: Drop>(fronts: &mut Vec<Option<F>>, front: F, line: &mut Line) {
    line.show(fronts.len());
    if !is_done(fronts.push(Some(front))) {
        line.refuse(CallFault::NoMemory);
    }
}

/// What was kept at a place, which is kept no longer.
fn kept_at<F: Drop>(kept: &mut [Option<F>], place: usize) -> Option<F> {
    kept.get_mut(place)?.take()
}

/// A call of the carrier's end of a worker's lane. `finish` finishes what goes down to the worker.
fn call_of_carrier<M: Drop>(carrier: &mut CarrierEnds<u32, M>, line: &mut Line) {
    let Some(worker) = line.read::<u16>() else {
        return;
    };
    if usize::from(worker) >= carrier.workers() {
        return line.refuse(CallFault::NotMade);
    }
    match line.call() {
        "give" => give(carrier, worker, line),
        "take" => line.show(carrier.take(worker)),
        "finish" => {
            let is_noted = carrier.finish_down(worker).is_some();
            line.say(if is_noted { "note" } else { "none" });
        }
        _ => hand(carrier, worker, line),
    }
}

/// `give WORKER TICKET TOLD`
fn give<M: Drop>(carrier: &mut CarrierEnds<u32, M>, worker: u16, line: &mut Line)
    requires { worker < length (lanes_of carrier.old) }
{
    let Some((ticket, told)) = line.read() else {
        return;
    };
    match carrier.give(worker, ticket, told) {
        Ok(()) => line.done(),
        Err(back) => {
            line.say("back");
            line.show(back);
        }
    }
}

/// `hand WORKER CLIENT`
fn hand<M: Drop>(carrier: &mut CarrierEnds<u32, M>, worker: u16, line: &mut Line)
    requires { worker < length (lanes_of carrier.old) }
{
    if let Some(client) = line.read::<u16>() {
        let is_handed = is_done(carrier.hand(worker, u32::from(client)));
        line.say(if is_handed { "ok" } else { "back" });
    }
}

// A call that a worker makes on its way, with no right to wait.
fn call_of_ends<J: Naming>(ends: &mut WorkerEnds<u32, J>, line: &mut Line) {
    match line.call() {
        "post" => post(&mut ends.outlet, line),
        "told" => line.show(ends.inlet.take()),
        "newcomer" => line.show(ends.newcomers.take()),
        "node" => {
            if let Some(slot) = line.read() {
                line.show(ends.view.node_of(slot));
            }
        }
        _ => line.refuse(CallFault::NoSuchCall),
    }
}

fn post(outlet: &mut Outlet<Run>, line: &mut Line) {
    let Some(batch) = line.read::<Batch>() else {
        return;
    };
    match outlet.post(Run::one(line.alloc, batch)) {
        Ok(()) => line.done(),
        Err(run) => {
            line.say("back");
            line.show(run);
        }
    }
}
