//! The cluster behind a lock, driven by hand.

use crate::held::Held;
use crate::notation::{CallFault, Line, Object};
use key_split::Batch;
use local_cluster::{LocalState, MoveStep, three_nodes};
use resp_wire::Bytes;
use slot_hash::Slot;
use slot_map::NodeId;

/// A call of the state, or of a new one.
pub fn call(held: &mut Held<LocalState>, line: &mut Line) {
    match line.call() {
        "new" => renew(held, line),
        _ => held.call(line),
    }
}

/// Three nodes, each with a third of the slots.
fn renew(held: &mut Held<LocalState>, line: &mut Line) {
    match three_nodes(line.alloc) {
        Ok(cluster) => {
            held.put(LocalState::new(line.alloc, cluster));
            line.done();
        }
        Err(fault) => line.answer.debug(&fault),
    }
}

impl Object for LocalState {
    fn call(&mut self, line: &mut Line) {
        match line.call() {
            "serve" => {
                if let Some(batch) = line.read::<Batch>() {
                    line.show(self.serve(&batch));
                }
            }
            "history" => line.show(self.history().len()),
            _ => make_step(self, line),
        }
    }
}

fn make_step(state: &mut LocalState, line: &mut Line) {
    if let Some(step) = step_in(line) {
        let made = state.step(&step);
        drop(step);
        line.show(made);
    }
}

/// A step of a slot's move.
fn step_in(line: &mut Line) -> Option<MoveStep> {
    let slot = line.read::<Slot>()?;
    match line.call() {
        "import" => Some(MoveStep::Import(slot, line.read::<NodeId>()?)),
        "movekey" => Some(MoveStep::MoveKey(slot, line.read::<Bytes>()?)),
        "migrate" => Some(MoveStep::Migrate(slot)),
        "moverest" => Some(MoveStep::MoveRest(slot)),
        "own" => Some(MoveStep::Own(slot)),
        "release" => Some(MoveStep::Release(slot)),
        "forget" => Some(MoveStep::Forget(slot)),
        "stay" => Some(MoveStep::Stay(slot)),
        _ => {
            line.refuse(CallFault::NoSuchCall);
            None
        }
    }
}
