//! What is done to the state in one hold of its lock.

ghost use Rattle.std.specs.Prelude.{IfOk};
ghost use Rattle.local_cluster.specs.Held.{WasListed, WasTold, WasTried};

use crate::local::LocalState;
use crate::step::MoveStep;
use key_split::{Batch, Told};
use node_model::{MoveFault, ServeFault};
use resp_wire::{NoMemory, Value};
use slot_map::NodeTable;

/// Serves a request. A node that is not there serves no slot.
pub(crate) fn tell(state: &mut LocalState, batch: &Batch) -> Result<Told, NoMemory>
    ensures { IfOk result (WasTold batch.now) }
{
    let _before = state.history();
    let told = state.serve(batch);
    let _after = state.history();
    match told {
        Ok(told) => Ok(told),
        Err(ServeFault::NoSuchNode) => Ok(Told::ClusterDown),
        Err(ServeFault::NoMemory) => Err(NoMemory),
        Err(ServeFault::NotThisVerdict) => Err(NoMemory),
    }
}

/// Tries a step of a move.
pub(crate) fn try_step(state: &mut LocalState, step: &MoveStep) -> Result<(), MoveFault>
    ensures { WasTried step.now result }
{
    let _before = state.history();
    let tried = state.step(step);
    let _after = state.history();
    tried
}

/// Lists the slots, each with its node's place in the table.
pub(crate) fn list(state: &LocalState, table: &NodeTable) -> Result<Value, NoMemory>
    ensures { IfOk result (WasListed table.now) }
{
    state.cluster().slots_value(table)
}
