//! Steps of moves, made by the nodes.

ghost use Rattle.local_cluster.specs.Local.{Makes};

use crate::step::MoveStep;
use node_model::{Cluster, MoveFault};
use resp_wire::Bytes;
use slot_hash::Slot;
use std::alloc::Global;

/// Makes the step, where the nodes allow it.
pub(crate) fn make_step(
    alloc: Global,
    cluster: &mut Cluster,
    step: &MoveStep,
) -> Result<(), MoveFault>
    ensures { Makes cluster.old step.now result cluster.new }
{
    match step {
        MoveStep::Import(slot, target) => cluster.import_slot(*slot, *target),
        MoveStep::Migrate(slot) => cluster.migrate_slot(*slot),
        MoveStep::MoveKey(slot, key) => cluster.move_key(*slot, key),
        MoveStep::MoveRest(slot) => move_rest(alloc, cluster, *slot),
        MoveStep::Own(slot) => cluster.own_slot(*slot),
        MoveStep::Release(slot) => cluster.release_slot(*slot),
        MoveStep::Forget(slot) => cluster.forget_slot(*slot),
        MoveStep::Stay(slot) => cluster.stay_slot(*slot),
    }
}

/// The slot's source gives any key that is left.
fn move_rest(alloc: Global, cluster: &mut Cluster, slot: Slot) -> Result<(), MoveFault>
    ensures { Makes cluster.old (MoveStep.MoveRest slot) result cluster.new }
{
    if !cluster.gives_keys(slot) {
        return Err(MoveFault::NotNow);
    }
    let Some(key) = cluster.rest_key(slot) else {
        return Err(MoveFault::NotNow);
    };
    let key: Bytes = key.copy(alloc)?;
    cluster.move_key(slot, &key)
}
