//! The steps by which a slot moves.

ghost use Rattle.turn_play.specs.Moving.{MoveOutcome, MovesOrNot};

use crate::fault::PlayFault;
use node_model::{Cluster, MoveFault};
use resp_wire::Bytes;
use slot_hash::Slot;
use slot_map::NodeId;

/// A step of a move.
#[derive(Drop)]
pub enum Move {
    Import(Slot, NodeId),
    Migrate(Slot),
    /// This key and its value leave the source.
    Key(Slot, Bytes),
    Own(Slot),
    Release(Slot),
    Forget(Slot),
    Stay(Slot),
}

/// Makes the step, where it may be made now. Where it may not, nothing changes.
pub(crate) fn move_on(cluster: &mut Cluster, step: &Move) -> Result<(), PlayFault>
    ensures { MovesOrNot cluster.old step.now result cluster.new }
{
    match make(cluster, step) {
        Ok(()) => Ok(()),
        Err(MoveFault::NotNow) => Ok(()),
        Err(MoveFault::NoMemory) => Err(PlayFault::NoMemory),
    }
}

fn make(cluster: &mut Cluster, step: &Move) -> Result<(), MoveFault>
    ensures { MoveOutcome cluster.old step.now result cluster.new }
{
    match step {
        Move::Import(slot, target) => cluster.import_slot(*slot, *target),
        Move::Migrate(slot) => cluster.migrate_slot(*slot),
        Move::Key(slot, key) => cluster.move_key(*slot, key),
        Move::Own(slot) => cluster.own_slot(*slot),
        Move::Release(slot) => cluster.release_slot(*slot),
        Move::Forget(slot) => cluster.forget_slot(*slot),
        Move::Stay(slot) => cluster.stay_slot(*slot),
    }
}
