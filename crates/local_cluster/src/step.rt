//! The steps by which slots move.

use resp_wire::Bytes;
use slot_hash::Slot;
use slot_map::NodeId;

/// A step of a slot's move.
pub enum MoveStep {
    /// The target begins to import the slot.
    Import(Slot, NodeId),
    /// The source begins to migrate it.
    Migrate(Slot),
    /// The source gives a key.
    MoveKey(Slot, Bytes),
    /// The source gives any key that is left.
    MoveRest(Slot),
    /// The target becomes the owner.
    Own(Slot),
    /// The source gives the slot up.
    Release(Slot),
    /// The target forgets the slot: the move is called back.
    Forget(Slot),
    /// The source stays the owner.
    Stay(Slot),
}

// By hand, so that a proof has one call where a value is let go, and no case for each variant.
impl Drop for MoveStep {
    fn drop(self) {
        match self {
            MoveStep::MoveKey(_, key) => drop(key),
            MoveStep::Import(_, _)
            | MoveStep::Migrate(_)
            | MoveStep::MoveRest(_)
            | MoveStep::Own(_)
            | MoveStep::Release(_)
            | MoveStep::Forget(_)
            | MoveStep::Stay(_) => {}
        }
    }
}
