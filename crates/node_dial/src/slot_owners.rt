//! Which node serves each slot, as the nodes told it last.

use resp_wire::NoMemory;
use slot_hash::{SLOT_COUNT, Slot};
use slot_map::{MapOp, NodeId, SlotMap};
use std::alloc::Global;
use std::cell::RefCell;

/// The owner of each slot, from the last answer to CLUSTER SLOTS that named one.
#[derive(Drop)]
pub(crate) struct SlotOwners {
    owners: SlotMap,
}

impl SlotOwners {
    /// No owner was told.
    pub(crate) fn new(alloc: Global) -> Result<SlotOwners, NoMemory> {
        Ok(SlotOwners {
            owners: SlotMap::new(alloc)?,
        })
    }

    /// Takes in what an answer says, and tells how many slots have another owner by it. It leaves out an answer that names more
    /// slots than there are.
    fn take(&mut self, changes: &[MapOp]) -> Option<usize> {
        if count_slots(changes) > usize::from(SLOT_COUNT) {
            return None;
        }
        let mut changed: usize = 0;
        for change in changes {
            changed = changed.saturating_add(self.count_changed(*change));
            self.owners.apply(*change);
        }
        Some(changed)
    }

    /// How many slots of the change have another owner.
    fn count_changed(&self, op: MapOp) -> usize {
        let (first, last, node) = parts_of(op);
        let mut changed: usize = 0;
        for number in first..=last {
            if self.owner_of(number) != Some(node) {
                changed = changed.saturating_add(1);
            }
        }
        changed
    }

    fn owner_of(&self, number: u16) -> Option<NodeId> {
        self.owners.node_of(Slot::new(number)?)
    }
}

/// Notes what an answer to CLUSTER SLOTS says: how many slots have another owner by it than by the answers before. `None` where
/// that is not known.
pub(crate) fn note_owners(owners: &RefCell<SlotOwners>, changes: &[MapOp]) -> Option<usize> {
    match owners.try_borrow_mut() {
        Ok(mut owners) => owners.take(changes),
        Err(_) => None,
    }
}

/// How many slots the changes name, each as often as it is named.
fn count_slots(ops: &[MapOp]) -> usize {
    let mut count: usize = 0;
    for op in ops {
        let (first, last, _) = parts_of(*op);
        if first <= last {
            count = count
                .saturating_add(usize::from(last - first))
                .saturating_add(1);
        }
    }
    count
}

/// The first slot of a change, its last and their node.
fn parts_of(op: MapOp) -> (u16, u16, NodeId) {
    match op {
        MapOp::SetRange(first, last, node) => (first.number(), last.number(), node),
        MapOp::SetSlot(slot, node) => (slot.number(), slot.number(), node),
    }
}

/// The nodes that an answer to CLUSTER SLOTS gives slots, each a bit by its number.
pub(crate) fn nodes_of(changes: &[MapOp]) -> u64 {
    let mut nodes: u64 = 0;
    for change in changes {
        let (_, _, node) = parts_of(*change);
        nodes |= 1u64.wrapping_shl(u32::from(node.number()));
    }
    nodes
}
