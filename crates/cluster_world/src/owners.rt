//! The owners of a new world's slots.

ghost use Rattle.std.specs.Prelude.{◌+◌, ◌<◌, IfOk};
ghost use Rattle.slot_map.specs.declared.ops.MapOp.{MapOp};
ghost use Rattle.cluster_world.specs.Owners.{IsTakenOver};

use resp_wire::NoMemory;
use slot_hash::{SLOT_COUNT, Slot};
use slot_map::{MapOp, SlotMap};
use std::alloc::Global;

/// A new map with the same owners: what is new shows that there were changes that lead to it.
pub(crate) fn taken_over(alloc: Global, owners: &SlotMap) -> Result<SlotMap, NoMemory>
    ensures { IfOk result (λ map. IsTakenOver map owners.now 16384) }
{
    let mut map = SlotMap::new(alloc)?;
    for number in 0..SLOT_COUNT {
        take_over(&mut map, owners, number);
    }
    Ok(map)
}

// Takes one more slot over.
fn take_over(map: &mut SlotMap, owners: &SlotMap, number: u16)
    requires { number < 16384 }
    ensures { IsTakenOver map.old owners.now number → IsTakenOver map.new owners.now (number + 1) }
{
    let Some(slot) = Slot::new(number) else {
        return;
    };
    let Some(node) = owners.node_of(slot) else {
        return;
    };
    map.apply(MapOp::SetSlot(slot, node));
}
