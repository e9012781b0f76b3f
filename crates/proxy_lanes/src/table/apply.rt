//! Operations on a map, in order.

ghost use Rattle.std.specs.Prelude.{List, ◌++◌};
ghost use Rattle.slot_map.specs.declared.ops.MapOp.{MapOp};
ghost use Rattle.slot_map.specs.Map.{MapShows};

use slot_map::{MapOp, SlotMap};

/// Applies each operation in turn.
pub(crate) fn apply_all(map: &mut SlotMap, ops: &[MapOp])
    ensures { (before : List MapOp) → MapShows map.old before → MapShows map.new (before ++ ops.now) }
{
    for op in ops {
        map.apply(*op);
    }
}
