//! Changes of the slot map.

ghost use Rattle.std.specs.Prelude.{◌≡◌};

use crate::node::NodeId;
use slot_hash::Slot;
use std::marker::Model;

/// A change of the map.
#[derive(Clone, Copy)]
pub enum MapOp {
    /// The slots from the first to the last, both included, live on the node. A range whose first slot is past its last
    /// covers nothing.
    SetRange(Slot, Slot, NodeId),
    /// The slot lives on the node.
    SetSlot(Slot, NodeId),
}

/// Changes of the map, in order.
#[derive(Drop)]
pub struct MapOps {
    items: Vec<MapOp>,
}

impl Model for MapOps {
    ghost use Rattle.std.specs.Prelude.{List};
    ghost use Rattle.slot_map.specs.declared.ops.MapOp.{MapOp};

    ghost Value = { List MapOp };

    ghost view = { λ ops. ops.items.items };
}

impl MapOps {
    pub fn new(items: Vec<MapOp>) -> Self
        ensures { result ≡ items.items }
    {
        MapOps { items }
    }

    pub fn as_slice(&self) -> &[MapOp]
        ensures { result.now ≡ self.now }
    {
        self.items.as_slice()
    }

    pub fn into_vec(self) -> Vec<MapOp>
        ensures { result.items ≡ self }
    {
        self.items
    }
}
