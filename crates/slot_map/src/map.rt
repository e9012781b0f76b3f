//! The slot map.

ghost use Rattle.std.specs.Prelude.{◌≡◌, List, ◌∷◌, ◌++◌, [], IfOk, ◌<◌, length};
ghost use Rattle.slot_map.specs.Filled.{FilledBetween};

use crate::node::NodeId;
use crate::ops::MapOp;
use resp_wire::NoMemory;
use slot_hash::{SLOT_COUNT, Slot};
use std::alloc::Global;
use std::marker::Model;

/// Which node each slot lives on.
#[derive(Drop)]
pub struct SlotMap {
    nodes: Vec<Option<NodeId>>,
}

impl Model for SlotMap {
    ghost use Rattle.std.specs.Prelude.{◌≡◌, ℕ, List, Option, length};

    ghost Value = { List (Option ℕ) };

    ghost view = { λ map. map.nodes.items };

    ghost invariant = { λ map. length map.nodes.items ≡ 16384 };
}

impl SlotMap {
    ghost use Rattle.slot_map.specs.declared.ops.MapOp.{MapOp};
    ghost use Rattle.slot_map.specs.Map.{node_after, MapShows};

    /// A map in which no slot has a node.
    pub fn new(alloc: Global) -> Result<SlotMap, NoMemory>
        ensures { IfOk result (λ map. MapShows map []) }
    {
        let mut nodes = Vec::with_capacity(alloc, usize::from(SLOT_COUNT))?;
        nodes.resize(usize::from(SLOT_COUNT), None)?;
        Ok(SlotMap { nodes })
    }

    /// Makes one change. It takes no memory.
    pub fn apply(&mut self, op: MapOp)
        ensures { (ops : List MapOp) → MapShows self.old ops → MapShows self.new (ops ++ op ∷ []) }
    {
        match op {
            MapOp::SetRange(first, last, node) => {
                fill(&mut self.nodes, first.number(), last.number(), node);
            }
            MapOp::SetSlot(slot, node) => {
                self.nodes[slot.number() as usize] = Some(node);
            }
        }
    }

    /// The node that the slot lives on, where one is known.
    pub fn node_of(&self, slot: Slot) -> Option<NodeId>
        ensures { (ops : List MapOp) → MapShows self.now ops → result ≡ node_after ops slot }
    {
        self.nodes[slot.number() as usize]
    }

    /// The same map in memory of its own.
    pub fn copy(&self, alloc: Global) -> Result<SlotMap, NoMemory>
        ensures { IfOk result (λ copy. copy ≡ self.now) }
    {
        let nodes = Vec::from_slice(alloc, self.nodes.as_slice())?;
        Ok(SlotMap { nodes })
    }
}

/// Writes the node at each slot of the range.
fn fill(nodes: &mut [Option<NodeId>], first: u16, last: u16, node: NodeId)
    requires size { length nodes.old ≡ 16384 }
    requires within { last < 16384 }
    ensures { FilledBetween nodes.old nodes.new first last node }
{
    for slot in first..last + 1 {
        nodes[slot as usize] = Some(node);
    }
}
