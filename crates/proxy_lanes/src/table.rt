//! One copy of the map, beside the beginning of the history that it stands for.

use crate::history::{Front, Naming};
use left_right::Absorb;
use resp_wire::NoMemory;
use slot_hash::Slot;
use slot_map::{MapOp, NodeId, SlotMap};
use std::alloc::{AllocError, Global};
use std::marker::Model;

mod apply;

use apply::apply_all;

/// The map after some operations of the history. Contracts see it as those operations.
#[derive(Drop)]
pub struct Table<J: Naming> {
    map: SlotMap,
    front: Front<J>,
}

impl<J: Naming> Model for Table<J> {
    ghost use Rattle.std.specs.Prelude.{List};
    ghost use Rattle.slot_map.specs.declared.ops.MapOp.{MapOp};
    ghost use Rattle.slot_map.specs.Map.{MapShows};

    ghost Value = { List MapOp };

    ghost view = { λ t. t.front };

    ghost invariant = { λ t. MapShows t.map t.front };
}

/// Operations that are published at once, with the history before and after them. Contracts see it as these two.
#[derive(Drop)]
pub struct Publication<J: Naming> {
    ops: Vec<MapOp>,
    before: Front<J>,
    after: Front<J>,
}

impl<J: Naming> Model for Publication<J> {
    ghost use Rattle.std.specs.Prelude.{◌≡◌, ◌++◌, List};
    ghost use Rattle.slot_map.specs.declared.ops.MapOp.{MapOp};

    ghost Value = { List MapOp × List MapOp };

    ghost view = { λ p. (p.before, p.after) };

    ghost invariant = { λ p. p.after ≡ p.before ++ p.ops.items };
}

impl<J: Naming> Publication<J> {
    ghost use Rattle.std.specs.Prelude.{◌≡◌, ◌++◌};

    pub(crate) fn new(ops: Vec<MapOp>, before: Front<J>, after: Front<J>) -> Publication<J>
        requires { after ≡ before ++ ops.items }
        ensures { result ≡ (before, after) }
    {
        Publication { ops, before, after }
    }
}

impl<J: Naming> Table<J> {
    ghost use Rattle.std.specs.Prelude.{◌≡◌, [], IfOk};
    ghost use Rattle.slot_map.specs.Map.{node_after};

    /// A map in which no slot has a node.
    pub(crate) fn new(alloc: Global, front: Front<J>) -> Result<Table<J>, NoMemory>
        requires { front ≡ [] }
        ensures { IfOk result (λ table. table ≡ []) }
    {
        let map = SlotMap::new(alloc)?;
        Ok(Table { map, front })
    }

    /// The node of the last operation that covers the slot.
    pub(crate) fn node_of(&self, slot: Slot) -> Option<NodeId>
        ensures { result ≡ node_after self.now slot }
    {
        self.map.node_of(slot)
    }

    /// The operations that it stands for.
    pub(crate) fn front(&self) -> &Front<J>
        ensures { result.now ≡ self.now }
    {
        &self.front
    }
}

impl<J: Naming> Absorb<Publication<J>> for Table<J> {
    ghost use Rattle.proxy_lanes.specs.Published.{followed_by};

    // A clause reads an array as a list, of any length.
    type State = [MapOp; 0];

    ghost state = { λ ops. ops };

    ghost applied = { λ ops publication. followed_by ops publication.0 publication.1 };

    ghost never_fails = { Unit {0} };

    fn absorb_first(
        &mut self,
        publication: &Publication<J>,
        _other: &Table<J>,
    ) -> Result<(), AllocError> {
        let Table { map, front } = self;
        if front.is_same(&publication.before) {
            apply_all(map, &publication.ops);
            *front = publication.after.again();
        }
        Ok(())
    }
}
