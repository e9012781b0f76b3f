//! A reader's end of the map.

use crate::history::{Front, Naming};
use crate::table::Table;
use left_right::ReadHandle;
use slot_hash::Slot;
use slot_map::NodeId;
use std::marker::Model;

/// The map was not entered.
#[derive(Clone, Copy, Debug, PartialEq, Eq)]
pub struct NotEntered;

/// One worker's view of the map. Contracts see it as the operations that it knows, those of its last answer, or of a
/// longer front that it learnt since, and how often it was refused.
pub struct MapView<J: Naming> {
    table: ReadHandle<Table<J>>,
    known: Front<J>,
    /// How often the map was not entered, modulo 2^64.
    refused: u64,
}

// By hand, so that the crates above prove one call.
impl<J: Naming> Drop for MapView<J> {
    fn drop(self) {
        let MapView {
            table,
            known,
            refused: _,
        } = self;
        drop(table);
        drop(known);
    }
}

impl<J: Naming> Model for MapView<J> {
    ghost use Rattle.proxy_lanes.specs.View.{ViewModel};

    ghost Value = { ViewModel };

    ghost view = { λ v. record { known = v.known; refused = v.refused } };
}

impl<J: Naming> MapView<J> {
    ghost use Rattle.std.specs.Prelude.{◌≡◌, ◌≢◌, ◌⊎◌, IfOk, MatchBool, OnOk, OnErr, length};
    ghost use mathlib.Core.List.{IsPrefix};
    ghost use Rattle.slot_map.specs.Map.{node_after};
    ghost use Rattle.proxy_lanes.specs.View.{new_view, refused_once};

    pub(crate) fn new(table: ReadHandle<Table<J>>, known: Front<J>) -> MapView<J>
        ensures { result ≡ new_view known }
    {
        MapView {
            table,
            known,
            refused: 0,
        }
    }

    /// The node of a slot after some published operations, which begin with all that the view knew.
    pub fn node_of(&mut self, slot: Slot) -> Result<Option<NodeId>, NotEntered>
        ensures node { IfOk result (λ node. node ≡ node_after self.new.known slot) }
        ensures later { OnOk result (IsPrefix self.old.known self.new.known) }
        ensures same { OnOk result (self.new.refused ≡ self.old.refused) }
        ensures err { OnErr result (self.new ≡ refused_once self.old) }
    {
        let MapView {
            table,
            known,
            refused,
        } = self;
        let Some(guard) = table.enter() else {
            *refused = refused.wrapping_add(1);
            return Err(NotEntered);
        };
        if !known.is_in(guard.front()) {
            *refused = refused.wrapping_add(1);
            return Err(NotEntered);
        }
        let node = guard.node_of(slot);
        *known = guard.front().again();
        Ok(node)
    }

    /// Whether the front has all that the view knows. Of the two the shorter begins the longer: a view knows nothing that was
    /// not published.
    pub fn is_in(&self, front: &Front<J>) -> bool
        ensures { MatchBool result (IsPrefix self.now.known front.now) (IsPrefix front.now self.now.known × (length self.now.known ≢ length front.now)) }
    {
        self.known.is_in(front)
    }

    /// From now on the view knows no less than the front.
    pub fn learn(&mut self, front: Front<J>)
        ensures kept { IsPrefix self.old.known self.new.known }
        ensures learnt { IsPrefix front self.new.known }
        ensures one { (self.new ≡ self.old) ⊎ (self.new ≡ record self.old { known = front }) }
    {
        if self.known.is_in(&front) {
            self.known = front;
        }
    }
}
