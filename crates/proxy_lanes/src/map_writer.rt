//! The writer's end of the map.

use crate::history::{Front, History, Naming, Opened};
use crate::map_view::MapView;
use crate::table::Publication;
use crate::tables::{ShowsOps, Tables};
use resp_wire::NoMemory;
use slot_hash::Slot;
use slot_map::{MapOp, NodeId};
use std::alloc::Global;
use std::marker::Model;
use std::sync::Wait;

/// Publishes lists of operations, by the copies `T` of the map. Contracts see it as all operations that it published.
pub struct MapWriter<J: Naming, T: ShowsOps + Drop> {
    alloc: Global,
    tables: T,
    history: History<J>,
    front: Front<J>,
    /// The slot and its node that were published last, where they were published alone.
    last: Option<(Slot, NodeId)>,
}

// By hand, so that the crates above prove one call.
impl<J: Naming, T: ShowsOps + Drop> Drop for MapWriter<J, T> {
    fn drop(self) {
        let MapWriter {
            alloc: _,
            tables,
            history,
            front,
            last: _,
        } = self;
        drop(tables);
        drop(history);
        drop(front);
    }
}

/// The writer of a map whose readers it may wait for.
pub type Publisher<J, R> = MapWriter<J, Tables<J, R>>;

impl<J: Naming, T: ShowsOps + Drop> Model for MapWriter<J, T> {
    ghost use Rattle.std.specs.Prelude.{◌≡◌, List};
    ghost use Rattle.slot_map.specs.declared.ops.MapOp.{MapOp};
    ghost use Rattle.proxy_lanes.specs.Publishing.{IsNoted};

    ghost Value = { List MapOp };

    ghost view = { λ w. w.front };

    ghost invariant = { λ w. (T.shown w.tables ≡ w.front) × IsNoted w.last w.front };
}

impl<J: Naming, T: ShowsOps + Drop> MapWriter<J, T> {
    ghost use Rattle.std.specs.Prelude.{◌≡◌, IsSomeAnd};

    /// What was published so far, for views to learn.
    pub fn tell(&mut self) -> Option<Front<J>>
        ensures front { IsSomeAnd result (λ front. front ≡ self.old) }
        ensures same { self.new ≡ self.old }
    {
        Some(self.front.again())
    }
}

impl<J: Naming, R: Wait + Drop> MapWriter<J, Tables<J, R>> {
    ghost use Rattle.std.specs.Prelude.{◌≡◌, ◌++◌, ◌<◌, ◌^◌, [], IfOk, OnOk, OnErr};
    ghost use Rattle.proxy_lanes.specs.Opened.{book_of};
    ghost use Rattle.proxy_lanes.specs.Publishing.{IsPublished};
    ghost use Rattle.proxy_lanes.specs.View.{new_view};
    ghost use Rattle.slot_map.specs.declared.ops.MapOp.TheVariants.{SetSlot};

    /// A map in which no slot has a node, with room for `views` views.
    pub(crate) fn new(
        alloc: Global,
        rt: R,
        opened: Opened,
        views: usize,
    ) -> Result<MapWriter<J, Tables<J, R>>, NoMemory>
        requires name { book_of opened ≡ J.book }
        requires room { (0 < views) × (views < 2 ^ 32) }
        ensures { IfOk result (λ writer. writer ≡ []) }
    {
        let (history, front) = opened.named::<J>();
        let tables = Tables::new(alloc, rt, &front, views)?;
        let mut writer = MapWriter {
            alloc,
            tables,
            history,
            front,
            last: None,
        };
        // Two publications of nothing make the room that each later one needs.
        writer.publish(&[])?;
        writer.publish(&[])?;
        Ok(writer)
    }

    /// Publishes all operations at once, or none.
    pub fn publish(&mut self, ops: &[MapOp]) -> Result<(), NoMemory>
        ensures ok { OnOk result (self.new ≡ self.old ++ ops.now) }
        ensures err { OnErr result (self.new ≡ self.old) }
    {
        let list = ops.to_vec(self.alloc)?;
        let before = self.front.again();
        let mut after = self.front.again();
        if !after.add_all(&self.history, &list) {
            return Err(NoMemory);
        }
        let next = after.again();
        self.tables.show(Publication::new(list, before, after))?;
        self.front = next;
        self.last = None;
        Ok(())
    }

    /// Publishes that a slot lives on a node, unless that is what was published last.
    pub fn publish_slot(&mut self, slot: Slot, node: NodeId) -> Result<(), NoMemory>
        ensures ok { OnOk result (IsPublished self.old (SetSlot slot node) self.new) }
        ensures err { OnErr result (self.new ≡ self.old) }
    {
        if self.last == Some((slot, node)) {
            return Ok(());
        }
        self.publish(&[MapOp::SetSlot(slot, node)])?;
        self.last = Some((slot, node));
        Ok(())
    }

    /// A view that knows what was published so far.
    pub(crate) fn view(&self) -> Result<MapView<J>, NoMemory>
        ensures { IfOk result (λ view. view ≡ new_view self.now) }
    {
        self.tables.view(self.front.again())
    }
}
