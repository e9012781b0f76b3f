//! The two copies of the map, as the writer holds them.

use crate::history::{Front, Naming};
use crate::map_view::MapView;
use crate::table::{Publication, Table};
use left_right::{Absorb, WriteHandle};
use resp_wire::NoMemory;
use slot_map::MapOp;
use std::alloc::Global;
use std::marker::Model;
use std::sync::Wait;

/// What shows readers a list of operations.
pub trait ShowsOps {
    ghost use Rattle.std.specs.Prelude.{List};
    ghost use Rattle.slot_map.specs.declared.ops.MapOp.{MapOp};

    ghost shown: { Self → List MapOp };
}

/// The two copies. Contracts see them as the operations that readers see.
pub struct Tables<J: Naming, R: Wait + Drop>
where
    Table<J>: Absorb<Publication<J>, State = [MapOp; 0]>,
{
    handle: WriteHandle<Table<J>, Publication<J>, R>,
}

impl<J: Naming, R: Wait + Drop> Model for Tables<J, R>
where
    Table<J>: Absorb<Publication<J>, State = [MapOp; 0]>,
{
    ghost use Rattle.std.specs.Prelude.{◌≡◌, List, []};
    ghost use Rattle.left_right.specs.Handles.{published, pending};
    ghost use Rattle.slot_map.specs.declared.ops.MapOp.{MapOp};

    ghost Value = { List MapOp };

    ghost view = { λ t. published t.handle };

    ghost invariant = { λ t. pending t.handle ≡ [] };
}

impl<J: Naming, R: Wait + Drop> ShowsOps for Tables<J, R> {
    ghost shown = { λ t. t };
}

impl<J: Naming, R: Wait + Drop> Drop for Tables<J, R> {
    fn drop(self) {
        let Self { handle } = self;
        drop(handle);
    }
}

impl<J: Naming, R: Wait + Drop> Tables<J, R> {
    ghost use Rattle.std.specs.Prelude.{◌≡◌, ◌<◌, ◌^◌, [], IfOk, OnOk, OnErr};
    ghost use Rattle.proxy_lanes.specs.View.{new_view};

    pub(crate) fn new(
        alloc: Global,
        rt: R,
        front: &Front<J>,
        views: usize,
    ) -> Result<Tables<J, R>, NoMemory>
        requires empty { front.now ≡ [] }
        requires room { (0 < views) × (views < 2 ^ 32) }
        ensures { IfOk result (λ tables. tables ≡ []) }
    {
        let first = Table::new(alloc, front.again())?;
        let second = Table::new(alloc, front.again())?;
        let handle = WriteHandle::new(alloc, rt, first, second, views)?;
        Ok(Tables { handle })
    }

    /// Shows readers the operations after the publication. They see no other where there is no memory.
    pub(crate) fn show(&mut self, publication: Publication<J>) -> Result<(), NoMemory>
        requires { publication.0 ≡ self.old }
        ensures ok { OnOk result (self.new ≡ publication.1) }
        ensures err { OnErr result (self.new ≡ self.old) }
    {
        if self.handle.append(publication).is_err() {
            return Err(NoMemory);
        }
        self.handle.publish()?;
        Ok(())
    }

    pub(crate) fn view(&self, known: Front<J>) -> Result<MapView<J>, NoMemory>
        ensures { IfOk result (λ view. view ≡ new_view known) }
    {
        Ok(MapView::new(self.handle.handle()?, known))
    }
}
