//! What a worker does at its ends on its way: no function that it calls there is given the right to wait.

ghost use Rattle.std.specs.Prelude.{◌≡◌};
ghost use Rattle.proxy_lanes.specs.Opened.{book_of};

use crate::numbered::run;
use layer_rows::is_done;
use proxy_lanes::{Naming, Opened, WorkerEnds, lanes};
use slot_hash::Slot;
use std::alloc::{AllocGlobal, Global};
use std::marker::Brand;
use std::sync::Wait;
use std::test::Fail;

#[test]
fn no_call_on_the_way_may_wait(rt: HostRuntime) -> Result<(), Fail> {
    let went = goes::<Brand, _>(rt, Opened::new())?;
    assert!(rt; went);
    Ok(())
}

// Makes the lanes of a worker, which may wait, and goes on with its ends alone.
fn goes<J, R>(rt: R, opened: Opened) -> Result<bool, Fail>
where
    J: Naming,
    R: Wait + AllocGlobal + Copy + Drop,
    requires { book_of opened ≡ J.book }
{
    let (mut ends, carrier) = lanes::<u32, J, R>(rt.alloc(), rt, opened, 1)?;
    let mut own = ends.pop().ok_or("a worker")?;
    let went = goes_on(rt.alloc(), &mut own);
    drop(carrier);
    Ok(went)
}

// Whether a post finds its place, nothing is told, and the map can be looked at.
fn goes_on<J: Naming>(alloc: Global, ends: &mut WorkerEnds<u32, J>) -> bool {
    let posted = is_done(ends.outlet.post(run(alloc, 0)));
    let told = ends.inlet.take();
    let is_silent = told.is_none();
    drop(told);
    let looked = is_done(ends.view.node_of(slot()));
    posted && is_silent && looked
}

fn slot() -> Slot {
    Slot::new(3300).unwrap()
}
