//! One lane: between two threads, when it is finished, and as the only one of a carrier.

ghost use Rattle.rtrb.specs.Ring.{SameConsumer, SameProducer};
ghost use Rattle.std.specs.Prelude.{◌≡◌, ◌<◌, length, slice_get};
ghost use Rattle.std.specs.Option.{ForSome};
ghost use Rattle.proxy_lanes.specs.Carrier.{lanes_of};
ghost use Rattle.proxy_lanes.specs.Lane.{IsLane};
ghost use Rattle.proxy_lanes.specs.Opened.{book_of};

use crate::numbered::run;
use key_split::Run;
use proxy_lanes::{CarrierEnds, Inlet, Naming, Opened, Outlet, WorkerEnds, lane, lanes};
use std::alloc::{AllocGlobal, Global};
use std::marker::Brand;
use std::sync::Wait;
use std::test::Fail;
use std::thread;

// Whether a run finds a place.
fn posts(outlet: &mut Outlet<Run>, run: Run) -> bool
    ensures { SameProducer outlet.old.producer outlet.new.producer }
{
    outlet.post(run).is_ok()
}

fn posts_three(alloc: Global, outlet: &mut Outlet<Run>) -> bool
    ensures { SameProducer outlet.old.producer outlet.new.producer }
{
    let first = posts(outlet, run(alloc, 0));
    let second = posts(outlet, run(alloc, 1));
    let third = posts(outlet, run(alloc, 2));
    first && second && third
}

// Whether the next run has this number.
fn takes(inlet: &mut Inlet<Run>, number: u64) -> bool
    ensures { SameConsumer inlet.old.consumer inlet.new.consumer }
{
    match inlet.take() {
        Some(run) => run.first().ticket.part == number,
        None => false,
    }
}

#[test]
fn what_is_left_is_settled(rt: HostRuntime) -> Result<(), Fail> {
    let (mut outlet, mut inlet) = lane::<Run>(rt.alloc())?;
    assert!(rt; posts_three(rt.alloc(), &mut outlet));
    assert!(rt; takes(&mut inlet, 0));
    assert!(rt; takes(&mut inlet, 1));
    let note = outlet.finish().ok_or("a note")?;
    assert_eq!(rt; inlet.settle(note), 1);
    assert!(rt; takes(&mut inlet, 2));
    Ok(())
}

#[test]
fn what_a_worker_left_is_settled_and_taken(rt: HostRuntime) -> Result<(), Fail> {
    let settled = settles::<Brand, _>(rt, Opened::new())?;
    assert!(rt; settled);
    Ok(())
}

// The lanes of one worker, which posts three runs and finishes: whether the carrier settles that three are left, and takes them.
fn settles<J, R>(rt: R, opened: Opened) -> Result<bool, Fail>
where
    J: Naming,
    R: Wait + AllocGlobal + Copy + Drop,
    requires { book_of opened ≡ J.book }
{
    let (mut ends, mut carrier) = lanes::<u32, J, R>(rt.alloc(), rt, opened, 1)?;
    let Some(own) = ends.pop() else {
        return Ok(false);
    };
    let WorkerEnds { outlet, .. } = own;
    let settled = settles_three(rt.alloc(), outlet, &mut carrier);
    Ok(settled && take_while_held(&mut carrier) == 3)
}

// Posts three runs and finishes: whether the carrier settles that three are left.
fn settles_three<M: Drop>(
    alloc: Global,
    outlet: Outlet<Run>,
    carrier: &mut CarrierEnds<u32, M>,
) -> bool
    requires one { 0 < length (lanes_of carrier.old) }
    requires lane { ForSome (slice_get (lanes_of carrier.old) 0) (λ lane. IsLane outlet lane.up) }
{
    let mut outlet = outlet;
    let posted = posts_three(alloc, &mut outlet);
    match outlet.finish() {
        Some(note) => carrier.settle(0, note) == 3 && posted,
        None => false,
    }
}

#[test]
fn the_only_lane_takes_1024_posts(rt: HostRuntime) -> Result<(), Fail> {
    let passed = passes_1024::<Brand, _>(rt, Opened::new())?;
    assert!(rt; passed);
    Ok(())
}

// The lanes of one worker: whether 1,024 posts find a place, the next comes back, and the carrier takes them in order.
fn passes_1024<J, R>(rt: R, opened: Opened) -> Result<bool, Fail>
where
    J: Naming,
    R: Wait + AllocGlobal + Copy + Drop,
    requires { book_of opened ≡ J.book }
{
    let (ends, mut carrier) = lanes::<u32, J, R>(rt.alloc(), rt, opened, 1)?;
    let mut worker = ends.into_iter().next().ok_or("a worker")?;
    let posted = post_while_free(rt.alloc(), &mut worker.outlet);
    let taken = take_while_held(&mut carrier);
    Ok(posted == 1024 && taken == 1024 && is_finished_once(&mut carrier))
}

// How many runs, each with the number of those before it, find a place before one comes back.
fn post_while_free(alloc: Global, outlet: &mut Outlet<Run>) -> u64 {
    for number in 0..2048 {
        if !posts(outlet, run(alloc, number)) {
            return number;
        }
    }
    2048
}

// How many runs the carrier takes, each with the number of those before it.
fn take_while_held<M: Drop>(carrier: &mut CarrierEnds<u32, M>) -> u64 {
    for number in 0..2048 {
        if number_taken(carrier) != Some(number) {
            return number;
        }
    }
    2048
}

// The number of the next run of the first worker.
fn number_taken<M: Drop>(carrier: &mut CarrierEnds<u32, M>) -> Option<u64> {
    if carrier.workers() == 0 {
        return None;
    }
    let taken = carrier.take(0)?;
    Some(taken.first().ticket.part)
}

// Whether what goes down to the first worker can be finished, and once alone.
fn is_finished_once<M: Drop>(carrier: &mut CarrierEnds<u32, M>) -> bool {
    let first = finishes(carrier);
    let second = finishes(carrier);
    first && !second
}

fn finishes<M: Drop>(carrier: &mut CarrierEnds<u32, M>) -> bool {
    if carrier.workers() == 0 {
        return false;
    }
    carrier.finish_down(0).is_some()
}

const MILLION: u64 = 1_000_000;

// Posts runs of the numbers below the count, in order, each again until there is a place.
fn post_all(alloc: Global, mut outlet: Outlet<Run>, count: u64) -> u64 {
    let mut posted = 0u64;
    for _ in 0..u64::MAX {
        if posted >= count {
            break;
        }
        match outlet.post(run(alloc, posted)) {
            Ok(()) => posted += 1,
            Err(_) => thread::yield_now(),
        }
    }
    posted
}

// How many runs come, each with the number of those before it.
fn take_all(mut inlet: Inlet<Run>, count: u64) -> u64 {
    let mut taken = 0u64;
    for _ in 0..u64::MAX {
        if taken >= count {
            break;
        }
        match inlet.take() {
            Some(run) => {
                if run.first().ticket.part != taken {
                    break;
                }
                taken += 1;
            }
            None => thread::yield_now(),
        }
    }
    taken
}

#[test]
fn a_million_runs_pass_in_order(rt: HostRuntime) -> Result<(), Fail> {
    let alloc = rt.alloc();
    let (outlet, inlet) = lane::<Run>(alloc)?;
    let Ok(child) = thread::spawn(&rt, move || post_all(alloc, outlet, MILLION)) else {
        return Err(Fail::new("a thread"));
    };
    assert_eq!(rt; take_all(inlet, MILLION), MILLION);
    assert_eq!(rt; child.join(&rt), MILLION);
    Ok(())
}
