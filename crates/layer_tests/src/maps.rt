//! The map, published while other threads look.

ghost use Rattle.std.specs.Prelude.{◌≡◌, ◌<◌};
ghost use Rattle.proxy_lanes.specs.Opened.{book_of};

use proxy_lanes::{Front, MapView, Naming, Opened, Publisher, WorkerEnds, lanes};
use resp_wire::NoMemory;
use slot_hash::Slot;
use slot_map::{MapOp, NodeId};
use std::alloc::AllocGlobal;
use std::marker::Brand;
use std::sync::Wait;
use std::test::Fail;
use std::thread::{self, JoinHandle, Threads};

fn slot() -> Slot {
    Slot::new(3300).unwrap()
}

#[test]
fn another_thread_sees_what_it_learnt(rt: HostRuntime) -> Result<(), Fail> {
    let seen = learns::<Brand, _>(rt, Opened::new())?;
    assert!(rt; seen);
    Ok(())
}

// A view in another thread learns two fronts, the later first: whether it shows the later, and knows nothing that was not
// published.
fn learns<J, R>(rt: R, opened: Opened) -> Result<bool, Fail>
where
    J: Naming + Send + Sync + 'static,
    R: Threads + Wait + AllocGlobal + Copy + Drop + 'static,
    requires { book_of opened ≡ J.book }
{
    let (ends, mut carrier) = lanes::<u32, J, R>(rt.alloc(), rt, opened, 1)?;
    let worker = ends.into_iter().next().ok_or("a worker")?;
    shows_the_later(&rt, &mut carrier.map, view_of(worker))
}

#[test]
fn another_thread_sees_the_range_that_it_learnt(rt: HostRuntime) -> Result<(), Fail> {
    let seen = learns_a_range::<Brand, _>(rt, Opened::new())?;
    assert!(rt; seen);
    Ok(())
}

// The only worker's view learns a range in another thread: whether it shows the range's node there.
fn learns_a_range<J, R>(rt: R, opened: Opened) -> Result<bool, Fail>
where
    J: Naming + Send + Sync + 'static,
    R: Threads + Wait + AllocGlobal + Copy + Drop + 'static,
    requires { book_of opened ≡ J.book }
{
    let (ends, mut carrier) = lanes::<u32, J, R>(rt.alloc(), rt, opened, 1)?;
    let worker = ends.into_iter().next().ok_or("a worker")?;
    carrier.map.publish(&[first_third()?])?;
    let front = carrier.map.tell().ok_or("a front")?;
    shows_elsewhere(&rt, view_of(worker), front)
}

// The slots of the first of three nodes.
fn first_third() -> Result<MapOp, Fail> {
    let first = Slot::new(0).ok_or("a slot")?;
    let last = Slot::new(5460).ok_or("a slot")?;
    let node = NodeId::new(0).ok_or("a node")?;
    Ok(MapOp::SetRange(first, last, node))
}

// Whether a view that learns this front in another thread shows there that the slot is at node 0.
fn shows_elsewhere<J, R>(rt: &R, view: MapView<J>, front: Front<J>) -> Result<bool, Fail>
where
    J: Naming + Send + Sync + 'static,
    R: Threads + Wait,
{
    match thread::spawn(rt, move || shows_the_first(view, front)) {
        Ok(child) => Ok(child.join(rt)),
        Err(_) => Err(Fail::new("a thread")),
    }
}

fn shows_the_first<J: Naming>(mut view: MapView<J>, front: Front<J>) -> bool {
    view.learn(front);
    match view.node_of(slot()) {
        Ok(node) => node == NodeId::new(0),
        Err(_) => false,
    }
}

fn view_of<J: Naming>(worker: WorkerEnds<u32, J>) -> MapView<J> {
    let WorkerEnds { view, .. } = worker;
    view
}

fn shows_the_later<J, R>(rt: &R, map: &mut Publisher<J, R>, view: MapView<J>) -> Result<bool, Fail>
where
    J: Naming + Send + Sync + 'static,
    R: Threads + Wait + Drop,
{
    let first = publish_at(map, 1)?;
    let second = publish_at(map, 2)?;
    let (node, view) = seen_elsewhere(rt, view, first, second)?;
    let published = map.tell().ok_or("a front")?;
    Ok(node == NodeId::new(2) && view.is_in(&published))
}

// What a view that learns these fronts in another thread sees there.
fn seen_elsewhere<J, R>(
    rt: &R,
    view: MapView<J>,
    first: Front<J>,
    second: Front<J>,
) -> Result<(Option<NodeId>, MapView<J>), Fail>
where
    J: Naming + Send + Sync + 'static,
    R: Threads + Wait,
{
    let Ok(child) = thread::spawn(rt, move || last_seen(view, first, second)) else {
        return Err(Fail::new("a thread"));
    };
    Ok(child.join(rt))
}

// Publishes that the slot is at this node, and tells what was published.
fn publish_at<J, R>(map: &mut Publisher<J, R>, node: u8) -> Result<Front<J>, Fail>
where
    J: Naming,
    R: Wait + Drop,
{
    let node = NodeId::new(node).ok_or("a node")?;
    map.publish(&[MapOp::SetSlot(slot(), node)])?;
    Ok(map.tell().ok_or("a front")?)
}

// Where a view sees the slot that learns these fronts, the second first, and the view.
fn last_seen<J: Naming>(
    mut view: MapView<J>,
    first: Front<J>,
    second: Front<J>,
) -> (Option<NodeId>, MapView<J>) {
    view.learn(second);
    view.learn(first);
    let node = view.node_of(slot()).ok().flatten();
    (node, view)
}

const LISTS: u64 = 100_000;

// The node that the k-th list names: it never falls, and the last is 63.
fn node_at(k: u64) -> NodeId
    requires { k < 100000 }
{
    NodeId::new((k * 64 / LISTS) as u8).unwrap()
}

// Whether the slot's node never falls, until it is the last one.
fn never_falls<J: Naming>(mut view: MapView<J>) -> bool {
    let mut last = 0u8;
    for _ in 0..u64::MAX {
        if last == 63 {
            return true;
        }
        let Ok(Some(node)) = view.node_of(slot()) else {
            continue;
        };
        if node.number() < last {
            return false;
        }
        last = node.number();
    }
    false
}

#[test]
fn no_answer_is_older_than_the_one_before(rt: HostRuntime) -> Result<(), Fail> {
    let fell = looks::<Brand, _>(rt, Opened::new())?;
    assert!(rt; !fell);
    Ok(())
}

// Publishes 100,000 lists while two readers look: whether one of them saw an older list than before.
fn looks<J, R>(rt: R, opened: Opened) -> Result<bool, Fail>
where
    J: Naming + Send + Sync + 'static,
    R: Threads + Wait + AllocGlobal + Copy + Drop + 'static,
    requires { book_of opened ≡ J.book }
{
    let (ends, mut carrier) = lanes::<u32, J, R>(rt.alloc(), rt, opened, 2)?;
    let mut readers = Vec::new(rt.alloc());
    for worker in ends {
        readers.push(reader_of(&rt, view_of(worker))?)?;
    }
    publish_all(&mut carrier.map)?;
    Ok(any_fell(&rt, readers))
}

// A thread that looks until the slot's node is the last one, or falls.
fn reader_of<J, R>(rt: &R, view: MapView<J>) -> Result<JoinHandle<bool>, Fail>
where
    J: Naming + Send + Sync + 'static,
    R: Threads,
{
    match thread::spawn(rt, move || never_falls(view)) {
        Ok(reader) => Ok(reader),
        Err(_) => Err(Fail::new("a thread")),
    }
}

fn any_fell<R: Threads + Wait>(rt: &R, readers: Vec<JoinHandle<bool>>) -> bool {
    let mut fell = false;
    for reader in readers {
        fell = !reader.join(rt) || fell;
    }
    fell
}

fn publish_all<J, R>(map: &mut Publisher<J, R>) -> Result<(), NoMemory>
where
    J: Naming,
    R: Wait + Drop,
{
    for k in 0..LISTS {
        map.publish(&[MapOp::SetSlot(slot(), node_at(k))])?;
    }
    Ok(())
}
