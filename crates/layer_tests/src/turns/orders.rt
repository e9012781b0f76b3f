//! Orders of a play, as a line has them.

use crate::turns::play::Plays;
use layer_rows::{CallFault, Line};
use node_model::{Cluster, Verdict};
use resp_wire::Bytes;
use slot_hash::Slot;
use slot_map::NodeId;
use std::str;
use turn_play::{Move, Order, PlayFault};

/// Adds the next order of a line. Which key moves is seen once all orders before are obeyed, so these are obeyed first.
pub fn add_next<P: Plays>(
    play: &mut P,
    cluster: &mut Cluster,
    orders: &mut Vec<Order>,
    line: &mut Line,
) -> Result<Result<(), PlayFault>, CallFault> {
    let Some(word) = line.read::<Bytes>() else {
        return Err(CallFault::MissingWord);
    };
    match str::from_utf8(word.as_slice()).unwrap_or("") {
        "all" => add_rounds(orders, line)?,
        "movekey" => return move_key(play, cluster, orders, line),
        name => match order_of(name, line) {
            Some(order) => orders.push(order)?,
            None => return Err(CallFault::UnknownWord),
        },
    }
    Ok(Ok(()))
}

/// An order of one thing. `cut NODE COUNT` says how many bytes one call moves at most over the connection to a node.
fn order_of(name: &str, line: &mut Line) -> Option<Order> {
    match name {
        "turn" => Some(Order::Turn),
        "break" => Some(Order::Break(line.read()?)),
        "cut" => {
            let node = line.read()?;
            let most = line.read::<u16>()?;
            Some(Order::Cut(node, usize::from(most)))
        }
        "serve" | "tryagain" | "down" | "moved" => {
            let node = line.read()?;
            Some(Order::Serve(node, verdict_of(name, line)?))
        }
        _ => Some(Order::Move(step_of(name, line)?)),
    }
}

/// What the node says: by its role, or in place of it.
fn verdict_of(name: &str, line: &mut Line) -> Option<Verdict> {
    match name {
        "tryagain" => Some(Verdict::TryAgain),
        "down" => Some(Verdict::ClusterDown),
        "moved" => line.read().map(Verdict::Moved),
        _ => Some(Verdict::Plain),
    }
}

fn step_of(name: &str, line: &mut Line) -> Option<Move> {
    let slot = line.read::<Slot>()?;
    match name {
        "import" => Some(Move::Import(slot, line.read()?)),
        "migrate" => Some(Move::Migrate(slot)),
        "own" => Some(Move::Own(slot)),
        "release" => Some(Move::Release(slot)),
        _ => None,
    }
}

/// A turn, and a request served by each node, as often as the line says.
fn add_rounds(orders: &mut Vec<Order>, line: &mut Line) -> Result<(), CallFault> {
    let Some(count) = line.read::<u16>() else {
        return Err(CallFault::MissingWord);
    };
    for _ in 0..count {
        orders.push(Order::Turn)?;
        for number in 0..3 {
            if let Some(node) = NodeId::new(number) {
                orders.push(Order::Serve(node, Verdict::Plain))?;
            }
        }
    }
    Ok(())
}

/// Obeys the orders before, and then moves a key of the slot, where one is left.
fn move_key<P: Plays>(
    play: &mut P,
    cluster: &mut Cluster,
    orders: &mut Vec<Order>,
    line: &mut Line,
) -> Result<Result<(), PlayFault>, CallFault> {
    let Some(slot) = line.read::<Slot>() else {
        return Err(CallFault::MissingWord);
    };
    let before = play.play(cluster, orders.as_slice());
    orders.clear();
    if let Some(key) = cluster.rest_key(slot) {
        orders.push(Order::Move(Move::Key(slot, key.copy(line.alloc)?)))?;
    }
    Ok(before)
}
