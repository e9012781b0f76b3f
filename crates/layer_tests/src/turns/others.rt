//! A client that is no proxy, which follows redirections at once.

use crate::turns::play::Plays;
use key_split::{Part, Told};
use layer_rows::Line;
use node_model::Cluster;
use resp_wire::NoMemory;
use slot_map::NodeId;
use std::alloc::Global;
use turn_play::{Order, PlayFault};

/// How many nodes it asks at most.
const TRIES: u16 = 5;

/// `NODE PARTS`: what is told in the end to others whose parts come to this node.
pub fn come<P: Plays>(play: &mut P, cluster: &mut Cluster, line: &mut Line) {
    let Some((node, parts)) = line.read::<(NodeId, Vec<Part>)>() else {
        return;
    };
    let Some(mut orders) = line.made(order_of(line.alloc, node, parts)) else {
        return;
    };
    match follow(play, cluster, &mut orders) {
        Ok(()) => {
            for told in play.told() {
                line.show(told);
            }
        }
        Err(fault) => line.answer.debug(&fault),
    }
}

fn order_of(alloc: Global, node: NodeId, parts: Vec<Part>) -> Result<Vec<Order>, NoMemory> {
    let mut orders = Vec::new(alloc);
    orders.push(Order::Others(node, false, parts))?;
    Ok(orders)
}

/// They come to the node, and to each to which a redirection leads.
fn follow<P: Plays>(
    play: &mut P,
    cluster: &mut Cluster,
    orders: &mut Vec<Order>,
) -> Result<(), PlayFault> {
    for _ in 0..TRIES {
        play.play(cluster, orders.as_slice())?;
        if !is_led_on(orders, play.told()) {
            break;
        }
    }
    Ok(())
}

/// Whether what was told leads to another node, to which the order then goes.
fn is_led_on(orders: &mut Vec<Order>, tolds: &[Told]) -> bool {
    match tolds.first() {
        Some(Told::Moved(_, node)) => leads(orders, *node, false),
        Some(Told::Ask(_, node)) => leads(orders, *node, true),
        _ => false,
    }
}

fn leads(orders: &mut Vec<Order>, to: NodeId, behind_asking: bool) -> bool {
    match orders.first_mut() {
        Some(order) => send_to(order, to, behind_asking),
        None => false,
    }
}

fn send_to(order: &mut Order, to: NodeId, behind_asking: bool) -> bool {
    match order {
        Order::Others(node, asking, _) => {
            *node = to;
            *asking = behind_asking;
            true
        }
        _ => false,
    }
}
