//! The nodes of a cluster.

use crate::held::Held;
use crate::maps::MapObjects;
use crate::notation::{CallFault, Line, Object};
use key_split::Part;
use node_model::{Cluster, Verdict};
use resp_wire::{Bytes, Value};
use slot_hash::Slot;

/// A call of the cluster, or of a new one.
pub fn call(held: &mut Held<Cluster>, maps: &MapObjects, value: &mut Held<Value>, line: &mut Line) {
    match line.call() {
        "new" => renew(held, maps, line),
        "slots" => list(held, maps, value, line),
        _ => held.call(line),
    }
}

/// As many nodes as the line says, whose slots are owned as the map says.
fn renew(held: &mut Held<Cluster>, maps: &MapObjects, line: &mut Line) {
    let Some(count) = line.read() else {
        return;
    };
    match &maps.map.value {
        Some(map) => held.hold(Cluster::new(line.alloc, count, map), line),
        None => line.refuse(CallFault::NotMade),
    }
}

/// The reply to CLUSTER SLOTS, which is then the value that is held.
fn list(held: &Held<Cluster>, maps: &MapObjects, value: &mut Held<Value>, line: &mut Line) {
    let Some(cluster) = &held.value else {
        return line.refuse(CallFault::NotMade);
    };
    if let Some(listed) = line.made(cluster.slots_value(&maps.table)) {
        line.show(&listed);
        value.put(listed);
    }
}

impl Object for Cluster {
    fn call(&mut self, line: &mut Line) {
        match line.call() {
            "serve" => serve(self, line),
            "import" => {
                if let Some((slot, node)) = line.read() {
                    line.show(self.import_slot(slot, node));
                }
            }
            "movekey" => {
                if let Some((slot, key)) = line.read::<(Slot, Bytes)>() {
                    line.show(self.move_key(slot, &key));
                }
            }
            _ => call_of_slot(self, line),
        }
    }
}

/// `serve NODE plain|asking VERDICT WORDS..`
fn serve(cluster: &mut Cluster, line: &mut Line) {
    let Some((node, asking)) = line.read() else {
        return;
    };
    let Some(verdict) = verdict_in(line) else {
        return;
    };
    if let Some(part) = line.read::<Part>() {
        line.show(cluster.serve(node, asking, &part, verdict));
    }
}

fn verdict_in(line: &mut Line) -> Option<Verdict> {
    match line.name()? {
        "byrole" => Some(Verdict::Plain),
        "moved" => line.read().map(Verdict::Moved),
        "tryagain" => Some(Verdict::TryAgain),
        "clusterdown" => Some(Verdict::ClusterDown),
        _ => {
            line.refuse(CallFault::UnknownWord);
            None
        }
    }
}

/// The key that is left of a slot, or a step of its move.
fn call_of_slot(cluster: &mut Cluster, line: &mut Line) {
    let Some(slot) = line.read() else {
        return;
    };
    match line.call() {
        "rest" => line.show(cluster.rest_key(slot)),
        "migrate" => line.show(cluster.migrate_slot(slot)),
        "own" => line.show(cluster.own_slot(slot)),
        "release" => line.show(cluster.release_slot(slot)),
        "forget" => line.show(cluster.forget_slot(slot)),
        "stay" => line.show(cluster.stay_slot(slot)),
        _ => line.refuse(CallFault::NoSuchCall),
    }
}
