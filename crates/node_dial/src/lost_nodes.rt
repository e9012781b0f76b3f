//! The nodes that were lost, and redirects that were not read: a node is then asked for CLUSTER SLOTS.

ghost use Rattle.std.specs.Prelude.{◌≡◌, false};
ghost use Rattle.node_dial.specs.LostNodes.{IsCalm, IsLook, is_wanted};

use crate::ask_schedule::AskSchedule;
use crate::node_set::NodeSet;
use slot_map::{MapOp, NodeId};
use std::cell::Cell;

/// The nodes whose connection broke or could not be made, until one is made, or an answer to CLUSTER SLOTS gives them no slot.
#[derive(Clone, Copy)]
pub(crate) struct LostNodes {
    nodes: NodeSet,
    /// A redirect could not be read, or there was no place for its node, and no node was asked since.
    has_unclear: bool,
    schedule: AskSchedule,
}

impl LostNodes {
    /// No node is lost.
    pub(crate) fn new() -> LostNodes {
        LostNodes {
            nodes: NodeSet::new(),
            has_unclear: false,
            schedule: AskSchedule::new(),
        }
    }

    fn add(&mut self, node: NodeId) {
        if !self.nodes.has(node) {
            self.nodes.insert(node);
            self.schedule.shorten();
        }
    }

    // Whether a node is to be asked for CLUSTER SLOTS.
    fn is_wanted(&self) -> bool
        ensures { result ≡ is_wanted self.now }
    {
        self.has_unclear || self.nodes.has_any()
    }

    // What a look at it sees at this time.
    fn look(&self, time: u64) -> Look
        ensures { IsLook self.now time result }
    {
        Look {
            is_wanted: self.is_wanted(),
            next: self.schedule.next(),
            time,
        }
    }
}

/// What a look at the lost nodes saw.
#[derive(Clone, Copy)]
pub(crate) struct Look {
    /// Whether a node was lost, or a redirect was not read.
    is_wanted: bool,
    /// When a node is to be asked next, in milliseconds.
    next: u64,
    /// What time it was, in milliseconds.
    time: u64,
}

impl Look {
    /// Whether a node is to be asked for CLUSTER SLOTS.
    pub(crate) fn is_due(self) -> bool
        ensures { result ≡ false → IsCalm self }
    {
        if !self.is_wanted {
            return false;
        }
        if self.time < self.next {
            return false;
        }
        true
    }
}

/// The node was lost: its connection broke, or could not be made.
pub(crate) fn note_lost(lost: &Cell<LostNodes>, node: NodeId) {
    let mut held = lost.get();
    held.add(node);
    lost.set(held);
}

/// A redirect came that can't be read, or whose node has no place in the table.
pub(crate) fn note_unclear(lost: &Cell<LostNodes>) {
    let mut held = lost.get();
    held.has_unclear = true;
    lost.set(held);
}

/// A connection to the node was made.
pub(crate) fn note_reached(lost: &Cell<LostNodes>, node: NodeId) {
    let mut held = lost.get();
    held.nodes.remove(node);
    lost.set(held);
}

/// An answer to CLUSTER SLOTS came, which says this: a node that it gives no slot is no longer lost.
pub(crate) fn note_slots(lost: &Cell<LostNodes>, changes: &[MapOp]) {
    let mut held = lost.get();
    held.nodes.keep_those_in(&nodes_in(changes));
    lost.set(held);
}

/// What is to be seen of the lost nodes at this time.
pub(crate) fn look_at(lost: &Cell<LostNodes>, time: u64) -> Look {
    lost.get().look(time)
}

/// When a node is to be asked next, in milliseconds, where one is to be asked.
pub(crate) fn next_ask(lost: &Cell<LostNodes>) -> Option<u64> {
    let held = lost.get();
    held.is_wanted().then_some(held.schedule.next())
}

/// A node is asked for CLUSTER SLOTS at this time.
pub(crate) fn note_asked(lost: &Cell<LostNodes>, time: u64) {
    let mut held = lost.get();
    held.schedule.take(time);
    held.has_unclear = false;
    lost.set(held);
}

/// The nodes that are given slots.
fn nodes_in(changes: &[MapOp]) -> NodeSet {
    let mut nodes = NodeSet::new();
    for change in changes {
        match *change {
            MapOp::SetRange(_, _, node) | MapOp::SetSlot(_, node) => nodes.insert(node),
        }
    }
    nodes
}
