//! A set of nodes.

ghost use Rattle.std.specs.Prelude.{◌≡◌, ◌≢◌, ℕ, true, false};
ghost use Rattle.std.specs.List.{list_any};
ghost use Rattle.node_dial.specs.NodeSet.{holds, has_any};

use slot_map::{NODE_LIMIT, NodeId};

/// A set of nodes.
#[derive(Clone, Copy)]
pub(crate) struct NodeSet {
    held: [bool; NODE_LIMIT],
}

impl NodeSet {
    /// No node.
    pub(crate) fn new() -> NodeSet
        ensures { (node : ℕ) → holds result node ≡ false }
    {
        NodeSet {
            held: [false; NODE_LIMIT],
        }
    }

    /// Whether it has the node.
    pub(crate) fn has(&self, node: NodeId) -> bool
        ensures { result ≡ holds self.now node }
    {
        self.held[usize::from(node.number())]
    }

    /// From now on it has the node.
    pub(crate) fn insert(&mut self, node: NodeId)
        ensures added { holds self.new node ≡ true }
        ensures others { (other : ℕ) → other ≢ node → holds self.new other ≡ holds self.old other }
    {
        self.held[usize::from(node.number())] = true;
    }

    /// From now on it lacks the node.
    pub(crate) fn remove(&mut self, node: NodeId)
        ensures removed { holds self.new node ≡ false }
        ensures others { (other : ℕ) → other ≢ node → holds self.new other ≡ holds self.old other }
    {
        self.held[usize::from(node.number())] = false;
    }

    /// Whether it has a node.
    pub(crate) fn has_any(&self) -> bool
        ensures { result ≡ has_any self.now }
    {
        any(&self.held)
    }

    /// Lets go the nodes that the other set lacks.
    pub(crate) fn keep_those_in(&mut self, other: &NodeSet) {
        for (held, kept) in self.held.iter_mut().zip(other.held.iter()) {
            *held &= *kept;
        }
    }
}

fn any(held: &[bool]) -> bool
    ensures { result ≡ list_any (λ held. held) held.now }
{
    held.iter().any(|held| *held)
}
