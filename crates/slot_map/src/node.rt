//! The numbers of nodes.

ghost use Rattle.std.specs.Prelude.{◌≡◌, ◌<◌, ◌↔◌, IsSome, IfSome};

use std::marker::Model;

/// How many nodes a table holds.
pub const NODE_LIMIT: usize = 64;

/// A node, by its number in the table.
#[derive(Clone, Copy, PartialEq, Eq, PartialOrd, Ord, Hash)]
pub struct NodeId {
    number: u8,
}

impl Model for NodeId {
    ghost use Rattle.std.specs.Prelude.{ℕ, ◌<◌};

    ghost Value = { ℕ };

    ghost view = { λ node. node.number };

    ghost invariant = { λ node. node.number < 64 };

    ghost inverse = { λ number. record { number = number } };
}

impl NodeId {
    /// The node of that number, from 0.
    pub fn new(number: u8) -> Option<Self>
        ensures in_range { IsSome result ↔ (number < 64) }
        ensures value { IfSome result (λ node. node ≡ number) }
    {
        if usize::from(number) < NODE_LIMIT {
            Some(NodeId { number })
        } else {
            None
        }
    }

    /// The node's number, from 0.
    pub fn number(self) -> u8
        ensures value { result ≡ self }
        ensures in_range { result < 64 }
    {
        self.number
    }

    /// The node at a place of the table.
    pub(crate) fn at(place: usize) -> Self
        requires { place < 64 }
        ensures { result ≡ place }
    {
        NodeId {
            number: place as u8,
        }
    }
}
