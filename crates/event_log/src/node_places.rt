//! The nodes that events named.

use crate::event::{NODES, NodeName};
use resp_wire::NoMemory;
use std::alloc::Global;

/// The nodes that events named, each with a place of its own. Threads number the nodes each by itself, so an address tells which
/// node it is.
#[derive(Drop)]
pub(crate) struct NodePlaces {
    names: Vec<NodeName>,
}

impl NodePlaces {
    /// No node was named.
    pub(crate) fn new(alloc: Global) -> Result<NodePlaces, NoMemory> {
        Ok(NodePlaces {
            names: Vec::with_capacity(alloc, NODES)?,
        })
    }

    /// The place of the node, from now on. Once all places are taken a node has that of its number.
    pub(crate) fn place_of(&mut self, node: &NodeName) -> usize {
        if let Some(place) = self.names.iter().position(|name| name.is_at_same(node)) {
            return place;
        }
        let place = self.names.len();
        if place < NODES && self.add(node).is_ok() {
            return place;
        }
        usize::from(node.number())
    }

    fn add(&mut self, node: &NodeName) -> Result<(), NoMemory> {
        self.names.push(node.again()?)?;
        Ok(())
    }
}
