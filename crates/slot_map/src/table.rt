//! The table of the nodes.

ghost use Rattle.std.specs.Prelude.{◌≡◌, ◌<◌, ◌≤◌, ◌↔◌, IsTrue, IfSome, IfOk, length, take, slice_get, position, []};
ghost use Rattle.std.specs.List.{list_any};
ghost use Rattle.std.specs.Option.{option_map};
ghost use Rattle.resp_wire.specs.Text.{is_one_line};

use crate::endpoint::{Address, Listener};
use crate::fault::MapFault;
use crate::node::{NODE_LIMIT, NodeId};
use std::alloc::Global;
use std::marker::Model;

/// The nodes that are known, in the order of their numbers. No CR or LF stands in a host.
pub struct NodeTable {
    alloc: Global,
    nodes: Vec<Listener>,
}

// By hand, so that the crates above prove one call.
impl Drop for NodeTable {
    fn drop(self) {
        let NodeTable { alloc: _, nodes } = self;
        drop(nodes);
    }
}

impl Model for NodeTable {
    ghost use Rattle.std.specs.Prelude.{List, ◌≤◌, length};
    ghost use Rattle.slot_map.specs.Table.{Endpoint};

    ghost Value = { List Endpoint };

    ghost view = { λ table. table.nodes.items };

    ghost invariant = { λ table. length table.nodes.items ≤ 64 };
}

impl NodeTable {
    ghost use Rattle.slot_map.specs.Table.{beside, endpoint_of, Grows, host_of, Interns, same_endpoint, WouldAdd};

    /// A table of no nodes. It takes no memory.
    pub fn new(alloc: Global) -> NodeTable
        ensures { result ≡ [] }
    {
        NodeTable {
            alloc,
            nodes: Vec::new(alloc),
        }
    }

    /// The number of a node, which is the next one where the node is new.
    pub fn intern(&mut self, host: &[u8], port: u16) -> Result<NodeId, MapFault>
        requires { IsTrue (is_one_line host.now) }
        ensures interns { Interns self.old (record { host = host.now; port = port }) result self.new }
        ensures grows { Grows self.old self.new }
        ensures known { IfOk result (λ node. node < length self.new) }
    {
        if let Some(place) = self.place(&Address { host, port }) {
            return Ok(NodeId::at(place));
        }
        if self.is_full() {
            return Err(MapFault::TooManyNodes);
        }
        let listener = Listener::new(self.alloc, host, port)?;
        self.add(listener)
    }

    /// The number of the node at another port of a node's host, which is the next one where the node is new. The host is
    /// copied only then.
    pub fn intern_beside(&mut self, asked: NodeId, port: u16) -> Result<NodeId, MapFault>
        requires { asked < length self.old }
        ensures interns { Interns self.old (beside self.old asked port) result self.new }
        ensures grows { Grows self.old self.new }
        ensures known { IfOk result (λ node. node < length self.new) }
    {
        let host = self.host_of(asked);
        if let Some(place) = self.place(&Address { host, port }) {
            return Ok(NodeId::at(place));
        }
        if self.is_full() {
            return Err(MapFault::TooManyNodes);
        }
        let listener = Listener::new(self.alloc, self.host_of(asked), port)?;
        self.add(listener)
    }

    /// Where a node of the table listens.
    pub fn endpoint(&self, node: NodeId) -> Option<(&[u8], u16)>
        ensures value { option_map (λ at. record { host = at.0.now; port = at.1 }) result ≡ slice_get self.now node }
        ensures one_line { IfSome result (λ at. IsTrue (is_one_line at.0.now)) }
    {
        let node = self.nodes.get(node.number() as usize)?;
        Some((node.host(), node.port()))
    }

    /// Where a node listens that is known to be in the table.
    pub fn at(&self, node: NodeId) -> (&[u8], u16)
        requires { node < length self.now }
        ensures value { record { host = result.0.now; port = result.1 } ≡ endpoint_of self.now node }
        ensures one_line { IsTrue (is_one_line result.0.now) }
    {
        let node = &self.nodes[node.number() as usize];
        (node.host(), node.port())
    }

    fn is_full(&self) -> bool
        ensures { IsTrue result ↔ (64 ≤ length self.now) }
    {
        self.nodes.len() >= NODE_LIMIT
    }

    fn host_of(&self, node: NodeId) -> &[u8]
        requires { node < length self.now }
        ensures value { result.now ≡ host_of self.now node }
        ensures one_line { IsTrue (is_one_line result.now) }
    {
        self.nodes[node.number() as usize].host()
    }

    /// Where a node stands in the table.
    fn place(&self, at: &Address<'_>) -> Option<usize>
        ensures value { result ≡ position (same_endpoint at.now) self.now }
        ensures in_range { IfSome result (λ place. place < 64) }
        ensures known { IfSome result (λ place. place < length self.now) }
    {
        self.nodes.iter().position(|node| node.is_at(at))
    }

    /// Whether the table holds the endpoint.
    pub(crate) fn holds(&self, at: &Address<'_>) -> bool
        ensures { result ≡ list_any (same_endpoint at.now) self.now }
    {
        self.nodes.iter().any(|node| node.is_at(at))
    }

    /// Gives a new node the next number.
    fn add(&mut self, listener: Listener) -> Result<NodeId, MapFault>
        requires new { WouldAdd self.old listener }
        requires room { length self.old < 64 }
        ensures interns { Interns self.old listener result self.new }
        ensures grows { Grows self.old self.new }
        ensures known { IfOk result (λ node. node < length self.new) }
    {
        let place = self.nodes.len();
        self.nodes.push(listener)?;
        Ok(NodeId::at(place))
    }

    pub(crate) fn allocator(&self) -> Global {
        self.alloc
    }

    /// How many nodes the table holds.
    pub(crate) fn len(&self) -> usize
        ensures value { result ≡ length self.now }
        ensures in_range { result ≤ 64 }
    {
        self.nodes.len()
    }

    /// Forgets the nodes from that number on.
    pub(crate) fn truncate(&mut self, len: usize)
        ensures { self.new ≡ take len self.old }
    {
        self.nodes.truncate(len);
    }
}
