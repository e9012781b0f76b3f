//! How a connection to a node is opened.

ghost use Rattle.std.specs.Prelude.{◌≡◌, ℕ, Option, false, ⊤};
ghost use Rattle.slot_map.specs.Table.{Endpoint};
ghost use Rattle.node_link.specs.Dialling.{OpenOutcome};

use crate::link::Failure;
use crate::run_port::RunPort;
use key_split::Told;
use resp_wire::Value;
use slot_map::{MapOp, NodeId};
use thiserror::Error;

/// Why no connection was given.
#[derive(Clone, Copy, Debug, Drop, Error)]
pub enum DialFault {
    /// The node was not dialled.
    #[error("out of memory")]
    NoMemory,
    /// No connection to the node stands: the dial failed, or is under way, or may not begin yet.
    #[error("the node does not answer")]
    Failed,
}

/// Opens connections to nodes.
pub trait Dial {
    type Port: RunPort + Drop;

    /// How often a dial failed.
    ghost failures: { Self → ℕ };

    /// One dial at this endpoint gave this port, a new connection over which nothing went, or none; so many had failed before, and
    /// so many have now. What it says of them is each dial's own: who calls `open` has it of that call, and of no other.
    ghost opens: { Endpoint → Option Self.Port → ℕ → ℕ → Type 0 };

    /// It said that no node is to be asked for CLUSTER SLOTS now.
    ghost is_calm: { Self → Type 0 } = { λ _. ⊤ };

    /// Whether a node is to be asked for CLUSTER SLOTS now, since one was lost. Asked at each turn while no such request is
    /// unanswered; after each time that this is true a node is asked.
    fn seeks(&mut self) -> bool
        ensures calm { result ≡ false → is_calm self.new }
        ensures failures { failures self.new ≡ failures self.old };

    /// Told of each run that could not be sent, since there is no connection to its node, and none was opened: once, however many
    /// commands it has.
    fn unsent(&self) {}

    /// Told of each run that went out, or at which the link broke: how many commands it has.
    fn sent(&self, _commands: usize) {}

    /// Told of each reply: what it tells its command.
    fn told(&self, _told: &Told) {}

    /// Told of each answer to CLUSTER SLOTS that can be read: the node that gave it, and what it says of the slot map.
    fn slots_told(&self, _node: NodeId, _host: &[u8], _port: u16, _changes: &[MapOp]) {}

    /// Told of each answer to CLUSTER SLOTS that can't be read, or names a node for which the table has no place: the node that gave
    /// it, and the answer.
    fn slots_unread(&self, _node: NodeId, _host: &[u8], _port: u16, _answer: &Value) {}

    /// Told why the link to a node failed when a reply was to be read, and over which port.
    fn broke(&self, _node: NodeId, _failure: Failure, _port: &Self::Port) {}

    /// A new connection to the node that listens there.
    fn open(&mut self, node: NodeId, host: &[u8], port: u16) -> Result<Self::Port, DialFault>
        ensures { OpenOutcome opens (record { host = host.now; port = port }) (failures self.old) result (failures self.new) };
}
