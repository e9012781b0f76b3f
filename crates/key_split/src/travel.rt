//! What travels between a client and the nodes.

ghost use Rattle.std.specs.Prelude.{◌≡◌, IfOk};
ghost use Rattle.key_split.specs.Same.{same_told};

use crate::part::Part;
use resp_wire::{NoMemory, Value};
use slot_hash::Slot;
use slot_map::NodeId;
use std::alloc::Global;

/// Which part of which client of which worker.
#[derive(Clone, Copy)]
pub struct Ticket {
    pub worker: u16,
    pub client: u32,
    /// The client's parts are numbered from 0 in the order of its requests.
    pub part: u64,
}

impl PartialEq for Ticket {
    ghost use Rattle.std.specs.Prelude.{◌≡◌, ◌↔◌, IsTrue};
    ghost use Rattle.std.specs.Cmp.{decided, partial_equiv_from_equiv};
    ghost use Rattle.key_split.specs.Same.{same_ticket, same_ticket-Decides};

    ghost eq = { same_ticket };

    ghost laws = { partial_equiv_from_equiv (decided same_ticket same_ticket-Decides) };

    fn eq(&self, other: &Ticket) -> bool
        ensures value { result ≡ same_ticket self.now other.now }
        ensures same { IsTrue result ↔ (self.now ≡ other.now) }
    {
        self.worker == other.worker && self.client == other.client && self.part == other.part
    }
}

impl Eq for Ticket {
    ghost use Rattle.std.specs.Cmp.{decided};
    ghost use Rattle.key_split.specs.Same.{same_ticket, same_ticket-Decides};

    ghost laws = { decided same_ticket same_ticket-Decides };
}

/// A part on its way to a node.
#[derive(Drop)]
pub struct Batch {
    pub ticket: Ticket,
    pub node: NodeId,
    /// Whether ASKING goes before it.
    pub asking: bool,
    pub part: Part,
}

/// What a command is told of its last way.
#[derive(Drop)]
pub enum Told {
    /// The node's reply, an error among them.
    Reply(Value),
    /// MOVED: the slot belongs to that node.
    Moved(Slot, NodeId),
    /// ASK: this one command goes to that node, behind ASKING.
    Ask(Slot, NodeId),
    /// TRYAGAIN: nothing was executed.
    TryAgain,
    /// CLUSTERDOWN: nothing was executed.
    ClusterDown,
    /// A redirect that cannot be read: nothing was executed.
    Unclear,
    /// The connection was lost after the command was sent.
    Lost,
    /// The command was never put on a connection.
    Unsent,
}

impl PartialEq for Told {
    ghost use Rattle.std.specs.Prelude.{◌≡◌, ◌↔◌, IsTrue};
    ghost use Rattle.std.specs.Cmp.{decided, partial_equiv_from_equiv};
    ghost use Rattle.key_split.specs.Same.{same_told, same_told-Decides};

    ghost eq = { same_told };

    ghost laws = { partial_equiv_from_equiv (decided same_told same_told-Decides) };

    fn eq(&self, other: &Told) -> bool
        ensures value { result ≡ same_told self.now other.now }
        ensures same { IsTrue result ↔ (self.now ≡ other.now) }
    {
        same_told(self, other)
    }
}

fn same_told(a: &Told, b: &Told) -> bool
    ensures { result ≡ same_told a.now b.now }
{
    match (a, b) {
        (Told::Reply(value), Told::Reply(other)) => value == other,
        (Told::Moved(slot, node), Told::Moved(other_slot, other_node))
        | (Told::Ask(slot, node), Told::Ask(other_slot, other_node)) => {
            slot == other_slot && node == other_node
        }
        (Told::TryAgain, Told::TryAgain)
        | (Told::ClusterDown, Told::ClusterDown)
        | (Told::Unclear, Told::Unclear)
        | (Told::Lost, Told::Lost)
        | (Told::Unsent, Told::Unsent) => true,
        _ => false,
    }
}

impl Eq for Told {
    ghost use Rattle.std.specs.Cmp.{decided};
    ghost use Rattle.key_split.specs.Same.{same_told, same_told-Decides};

    ghost laws = { decided same_told same_told-Decides };
}

/// How a part ended.
#[derive(Drop)]
pub enum Ended {
    Answered(Value),
    /// Every way that was followed was refused: the part was not executed.
    GaveUp,
    /// Its connection was lost: whether the part was executed is not known.
    Lost,
}

impl Ended {
    /// The same end in memory of its own.
    pub fn copy(&self, alloc: Global) -> Result<Ended, NoMemory>
        ensures { IfOk result (λ copy. copy ≡ self.now) }
    {
        Ok(match self {
            Ended::Answered(value) => Ended::Answered(value.copy(alloc)?),
            Ended::GaveUp => Ended::GaveUp,
            Ended::Lost => Ended::Lost,
        })
    }
}

impl PartialEq for Ended {
    ghost use Rattle.std.specs.Prelude.{◌≡◌, ◌↔◌, IsTrue};
    ghost use Rattle.std.specs.Cmp.{decided, partial_equiv_from_equiv};
    ghost use Rattle.key_split.specs.Same.{same_end, same_end-Decides};

    ghost eq = { same_end };

    ghost laws = { partial_equiv_from_equiv (decided same_end same_end-Decides) };

    fn eq(&self, other: &Ended) -> bool
        ensures value { result ≡ same_end self.now other.now }
        ensures same { IsTrue result ↔ (self.now ≡ other.now) }
    {
        match (self, other) {
            (Ended::Answered(value), Ended::Answered(other)) => value == other,
            (Ended::GaveUp, Ended::GaveUp) | (Ended::Lost, Ended::Lost) => true,
            _ => false,
        }
    }
}

impl Eq for Ended {
    ghost use Rattle.std.specs.Cmp.{decided};
    ghost use Rattle.key_split.specs.Same.{same_end, same_end-Decides};

    ghost laws = { decided same_end same_end-Decides };
}
