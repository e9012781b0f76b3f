//! What a connection to a node offers: requests go out and values come in.

ghost use Rattle.std.specs.Prelude.{◌≤◌, [], ◌∷◌};
ghost use Rattle.key_split.specs.Requests.{Slots, requests_of};
ghost use Rattle.node_link.specs.Port.{PortCalls, SendOutcome, NextOutcome};
ghost use Rattle.node_link.specs.Waiting.{GaveNone};

use key_split::Batch;
use resp_wire::Value;
use thiserror::Error;

/// Why a port refused.
#[derive(Clone, Copy, Debug, PartialEq, Eq, Drop, Error)]
pub enum PortFault {
    /// Nothing was sent, and nothing was taken.
    #[error("out of memory")]
    NoMemory,
    #[error("the connection failed or ended")]
    Failed,
    #[error("the node sent bytes that are no value")]
    BadWire,
}

/// A connection to a node that does not block.
pub trait NodePort {
    /// What it sent and what came between two states of it, how often it failed, and where it is garbled or gives none.
    ghost calls: { PortCalls Self };

    /// Sends a command, behind ASKING where the batch asks, with nothing between the two.
    fn send(&mut self, batch: &Batch) -> Result<(), PortFault>
        ensures does { SendOutcome calls self.old (requests_of batch.now) result self.new }
        ensures count { calls.failures self.old ≤ calls.failures self.new };

    /// Asks which nodes serve which slots.
    fn ask_slots(&mut self) -> Result<(), PortFault>
        ensures does { SendOutcome calls self.old (Slots ∷ []) result self.new }
        ensures count { calls.failures self.old ≤ calls.failures self.new };

    /// Told before each call for a value: whether the node owes replies.
    fn owes(&self, _replies: bool) {}

    /// Takes the next value, where a whole one has come.
    fn next(&mut self) -> Result<Option<Value>, PortFault>
        ensures does { NextOutcome calls self.old result self.new }
        ensures count { calls.failures self.old ≤ calls.failures self.new }
        ensures none { GaveNone result → calls.gives_none self.new };

    /// Where no call is made, nothing is sent and nothing comes.
    ghost still: { (port : Self) → calls.exchange port [] [] port };
}
