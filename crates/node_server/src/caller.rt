//! Who asks a node.

ghost use Rattle.std.specs.Prelude.{◌≡◌};

use key_split::{Batch, Part, Ticket};
use slot_map::NodeId;

/// A connection to a node, as far as the node's answers depend on it.
#[derive(Clone, Copy)]
pub struct Caller {
    /// The node that is asked.
    pub node: NodeId,
    /// The connection's number.
    pub client: u32,
    /// How many requests came; the next one has this number.
    pub requests: u64,
    /// Whether the last request was ASKING.
    pub asking: bool,
}

impl Caller {
    ghost use Rattle.node_server.specs.NodeAnswers.{after_request, batch_of, ticket_of};

    /// The ticket of the next request.
    pub(crate) fn ticket(self) -> Ticket
        ensures { result ≡ ticket_of self }
    {
        Ticket {
            worker: u16::from(self.node.number()),
            client: self.client,
            part: self.requests,
        }
    }

    /// The part as this node is asked for it.
    pub(crate) fn batch(self, part: Part) -> Batch
        ensures { result ≡ batch_of self part }
    {
        let node = self.node;
        let asking = self.asking;
        Batch {
            ticket: self.ticket(),
            node,
            asking,
            part,
        }
    }

    /// The connection after a request, which was ASKING or not.
    pub(crate) fn after_request(self, asking: bool) -> Caller
        ensures { result ≡ after_request self asking }
    {
        Caller {
            requests: self.requests.saturating_add(1),
            asking,
            ..self
        }
    }
}
