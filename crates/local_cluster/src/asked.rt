//! ASKs that may still be followed.

use key_split::{Part, Ticket};
use slot_map::NodeId;

/// The last answer to the ticket was ASK to the node, for this part.
#[derive(Drop)]
pub struct Asked {
    pub ticket: Ticket,
    pub part: Part,
    pub node: NodeId,
}
