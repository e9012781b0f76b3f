//! What a world holds of its commands: where each stands, and what is on its way.

use crate::tickets::Tickets;
use command_future::Command;
use key_split::{Ticket, Told};
use slot_map::NodeId;

/// A command that arrived.
#[derive(Drop)]
pub struct Arrival {
    pub command: Command,
    /// The number of the event at which it arrived.
    pub arrived: u64,
    pub answered: bool,
}

/// A run in a lane: commands of one client for one slot, in order; their parts stand with the commands.
#[derive(Drop)]
pub struct Posted {
    pub tickets: Tickets,
    pub node: NodeId,
    /// Whether ASKING goes before it.
    pub asking: bool,
}

/// What a link carries to its node.
#[derive(Drop)]
pub enum LinkRequest {
    Asking,
    /// The commands of these tickets, all or none of them: one alone, or several between MULTI and EXEC.
    Runs(Tickets),
}

/// What comes back over a link.
#[derive(Drop)]
pub enum LinkReply {
    /// The reply to ASKING.
    Welcome,
    To(Ticket, Told),
}
