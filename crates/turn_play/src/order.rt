//! What a play is told to do.

use crate::moves::Move;
use key_split::Part;
use node_model::Verdict;
use slot_map::NodeId;

/// What is done next.
#[derive(Drop)]
pub enum Order {
    /// One turn of the engine: its worker's, and then its carrier's.
    Turn,
    /// The node reads the first request off the bytes that came over the carrier's open connection to it, or all from MULTI to EXEC,
    /// serves it as the verdict says, and writes its replies. Nothing happens where none came whole, or no connection is open.
    Serve(NodeId, Verdict),
    /// The carrier's open connection to the node breaks, where there is one. The carrier sees it at its next call.
    Break(NodeId),
    /// From now on one call over the carrier's open connection to the node moves so many bytes at most, where there is one.
    Cut(NodeId, usize),
    /// One step of a move, where it may be made now.
    Move(Move),
    /// Somebody else's commands, for keys of one slot, come to a node, right behind ASKING where the flag says so. It does all of
    /// them at once, by its own rules, or refuses them and nothing changes. `Play::told` has what they are told.
    Others(NodeId, bool, Vec<Part>),
}
