//! The carrier's end of a connection to a node.

ghost use Rattle.std.specs.Prelude.{◌≡◌};
ghost use Rattle.turn_play.specs.Port.{fresh_port, most_at_first};
ghost use Rattle.turn_play.specs.Stream.{new_stream};

use crate::stream::PlayStream;
use node_link::BlockPort;
use resp_wire::Limits;
use std::alloc::Global;

/// A port over bytes, as `serve` has them, with a node of the play at the other end of its stream.
pub type PlayPort = BlockPort<PlayStream>;

/// Bytes that one call over a new connection moves at most.
const MOST_AT_FIRST: usize = 65_536;

/// A stream over which nothing went.
pub(crate) fn new_stream(alloc: Global) -> PlayStream
    ensures { result ≡ new_stream most_at_first }
{
    PlayStream::new(alloc, MOST_AT_FIRST)
}

/// A port over which nothing went. Its node takes blocks.
pub(crate) fn new_port(alloc: Global) -> PlayPort
    ensures { result ≡ fresh_port }
{
    BlockPort::new(alloc, new_stream(alloc), Limits::full(), true)
}
