//! A stream of bytes to a node, as the laws want it.

ghost use Rattle.turn_laws.specs.ByteWires.{FarEnd, FlowsTo, IsWiredTo};
ghost use Rattle.turn_laws.specs.BytesStand.{block-stands};

use crate::wired_port::WiredPort;
use node_link::{BlockPort, Stream};

/// A stream with a node at its other end. That a socket is one is what a reader has to believe of the network: bytes come in order, and
/// none is lost while the connection stands.
pub trait WiredStream: Stream {
    /// The other end.
    ghost far: { Self → FarEnd };

    /// What is written goes behind what waits to be served; what is read stood first of what the node wrote.
    ghost flows: { FlowsTo Self.moved far };
}

impl<S: WiredStream> WiredPort for BlockPort<S> {
    ghost wired = { IsWiredTo S.far };

    ghost stands = { block-stands S.moved S.far S.flows };
}
