//! A connection to a node, as the laws want it.

ghost use Rattle.turn_laws.specs.AnyPort.{StandsFor};
ghost use Rattle.turn_laws.specs.Wire.{Wire};

use node_link::RunPort;

/// A connection to a node that stands for a wire. That a socket does is what a reader has to believe of the network.
pub trait WiredPort: RunPort {
    /// The wires for which it may stand.
    ghost wired: { Self → Wire → Type 0 };

    /// What goes over it goes over its wire: so the values that come are those that the node's serving put there.
    ghost stands: { StandsFor wired Self.calls.exchange };
}
