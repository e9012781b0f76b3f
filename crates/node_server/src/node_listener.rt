//! A listener for the connections to one node.

use mio::net::{TcpListener, TcpStream};
use mio::{Interest, Registry, Token};
use slot_map::NodeId;
use std::io::{self, ErrorKind};

/// What came of accepting.
#[derive(Drop)]
pub(crate) enum AcceptOutcome {
    Accepted(TcpStream),
    /// No connection waits.
    NoneWaiting,
    /// The system refuses connections now.
    Refused,
}

/// A listener for the connections to one node.
#[derive(Drop)]
pub(crate) struct NodeListener {
    listener: TcpListener,
    pub(crate) node: NodeId,
    /// A connection may wait.
    pub(crate) may_accept: bool,
}

impl NodeListener {
    /// A listener that a poll watches under the token.
    pub(crate) fn new(
        registry: &Registry,
        mut listener: TcpListener,
        token: Token,
        node: NodeId,
    ) -> io::Result<NodeListener> {
        registry.register(&mut listener, token, Interest::READABLE)?;
        Ok(NodeListener {
            listener,
            node,
            may_accept: true,
        })
    }

    /// Accepts the next connection.
    pub(crate) fn accept(&mut self) -> AcceptOutcome {
        match self.listener.accept() {
            Ok((stream, _)) => AcceptOutcome::Accepted(stream),
            Err(error) if error.kind() == ErrorKind::WouldBlock => {
                self.may_accept = false;
                AcceptOutcome::NoneWaiting
            }
            Err(_) => AcceptOutcome::Refused,
        }
    }
}
