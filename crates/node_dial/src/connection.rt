//! How far a connection to a node has come.

use crate::connector::Connector;
use crate::handshake::{Handshake, HandshakeOutcome};
use mio::net::TcpStream;
use proxy_runtime::PolledSocket;
use std::io;
use std::io::ErrorKind;
use std::net::{self, Net};
use std::time::Clock;

/// A connection to a node, by how far it has come.
#[derive(Drop)]
pub(crate) enum Connection {
    /// The system connects.
    Connecting(TcpStream),
    /// The node has not answered AUTH yet.
    Greeting(PolledSocket, Handshake),
    /// Commands may go over it.
    Open(PolledSocket),
}

impl Connection {
    /// Goes on with the connection, as far as that needs no waiting.
    pub(crate) fn advance<R>(self, connector: &Connector<'_, R>) -> io::Result<Connection>
    where
        R: Clock + Net<Listener = net::TcpListener, Stream = net::TcpStream>,
    {
        match self {
            Connection::Connecting(stream) => connector.go_on_connecting(stream),
            Connection::Greeting(socket, handshake) => authenticate(socket, handshake),
            Connection::Open(socket) => Ok(Connection::Open(socket)),
        }
    }

    /// The socket, where commands may go over it.
    pub(crate) fn into_socket(self) -> Result<PolledSocket, Connection> {
        match self {
            Connection::Open(socket) => Ok(socket),
            connection => Err(connection),
        }
    }

    /// What it is still waited for; `None` where the connection stands.
    pub(crate) fn missing(&self) -> Option<io::Error> {
        match self {
            Connection::Connecting(_) => Some(timeout("no connection in time")),
            Connection::Greeting(..) => Some(timeout("no reply to AUTH in time")),
            Connection::Open(_) => None,
        }
    }
}

/// Goes on with AUTH. A refusal is an error.
pub(crate) fn authenticate(
    mut socket: PolledSocket,
    mut handshake: Handshake,
) -> io::Result<Connection> {
    match handshake.advance(&mut socket) {
        HandshakeOutcome::Pending => Ok(Connection::Greeting(socket, handshake)),
        HandshakeOutcome::Accepted => Ok(Connection::Open(socket)),
        HandshakeOutcome::Refused(error) => Err(error),
    }
}

fn timeout(words: &str) -> io::Error {
    io::Error::new(ErrorKind::TimedOut, words)
}
