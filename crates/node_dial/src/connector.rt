//! How the proxy connects to an address of a node.

use crate::addresses::Addresses;
use crate::connection::{Connection, authenticate};
use crate::credentials::Credentials;
use crate::handshake::Handshake;
use crate::look_ups::SharedLookUps;
use event_log::ThreadReport;
use mio::Registry;
use proxy_runtime::{Peer, PolledSocket, ReadySet, Registration};
use std::alloc::Global;
use std::io;
use std::io::ErrorKind;
use std::net::{Net, SocketAddr, TcpListener, TcpStream};
use std::sync::Arc;
use std::time::Clock;

/// Connects to nodes, whose sockets are watched by the poll of the registry.
#[derive(Drop)]
pub struct Connector<'b, R> {
    rt: &'b R,
    alloc: Global,
    ready: Arc<ReadySet, Global>,
    registry: Registry,
    look_ups: SharedLookUps,
    /// What each node is told first; `None` for nothing.
    credentials: Option<Arc<Credentials, Global>>,
}

impl<'b, R: Clock + Net<Listener = TcpListener, Stream = TcpStream>> Connector<'b, R> {
    /// A connector that says AUTH first where there are credentials.
    pub fn new(
        rt: &'b R,
        alloc: Global,
        ready: Arc<ReadySet, Global>,
        registry: Registry,
        look_ups: SharedLookUps,
        credentials: Option<Arc<Credentials, Global>>,
    ) -> Connector<'b, R> {
        Connector {
            rt,
            alloc,
            ready,
            registry,
            look_ups,
            credentials,
        }
    }

    /// What the thread reports.
    pub(crate) fn report(&self) -> &Arc<ThreadReport, Global> {
        self.ready.report()
    }

    /// What is ready in the thread, with its time.
    pub(crate) fn ready(&self) -> &Arc<ReadySet, Global> {
        &self.ready
    }

    /// What time it is, in milliseconds, as the thread last saw it.
    pub(crate) fn last_time(&self) -> u64 {
        self.ready.time()
    }

    /// What time it is, in milliseconds.
    pub(crate) fn time(&self) -> u64 {
        self.ready.update_time(self.rt);
        self.ready.time()
    }

    /// Finds the addresses of the host, unless they are known. True where they are known then.
    pub(crate) fn find(
        &self,
        addresses: &mut Addresses,
        host: &[u8],
        port: u16,
    ) -> io::Result<bool> {
        addresses.find(self.rt, &self.look_ups, host, port)
    }

    /// Begins to connect to the address, and does not wait.
    pub(crate) fn connect(&self, address: SocketAddr) -> io::Result<Connection> {
        let stream = mio::net::TcpStream::connect(self.rt, address)?;
        self.go_on_connecting(stream)
    }

    /// Goes on with a connection that the system makes, as far as that needs no waiting.
    pub(crate) fn go_on_connecting(&self, stream: mio::net::TcpStream) -> io::Result<Connection> {
        if stream.peer_addr().is_ok() {
            return self.watch(stream);
        }
        match stream.take_error() {
            Ok(None) => Ok(Connection::Connecting(stream)),
            Ok(Some(error)) | Err(error) => Err(error),
        }
    }

    /// Has the connection watched, and says AUTH over it where that is to be said.
    fn watch(&self, stream: mio::net::TcpStream) -> io::Result<Connection> {
        let Ok(registration) = Registration::new(&self.ready, Peer::Node) else {
            return Err(ErrorKind::OutOfMemory.into());
        };
        let socket = PolledSocket::new(stream, registration, &self.registry)?;
        let Some(credentials) = &self.credentials else {
            return Ok(Connection::Open(socket));
        };
        let Ok(credentials) = Arc::try_clone(credentials) else {
            return Err(ErrorKind::OutOfMemory.into());
        };
        authenticate(socket, Handshake::new(self.alloc, credentials))
    }
}
