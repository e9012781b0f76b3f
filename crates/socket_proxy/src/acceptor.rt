//! What accepts clients.

use crate::client_room::ClientRoom;
use event_log::{Event, Figure};
use mio::net::{TcpListener, TcpStream};
use mio::{Interest, Registry};
use proxy_runtime::Registration;
use std::io;
use std::io::ErrorKind;
use std::net::{Net, SocketAddr, ToSocketAddrs};
use std::os::fd::AsRawFd;

/// Milliseconds after which accepting is tried again, where no event says that it may go on.
pub(crate) const RETRY_MILLIS: u64 = 20;

/// The listener with its registration, and how many clients may still be accepted.
#[derive(Drop)]
pub(crate) struct Acceptor {
    /// `None` once no client is accepted any more.
    listener: Option<TcpListener>,
    registration: Registration,
    /// How many are still accepted; `None` without end.
    left: Option<u32>,
    room: ClientRoom,
    /// A connection may wait for a descriptor, or for room.
    starves: bool,
    /// When accepting is tried again, in milliseconds.
    retried: u64,
    /// That there is no room was reported.
    is_full: bool,
}

impl Acceptor {
    /// The acceptor for a number of clients, or for clients without end, of which as many as there is room for are there at once,
    /// watched by the poll of this registry.
    pub(crate) fn new(
        mut listener: TcpListener,
        registration: Registration,
        registry: &Registry,
        clients: Option<u32>,
        room: ClientRoom,
    ) -> io::Result<Acceptor> {
        registry.register(&mut listener, registration.token(), Interest::READABLE)?;
        Ok(Acceptor {
            listener: Some(listener),
            registration,
            left: clients,
            room,
            starves: false,
            retried: 0,
            is_full: false,
        })
    }

    /// The next connection and its address, where one waits that may be accepted and there is room beside the clients. Where there
    /// is none, or the system gives no descriptor for it, that is reported.
    pub(crate) fn accept(&mut self, clients: u64) -> Option<(TcpStream, SocketAddr)> {
        if self.is_done() || !self.registration.may_read() {
            return None;
        }
        if self.lacks_room(clients) {
            self.starves = true;
            self.registration.clear_readable();
            return None;
        }
        for _ in 0..u64::MAX {
            match self.accept_next() {
                Ok(accepted) => {
                    self.note_descriptor(&accepted.0, clients);
                    return Some(accepted);
                }
                Err(error) if is_transient(&error) => {}
                Err(error) => {
                    self.starves = error.kind() != ErrorKind::WouldBlock;
                    self.report(error);
                    break;
                }
            }
        }
        self.registration.clear_readable();
        None
    }

    fn accept_next(&self) -> io::Result<(TcpStream, SocketAddr)> {
        match &self.listener {
            Some(listener) => listener.accept(),
            None => Err(ErrorKind::WouldBlock.into()),
        }
    }

    /// Whether there is no room beside the clients. It is reported once.
    fn lacks_room(&mut self, clients: u64) -> bool {
        let is_full = self.room.is_full(clients);
        if is_full && !self.is_full {
            self.registration.tell(Event::ClientsFull(clients));
        }
        self.is_full = is_full;
        is_full
    }

    /// The client behind these has this connection.
    fn note_descriptor(&mut self, stream: &TcpStream, clients: u64) {
        let descriptor = u64::try_from(stream.as_raw_fd()).unwrap_or(0);
        self.room.note_client(descriptor, clients.saturating_add(1));
    }

    /// Whether all clients that were to come were accepted.
    pub(crate) fn is_done(&self) -> bool {
        self.left == Some(0)
    }

    /// Whether no event says when something is to be done next: a connection may wait for a descriptor or for room, or all
    /// clients came.
    pub(crate) fn waits(&self) -> bool {
        self.starves || self.is_done()
    }

    /// Reports why no connection was accepted, where one may have waited.
    fn report(&self, error: io::Error) {
        if error.kind() != ErrorKind::WouldBlock {
            self.registration.tell(Event::ClientRefused(error));
        }
    }

    /// Accepts again now and then, where a connection may wait for a descriptor or for room: no event says that one is free.
    pub(crate) fn retry(&mut self, now: u64) {
        if self.starves && now >= self.retried {
            self.retried = now.saturating_add(RETRY_MILLIS);
            self.starves = false;
            self.registration.set_readable();
        }
    }

    /// Accepts no client any more: who comes is refused.
    pub(crate) fn close(&mut self) {
        self.left = Some(0);
        drop(self.listener.take());
    }

    /// Keeps an event for the log.
    pub(crate) fn tell(&self, event: Event) {
        self.registration.tell(event);
    }

    /// A client was accepted.
    pub(crate) fn count_client(&mut self) {
        if let Some(left) = self.left {
            self.left = Some(left.saturating_sub(1));
        }
        self.registration.count(Figure::Clients, 1);
    }
}

/// A listener at the first of the host's addresses that takes one. Where none does, the error is the last one's.
pub fn listen<R: Net>(rt: &R, host: &str, port: u16) -> io::Result<TcpListener> {
    let mut refused = io::Error::new(ErrorKind::NotFound, "the host has no address");
    for address in (host, port).to_socket_addrs(rt)? {
        match TcpListener::bind(rt, address) {
            Ok(listener) => return Ok(listener),
            Err(error) => refused = error,
        }
    }
    Err(refused)
}

/// Whether only this connection failed, and another may wait.
fn is_transient(error: &io::Error) -> bool {
    matches!(
        error.kind(),
        ErrorKind::Interrupted | ErrorKind::ConnectionAborted
    )
}
