//! Connections of clients that were let go, while a proxy comes to its end.

use crate::linger_end::{closes, linger_until};
use event_log::Figure;
use proxy_runtime::PolledSocket;
use resp_wire::NoMemory;
use std::alloc::Global;
use std::cell::{Cell, RefCell};
use std::rc::Rc;

/// The most bytes that are read at once, and thrown away.
const PIECE: usize = 4096;

/// Connections over which all was written that was owed. While the proxy comes to its end each stays open until the other end closes
/// it, or its time is over: a close over bytes that were not read destroys replies that are on their way.
#[derive(Drop)]
pub(crate) struct Lingering {
    lingers: Cell<bool>,
    connections: RefCell<Connections>,
}

/// The same, for each of a worker's clients.
pub(crate) type SharedLingering = Rc<Lingering>;

/// A client's connection. It is closed, and counts as gone, where it is let go.
struct Connection {
    socket: PolledSocket,
    /// When it is closed at the latest, in microseconds.
    until: u64,
}

impl Drop for Connection {
    fn drop(self) {
        let Connection { socket, until: _ } = self;
        socket.count(Figure::ClientsGone, 1);
        socket.shut();
        drop(socket);
    }
}

impl Lingering {
    /// Connections are closed at once.
    pub(crate) fn new(alloc: Global) -> Result<SharedLingering, NoMemory> {
        let lingering = Lingering {
            lingers: Cell::new(false),
            connections: RefCell::new(Connections {
                open: Vec::new(alloc),
            }),
        };
        Ok(Rc::new(alloc, lingering)?)
    }

    /// From now on connections stay open for a while. True where that is new.
    pub(crate) fn begin(&self) -> bool {
        !self.lingers.replace(true)
    }

    /// From now on connections are closed at once, but for those that are open still.
    pub(crate) fn end(&self) {
        self.lingers.set(false);
    }

    /// Takes the connection of a client that is let go.
    pub(crate) fn take(&self, socket: PolledSocket) {
        let connection = Connection {
            until: linger_until(socket.micros()),
            socket,
        };
        if !self.lingers.get() {
            drop(connection);
            return;
        }
        connection.socket.end_sending();
        self.keep(connection);
    }

    fn keep(&self, connection: Connection) {
        if let Ok(mut connections) = self.connections.try_borrow_mut() {
            let _ = connections.open.push(connection);
        }
    }

    /// Closes the connections that are over at this time, in microseconds. When the next one is at the latest.
    pub(crate) fn advance(&self, micros: u64) -> Option<u64> {
        match self.connections.try_borrow_mut() {
            Ok(mut connections) => connections.advance(micros),
            Err(_) => None,
        }
    }
}

/// Connections that are still open.
#[derive(Drop)]
struct Connections {
    open: Vec<Connection>,
}

impl Connections {
    fn advance(&mut self, micros: u64) -> Option<u64> {
        if self.open.is_empty() {
            return None;
        }
        let mut piece = [0u8; PIECE];
        for place in (0..self.open.len()).rev() {
            self.close_over(place, &mut piece, micros);
        }
        self.first_end()
    }

    /// Closes the connection at this place, where it is over. The last one takes its place.
    fn close_over(&mut self, place: usize, piece: &mut [u8], micros: u64) {
        if self.is_over(place, piece, micros) && place < self.open.len() {
            drop(self.open.swap_remove(place));
        }
    }

    fn is_over(&mut self, place: usize, piece: &mut [u8], micros: u64) -> bool {
        match self.open.get_mut(place) {
            Some(connection) => closes(&mut connection.socket, piece, connection.until, micros),
            None => false,
        }
    }

    /// When the next one is over at the latest, in microseconds.
    fn first_end(&self) -> Option<u64> {
        let mut first = None;
        for connection in &self.open {
            let until = connection.until;
            first = Some(first.unwrap_or(until).min(until));
        }
        first
    }
}
