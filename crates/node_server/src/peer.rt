//! A connection with its socket.

use crate::connection::Connection;
use local_cluster::{GhostHistory, LocalState};
use mio::event::Event;
use node_link::Flow;
use proxy_runtime::Socket;
use resp_wire::NoMemory;
use slot_map::NodeTable;

/// How many requests are answered in one turn.
const ANSWERS_PER_TURN: usize = 1024;
/// How many pieces are read and dropped before a connection is closed, so that the last reply is not lost to what the
/// other end still sent.
const LAST_PIECES: usize = 16;

/// How a turn ended.
#[derive(Clone, Copy, PartialEq, Eq)]
pub(crate) enum TurnOutcome {
    /// More can be done at once.
    Again,
    /// Nothing can be done before the socket is ready.
    Waits,
    /// The connection has ended.
    Over,
}

/// A connection with its socket.
#[derive(Drop)]
pub(crate) struct Peer {
    socket: Socket,
    connection: Connection,
    /// The socket may have bytes.
    readable: bool,
    /// The socket may take bytes.
    writable: bool,
    /// A whole request may have come.
    unanswered: bool,
    /// No more bytes come.
    ended: bool,
    /// The socket takes no more bytes.
    gone: bool,
    /// It is among those that have a turn.
    pub(crate) active: bool,
}

impl Peer {
    /// A socket of which nothing was read yet.
    pub(crate) fn new(socket: Socket, connection: Connection) -> Peer {
        Peer {
            socket,
            connection,
            readable: true,
            writable: true,
            unanswered: false,
            ended: false,
            gone: false,
            active: false,
        }
    }

    /// Notes what the socket was found ready for.
    pub(crate) fn note_event(&mut self, event: &Event) {
        let closed = event.is_read_closed() || event.is_write_closed() || event.is_error();
        if closed || event.is_readable() {
            self.readable = true;
        }
        if closed || event.is_writable() {
            self.writable = true;
        }
    }

    /// Reads once, answers what came, and writes once.
    pub(crate) fn turn(
        &mut self,
        buffer: &mut [u8],
        state: &mut LocalState<GhostHistory>,
        table: &NodeTable,
    ) -> Result<TurnOutcome, NoMemory> {
        self.read(buffer)?;
        self.answer(state, table)?;
        self.write();
        let turn_outcome = self.turn_outcome();
        if turn_outcome == TurnOutcome::Over {
            self.read_last(buffer);
        }
        Ok(turn_outcome)
    }

    fn can_read(&self) -> bool {
        self.readable && !self.ended && self.connection.is_open() && self.connection.has_room()
    }

    fn can_answer(&self) -> bool {
        self.unanswered && self.connection.has_room()
    }

    fn can_write(&self) -> bool {
        self.writable && self.connection.has_unsent()
    }

    fn turn_outcome(&self) -> TurnOutcome {
        let asks_no_more = self.ended || !self.connection.is_open();
        if self.gone || (asks_no_more && !self.unanswered && !self.connection.has_unsent()) {
            TurnOutcome::Over
        } else if self.can_read() || self.can_answer() || self.can_write() {
            TurnOutcome::Again
        } else {
            TurnOutcome::Waits
        }
    }

    fn read(&mut self, buffer: &mut [u8]) -> Result<(), NoMemory> {
        if !self.can_read() {
            return Ok(());
        }
        match self.connection.receive(&mut self.socket, buffer)? {
            Flow::Bytes(_) => self.unanswered = true,
            Flow::Nothing => self.readable = false,
            Flow::Gone => self.ended = true,
        }
        Ok(())
    }

    fn answer(
        &mut self,
        state: &mut LocalState<GhostHistory>,
        table: &NodeTable,
    ) -> Result<(), NoMemory> {
        for _ in 0..ANSWERS_PER_TURN {
            if !self.can_answer() {
                return Ok(());
            }
            self.unanswered = self.connection.answer_next(state, table)?;
        }
        Ok(())
    }

    fn write(&mut self) {
        if !self.can_write() {
            return;
        }
        match self.connection.send(&mut self.socket) {
            Flow::Bytes(_) => {}
            Flow::Nothing => self.writable = false,
            Flow::Gone => self.gone = true,
        }
    }

    /// Reads and drops what came last.
    fn read_last(&mut self, buffer: &mut [u8]) {
        for _ in 0..LAST_PIECES {
            let read = self.connection.receive(&mut self.socket, buffer);
            if !matches!(read, Ok(Flow::Bytes(_))) {
                return;
            }
        }
    }
}
