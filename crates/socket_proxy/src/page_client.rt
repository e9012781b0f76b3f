//! A connection for the page.

use crate::shared::Shared;
use admin_page::{Figures, PageConnection, PageService};
use node_link::{Flow, Stream};
use proxy_runtime::PolledSocket;
use resp_wire::NoMemory;
use std::alloc::Global;

/// The most bytes that are read at once.
const PIECE: usize = 4096;

/// The most pieces that are read and thrown away before a connection is closed.
const DISCARDED_PIECES: u32 = 16;

/// A connection for the page, with its socket.
pub(crate) struct PageClient {
    socket: PolledSocket,
    connection: PageConnection,
}

impl Drop for PageClient {
    fn drop(self) {
        let PageClient { socket, connection } = self;
        socket.shut();
        drop(socket);
        drop(connection);
    }
}

impl PageClient {
    pub(crate) fn new(socket: PolledSocket, connection: PageConnection) -> PageClient {
        PageClient { socket, connection }
    }

    /// Whether there may be something to read of it, or to write.
    pub(crate) fn has_work(&self) -> bool {
        !self.connection.output().is_empty()
            || (self.connection.wants_read() && self.socket.may_read())
    }

    /// Whether it is to be closed at this time, in milliseconds.
    pub(crate) fn is_over(&self, now: u64) -> bool {
        self.connection.is_over(now)
    }

    /// Reads what came and was not asked for: a connection that is closed over such bytes may take the last answer with it.
    pub(crate) fn discard(&mut self) {
        let mut piece = [0u8; PIECE];
        for _ in 0..DISCARDED_PIECES {
            match self.socket.read(&mut piece) {
                Flow::Bytes(_) => {}
                Flow::Nothing | Flow::Gone => return,
            }
        }
    }

    /// One read, what it asks for, and one write. An end of the run that it asks for begins. False where nothing moved.
    pub(crate) fn step(
        &mut self,
        alloc: Global,
        figures: &Figures<'_>,
        shared: &Shared,
        now: u64,
    ) -> Result<bool, NoMemory> {
        let read = self.read()?;
        let mut service = PageService {
            alloc,
            figures,
            drain: None,
        };
        self.connection.answer(&mut service);
        if let Some(seconds) = service.drain {
            shared.drain(seconds);
        }
        let wrote = self.write(now)?;
        Ok(read | wrote)
    }

    fn read(&mut self) -> Result<bool, NoMemory> {
        if !self.connection.wants_read() {
            return Ok(false);
        }
        let mut piece = [0u8; PIECE];
        match self.socket.read(&mut piece) {
            Flow::Bytes(count) => self.receive(piece.get(..count).unwrap_or(&[])),
            Flow::Nothing => Ok(false),
            Flow::Gone => match self.connection.end_input() {
                Ok(()) => Ok(true),
                Err(_) => Err(NoMemory),
            },
        }
    }

    /// Takes bytes that came. It takes all of them, or has no memory for them.
    fn receive(&mut self, bytes: &[u8]) -> Result<bool, NoMemory> {
        match self.connection.receive(bytes) {
            Ok(count) if count == bytes.len() => Ok(true),
            _ => Err(NoMemory),
        }
    }

    fn write(&mut self, now: u64) -> Result<bool, NoMemory> {
        let output = self.connection.output();
        if output.is_empty() {
            return Ok(false);
        }
        let length = output.len();
        match self.socket.write(output, &[]) {
            Flow::Bytes(count) => {
                self.connection.sent(count.min(length), now);
                Ok(count > 0)
            }
            Flow::Nothing => Ok(false),
            Flow::Gone => Err(NoMemory),
        }
    }
}
