//! A socket that is tried only where it is ready.

use crate::keepalive::keep_alive;
use crate::ready_set::Registration;
use crate::socket::Socket;
use event_log::{Event, Figure};
use mio::Registry;
use mio::net::TcpStream;
use node_link::{Flow, Stream};
use std::io;
use std::io::ErrorKind;

/// A socket with its registration. A call where the socket is not ready makes no call of the system's.
#[derive(Drop)]
pub struct PolledSocket {
    socket: Socket,
    registration: Registration,
}

impl PolledSocket {
    /// The connection, which already does not block, watched by the poll of this registry.
    pub fn new(
        stream: TcpStream,
        registration: Registration,
        registry: &Registry,
    ) -> io::Result<PolledSocket> {
        keep_alive(&stream);
        let mut socket = Socket::new(stream)?;
        registration.watch(&mut socket, registry)?;
        Ok(PolledSocket {
            socket,
            registration,
        })
    }

    /// Whether the other end sends no more.
    pub fn has_ended(&self) -> bool {
        self.socket.has_ended()
    }

    /// Whether a read may give something.
    pub fn may_read(&self) -> bool {
        self.registration.may_read()
    }

    /// Whether a read would give nothing, until the poll reports that it may.
    pub fn is_watched(&self) -> bool {
        self.registration.is_watched()
    }

    /// Why the connection failed or ended.
    pub fn reason(&self) -> io::Error {
        if let Some(error) = self.socket.reason() {
            return error;
        }
        if self.socket.has_ended() {
            return io::Error::new(ErrorKind::UnexpectedEof, "closed by the other end");
        }
        io::Error::new(ErrorKind::WriteZero, "the connection takes no bytes")
    }

    /// Whether a call failed, or the other end sends no more.
    pub fn has_failed(&self) -> bool {
        self.socket.has_ended() || self.socket.reason().is_some()
    }

    /// What time it is, in microseconds, as its thread last saw it.
    pub fn micros(&self) -> u64 {
        self.registration.micros()
    }

    /// Adds to this figure.
    pub fn count(&self, figure: Figure, more: u64) {
        self.registration.count(figure, more);
    }

    /// Keeps an event for the log.
    pub fn tell(&self, event: Event) {
        self.registration.tell(event);
    }

    /// Sends no more: the other end reads what was written, and then an end.
    pub fn end_sending(&self) {
        self.socket.end_sending();
    }

    /// Ends the connection both ways.
    pub fn shut(&self) {
        self.socket.shut();
    }
}

impl Stream for PolledSocket {
    ghost failures = { λ polled. polled.socket.failures };

    ghost moved = { λ _ _ _ _. Unit {0} };

    ghost still = { λ _. tt };

    ghost joined = { λ _ _ _ _ _ _ _ _ _. tt };

    fn read(&mut self, buffer: &mut [u8]) -> Flow {
        if !self.registration.may_read() {
            return Flow::Nothing;
        }
        match self.socket.read(buffer) {
            Flow::Bytes(count) => {
                self.registration.note_read(count);
                if count < buffer.len() {
                    self.registration.clear_readable();
                }
                Flow::Bytes(count)
            }
            Flow::Nothing => {
                self.registration.clear_readable();
                Flow::Nothing
            }
            Flow::Gone => Flow::Gone,
        }
    }

    fn write(&mut self, first: &[u8], second: &[u8]) -> Flow {
        if !self.registration.may_write() {
            return Flow::Nothing;
        }
        match self.socket.write(first, second) {
            Flow::Bytes(count) => {
                self.registration.note_written(count);
                if count < first.len() + second.len() {
                    self.registration.clear_writable();
                }
                Flow::Bytes(count)
            }
            Flow::Nothing => {
                self.registration.clear_writable();
                Flow::Nothing
            }
            Flow::Gone => Flow::Gone,
        }
    }
}
