//! How a new connection to a node begins: AUTH goes out, and one line comes back.

use crate::credentials::Credentials;
use node_link::{Flow, Stream};
use proxy_runtime::PolledSocket;
use std::alloc::Global;
use std::io;
use std::io::ErrorKind;
use std::sync::Arc;

/// The bytes of a reply to AUTH that are read at most.
const REPLY_LIMIT: usize = 512;

/// AUTH on a new connection, until the node has answered it.
#[derive(Drop)]
pub(crate) struct Handshake {
    credentials: Arc<Credentials, Global>,
    /// How many bytes of AUTH were sent.
    sent: usize,
    /// The reply, as far as it has come.
    reply: Vec<u8>,
}

/// What came of a handshake.
#[derive(Drop)]
pub(crate) enum HandshakeOutcome {
    Pending,
    Accepted,
    /// The node refused, or the connection failed.
    Refused(io::Error),
}

impl Handshake {
    /// The handshake of which nothing was sent.
    pub(crate) fn new(alloc: Global, credentials: Arc<Credentials, Global>) -> Handshake {
        Handshake {
            credentials,
            sent: 0,
            reply: Vec::new(alloc),
        }
    }

    /// Sends and reads what the socket takes and gives without waiting. What comes behind the reply stays in the socket.
    pub(crate) fn advance(&mut self, socket: &mut PolledSocket) -> HandshakeOutcome {
        if self.send(socket) == Flow::Gone {
            return HandshakeOutcome::Refused(socket.reason());
        }
        for _ in 0..=REPLY_LIMIT {
            let mut byte = [0];
            match socket.read(&mut byte) {
                Flow::Bytes(_) => match self.take(byte[0]) {
                    HandshakeOutcome::Pending => {}
                    outcome => return outcome,
                },
                Flow::Nothing => return HandshakeOutcome::Pending,
                Flow::Gone => return HandshakeOutcome::Refused(socket.reason()),
            }
        }
        HandshakeOutcome::Pending
    }

    /// Sends what is left of AUTH.
    fn send(&mut self, socket: &mut PolledSocket) -> Flow {
        let rest = self.credentials.request().get(self.sent..).unwrap_or(&[]);
        if rest.is_empty() {
            return Flow::Nothing;
        }
        let flow = socket.write(rest, &[]);
        if let Flow::Bytes(count) = flow {
            self.sent = self.sent.saturating_add(count);
        }
        flow
    }

    /// Takes one more byte of the reply.
    fn take(&mut self, byte: u8) -> HandshakeOutcome {
        if self.reply.len() >= REPLY_LIMIT {
            return HandshakeOutcome::Refused(no_reply());
        }
        if self.reply.push(byte).is_err() {
            return HandshakeOutcome::Refused(ErrorKind::OutOfMemory.into());
        }
        match self.reply.strip_suffix(b"\r\n") {
            Some(line) => self.outcome_of(line),
            None => HandshakeOutcome::Pending,
        }
    }

    fn outcome_of(&self, line: &[u8]) -> HandshakeOutcome {
        if line == b"+OK".as_slice() {
            return HandshakeOutcome::Accepted;
        }
        match line.strip_prefix(b"-") {
            Some(words) => HandshakeOutcome::Refused(self.credentials.refusal(words)),
            None => HandshakeOutcome::Refused(no_reply()),
        }
    }
}

fn no_reply() -> io::Error {
    io::Error::new(
        ErrorKind::InvalidData,
        "the node answers AUTH with neither OK nor an error",
    )
}
