//! What is known of a node that is dialled.

ghost use Rattle.std.specs.Prelude.{◌≤◌};

use crate::addresses::Addresses;
use crate::connection::Connection;
use crate::connector::Connector;
use crate::dial_pause::DialPause;
use crate::place::put;
use proxy_runtime::PolledSocket;
use std::alloc::Global;
use std::io;
use std::io::ErrorKind;
use std::net::{Net, TcpListener, TcpStream};
use std::time::Clock;

/// How long a dial takes at most, in milliseconds.
const DIAL_TIMEOUT_MILLIS: u64 = 2000;

/// When a node may be dialled, where it is, and the dial that is under way.
#[derive(Drop)]
pub(crate) struct KnownNode {
    pause: DialPause,
    addresses: Addresses,
    under_way: Option<PendingDial>,
}

/// A dial that has begun.
#[derive(Drop)]
struct PendingDial {
    connection: Connection,
    /// When it began, in milliseconds.
    begun: u64,
}

/// What came of a dial.
#[derive(Drop)]
pub(crate) enum DialOutcome {
    /// A connection that commands may go over.
    Open(PolledSocket),
    /// There is none yet: a dial is under way, or may not begin yet.
    Pending,
    /// A dial failed just now.
    Failed(io::Error),
}

impl KnownNode {
    pub(crate) fn new(alloc: Global) -> KnownNode {
        KnownNode {
            pause: DialPause::none(),
            addresses: Addresses::new(alloc),
            under_way: None,
        }
    }

    /// Goes on with the dial that is under way, or begins one where that is allowed.
    pub(crate) fn dial<R>(
        &mut self,
        connector: &Connector<'_, R>,
        host: &[u8],
        port: u16,
    ) -> DialOutcome
    where
        R: Clock + Net<Listener = TcpListener, Stream = TcpStream>,
    {
        match self.advance(connector, host, port) {
            Ok(Some(dial)) => self.keep(dial),
            Ok(None) => DialOutcome::Pending,
            Err(error) => {
                self.pause.note_failure(connector.time());
                DialOutcome::Failed(error)
            }
        }
    }

    /// The dial, where one is under way or may begin.
    fn advance<R>(
        &mut self,
        connector: &Connector<'_, R>,
        host: &[u8],
        port: u16,
    ) -> io::Result<Option<PendingDial>>
    where
        R: Clock + Net<Listener = TcpListener, Stream = TcpStream>,
    {
        let now = connector.last_time();
        if let Some(dial) = self.under_way.take() {
            match go_on(connector, dial, now) {
                Ok(Some(dial)) => return Ok(Some(dial)),
                Ok(None) => {}
                Err(error) => {
                    self.addresses.advance();
                    return Err(error);
                }
            }
        }
        self.begin_rested(connector, host, port, now)
    }

    /// Begins a dial, unless the node is still left alone.
    fn begin_rested<R>(
        &mut self,
        connector: &Connector<'_, R>,
        host: &[u8],
        port: u16,
        now: u64,
    ) -> io::Result<Option<PendingDial>>
    where
        R: Clock + Net<Listener = TcpListener, Stream = TcpStream>,
    {
        if !self.pause.may_dial(now) {
            return Ok(None);
        }
        self.begin(connector, host, port, now)
    }

    /// Dials the addresses in turn, from `now` on, up to the first that does not refuse, once they are found.
    fn begin<R>(
        &mut self,
        connector: &Connector<'_, R>,
        host: &[u8],
        port: u16,
        now: u64,
    ) -> io::Result<Option<PendingDial>>
    where
        R: Clock + Net<Listener = TcpListener, Stream = TcpStream>,
        requires rested { self.old.pause.until ≤ now }
    {
        if !connector.find(&mut self.addresses, host, port)? {
            return Ok(None);
        }
        let begun = connector.time().max(now);
        let mut failed = io::Error::new(ErrorKind::NotFound, "the host has no address");
        for _ in 0..self.addresses.len() {
            let Some(address) = self.addresses.current() else {
                return Err(failed);
            };
            match connector.connect(address) {
                Ok(connection) => return Ok(Some(PendingDial { connection, begun })),
                Err(error) => failed = error,
            }
            self.addresses.advance();
        }
        Err(failed)
    }

    /// Gives the connection where it stands, and keeps it otherwise.
    fn keep(&mut self, dial: PendingDial) -> DialOutcome {
        let PendingDial { connection, begun } = dial;
        match connection.into_socket() {
            Ok(socket) => {
                self.pause = DialPause::none();
                DialOutcome::Open(socket)
            }
            Err(connection) => {
                put(&mut self.under_way, Some(PendingDial { connection, begun }));
                DialOutcome::Pending
            }
        }
    }
}

/// Goes on with a dial, as far as that needs no waiting. It fails where its time is over. A connection that nobody asked for in
/// that time may have been closed since: it is let go.
fn go_on<R>(
    connector: &Connector<'_, R>,
    dial: PendingDial,
    now: u64,
) -> io::Result<Option<PendingDial>>
where
    R: Clock + Net<Listener = TcpListener, Stream = TcpStream>,
{
    let PendingDial { connection, begun } = dial;
    let connection = connection.advance(connector)?;
    if now < begun.saturating_add(DIAL_TIMEOUT_MILLIS) {
        return Ok(Some(PendingDial { connection, begun }));
    }
    match connection.missing() {
        Some(error) => Err(error),
        None => Ok(None),
    }
}
