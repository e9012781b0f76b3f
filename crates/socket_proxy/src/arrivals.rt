//! The clients that are dealt to a worker, as they come.

use crate::client::SocketClient;
use crate::dealer::Arrival;
use crate::doorway::Doorway;
use crate::lingering::SharedLingering;
use crate::shared::ThreadHandle;
use crate::unfinished::{SharedUnfinished, UnfinishedRequest};
use client_door::ClientPassword;
use event_log::{Event, Figure};
use mio::Registry;
use proxy_lanes::Inlet;
use proxy_runtime::{PolledSocket, Registration};
use proxy_turns::ClientPort;
use resp_wire::NoMemory;
use std::alloc::Global;
use std::io;
use std::io::ErrorKind;
use std::sync::Arc;

/// A client with its number.
#[derive(Drop)]
pub(crate) struct NumberedClient {
    pub(crate) number: u32,
    pub(crate) port: SocketClient,
}

impl NumberedClient {
    /// Lets the client go, of which nothing was read.
    fn leave(self) {
        let NumberedClient { number: _, port } = self;
        let mut port = port;
        port.close();
        drop(port);
    }
}

/// What came of looking for a client.
#[derive(Drop)]
pub(crate) enum Arrived {
    Client(NumberedClient),
    /// A connection that was closed at once.
    Refused,
    Nobody,
}

/// What makes clients of the connections that are dealt to a worker.
#[derive(Drop)]
pub(crate) struct Arrivals<'b> {
    alloc: Global,
    inlet: Inlet<Arrival>,
    handle: &'b ThreadHandle,
    /// What clients have to say, where they have to.
    password: Option<&'b Arc<ClientPassword, Global>>,
    /// What the thread's poll watches.
    registry: Registry,
    unfinished: SharedUnfinished,
    lingering: SharedLingering,
    /// How many clients were taken of those that were dealt.
    taken: u64,
    /// The number of the next client; `None` once all are given.
    next: Option<u32>,
    /// A client that was taken and put back.
    waiting: Option<NumberedClient>,
}

impl<'b> Arrivals<'b> {
    pub(crate) fn new(
        alloc: Global,
        inlet: Inlet<Arrival>,
        handle: &'b ThreadHandle,
        password: Option<&'b Arc<ClientPassword, Global>>,
        registry: Registry,
        unfinished: SharedUnfinished,
        lingering: SharedLingering,
    ) -> Arrivals<'b> {
        Arrivals {
            alloc,
            inlet,
            handle,
            password,
            registry,
            unfinished,
            lingering,
            taken: 0,
            next: Some(0),
            waiting: None,
        }
    }

    /// How many clients were taken, and are not gone.
    pub(crate) fn clients(&self) -> u64 {
        self.taken
            .saturating_sub(self.handle.counted(Figure::ClientsGone))
    }

    /// Puts a client back, which comes next.
    pub(crate) fn put_back(&mut self, client: NumberedClient) {
        self.waiting = Some(client);
    }

    /// The next client. A connection that can't be watched is closed, and counts as a client that is gone.
    pub(crate) fn take(&mut self) -> Arrived {
        if let Some(client) = self.waiting.take() {
            return Arrived::Client(client);
        }
        let Some(arrival) = self.inlet.take() else {
            return Arrived::Nobody;
        };
        self.taken = self.taken.saturating_add(1);
        match self.client_over(arrival) {
            Ok(client) => Arrived::Client(client),
            Err(error) => {
                let report = self.handle.report();
                report.count(Figure::ClientsGone, 1);
                report.tell(Event::ClientRefused(error));
                Arrived::Refused
            }
        }
    }

    /// Lets the next clients go, this number at most. True where there was one.
    pub(crate) fn turn_away(&mut self, most: u32) -> bool {
        for came in 0..most {
            match self.take() {
                Arrived::Client(client) => client.leave(),
                Arrived::Refused => {}
                Arrived::Nobody => return came > 0,
            }
        }
        true
    }

    fn client_over(&mut self, arrival: Arrival) -> io::Result<NumberedClient> {
        let Arrival { stream, address } = arrival;
        let Some(number) = self.next else {
            return Err(io::Error::other("no number is left for a client"));
        };
        let Ok(registration) = Registration::of_client(&self.handle.ready, number) else {
            return Err(ErrorKind::OutOfMemory.into());
        };
        let report = Arc::try_clone(self.handle.report())?;
        let Ok(unfinished) = self.unfinished.clone() else {
            return Err(ErrorKind::OutOfMemory.into());
        };
        let Ok(lingering) = self.lingering.clone() else {
            return Err(ErrorKind::OutOfMemory.into());
        };
        let Ok(door) = self.door() else {
            return Err(ErrorKind::OutOfMemory.into());
        };
        let request = UnfinishedRequest::new(unfinished);
        let socket = PolledSocket::new(stream, registration, &self.registry)?;
        self.next = number.checked_add(1);
        Ok(NumberedClient {
            number,
            port: SocketClient::new(
                self.alloc, socket, door, address, report, request, lingering,
            ),
        })
    }

    /// The door of a new client, where a password is wanted.
    fn door(&self) -> Result<Option<Doorway>, NoMemory> {
        match self.password {
            Some(password) => Ok(Some(Doorway::new(self.alloc, Arc::try_clone(password)?))),
            None => Ok(None),
        }
    }
}
