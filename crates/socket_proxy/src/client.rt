//! A client's end over a socket.

ghost use Rattle.std.specs.Prelude.{◌≡◌, None};

use crate::doorway::Doorway;
use crate::lingering::SharedLingering;
use crate::request_times::RequestTimes;
use crate::unfinished::UnfinishedRequest;
use admin_page::bucket_of;
use event_log::{Event, Figure, ThreadReport};
use key_split::{Ended, Ticket};
use node_link::{Flow, Stream};
use proxy_runtime::PolledSocket;
use proxy_turns::ClientPort;
use resp_wire::NoMemory;
use session_order::SessionFault;
use std::alloc::Global;
use std::cell::Cell;
use std::net::SocketAddr;
use std::sync::Arc;

/// A client over a socket. It counts the ends that it is to note. One that has ended its sending is there as long as it is owed
/// something.
#[derive(Drop)]
pub(crate) struct SocketClient {
    /// `None` once the client is gone.
    socket: Option<PolledSocket>,
    /// `None` once it has passed, or where no password is wanted.
    door: Option<Doorway>,
    report: Arc<ThreadReport, Global>,
    address: SocketAddr,
    request: UnfinishedRequest,
    lingering: SharedLingering,
    times: RequestTimes,
    is_owed: Cell<bool>,
    /// Its protocol error was reported.
    is_faulted: Cell<bool>,
}

impl SocketClient {
    /// The client at this address, of a worker that reports so.
    pub(crate) fn new(
        alloc: Global,
        socket: PolledSocket,
        door: Option<Doorway>,
        address: SocketAddr,
        report: Arc<ThreadReport, Global>,
        request: UnfinishedRequest,
        lingering: SharedLingering,
    ) -> SocketClient {
        SocketClient {
            socket: Some(socket),
            door,
            report,
            address,
            request,
            lingering,
            times: RequestTimes::new(alloc),
            is_owed: Cell::new(false),
            is_faulted: Cell::new(false),
        }
    }
}

impl SocketClient {
    /// Whether it is not gone.
    pub(crate) fn is_there(&self) -> bool {
        self.socket.is_some()
    }

    /// Whether it has ended its sending and is owed something.
    fn stays(&self) -> bool {
        match &self.socket {
            Some(socket) => self.is_owed.get() && socket.has_ended(),
            None => false,
        }
    }

    /// Whether it is to be told something at the door.
    fn is_answered(&self) -> bool {
        match &self.door {
            Some(door) => !door.is_silent(),
            None => false,
        }
    }

    /// Forgets the door behind it.
    fn leave_door(&mut self)
        ensures { self.new.socket ≡ self.old.socket }
    {
        let is_passed = match &self.door {
            Some(door) => door.is_passed(),
            None => false,
        };
        if is_passed {
            drop(self.door.take());
        }
    }

    /// What time it is, in microseconds, as its thread last saw it.
    fn micros(&self) -> u64 {
        match &self.socket {
            Some(socket) => socket.micros(),
            None => 0,
        }
    }

    /// Counts how long the requests took whose replies are written now.
    fn note_written(&self, bytes: usize) {
        self.times.write(bytes as u64);
        for _ in 0..u64::MAX {
            let Some((requests, began)) = self.times.next() else {
                return;
            };
            let micros = self.micros().saturating_sub(began);
            self.report.count_times(bucket_of(micros), requests, micros);
        }
    }

    /// Closes the connection of a client whose unfinished request has `bytes` bytes.
    fn refuse(&mut self, bytes: u64)
        ensures { self.new.socket ≡ None }
    {
        self.report
            .tell(Event::UnfinishedRequest(self.address, bytes));
        self.leave();
    }

    /// Gives the connection back, which is closed. A command of it may be under way.
    fn leave(&mut self)
        ensures { self.new.socket ≡ None }
    {
        let Some(socket) = self.socket.take() else {
            return;
        };
        self.request.leave();
        self.lingering.take(socket);
    }
}

impl ClientPort for SocketClient {
    // The system does not tell which bytes the client got or gave. It is gone only once its socket was given back.
    ghost moves = { record { between = λ _ _ _ _ _. Unit {0}; gone = λ client. client.socket ≡ None } };

    fn is_watched(&self) -> bool {
        if self.is_owed.get() || self.request.is_begun() || self.is_answered() {
            return false;
        }
        match &self.socket {
            Some(socket) => socket.is_watched(),
            None => false,
        }
    }

    fn owes(&self, more: bool) {
        self.is_owed.set(more);
    }

    fn requests_read(&self, count: usize) {
        self.report.count(Figure::Requests, count as u64);
        self.times.read(count as u64, self.micros());
        self.request.finish();
    }

    fn replies_drained(&self, unanswered: usize, bytes: usize) {
        self.times.drain(unanswered as u64, bytes as u64);
    }

    fn faulted(&self, fault: SessionFault) {
        if !self.is_faulted.replace(true) {
            self.report.tell(Event::ProtocolError(self.address, fault));
        }
    }

    fn pull(&mut self, buffer: &mut [u8]) -> Result<Flow, NoMemory> {
        if let Some(bytes) = self.request.refused() {
            self.refuse(bytes);
            return Ok(Flow::Gone);
        }
        if self.stays() {
            return Ok(Flow::Nothing);
        }
        self.leave_door();
        let Some(socket) = &mut self.socket else {
            return Ok(Flow::Gone);
        };
        let flow = match &mut self.door {
            Some(door) => door.read(socket, buffer)?,
            None => socket.read(buffer),
        };
        if let Flow::Bytes(count) = flow {
            self.request.grow(count)?;
        }
        if flow != Flow::Gone {
            return Ok(flow);
        }
        if self.stays() {
            return Ok(Flow::Nothing);
        }
        self.leave();
        Ok(Flow::Gone)
    }

    fn push(&mut self, first: &[u8], second: &[u8]) -> Result<Flow, NoMemory> {
        let Some(socket) = &mut self.socket else {
            return Ok(Flow::Gone);
        };
        let flow = match &mut self.door {
            Some(door) => door.write(socket, first, second),
            None => socket.write(first, second),
        };
        if let Flow::Bytes(count) = flow {
            self.note_written(count);
        }
        if flow == Flow::Gone {
            self.leave();
        }
        Ok(flow)
    }

    fn note(&mut self, _: Ticket, end: &Ended) -> Result<(), NoMemory> {
        self.report.count(Figure::Parts, 1);
        match end {
            Ended::Answered(_) => {}
            Ended::GaveUp => self.report.count(Figure::GaveUp, 1),
            Ended::Lost => self.report.count(Figure::Lost, 1),
        }
        Ok(())
    }

    fn close(&mut self) {
        self.leave();
    }
}
