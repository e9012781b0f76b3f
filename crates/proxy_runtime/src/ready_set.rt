//! Which sockets of a thread are ready, and what time it is there.

use crate::news::News;
use crate::socket::Socket;
use event_log::{Event, Figure, ThreadReport};
use mio::{Registry, Token, event};
use resp_wire::NoMemory;
use std::alloc::Global;
use std::io;
use std::sync::Arc;
use std::sync::atomic::{AtomicBool, AtomicU64, Ordering};
use std::time::Clock;

/// How many sockets of a thread have an entry. Those beyond are tried at each turn.
const SOCKETS: usize = 16_384;

/// Stands for no client's number.
const NO_CLIENT: u64 = u64::MAX;

/// What is known of one socket.
#[derive(Drop)]
struct Readiness {
    claimed: AtomicBool,
    /// A read may give bytes.
    readable: AtomicBool,
    /// A write may take bytes.
    writable: AtomicBool,
    /// The other end has closed: reads go on until they say so.
    ended: AtomicBool,
    /// The number of the client whose socket it is, where it is one's.
    client: AtomicU64,
}

impl Readiness {
    fn new() -> Readiness {
        Readiness {
            claimed: AtomicBool::new(false),
            readable: AtomicBool::new(true),
            writable: AtomicBool::new(true),
            ended: AtomicBool::new(false),
            client: AtomicU64::new(NO_CLIENT),
        }
    }

    /// Claims the entry, where it is free. Nothing is known yet, so reads and writes are tried.
    fn claim(&self) -> bool {
        if self.claimed.swap(true, Ordering::SeqCst) {
            return false;
        }
        self.ended.store(false, Ordering::SeqCst);
        self.readable.store(true, Ordering::SeqCst);
        self.writable.store(true, Ordering::SeqCst);
        self.client.store(NO_CLIENT, Ordering::SeqCst);
        true
    }

    /// Notes what a poll reported. The client of which that is news, where it is a client's.
    fn note_event(&self, event: &event::Event) -> Option<u32> {
        let failed = event.is_error();
        if failed || event.is_read_closed() {
            self.ended.store(true, Ordering::SeqCst);
        }
        if failed || event.is_write_closed() || event.is_writable() {
            self.writable.store(true, Ordering::SeqCst);
        }
        if !failed && !event.is_read_closed() && !event.is_readable() {
            return None;
        }
        if self.readable.swap(true, Ordering::SeqCst) {
            return None;
        }
        u32::try_from(self.client.load(Ordering::SeqCst)).ok()
    }
}

/// What is known of the sockets that a thread polls.
#[derive(Drop)]
pub struct ReadySet {
    /// Milliseconds on the system's clock, as the thread last saw it.
    time: AtomicU64,
    /// The same in microseconds.
    micros: AtomicU64,
    /// A socket gave or took bytes since the thread last asked.
    traffic: AtomicBool,
    /// When the thread is to be awake again at the latest, in milliseconds; `u64::MAX` where nothing says so.
    wake_time: AtomicU64,
    sockets: Vec<Readiness>,
    /// The clients that may be read again, and of which nobody was told yet.
    news: News,
    /// Where the search for a free entry goes on.
    next: AtomicU64,
    report: Arc<ThreadReport, Global>,
}

impl ReadySet {
    /// The set of a thread that reports so.
    pub fn new(alloc: Global, report: Arc<ThreadReport, Global>) -> Result<ReadySet, NoMemory> {
        let mut sockets = Vec::with_capacity(alloc, SOCKETS)?;
        for _ in 0..SOCKETS {
            sockets.push(Readiness::new())?;
        }
        Ok(ReadySet {
            time: AtomicU64::new(0),
            micros: AtomicU64::new(0),
            traffic: AtomicBool::new(false),
            wake_time: AtomicU64::new(u64::MAX),
            sockets,
            news: News::new(alloc, SOCKETS)?,
            next: AtomicU64::new(0),
            report,
        })
    }

    fn claim_entry(&self) -> Option<usize> {
        let sockets = self.sockets.as_slice();
        for _ in 0..sockets.len() {
            let at = self.next.fetch_add(1, Ordering::SeqCst) as usize % SOCKETS;
            if sockets.get(at)?.claim() {
                return Some(at);
            }
        }
        None
    }

    /// Notes what time it is. A clock that can't be read leaves the time as it was.
    pub fn update_time<R: Clock>(&self, rt: &R) {
        if let Ok(time) = rt.monotonic() {
            let millis = u64::try_from(time.as_millis()).unwrap_or(u64::MAX);
            self.time.store(millis, Ordering::Relaxed);
            let micros = u64::try_from(time.as_micros()).unwrap_or(u64::MAX);
            self.micros.store(micros, Ordering::Relaxed);
        }
    }

    /// What time it is, in milliseconds, as the thread last saw it.
    pub fn time(&self) -> u64 {
        self.time.load(Ordering::Relaxed)
    }

    /// What time it is, in microseconds, as the thread last saw it.
    pub fn micros(&self) -> u64 {
        self.micros.load(Ordering::Relaxed)
    }

    /// What the thread reports.
    pub fn report(&self) -> &Arc<ThreadReport, Global> {
        &self.report
    }

    /// Whether a socket gave or took bytes since this was asked last. There may be more.
    pub fn had_traffic(&self) -> bool {
        let traffic = self.traffic.load(Ordering::Relaxed);
        if traffic {
            self.traffic.store(false, Ordering::Relaxed);
        }
        traffic
    }

    /// The thread is to be awake again at this time, or before, in milliseconds.
    pub fn wake_at(&self, time: u64) {
        let earliest = self.wake_time.load(Ordering::Relaxed).min(time);
        self.wake_time.store(earliest, Ordering::Relaxed);
    }

    /// Notes what time it is. Nothing says yet when the thread is to be awake after its next turn.
    pub fn begin_turn<R: Clock>(&self, rt: &R) {
        self.update_time(rt);
        self.wake_time.store(u64::MAX, Ordering::Relaxed);
    }

    /// For how many milliseconds the thread may sleep, by the time that it saw last; `u64::MAX` without end.
    pub fn millis_to_sleep(&self) -> u64 {
        match self.wake_time.load(Ordering::Relaxed) {
            u64::MAX => u64::MAX,
            time => time.saturating_sub(self.time()),
        }
    }

    /// Notes what a poll reported.
    pub(crate) fn note_event(&self, event: &event::Event) {
        let Some(entry) = self.sockets.get(event.token().0) else {
            return;
        };
        if let Some(client) = entry.note_event(event) {
            self.news.put(client);
        }
    }

    /// Puts into `news`, in place of what it holds, the numbers of the clients whose sockets may be read again, and of which this was
    /// not told yet.
    pub fn take_news(&self, news: &mut Vec<u32>) -> Result<(), NoMemory> {
        self.news.take(news)
    }
}

/// Who is at the other end of a socket.
#[derive(Clone, Copy)]
pub enum Peer {
    Client,
    Node,
}

impl Peer {
    /// What counts the bytes that come from it.
    fn bytes_in(self) -> Figure {
        match self {
            Peer::Client => Figure::BytesIn,
            Peer::Node => Figure::NodeBytesIn,
        }
    }

    /// What counts the bytes that go to it.
    fn bytes_out(self) -> Figure {
        match self {
            Peer::Client => Figure::BytesOut,
            Peer::Node => Figure::NodeBytesOut,
        }
    }
}

/// A socket's entry in the ready set of the thread that polls it, where one was free.
pub struct Registration {
    ready: Arc<ReadySet, Global>,
    at: Option<usize>,
    peer: Peer,
}

// By hand: its entry is free again.
impl Drop for Registration {
    fn drop(self) {
        if let Some(entry) = self.entry() {
            entry.claimed.store(false, Ordering::SeqCst);
        }
        let Registration {
            ready,
            at: _,
            peer: _,
        } = self;
        drop(ready);
    }
}

impl Registration {
    /// A registration for one more socket.
    pub fn new(ready: &Arc<ReadySet, Global>, peer: Peer) -> Result<Registration, NoMemory> {
        let ready = Arc::try_clone(ready)?;
        let at = ready.claim_entry();
        Ok(Registration { ready, at, peer })
    }

    /// A registration for the socket of the client of this number. `ReadySet::take_news` names it.
    pub fn of_client(ready: &Arc<ReadySet, Global>, client: u32) -> Result<Registration, NoMemory> {
        let registration = Registration::new(ready, Peer::Client)?;
        if let Some(entry) = registration.entry() {
            entry.client.store(u64::from(client), Ordering::SeqCst);
        }
        Ok(registration)
    }

    fn entry(&self) -> Option<&Readiness> {
        self.ready.sockets.get(self.at?)
    }

    /// Has the poll of this registry report on the socket.
    pub(crate) fn watch(&self, socket: &mut Socket, registry: &Registry) -> io::Result<()> {
        socket.watch(registry, self.token())
    }

    pub fn token(&self) -> Token {
        Token(self.at.unwrap_or(SOCKETS))
    }

    /// Whether a read may give something.
    pub fn may_read(&self) -> bool {
        match self.entry() {
            Some(entry) => entry.readable.load(Ordering::SeqCst),
            None => true,
        }
    }

    /// Whether a read would give nothing, until a poll reports that it may.
    pub(crate) fn is_watched(&self) -> bool {
        self.at.is_some() && !self.may_read()
    }

    /// Whether a write may take something.
    pub(crate) fn may_write(&self) -> bool {
        match self.entry() {
            Some(entry) => entry.writable.load(Ordering::SeqCst),
            None => true,
        }
    }

    /// The socket gave `count` bytes.
    pub(crate) fn note_read(&self, count: usize) {
        self.ready.traffic.store(true, Ordering::Relaxed);
        self.count(self.peer.bytes_in(), count as u64);
    }

    /// The socket took `count` bytes.
    pub(crate) fn note_written(&self, count: usize) {
        self.ready.traffic.store(true, Ordering::Relaxed);
        self.count(self.peer.bytes_out(), count as u64);
    }

    /// What time it is, in microseconds, as the thread last saw it.
    pub(crate) fn micros(&self) -> u64 {
        self.ready.micros()
    }

    /// Adds to this figure.
    pub fn count(&self, figure: Figure, more: u64) {
        self.ready.report.count(figure, more);
    }

    /// Keeps an event for the log.
    pub fn tell(&self, event: Event) {
        self.ready.report.tell(event);
    }

    /// A read gave all that there was. What comes later is reported.
    pub fn clear_readable(&self) {
        if let Some(entry) = self.entry()
            && !entry.ended.load(Ordering::SeqCst)
        {
            entry.readable.store(false, Ordering::SeqCst);
        }
    }

    /// A read is to be tried, whatever was reported.
    pub fn set_readable(&self) {
        if let Some(entry) = self.entry() {
            entry.readable.store(true, Ordering::SeqCst);
        }
    }

    /// A write took no more. When there is room again it is reported.
    pub(crate) fn clear_writable(&self) {
        if let Some(entry) = self.entry() {
            entry.writable.store(false, Ordering::SeqCst);
        }
    }
}
