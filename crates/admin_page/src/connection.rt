//! One connection for the page, over bytes that the caller moves.

ghost use Rattle.std.specs.Prelude.{◌≡◌, ◌↔◌, ◌≤◌, ◌++◌, IfOk, OnOk, IsTrue, length, take};
ghost use Rattle.bytes.specs.Unread.{IsChunkOf};
ghost use Rattle.http_server.specs.History.{IsServed, Rests, WantsRead, after_sent, new_history};
ghost use Rattle.http_server.specs.Exchange.{Calls};
ghost use Rattle.admin_page.specs.Connection.{IsLimited, IsOver, config, deadline, deadline_after, five_seconds_after, history};

use http_server::{Config, Connection, Service};
use http1::Limits;
use std::alloc::Global;
use std::hash::RandomState;
use std::io;

/// Milliseconds in which no answer went out whole, after which a connection is closed.
const PATIENCE: u64 = 5_000;

/// Bytes that a head has at most.
const HEAD_LENGTH: usize = 8 * 1024;

/// The most connections that are to be open.
pub const MOST_CONNECTIONS: usize = 16;

/// A connection for the page. The caller gives it the bytes that come (`receive`), has it answered (`answer`), and sends what
/// it puts out (`output`, `sent`), until it is over.
#[derive(Drop)]
pub struct PageConnection {
    http: Connection,
    /// When it is closed.
    deadline: u64,
}

impl PageConnection {
    /// A connection that came at this time, in milliseconds.
    pub fn new(alloc: Global, keys: RandomState, now: u64) -> PageConnection
        ensures limits { IsLimited (config result) }
        ensures history { history result ≡ new_history }
        ensures deadline { deadline result ≡ five_seconds_after now }
    {
        PageConnection {
            http: Connection::new(alloc, keys, limits()),
            deadline: five_seconds_after(now),
        }
    }

    /// Takes bytes that came, as many as it says.
    pub fn receive(&mut self, bytes: &[u8]) -> io::Result<usize>
        ensures within { IfOk result (λ count. count ≤ length bytes.now) }
        ensures received { IfOk result (λ count. (history self.new).received ≡ (history self.old).received ++ take count bytes.now) }
        ensures deadline { deadline self.new ≡ deadline self.old }
        ensures limits { config self.new ≡ config self.old }
    {
        let mut unread = bytes;
        self.http.read_from(&mut unread)
    }

    /// No more bytes come.
    pub fn end_input(&mut self) -> io::Result<()>
        ensures ended { OnOk result (IsTrue (history self.new).ended) }
        ensures deadline { deadline self.new ≡ deadline self.old }
        ensures limits { config self.new ≡ config self.old }
    {
        let mut nothing: &[u8] = &[];
        self.http.read_from(&mut nothing)?;
        Ok(())
    }

    /// Answers what was received, by the service.
    pub fn answer<S: Service>(&mut self, service: &mut S)
        ensures served { ∥ IsServed (config self.new) (history self.new) ∥₁ }
        ensures calls { Calls S.answers service.old service.new (history self.old).calls (history self.new).calls }
        ensures rests { Rests (config self.new) (history self.new) }
        ensures deadline { deadline self.new ≡ deadline self.old }
        ensures limits { config self.new ≡ config self.old }
    {
        self.http.advance(service);
    }

    /// The next bytes to send.
    pub fn output(&self) -> &[u8]
        ensures { IsChunkOf result.now (history self.now).pending }
    {
        self.http.output()
    }

    /// `count` of them were sent, at this time.
    pub fn sent(&mut self, count: usize, now: u64)
        requires { count ≤ length (history self.old).pending }
        ensures history { history self.new ≡ after_sent (history self.old) count }
        ensures deadline { deadline self.new ≡ deadline_after (deadline self.old) (history self.old) count now }
        ensures limits { config self.new ≡ config self.old }
    {
        self.http.sent(count);
        if count >= 1 && !self.http.wants_write() {
            self.deadline = five_seconds_after(now);
        }
    }

    /// Whether it takes more bytes now.
    pub fn wants_read(&self) -> bool
        ensures { IsTrue result ↔ WantsRead (config self.now) (history self.now) }
    {
        self.http.wants_read()
    }

    /// When it is closed at the latest.
    pub fn deadline(&self) -> u64
        ensures { result ≡ deadline self.now }
    {
        self.deadline
    }

    /// Whether it is to be closed at this time.
    pub fn is_over(&self, now: u64) -> bool
        ensures { IsTrue result ↔ IsOver self.now now }
    {
        self.http.is_done() || self.deadline <= now
    }
}

fn limits() -> Config
    ensures { IsLimited result }
{
    Config {
        limits: Limits {
            max_head_len: HEAD_LENGTH,
            max_extensions_len: 0,
            max_trailers_len: HEAD_LENGTH,
        },
        max_body_len: 0,
        max_pending: 64 * 1024,
        read_size: 4 * 1024,
    }
}

fn five_seconds_after(now: u64) -> u64
    ensures { result ≡ five_seconds_after now }
{
    now.saturating_add(PATIENCE)
}
