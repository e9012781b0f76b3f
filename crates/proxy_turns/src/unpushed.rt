//! The bytes that wait to be pushed to a client.

ghost use Rattle.std.specs.Prelude.{◌≡◌, ◌≤◌, ◌↔◌, ◌++◌, [], IsTrue, drop, length};

use crate::client_bytes::let_go;
use crate::client_limits::KEPT;
use crate::tail::Tail;
use node_link::{drop_front, free_large};
use resp_wire::NoMemory;
use session_order::Session;
use std::alloc::Global;
use std::marker::Model;

/// Bytes that were drained from a session and not pushed. Pushing costs what is pushed, however much is left.
#[derive(Drop)]
pub(crate) struct Unpushed {
    bytes: Vec<u8>,
    // How many of the bytes were pushed.
    pushed: usize,
    // What stands behind the bytes.
    tail: Tail,
}

impl Model for Unpushed {
    ghost use Rattle.std.specs.Prelude.{◌≤◌, ◌++◌, List, ℕ, drop, length};

    ghost Value = { List ℕ };

    ghost view = { λ a. drop a.pushed a.bytes.items ++ a.tail };

    ghost invariant = { λ a. a.pushed ≤ length a.bytes.items };
}

impl Unpushed {
    ghost use Rattle.proxy_turns.specs.Unpushed.{DrainsBehind};

    pub(crate) fn new(alloc: Global) -> Unpushed
        ensures { result ≡ [] }
    {
        Unpushed {
            bytes: Vec::new(alloc),
            pushed: 0,
            tail: Tail::new(None),
        }
    }

    /// They lie in two slices, one behind the other.
    pub(crate) fn as_slices(&self) -> (&[u8], &[u8])
        ensures value { result.0.now ++ result.1.now ≡ self.now }
    {
        (&self.bytes[self.pushed..], self.tail.as_slice())
    }

    pub(crate) fn len(&self) -> usize
        ensures { result ≡ length self.now }
    {
        let (first, second) = self.as_slices();
        first.len() + second.len()
    }

    pub(crate) fn is_empty(&self) -> bool
        ensures { IsTrue result ↔ (self.now ≡ []) }
    {
        self.len() == 0
    }

    /// Puts behind them what the session has to drain, until it is `most` bytes. None where a tail is left, which stands last.
    pub(crate) fn drain(
        &mut self,
        session: &mut Session,
        most: usize,
    ) -> Result<Option<usize>, NoMemory>
        ensures does { DrainsBehind most session.old self.old result session.new self.new }
    {
        if !self.tail.is_empty() {
            return Ok(None);
        }
        let drained = session.drain(&mut self.bytes, most)?;
        self.tail = Tail::new(drained.tail);
        Ok(Some(drained.count))
    }

    /// `count` bytes were pushed.
    pub(crate) fn count_pushed(&mut self, count: usize)
        requires { count ≤ length self.old }
        ensures { self.new ≡ drop count self.old }
    {
        let first = count.min(self.bytes.len() - self.pushed);
        self.pushed += first;
        forget_pushed(&mut self.bytes, &mut self.pushed);
        self.tail.count_pushed(count - first);
    }

    /// Drops them all, and gives the buffer back.
    pub(crate) fn let_go(&mut self)
        ensures { self.new ≡ [] }
    {
        let_go(&mut self.bytes);
        self.pushed = 0;
        self.tail.let_go();
    }
}

// Drops the bytes that were pushed once they are half of all, so that each byte is moved once at most.
fn forget_pushed(bytes: &mut Vec<u8>, pushed: &mut usize)
    requires { pushed.old ≤ length bytes.old.items }
    ensures left { drop pushed.new bytes.new.items ≡ drop pushed.old bytes.old.items }
    ensures within { pushed.new ≤ length bytes.new.items }
{
    if *pushed < bytes.len() - *pushed {
        return;
    }
    drop_front(bytes, *pushed);
    free_large(bytes, KEPT);
    *pushed = 0;
}
