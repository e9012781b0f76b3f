//! What stands behind the bytes that wait to be pushed.

ghost use Rattle.std.specs.Prelude.{◌≡◌, ◌≤◌, ◌↔◌, [], IsTrue, None, drop, length};
ghost use Rattle.session_order.specs.Replies.{bytes_behind};

use resp_wire::Bytes;
use std::marker::Model;

/// The tail of a large reply, of which some bytes were pushed. It lies where it came in.
#[derive(Drop)]
pub(crate) struct Tail {
    bytes: Option<Bytes>,
    // How many of the bytes were pushed.
    pushed: usize,
}

impl Model for Tail {
    ghost use Rattle.std.specs.Prelude.{◌≤◌, List, ℕ, drop, length};
    ghost use Rattle.session_order.specs.Replies.{bytes_behind};

    ghost Value = { List ℕ };

    ghost view = { λ a. drop a.pushed (bytes_behind a.bytes) };

    ghost invariant = { λ a. a.pushed ≤ length (bytes_behind a.bytes) };
}

impl Tail {
    pub(crate) fn new(bytes: Option<Bytes>) -> Tail
        ensures { result ≡ bytes_behind bytes }
    {
        Tail { bytes, pushed: 0 }
    }

    /// What was not pushed.
    pub(crate) fn as_slice(&self) -> &[u8]
        ensures { result.now ≡ self.now }
    {
        match &self.bytes {
            Some(bytes) => &bytes.as_slice()[self.pushed..],
            None => &[],
        }
    }

    pub(crate) fn is_empty(&self) -> bool
        ensures { IsTrue result ↔ (self.now ≡ []) }
    {
        self.as_slice().is_empty()
    }

    /// `count` bytes were pushed. Where none are left it is let go.
    pub(crate) fn count_pushed(&mut self, count: usize)
        requires { count ≤ length self.old }
        ensures { self.new ≡ drop count self.old }
    {
        let Some(bytes) = &self.bytes else {
            return;
        };
        let len = bytes.as_slice().len();
        self.pushed += count;
        if self.pushed == len {
            self.let_go();
        }
    }

    pub(crate) fn let_go(&mut self)
        ensures { self.new ≡ [] }
    {
        self.bytes = None;
        self.pushed = 0;
    }
}
