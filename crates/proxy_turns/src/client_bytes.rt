//! The bytes of a client on their way from its port to its session.

ghost use Rattle.std.specs.Prelude.{◌≡◌, ◌↔◌, [], IsTrue};

use crate::port::ClientPort;
use node_link::{Flow, free_large};
use resp_wire::NoMemory;
use session_order::{Session, SessionFault};
use std::alloc::Global;
use std::marker::Model;
use std::mem;

/// The fewest bytes that a call asks for.
pub(crate) const SMALLEST_PIECE: usize = 4 * 1024;
/// The most bytes that a call asks for, where the buffer is not larger.
const LARGEST_PIECE: usize = 64 * 1024;

/// How many bytes the next call asks for: twice as many after one that got all, and an eighth fewer after any other.
pub(crate) fn piece_after(piece: usize, count: usize) -> usize {
    if count < piece {
        return (piece - piece / 8).max(SMALLEST_PIECE);
    }
    piece.saturating_mul(2).min(LARGEST_PIECE)
}

/// What was pulled and not fed: the front of a buffer, whose rest is room.
#[derive(Drop)]
pub(crate) struct Unfed {
    buffer: Vec<u8>,
    count: usize,
}

impl Model for Unfed {
    ghost use Rattle.std.specs.Prelude.{List, ℕ, ◌≤◌, length, take};

    ghost Value = { List ℕ };

    ghost view = { λ a. take a.count a.buffer.items };

    ghost invariant = { λ a. a.count ≤ length a.buffer.items };
}

impl Unfed {
    ghost use Rattle.session_order.specs.Steps.{FeedOutcome};
    ghost use Rattle.proxy_turns.specs.ClientModel.{Takings};
    ghost use Rattle.proxy_turns.specs.ClientTurn.{left_of};
    ghost use Rattle.proxy_turns.specs.Port.{MovesNone};

    pub(crate) fn new(alloc: Global) -> Unfed
        ensures { result ≡ [] }
    {
        Unfed {
            buffer: Vec::new(alloc),
            count: 0,
        }
    }

    pub(crate) fn is_empty(&self) -> bool
        ensures { IsTrue result ↔ (self.now ≡ []) }
    {
        self.count == 0
    }

    /// Asks for `least` bytes or more. The piece changes hands with them.
    pub(crate) fn pull<C: ClientPort>(
        &mut self,
        port: &mut C,
        piece: &mut Vec<u8>,
        least: usize,
    ) -> Result<Flow, NoMemory>
        requires { self.old ≡ [] }
        ensures takes { Takings C.moves port.old result port.new self.new }
        ensures none { MovesNone result → C.gives_none port.new }
    {
        if piece.len() < least {
            piece.resize(least, 0)?;
        }
        let flow = port.pull(piece.as_mut_slice())?;
        if let Flow::Bytes(count) = flow {
            mem::swap(&mut self.buffer, piece);
            self.count = count;
        }
        Ok(flow)
    }

    /// Feeds them to the session.
    pub(crate) fn feed(&mut self, session: &mut Session) -> Result<usize, SessionFault>
        ensures does { FeedOutcome session.old self.old result session.new }
        ensures left { self.new ≡ left_of self.old result }
    {
        let taken = session.feed(&mut self.buffer, self.count)?;
        self.count -= taken;
        Ok(taken)
    }

    /// Gives the buffer back, where nothing is left in it.
    pub(crate) fn give_room(&mut self, piece: &mut Vec<u8>)
        ensures { self.new ≡ self.old }
    {
        if self.count == 0 {
            mem::swap(&mut self.buffer, piece);
        }
    }

    /// Drops them, and gives the buffer back.
    pub(crate) fn let_go(&mut self)
        ensures { self.new ≡ [] }
    {
        self.count = 0;
        let_go(&mut self.buffer);
    }
}

/// Drops all bytes, and gives the buffer back.
pub(crate) fn let_go(bytes: &mut Vec<u8>)
    ensures { bytes.new.items ≡ [] }
{
    bytes.clear();
    free_large(bytes, 0);
}
