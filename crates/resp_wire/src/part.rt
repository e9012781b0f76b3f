//! A part of a buffer that has several owners.

ghost use Rattle.std.specs.Prelude.{◌≡◌, ◌≤◌, ◌+◌, ◌++◌, ◌∷◌, [], length, take, drop, IfOk, IfErr, IfSome};
ghost use Rattle.resp_wire.specs.Spelling.{cr, lf};

use crate::fault::NoMemory;
use std::alloc::{AllocFailed, Global};
use std::marker::Model;
use std::sync::Arc;

/// Bytes of a buffer that lies in memory once for all its parts, and as long as one of them is left. The kit's `bytes` has
/// such a type, but of five words, where a value has room for three.
#[derive(Drop)]
pub(crate) struct Part {
    whole: Arc<Vec<u8>, Global>,
    start: usize,
    end: usize,
}

impl Model for Part {
    ghost use Rattle.std.specs.Prelude.{List, ℕ, take, drop, length, ◌-◌, ◌≤◌};
    ghost use Rattle.std.specs.Arc.{arc_value};

    ghost Value = { List ℕ };

    ghost view = { λ a. take (a.end - a.start) (drop a.start (arc_value a.whole).items) };

    ghost invariant = { λ a. (a.start ≤ a.end) × (a.end ≤ length (arc_value a.whole).items) };
}

impl Part {
    /// The bytes of a buffer from `start` on.
    pub(crate) fn new(
        alloc: Global,
        bytes: Vec<u8>,
        start: usize,
    ) -> Result<Part, AllocFailed<Vec<u8>>>
        requires { start ≤ length bytes.items }
        ensures ok { IfOk result (λ part. part ≡ drop start bytes.items) }
        ensures err { IfErr result (λ failed. failed.value.items ≡ bytes.items) }
    {
        let end = bytes.len();
        let whole = Arc::new(alloc, bytes)?;
        Ok(Part { whole, start, end })
    }

    pub(crate) fn as_slice(&self) -> &[u8]
        ensures { result.now ≡ self.now }
    {
        &self.whole[self.start..self.end]
    }

    /// The same bytes.
    pub(crate) fn copy(&self) -> Result<Part, NoMemory>
        ensures { IfOk result (λ copy. copy ≡ self.now) }
    {
        Ok(Part {
            whole: Arc::try_clone(&self.whole)?,
            start: self.start,
            end: self.end,
        })
    }

    /// This many of the bytes, from `start` on.
    pub(crate) fn part(&self, start: usize, count: usize) -> Result<Part, NoMemory>
        requires { start + count ≤ length self.now }
        ensures { IfOk result (λ part. part ≡ take count (drop start self.now)) }
    {
        let start = self.start + start;
        Ok(Part {
            whole: Arc::try_clone(&self.whole)?,
            start,
            end: start + count,
        })
    }

    /// The same bytes and the line end behind them, where the buffer has one there.
    pub(crate) fn with_line_end(&self) -> Option<Part>
        ensures { IfSome result (λ line. line ≡ self.now ++ cr ∷ lf ∷ []) }
    {
        if !self.whole[self.end..].starts_with(b"\r\n") {
            return None;
        }
        let whole = Arc::try_clone(&self.whole).ok()?;
        Some(Part {
            whole,
            start: self.start,
            end: self.end + 2,
        })
    }

    /// Drops this many bytes from the front.
    pub(crate) fn skip(&mut self, count: usize)
        requires { count ≤ length self.old }
        ensures { self.new ≡ drop count self.old }
    {
        self.start += count;
    }
}
