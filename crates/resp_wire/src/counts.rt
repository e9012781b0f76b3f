//! How many items still come in each array that has begun.

ghost use Rattle.std.specs.Prelude.{◌≡◌, ◌<◌, ◌≤◌, [], ◌∷◌, ◌++◌, length};
ghost use Rattle.std.specs.Bool.{OnTrue};
ghost use Rattle.resp_wire.specs.Resume.{WantsItem};

use std::marker::Model;

/// The arrays that may be open at once, and the one value that they stand in.
const MOST: usize = 9;

/// The counts of the open arrays, the outermost first.
#[derive(Drop)]
pub(crate) struct Counts {
    counts: [usize; MOST],
    len: usize,
}

impl Model for Counts {
    ghost use Rattle.std.specs.Prelude.{List, ℕ, take, ◌≤◌};

    ghost Value = { List ℕ };

    ghost view = { λ a. take a.len a.counts };

    ghost invariant = { λ a. a.len ≤ 9 };
}

impl Counts {
    /// One value is to come.
    pub(crate) fn new() -> Counts
        ensures { result ≡ 1 ∷ [] }
    {
        Counts {
            counts: [1; MOST],
            len: 1,
        }
    }

    pub(crate) fn len(&self) -> usize
        ensures value { result ≡ length self.now }
        ensures small { result ≤ 9 }
    {
        self.len
    }

    pub(crate) fn push(&mut self, count: usize)
        requires { length self.old < 9 }
        ensures { self.new ≡ self.old ++ count ∷ [] }
    {
        self.counts[self.len] = count;
        self.len += 1;
    }

    pub(crate) fn pop(&mut self) -> usize
        requires { 0 < length self.old }
        ensures { self.old ≡ self.new ++ result ∷ [] }
    {
        self.len -= 1;
        self.counts[self.len]
    }

    /// Whether the innermost array still wants an item.
    pub(crate) fn wants_item(&self) -> bool
        ensures { OnTrue result (WantsItem self.now) }
    {
        self.len > 0 && self.counts[self.len - 1] > 0
    }
}
