//! A stream of bytes that does not block.

ghost use Rattle.std.specs.Prelude.{◌≤◌, List, [], ◌++◌, ℕ, length};
ghost use Rattle.node_link.specs.declared.stream.Flow.{Flow};
ghost use Rattle.node_link.specs.Stream.{ReadOutcome, WriteOutcome};

/// What one call on a stream moved.
#[derive(Clone, Copy, PartialEq, Eq)]
pub enum Flow {
    /// This number of bytes.
    Bytes(usize),
    /// No byte now; a later call may move some.
    Nothing,
    /// The stream failed or ended.
    Gone,
}

/// Bytes out and bytes in, by calls that do not wait.
pub trait Stream {
    /// How often the stream has failed or ended, in 64 bits: a failure at their last value leaves the count.
    ghost failures: { Self → ℕ };

    /// From the first state to the second these bytes were written and these were read, each in order.
    ghost moved: { Self → List ℕ → List ℕ → Self → Type 0 };

    /// One read into room for this many bytes, which was answered so, led from the first state to the second. Code that is
    /// generic in the stream has this fact from a read alone, so where it stands a read was made.
    ghost asked: { Self → ℕ → Flow → Self → Type 0 } = { λ _ _ _ _. Unit {0} };

    /// One write, which was offered these bytes and answered so, led from the first state to the second. Code that is
    /// generic in the stream has this fact from a write alone, so where it stands a write was made.
    ghost offered: { Self → List ℕ → Flow → Self → Type 0 } = { λ _ _ _ _. Unit {0} };

    /// Told before the reads of a port: whether the other end owes replies.
    fn owes(&self, _replies: bool) {}

    /// Reads some bytes to the front of the buffer.
    fn read(&mut self, buffer: &mut [u8]) -> Flow
        ensures read { ReadOutcome failures moved self.old buffer.new result self.new }
        ensures count { failures self.old ≤ failures self.new }
        ensures asked { asked self.old (length buffer.old) result self.new };

    /// Writes some bytes off the front of two slices, which stand one behind the other.
    fn write(&mut self, first: &[u8], second: &[u8]) -> Flow
        ensures written { WriteOutcome failures moved self.old (first.now ++ second.now) result self.new }
        ensures count { failures self.old ≤ failures self.new }
        ensures offered { offered self.old (first.now ++ second.now) result self.new };

    /// Where no call is made, nothing moves.
    ghost still: { (stream : Self) → moved stream [] [] stream };

    /// What two calls moved, one after the other.
    ghost joined: { (a b c : Self) (w r w' r' : List ℕ) → moved a w r b → moved b w' r' c → moved a (w ++ w') (r ++ r') c };
}

/// The stream failed or ended.
#[derive(Clone, Copy)]
pub struct Gone;
