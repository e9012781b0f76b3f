//! A queue of bytes in one buffer: bytes come in at the back and go off at the front.

ghost use Rattle.std.specs.Prelude.{◌≡◌, ◌≤◌, ◌++◌, [], length, take, drop, OnOk, OnErr, MatchOption};
ghost use Rattle.resp_wire.specs.Canonical.{canonical};
ghost use Rattle.resp_wire.specs.Seen.{data_of};

use crate::fault::NoMemory;
use crate::part::Part;
use crate::value::Value;
use crate::write::write_value;
use std::alloc::{AllocFailed, Global};
use std::marker::Model;
use std::mem;

/// How many bytes a buffer may have room for and be kept while nothing is in it.
const MOST_KEPT_BYTES: usize = 65_536;

/// The smallest buffer that is given away while something is in it.
const LEAST_GIVEN_BYTES: usize = 1024;

/// How many bytes come before room is made for as many as came lately.
const MOST_SMALL_BYTES: usize = 16_384;

/// How many bytes room is made for at most before they come.
const MOST_EXPECTED_BYTES: usize = 262_144;

/// Bytes that come in at the back and go off at the front. The room of those that went is used again once it is more than
/// half of the buffer, so that each byte is moved a bounded number of times. A large buffer that is empty is given back. The
/// next one then gets as much room at once, and less where fewer bytes come.
#[derive(Drop)]
pub struct ByteQueue {
    bytes: Vec<u8>,
    /// Where those that are left begin.
    start: usize,
    /// Where they end. What stands behind them is room.
    end: usize,
    /// How much room was needed lately.
    expected: usize,
}

impl Model for ByteQueue {
    ghost use Rattle.std.specs.Prelude.{List, ℕ, take, drop, length, ◌≤◌};

    ghost Value = { List ℕ };

    ghost view = { λ a. drop a.start (take a.end a.bytes.items) };

    ghost invariant = { λ a. (a.start ≤ a.end) × (a.end ≤ length a.bytes.items) };
}

impl ByteQueue {
    /// An empty queue. It takes no memory.
    pub fn new(alloc: Global) -> ByteQueue
        ensures { result ≡ [] }
    {
        ByteQueue {
            bytes: Vec::new(alloc),
            start: 0,
            end: 0,
            expected: 0,
        }
    }

    /// Where its memory comes from.
    pub fn allocator(&self) -> Global {
        *self.bytes.allocator()
    }

    /// The bytes that are in the queue, the oldest first.
    pub fn as_slice(&self) -> &[u8]
        ensures { result.now ≡ self.now }
    {
        &self.bytes[self.start..self.end]
    }

    /// How many bytes the buffer has room for.
    pub(crate) fn capacity(&self) -> usize {
        self.bytes.capacity()
    }

    /// Takes all the bytes off, with their buffer, which may then have several owners. None where memory is wanting.
    pub(crate) fn give_up(&mut self) -> Option<Part>
        ensures { MatchOption result (self.new ≡ self.old) (λ part. (part ≡ self.old) × (self.new ≡ [])) }
    {
        let alloc = self.allocator();
        let mut bytes = mem::replace(&mut self.bytes, Vec::new(alloc));
        bytes.truncate(self.end);
        let expected = expected_after(self.expected, bytes.len());
        give_back_room(&mut bytes);
        match Part::new(alloc, bytes, self.start) {
            Ok(part) => {
                self.expected = expected;
                self.start = 0;
                self.end = 0;
                Some(part)
            }
            Err(AllocFailed { value }) => {
                self.bytes = value;
                None
            }
        }
    }

    /// Puts a piece at the back.
    pub fn push(&mut self, piece: &[u8]) -> Result<(), NoMemory>
        ensures ok { OnOk result (self.new ≡ self.old ++ piece.now) }
        ensures err { OnErr result (self.new ≡ self.old) }
    {
        self.start = compact(&mut self.bytes, self.start, self.end);
        expect(&mut self.bytes, self.expected, piece.len());
        let pushed = self.bytes.extend_from_slice(piece);
        self.end = self.bytes.len();
        match pushed {
            Ok(()) => Ok(()),
            Err(_) => Err(NoMemory),
        }
    }

    /// Puts the first `count` bytes of a buffer at the back. Where nothing is in the queue, the two change buffers, and no byte is
    /// copied, but where more is expected than that buffer has room for.
    pub(crate) fn push_from(&mut self, buffer: &mut Vec<u8>, count: usize) -> Result<(), NoMemory>
        requires { count ≤ length buffer.old.items }
        ensures ok { OnOk result (self.new ≡ self.old ++ take count buffer.old.items) }
        ensures err { OnErr result (self.new ≡ self.old) }
        ensures kept { OnErr result (buffer.new.items ≡ buffer.old.items) }
    {
        if self.start < self.end || self.expected > buffer.capacity() {
            return self.push(&buffer[..count]);
        }
        mem::swap(&mut self.bytes, buffer);
        self.start = 0;
        self.end = count;
        Ok(())
    }

    /// Puts the canonical spelling of a value at the back.
    pub fn push_value(&mut self, value: &Value) -> Result<(), NoMemory>
        ensures ok { OnOk result (self.new ≡ self.old ++ canonical (data_of value.now)) }
        ensures err { OnErr result (self.new ≡ self.old) }
    {
        self.start = compact(&mut self.bytes, self.start, self.end);
        let written = write_value(&mut self.bytes, value);
        self.end = self.bytes.len();
        written
    }

    /// Gives the buffer away where it is spare: `room` is then that buffer, if it has more. What is left moves to a buffer that it
    /// fills.
    pub(crate) fn give_room(&mut self, room: &mut Vec<u8>)
        ensures { self.new ≡ self.old }
    {
        if !self.is_spare() {
            return;
        }
        let mut left = Vec::new(self.allocator());
        if left.extend_from_slice(self.as_slice()).is_err() {
            return;
        }
        self.start = 0;
        self.end = left.len();
        let buffer = mem::replace(&mut self.bytes, left);
        if buffer.len() > room.len() {
            *room = buffer;
        }
    }

    /// Whether nothing is in the buffer, or it is neither small nor large and no more than half of it is in use.
    fn is_spare(&self) -> bool {
        let left = self.end - self.start;
        let room = self.bytes.capacity();
        left == 0 || (left <= room / 2 && (LEAST_GIVEN_BYTES..=MOST_KEPT_BYTES).contains(&room))
    }

    /// Drops this many bytes from the front.
    pub fn skip(&mut self, count: usize)
        requires { count ≤ length self.old }
        ensures { self.new ≡ drop count self.old }
    {
        self.start += count;
        if self.start == self.end {
            self.clear();
        }
    }

    /// Drops all bytes.
    fn clear(&mut self)
        ensures { self.new ≡ [] }
    {
        let len = self.end;
        if len > MOST_SMALL_BYTES || self.expected > 0 {
            self.expected = expected_after(self.expected, len);
        }
        self.start = 0;
        self.end = 0;
        if self.bytes.capacity() > MOST_KEPT_BYTES {
            self.bytes = Vec::new(self.allocator());
        }
    }
}

/// Drops the room behind the bytes from `start` to `end`, and moves these to the front of the buffer where more than half of it is
/// room in front of them. Answers where they begin.
fn compact(bytes: &mut Vec<u8>, start: usize, end: usize) -> usize
    requires ordered { start ≤ end }
    requires within { end ≤ length bytes.old.items }
    ensures same { drop result bytes.new.items ≡ drop start (take end bytes.old.items) }
    ensures within { result ≤ length bytes.new.items }
{
    bytes.truncate(end);
    if start <= end / 2 {
        return start;
    }
    bytes.copy_within(start..end, 0);
    bytes.truncate(end - start);
    0
}

/// Makes the room that was needed lately, where the next bytes do not fit in the buffer and are more than a few, or a quarter
/// more than they need: in a buffer that doubled a value may not fill the half. Where it is refused, the buffer grows by what
/// it must.
fn expect(bytes: &mut Vec<u8>, expected: usize, count: usize)
    ensures { bytes.new.items ≡ bytes.old.items }
{
    let len = bytes.len();
    let needed = len.saturating_add(count);
    if needed > MOST_SMALL_BYTES && needed > bytes.capacity() {
        let room = expected.max(needed.saturating_add(needed / 4));
        let _ = bytes.reserve_exact(room.saturating_sub(len));
    }
}

/// Gives back the room behind the bytes where it is more than an eighth of them: a buffer that grew by doubling may have as
/// much as they take, and its owners may keep it for long.
fn give_back_room(bytes: &mut Vec<u8>)
    ensures { bytes.new.items ≡ bytes.old.items }
{
    if bytes.capacity() / 9 > bytes.len() / 8 {
        bytes.shrink_to_fit();
    }
}

/// How much room to expect after `len` bytes came: an eighth more, since the next may be a little longer. What was
/// expected before fades by a quarter.
fn expected_after(expected: usize, len: usize) -> usize {
    let came = len.min(MOST_EXPECTED_BYTES);
    (came + came / 8)
        .min(MOST_EXPECTED_BYTES)
        .max(expected - expected / 4)
}
