//! Bytes in pieces, of which only the last grows.

ghost use Rattle.std.specs.Prelude.{◌≡◌, ◌≤◌, ◌-◌, ◌++◌, [], OnOk, OnErr, drop, false, length, take};
ghost use Rattle.node_link.specs.Bytes.{FlushOutcome, Offers, least_offer};
ghost use Rattle.node_link.specs.Pieces.{DropsFirst, IsSettled, IsSound, first_of, front_of, held_in, spelled_first, waiting_in};

use crate::buffer::free_large;
use crate::piece::Piece;
use crate::stream::{Flow, Gone, Stream};
use resp_wire::{Bytes, NoMemory};
use std::alloc::Global;
use std::collections::VecDeque;
use std::mem;

/// Bytes from which on a piece takes no more requests.
const PIECE: usize = 64 * 1024;
/// Bytes that a new piece has room for. An empty one with room for more gives it back.
const PIECE_ROOM: usize = 80 * 1024;

/// Bytes that wait to be written, and behind them those of a request that is being spelled. A request is cut only behind a
/// large word, so a piece has 64 KiB and one request at most. One that was written is freed, and no byte is moved. Nothing is
/// written while a request is being spelled.
#[derive(Drop)]
pub struct Pieces {
    /// The pieces that take no more, the oldest first.
    full: VecDeque<Piece>,
    /// How many of them, at the back, were filled by the request that is being spelled.
    drafted: usize,
    /// What is spelled in the piece that is being filled.
    last: Vec<u8>,
    /// How many bytes of the first piece were written.
    written: usize,
    /// Where the request that is being spelled begins, in the piece in which it begins.
    finished: usize,
    /// How many bytes the stream left of those that it was offered last.
    refused: usize,
    /// The first piece may begin with the rest of a request, whose large word was written.
    is_cut: bool,
}

impl Pieces {
    pub fn new(alloc: Global) -> Pieces
        ensures held { held_in result ≡ record { bytes = []; refused = 0; draft = [] } }
        ensures sound { IsSound result }
    {
        Pieces {
            full: VecDeque::new(alloc),
            drafted: 0,
            last: Vec::new(alloc),
            written: 0,
            finished: 0,
            refused: 0,
            is_cut: false,
        }
    }

    /// Spells some more of a request.
    pub fn push(&mut self, bytes: &[u8]) -> Result<(), NoMemory>
        requires { IsSound self.old }
        ensures ok { OnOk result (held_in self.new ≡ record (held_in self.old) { draft = (held_in self.old).draft ++ bytes.now }) }
        ensures err { OnErr result (held_in self.new ≡ held_in self.old) }
        ensures sound { IsSound self.new }
    {
        match self.last.extend_from_slice(bytes) {
            Ok(()) => Ok(()),
            Err(_) => Err(NoMemory),
        }
    }

    /// Adds a large word to a request, alone or with its line end, and begins a new piece.
    pub fn push_large(&mut self, alloc: Global, word: &Bytes) -> Result<(), NoMemory>
        requires sound { IsSound self.old }
        requires large { least_offer ≤ length word.now }
        ensures ok { OnOk result (held_in self.new ≡ record (held_in self.old) { draft = (held_in self.old).draft ++ word.now }) }
        ensures err { OnErr result (held_in self.new ≡ held_in self.old) }
        ensures sound { IsSound self.new }
    {
        if self.full.reserve(1).is_err() {
            return Err(NoMemory);
        }
        let word = word.copy(alloc)?;
        let spelled = mem::replace(&mut self.last, Vec::new(alloc));
        self.full.push_back_reserved(Piece {
            spelled,
            word: Some(word),
        });
        self.drafted += 1;
        Ok(())
    }

    /// The request that is being spelled is whole.
    pub fn finish(&mut self)
        requires { IsSound self.old }
        ensures held { held_in self.new ≡ record (held_in self.old) { bytes = (held_in self.old).bytes ++ (held_in self.old).draft; draft = [] } }
        ensures sound { IsSound self.new }
    {
        self.drafted = 0;
        self.finished = self.last.len();
    }

    /// Forgets the request that is being spelled.
    pub fn discard(&mut self)
        requires { IsSound self.old }
        ensures held { held_in self.new ≡ record (held_in self.old) { draft = [] } }
        ensures sound { IsSound self.new }
    {
        take_back(&mut self.full, self.drafted, &mut self.last);
        self.drafted = 0;
        self.last.truncate(self.finished);
    }

    /// Begins a new piece where the last is full. Where there is no room for one, the last grows on.
    pub fn seal(&mut self, alloc: Global)
        requires sound { IsSound self.old }
        requires no_draft { (held_in self.old).draft ≡ [] }
        ensures held { held_in self.new ≡ held_in self.old }
        ensures sound { IsSound self.new }
    {
        if self.last.len() < PIECE || self.full.reserve(1).is_err() {
            return;
        }
        let Ok(next) = Vec::with_capacity(alloc, PIECE_ROOM) else {
            return;
        };
        let spelled = mem::replace(&mut self.last, next);
        self.full.push_back_reserved(Piece {
            spelled,
            word: None,
        });
        self.finished = 0;
    }

    /// Whether the stream left some of what it was offered last, or would be offered `count` bytes or the rest of a request.
    pub fn is_due(&self, count: usize) -> bool
        requires sound { IsSound self.now }
        requires no_draft { (held_in self.now).draft ≡ [] }
        ensures { result ≡ false → self.now.refused ≡ 0 }
    {
        if self.refused > 0 || self.is_cut {
            return true;
        }
        let (spelled, word) = self.front();
        spelled.len() >= count || word.len() >= count
    }

    // The bytes of the first piece that wait, in two parts.
    fn front(&self) -> (&[u8], &[u8])
        requires { IsSettled self.now }
        ensures { result.0.now ++ result.1.now ≡ front_of self.now }
    {
        match self.full.front() {
            Some(piece) => piece.rest(self.written),
            None => (&self.last[self.written..], &[]),
        }
    }

    /// Offers the first piece to the stream, by one call, where bytes wait.
    pub fn write_front<S: Stream>(&mut self, stream: &mut S) -> Result<(), Gone>
        requires sound { IsSound self.old }
        requires no_draft { (held_in self.old).draft ≡ [] }
        ensures written { FlushOutcome S.failures S.moved stream.old (held_in self.old).bytes result stream.new (held_in self.new).bytes }
        ensures offers { Offers S.offered ((held_in self.old).bytes ≡ []) stream.old (held_in self.old).bytes self.old.refused stream.new self.new.refused }
        ensures draft { (held_in self.new).draft ≡ [] }
        ensures count { S.failures stream.old ≤ S.failures stream.new }
        ensures sound { IsSound self.new }
    {
        let (spelled, word) = self.front();
        let len = spelled.len() + word.len();
        if len == 0 {
            return Ok(());
        }
        match stream.write(spelled, word) {
            Flow::Bytes(count) => {
                self.leave(len - count);
                Ok(())
            }
            Flow::Nothing => {
                self.refused = len;
                Ok(())
            }
            Flow::Gone => {
                self.refused = len;
                Err(Gone)
            }
        }
    }

    // `left` bytes of the first piece were left.
    fn leave(&mut self, left: usize)
        requires settled { IsSettled self.old }
        requires within { left ≤ length (front_of self.old) }
        ensures waiting { waiting_in self.new ≡ drop (length (front_of self.old) - left) (waiting_in self.old) }
        ensures refused { self.new.refused ≡ left }
        ensures settled { IsSettled self.new }
    {
        self.refused = left;
        if left > 0 {
            self.written = self.first_len() - left;
            return;
        }
        self.written = 0;
        let had_word = drop_first(&mut self.full, &mut self.last);
        self.finished = self.last.len();
        self.is_cut = had_word && self.finished > 0;
    }

    fn first_len(&self) -> usize
        ensures { result ≡ length (first_of self.now.full.items self.now.last.items) }
    {
        match self.full.front() {
            Some(piece) => piece.len(),
            None => self.last.len(),
        }
    }
}

// Takes back `count` pieces at the back, but for what is spelled in the first of them.
fn take_back(full: &mut VecDeque<Piece>, count: usize, last: &mut Vec<u8>)
    requires { count ≤ length full.old.items }
    ensures full { full.new.items ≡ take (length full.old.items - count) full.old.items }
    ensures last { last.new.items ≡ spelled_first (drop (length full.old.items - count) full.old.items) last.old.items }
{
    if count == 0 {
        return;
    }
    full.truncate(full.len() - count + 1);
    let Some(Piece { spelled, word }) = full.pop_back() else {
        return;
    };
    drop(word);
    *last = spelled;
}

// Drops the first piece, and says whether it had a large word.
fn drop_first(full: &mut VecDeque<Piece>, last: &mut Vec<u8>) -> bool
    ensures { DropsFirst full.old.items last.old.items full.new.items last.new.items }
{
    match full.pop_front() {
        Some(piece) => piece.word.is_some(),
        None => {
            last.clear();
            free_large(last, PIECE_ROOM);
            false
        }
    }
}
