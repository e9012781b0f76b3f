//! The bytes that wait to be written, and when they are.

ghost use Rattle.std.specs.Prelude.{◌≡◌, ◌≤◌, ◌++◌, ◌∷◌, [], ⊤, OnOk, OnErr, length};
ghost use Rattle.resp_wire.specs.Spelling.{cr, lf};
ghost use Rattle.node_link.specs.Bytes.{CountsRead, FlushOutcome, MayWait, Offers, least_offer};

use crate::pieces::Pieces;
use crate::stream::{Gone, Stream};
use resp_wire::{Bytes, NoMemory};
use std::alloc::Global;
use std::marker::Model;

/// Writes are held back until this many bytes are waiting, in bytes.
const FLUSH_SIZE: usize = 16 * 1024;
/// Writes are held back until this many reads came with nothing sent between them.
pub const FLUSH_AFTER_READS: u32 = 2;

/// Bytes from which on a word is not copied where its line end stands behind it: both are written from where they stand.
/// A piece that ended with a shorter one could be less than one write has to be offered.
const LARGE_LINE: usize = 64 * 1024;
/// Bytes from which on no word is copied. A shorter one costs less to copy than a write of its own for its line end.
const LARGE_WORD: usize = 256 * 1024;

/// Whether a request may wait for others to go out with it.
#[derive(Clone, Copy)]
pub enum Urgency {
    /// It is held back as others are.
    CanWait,
    /// The next read writes it, unless another request comes before.
    Urgent,
}

/// Bytes that wait to be written, and behind them those of a request that is being spelled.
pub struct Outbox {
    alloc: Global,
    pieces: Pieces,
    /// How many reads came since the last request was spelled; those past `FLUSH_AFTER_READS` count as one.
    quiet_reads: u32,
}

// By hand, so that the crates above prove one call.
impl Drop for Outbox {
    fn drop(self) {
        let Outbox {
            alloc: _,
            pieces,
            quiet_reads: _,
        } = self;
        drop(pieces);
    }
}

impl Model for Outbox {
    ghost use Rattle.node_link.specs.Bytes.{OutboxModel};
    ghost use Rattle.node_link.specs.Pieces.{IsSound, held_in};

    ghost Value = { OutboxModel };

    ghost view = { λ a. record {
      unsent = record { bytes = (held_in a.pieces).bytes; refused = (held_in a.pieces).refused; quiet_reads = a.quiet_reads };
      draft = (held_in a.pieces).draft;
    } };

    ghost invariant = { λ a. IsSound a.pieces };
}

impl Outbox {
    pub fn new(alloc: Global) -> Outbox
        ensures { result ≡ record { unsent = record { bytes = []; refused = 0; quiet_reads = 0 }; draft = [] } }
    {
        Outbox {
            alloc,
            pieces: Pieces::new(alloc),
            quiet_reads: 0,
        }
    }

    /// Spells some more of a request.
    pub fn push(&mut self, piece: &[u8]) -> Result<(), NoMemory>
        ensures ok { OnOk result (self.new ≡ record self.old { draft = self.old.draft ++ piece.now }) }
        ensures err { OnErr result (self.new ≡ self.old) }
    {
        self.pieces.push(piece)
    }

    /// Spells a word of a request and its line end. A large one is not copied.
    pub fn push_line(&mut self, word: &Bytes) -> Result<(), NoMemory>
        ensures ok { OnOk result (self.new.draft ≡ self.old.draft ++ (word.now ++ cr ∷ lf ∷ [])) }
        ensures kept { self.new.unsent ≡ self.old.unsent }
    {
        let bytes = word.as_slice();
        if bytes.len() >= LARGE_LINE {
            return self.push_large_line(word);
        }
        self.push(bytes)?;
        self.push(b"\r\n")
    }

    // The same for a word that is large enough where its line end stands behind it.
    fn push_large_line(&mut self, word: &Bytes) -> Result<(), NoMemory>
        requires { least_offer ≤ length word.now }
        ensures ok { OnOk result (self.new.draft ≡ self.old.draft ++ (word.now ++ cr ∷ lf ∷ [])) }
        ensures kept { self.new.unsent ≡ self.old.unsent }
    {
        match word.with_line_end() {
            Some(line) => self.pieces.push_large(self.alloc, &line),
            None => {
                self.push_word(word)?;
                self.push(b"\r\n")
            }
        }
    }

    // Spells a word without its line end.
    fn push_word(&mut self, word: &Bytes) -> Result<(), NoMemory>
        ensures ok { OnOk result (self.new ≡ record self.old { draft = self.old.draft ++ word.now }) }
        ensures err { OnErr result (self.new ≡ self.old) }
    {
        let bytes = word.as_slice();
        if bytes.len() < LARGE_WORD {
            return self.pieces.push(bytes);
        }
        self.pieces.push_large(self.alloc, word)
    }

    /// The request that is being spelled is whole.
    pub fn finish(&mut self, urgency: Urgency)
        ensures { self.new ≡ record { unsent = record { bytes = self.old.unsent.bytes ++ self.old.draft; refused = self.old.unsent.refused; quiet_reads = self.new.unsent.quiet_reads }; draft = [] } }
    {
        self.pieces.finish();
        self.quiet_reads = reads_waited(urgency);
    }

    /// Forgets the request that is being spelled.
    pub fn discard(&mut self)
        ensures { self.new ≡ record self.old { draft = [] } }
    {
        self.pieces.discard();
    }

    /// Writes some of what waits, where the stream refused some of it, or where it is so much that it does not wait for more.
    pub fn flush_before_send<S: Stream>(&mut self, stream: &mut S) -> Result<(), Gone>
        requires { self.old.draft ≡ [] }
        ensures written { FlushOutcome S.failures S.moved stream.old self.old.unsent.bytes result stream.new self.new.unsent.bytes }
        ensures offers { Offers S.offered ⊤ stream.old self.old.unsent.bytes self.old.unsent.refused stream.new self.new.unsent.refused }
        ensures quiet { self.new.unsent.quiet_reads ≡ self.old.unsent.quiet_reads }
        ensures draft { self.new.draft ≡ [] }
        ensures count { S.failures stream.old ≤ S.failures stream.new }
    {
        if !self.pieces.is_due(FLUSH_SIZE) {
            return Ok(());
        }
        if let Err(Gone) = self.pieces.write_front(stream) {
            return Err(Gone);
        }
        self.pieces.seal(self.alloc);
        Ok(())
    }

    /// The same, and where it waited long enough.
    pub fn flush_before_read<S: Stream>(&mut self, stream: &mut S) -> Result<(), Gone>
        requires { self.old.draft ≡ [] }
        ensures written { FlushOutcome S.failures S.moved stream.old self.old.unsent.bytes result stream.new self.new.unsent.bytes }
        ensures offers { Offers S.offered (MayWait self.old.unsent.bytes self.old.unsent.quiet_reads) stream.old self.old.unsent.bytes self.old.unsent.refused stream.new self.new.unsent.refused }
        ensures quiet { self.new.unsent.quiet_reads ≡ self.old.unsent.quiet_reads }
        ensures draft { self.new.draft ≡ [] }
        ensures count { S.failures stream.old ≤ S.failures stream.new }
    {
        if self.quiet_reads < FLUSH_AFTER_READS {
            return self.flush_before_send(stream);
        }
        self.pieces.write_front(stream)
    }

    /// A read comes.
    pub fn count_read(&mut self)
        ensures counts { CountsRead self.old.unsent.quiet_reads self.new.unsent.quiet_reads }
        ensures kept { self.new ≡ record self.old { unsent = record self.old.unsent { quiet_reads = self.new.unsent.quiet_reads } } }
    {
        if self.quiet_reads <= FLUSH_AFTER_READS {
            self.quiet_reads += 1;
        }
    }
}

// The reads that a request counts as having waited for.
fn reads_waited(urgency: Urgency) -> u32 {
    match urgency {
        Urgency::CanWait => 0,
        Urgency::Urgent => FLUSH_AFTER_READS,
    }
}
