//! `one`: the first request of an input, answered by an empty store.

mod answer;
mod first;

ghost use Rattle.std.specs.Prelude.{◌≡◌, ◌≤◌, ◌≢◌, ◌⊎◌, ◌+◌, ℕ, List, Some, true, IfOk, IfErr, OnErr};
ghost use Rattle.std.specs.Io.KnownBytes.{Appends, Keeps};
ghost use Rattle.cluster_world.specs.Looks.{HasWords, opening_of};
ghost use Rattle.cluster_world.specs.One.{Writes, WritesFor};
ghost use Rattle.cluster_world.specs.Watched.{EndsAs};

use crate::input::INPUT_LIMIT;
use crate::outcome::Outcome;
use crate::watched::{WatchedReader, WatchedWriter, WriteFailed};
pub use answer::reply_on_empty;
pub use first::{First, first_request};
use resp_wire::{Line, NoMemory, Value, write_value};
use std::alloc::Global;
use std::io::{Read, Write};
use thiserror::Error;

/// Why a run of `one` ends before its time.
#[derive(Clone, Copy, Debug, Error)]
pub enum OneFault {
    /// A growth was refused.
    #[error("no memory")]
    NoMemory,
    /// A read failed.
    #[error("the input can't be read")]
    ReadFailed,
    /// A write failed; how much went out is not known.
    #[error("the reply can't be written")]
    WriteFailed,
}

impl From<NoMemory> for OneFault {
    fn from(_: NoMemory) -> Self {
        OneFault::NoMemory
    }
}

/// Answers the first request of the reader from an empty store, and gives the status: 0 for a reply, and 1 for a
/// protocol error, for an input that ends too early, and for a fault. At most `INPUT_LIMIT` bytes are read, in as many reads.
pub fn run_one<R: Read, W: Write>(
    alloc: Global,
    reader: &mut WatchedReader<R>,
    writer: &mut WatchedWriter<W>,
) -> u8
    ensures status { result ≤ 1 }
    ensures reads { reader.new.reads ≤ reader.old.reads + INPUT_LIMIT }
    ensures ends { (input : List ℕ) → R.remaining reader.old.reader ≡ Some input
        → EndsAs (WritesFor INPUT_LIMIT input) result (W.contents writer.old.writer) (W.contents writer.new.writer) writer.new.has_failed }
{
    match answer_first(alloc, reader, writer) {
        Ok(status) => status,
        Err(_) => 1,
    }
}

/// Answers the first request of the reader, and gives the status. A fault of memory or of the reader comes before
/// anything is written.
pub fn answer_first<R: Read, W: Write>(
    alloc: Global,
    reader: &mut WatchedReader<R>,
    writer: &mut WatchedWriter<W>,
) -> Result<u8, OneFault>
    ensures status { IfOk result (λ status. status ≤ 1) }
    ensures reads { reader.new.reads ≤ reader.old.reads + INPUT_LIMIT }
    ensures exact { IfOk result (λ status. (input : List ℕ) → R.remaining reader.old.reader ≡ Some input
        → (bytes : List ℕ) × WritesFor INPUT_LIMIT input status bytes × Appends (W.contents writer.old.writer) (W.contents writer.new.writer) bytes) }
    ensures silent { IfErr result (λ fault. fault ≢ OneFault.WriteFailed → Keeps (W.contents writer.old.writer) (W.contents writer.new.writer)) }
    ensures failed { OnErr result (Keeps (W.contents writer.old.writer) (W.contents writer.new.writer) ⊎ (writer.new.has_failed ≡ true)) }
{
    let first = first_request(alloc, reader)?;
    let outcome = outcome_of(alloc, first)?;
    match outcome.write_to(writer) {
        Ok(status) => Ok(status),
        Err(WriteFailed) => Err(OneFault::WriteFailed),
    }
}

/// What is written for the opening of an input.
fn outcome_of(alloc: Global, first: First) -> Result<Outcome, NoMemory>
    requires { HasWords first }
    ensures { IfOk result (λ outcome. Writes (opening_of first) outcome.status outcome.text.items) }
{
    let mut text = Vec::new(alloc);
    let status = match first {
        First::Asks(words) => {
            write_value(&mut text, &reply_on_empty(alloc, words.as_slice())?)?;
            0
        }
        First::Breaks => {
            let error = Line::from_text(alloc, b"ERR proxy: protocol error")?;
            write_value(&mut text, &Value::Error(error))?;
            1
        }
        First::Ends => 1,
    };
    Ok(Outcome { status, text })
}
