//! The whole of an input, within a limit.

ghost use Rattle.std.specs.Prelude.{◌≡◌, ◌≤◌, ◌<◌, ◌+◌, ℕ, List, Some, IfOk};
ghost use Rattle.cluster_world.specs.Reading.{IsInput, IsShort, TakesPiece};

use crate::watched::WatchedReader;
use resp_wire::NoMemory;
use std::alloc::Global;
use std::io::Read;

/// How many bytes of an input are read at most, and how often.
pub const INPUT_LIMIT: usize = 1_048_576;

/// How many bytes one read takes at most.
const PIECE: usize = 4096;

/// An input, read to its end.
#[derive(Drop)]
pub enum Input {
    Whole(Vec<u8>),
    /// It has more bytes than the limit, or its end did not come within as many reads.
    TooLong,
    /// A read failed.
    Failed,
}

/// What one read gave.
#[derive(Clone, Copy)]
enum Came {
    Some,
    End,
    Failure,
}

/// Reads to the end.
pub fn read_input<R: Read>(alloc: Global, reader: &mut WatchedReader<R>) -> Result<Input, NoMemory>
    ensures short { IfOk result IsShort }
    ensures whole { IfOk result (λ read. (input : List ℕ) → R.remaining reader.old.reader ≡ Some input
        → IsInput INPUT_LIMIT input reader.old.reads reader.new read) }
    ensures reads { reader.new.reads ≤ reader.old.reads + INPUT_LIMIT }
{
    let mut bytes = Vec::new(alloc);
    for reads in 0..INPUT_LIMIT {
        match read_piece(reader, &mut bytes)? {
            Came::Some => {}
            Came::End => return Ok(Input::Whole(bytes)),
            Came::Failure => return Ok(Input::Failed),
        }
        if bytes.len() > INPUT_LIMIT {
            return Ok(Input::TooLong);
        }
    }
    Ok(Input::TooLong)
}

/// Adds what one read gives.
fn read_piece<R: Read>(reader: &mut WatchedReader<R>, bytes: &mut Vec<u8>) -> Result<Came, NoMemory>
    ensures came { IfOk result (λ came. TakesPiece R.remaining reader.old bytes.old.items came reader.new bytes.new.items) }
    ensures reads { reader.new.reads ≤ reader.old.reads + 1 }
{
    let mut piece = [0u8; PIECE];
    let Some(count) = reader.read(&mut piece) else {
        return Ok(Came::Failure);
    };
    if count == 0 {
        return Ok(Came::End);
    }
    bytes.extend_from_slice(&piece[..count])?;
    Ok(Came::Some)
}
