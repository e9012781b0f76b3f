//! The commands that bytes have in front of EXEC.

ghost use Rattle.std.specs.Prelude.{◌≡◌, ◌↔◌, ◌∷◌, [], IsTrue};
ghost use Rattle.turn_play.specs.Hearing.{HearsCommands, HearsNext, TellsNext};

use crate::first_words::{FirstWords, first_words};
use crate::plain_part::plain_part;
use key_split::Part;
use resp_wire::{Bytes, NoMemory};
use std::alloc::Global;

/// What stands first where a command or EXEC may.
#[derive(Drop)]
pub enum NextCommand {
    /// A command, and how many bytes it has.
    Command(Part, usize),
    /// EXEC, and how many bytes it has.
    Exec(usize),
    Short,
    Other,
}

/// Commands and then EXEC.
#[derive(Drop)]
pub enum Block {
    /// The commands, and how many bytes they have with EXEC.
    Whole(Vec<Part>, usize),
    /// Less than that.
    Short,
    /// What is no command and not EXEC.
    Other,
}

/// The commands that the bytes begin with, and EXEC behind them.
pub(crate) fn commands_at(alloc: Global, bytes: &[u8]) -> Result<Block, NoMemory>
    ensures { HearsCommands bytes.now result }
{
    let mut parts = Vec::new(alloc);
    let mut at = 0;
    while at < bytes.len() {
        match next_command(alloc, &bytes[at..])? {
            NextCommand::Command(part, count) => {
                parts.push(part)?;
                at += count;
            }
            NextCommand::Exec(count) => return Ok(Block::Whole(parts, at + count)),
            NextCommand::Short => return Ok(Block::Short),
            NextCommand::Other => return Ok(Block::Other),
        }
    }
    Ok(Block::Short)
}

/// The command that the bytes begin with, or EXEC.
fn next_command(alloc: Global, bytes: &[u8]) -> Result<NextCommand, NoMemory>
    ensures { HearsNext bytes.now result }
{
    match first_words(alloc, bytes)? {
        FirstWords::Words(words, count) => command_of(alloc, words.as_slice(), count),
        FirstWords::Short => Ok(NextCommand::Short),
        FirstWords::Other => Ok(NextCommand::Other),
    }
}

/// The command that these words are, or EXEC; they have so many bytes.
fn command_of(alloc: Global, words: &[Bytes], count: usize) -> Result<NextCommand, NoMemory>
    ensures { TellsNext words.now count result }
{
    if is_word(words, b"EXEC") {
        return Ok(NextCommand::Exec(count));
    }
    match plain_part(alloc, words)? {
        Some(part) => Ok(NextCommand::Command(part, count)),
        None => Ok(NextCommand::Other),
    }
}

/// Whether this word stands alone.
pub(crate) fn is_word(words: &[Bytes], text: &[u8]) -> bool
    ensures { IsTrue result ↔ (words.now ≡ text.now ∷ []) }
{
    match words {
        [word] => word.as_slice() == text,
        _ => false,
    }
}
