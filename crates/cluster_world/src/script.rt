//! The lines of a script, their words, and the numbers that words write.
//!
//! A line is ended by LF. Its words are bytes 0x21 to 0x7E, separated by one space.

ghost use Rattle.std.specs.Prelude.{◌≡◌, ◌==◌, ◌^◌, ◌++◌, [], ◌∷◌, position, IfOk, OnOk};
ghost use Rattle.std.specs.List.{list_all};
ghost use Rattle.cluster_world.specs.Cuts.{Cuts, Follows};
ghost use Rattle.cluster_world.specs.Reading.{ReadsLine};
ghost use Rattle.cluster_world.specs.Script.{is_printable, is_word, line_of, number_below};

use resp_wire::{Bytes, NoMemory, Words};
use std::alloc::Global;

const LF: u8 = b'\n';

const SPACE: u8 = b' ';

/// A line of a script, and what follows it.
#[derive(Drop)]
pub struct LineRead<'a> {
    /// None where it is no line of words, or where no LF ends it.
    pub words: Option<Words>,
    pub rest: &'a [u8],
}

/// Takes the first line off a script, where it has one.
pub fn read_line<'a>(alloc: Global, script: &'a [u8]) -> Result<Option<LineRead<'a>>, NoMemory>
    ensures { IfOk result (λ read. ReadsLine script.now read) }
{
    if script.is_empty() {
        return Ok(None);
    }
    match cut(script, LF) {
        Some((text, rest)) => {
            let words = words(alloc, text)?;
            Ok(Some(LineRead { words, rest }))
        }
        None => Ok(Some(LineRead {
            words: None,
            rest: &script[script.len()..],
        })),
    }
}

/// The place of the first such byte.
fn place_of(bytes: &[u8], separator: u8) -> Option<usize>
    ensures { result ≡ position (λ b. b == separator) bytes.now }
{
    bytes.iter().position(|byte| *byte == separator)
}

/// What stands before the first such byte, and what behind it.
pub fn cut(bytes: &[u8], separator: u8) -> Option<(&[u8], &[u8])>
    ensures { Cuts separator bytes.now result }
{
    let Some(place) = place_of(bytes, separator) else {
        return None;
    };
    Some((&bytes[..place], &bytes[place + 1..]))
}

/// The words of a line's text, where it has words alone.
pub fn words(alloc: Global, text: &[u8]) -> Result<Option<Words>, NoMemory>
    ensures { IfOk result (λ words. words ≡ line_of text.now) }
{
    let mut words = Vec::new(alloc);
    let mut rest = text;
    while let Some((word, behind)) = cut(rest, SPACE) {
        if !is_word(word) {
            return Ok(None);
        }
        push_word(alloc, &mut words, word)?;
        rest = behind;
    }
    if !is_word(rest) {
        return Ok(None);
    }
    push_word(alloc, &mut words, rest)?;
    Ok(Some(Words::new(words)))
}

/// Adds a word, in memory of its own.
fn push_word(alloc: Global, words: &mut Vec<Bytes>, word: &[u8]) -> Result<(), NoMemory>
    ensures { OnOk result (words.new.items ≡ words.old.items ++ word.now ∷ []) }
{
    words.push(Bytes::from_slice(alloc, word)?)?;
    Ok(())
}

fn is_word(piece: &[u8]) -> bool
    ensures { result ≡ is_word piece.now }
{
    !piece.is_empty() && are_printable(piece)
}

fn are_printable(bytes: &[u8]) -> bool
    ensures { result ≡ list_all is_printable bytes.now }
{
    bytes.iter().all(|byte| *byte >= b'!' && *byte <= b'~')
}

/// The number that decimal digits write, where it fits 64 bits.
#[tactic(auto, unfolding(crate::specs::Script::number_below))]
pub fn number(word: &[u8]) -> Option<u64>
    ensures { result ≡ number_below (2 ^ 64) word.now }
{
    if word.is_empty() {
        return None;
    }
    let mut value = 0u64;
    let mut rest = word;
    while let [digit, more @ ..] = rest {
        let Some(longer) = followed(value, *digit) else {
            return None;
        };
        value = longer;
        rest = more;
    }
    Some(value)
}

/// The number that the digits of this one and one more write.
fn followed(value: u64, byte: u8) -> Option<u64>
    ensures { Follows value byte result }
{
    if byte < b'0' || byte > b'9' {
        return None;
    }
    value.checked_mul(10)?.checked_add(u64::from(byte - b'0'))
}
