//! The words by which a node is asked for an operation.

ghost use Rattle.std.specs.Prelude.{◌≡◌, ◌++◌, ◌∷◌, [], IfOk, OnOk};
ghost use Rattle.std.specs.List.{flat_map};
ghost use Rattle.std.specs.Fmt.{signed_decimal};
ghost use Rattle.key_split.specs.Words.{behind_key, op_name, pair_words, words_of};

use crate::name::Name;
use crate::number::write_number;
use crate::part::{Mode, Op, Pair, Part};
use resp_wire::{Bytes, NoMemory};
use std::alloc::Global;

/// The command that an operation belongs to.
pub fn op_name(op: Op) -> Name
    ensures { result ≡ op_name op }
{
    match op {
        Op::Get => Name::Get,
        Op::Set(_) => Name::Set,
        Op::SetNx => Name::SetNx,
        Op::GetSet => Name::GetSet,
        Op::GetDel => Name::GetDel,
        Op::Append => Name::Append,
        Op::StrLen => Name::StrLen,
        Op::Incr => Name::Incr,
        Op::Decr => Name::Decr,
        Op::IncrBy(_) => Name::IncrBy,
        Op::Del => Name::Del,
        Op::Exists => Name::Exists,
        Op::MGet => Name::MGet,
        Op::MSet => Name::MSet,
    }
}

/// The words by which a node is asked for the part.
pub fn words_of(alloc: Global, part: &Part) -> Result<Vec<Bytes>, NoMemory>
    ensures { IfOk result (λ words. words.items ≡ words_of part.now) }
{
    let mut words = Vec::new(alloc);
    push_part(alloc, &mut words, part)?;
    Ok(words)
}

fn push_part(alloc: Global, words: &mut Vec<Bytes>, part: &Part) -> Result<(), NoMemory>
    ensures { OnOk result (words.new.items ≡ words.old.items ++ words_of part.now) }
{
    push_text(alloc, words, op_name(part.op()).text())?;
    push_pair(alloc, words, part.op(), part.key(), part.arg())?;
    push_pairs(alloc, words, part.op(), part.rest())
}

fn push_pairs(alloc: Global, words: &mut Vec<Bytes>, op: Op, pairs: &[Pair]) -> Result<(), NoMemory>
    ensures { OnOk result (words.new.items ≡ words.old.items ++ flat_map (pair_words op) pairs.now) }
{
    for (key, arg) in pairs {
        push_pair(alloc, words, op, key, arg)?;
    }
    Ok(())
}

/// Adds a key and what stands behind it.
fn push_pair(
    alloc: Global,
    words: &mut Vec<Bytes>,
    op: Op,
    key: &Bytes,
    arg: &Bytes,
) -> Result<(), NoMemory>
    ensures { OnOk result (words.new.items ≡ words.old.items ++ pair_words op (key.now, arg.now)) }
{
    push_copy(alloc, words, key)?;
    push_behind(alloc, words, op, arg)
}

/// Adds what stands behind a key.
fn push_behind(alloc: Global, words: &mut Vec<Bytes>, op: Op, arg: &Bytes) -> Result<(), NoMemory>
    ensures { OnOk result (words.new.items ≡ words.old.items ++ behind_key op arg.now) }
{
    match op {
        Op::Set(mode) => {
            push_copy(alloc, words, arg)?;
            match mode {
                Mode::Always => Ok(()),
                Mode::IfAbsent => push_text(alloc, words, b"NX"),
                Mode::IfPresent => push_text(alloc, words, b"XX"),
            }
        }
        Op::SetNx | Op::GetSet | Op::Append | Op::MSet => push_copy(alloc, words, arg),
        Op::IncrBy(amount) => push_number(alloc, words, amount),
        Op::Get | Op::GetDel | Op::StrLen | Op::Incr | Op::Decr | Op::Del | Op::Exists | Op::MGet =>
            { Ok(()) }
    }
}

fn push_number(alloc: Global, words: &mut Vec<Bytes>, number: i64) -> Result<(), NoMemory>
    ensures { OnOk result (words.new.items ≡ words.old.items ++ signed_decimal number ∷ []) }
{
    words.push(write_number(alloc, number)?)?;
    Ok(())
}

fn push_copy(alloc: Global, words: &mut Vec<Bytes>, word: &Bytes) -> Result<(), NoMemory>
    ensures { OnOk result (words.new.items ≡ words.old.items ++ word.now ∷ []) }
{
    words.push(word.copy(alloc)?)?;
    Ok(())
}

fn push_text(alloc: Global, words: &mut Vec<Bytes>, text: &[u8]) -> Result<(), NoMemory>
    ensures { OnOk result (words.new.items ≡ words.old.items ++ text.now ∷ []) }
{
    words.push(Bytes::from_slice(alloc, text)?)?;
    Ok(())
}
