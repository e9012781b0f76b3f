//! Requests as bytes: each is spelled where it will be written from, with no value and no list of words in between.

ghost use Rattle.std.specs.Prelude.{◌≡◌, ◌<◌, ◌≤◌, ◌+◌, ◌*◌, ◌++◌, ◌∷◌, [], All, List, ℕ, OnOk, length, codes};
ghost use Rattle.std.specs.List.{flat_map};
ghost use Rattle.key_split.specs.Laws.{IsPlain};
ghost use Rattle.key_split.specs.PartModel.{Pair};
ghost use Rattle.key_split.specs.Requests.{requests_of};
ghost use Rattle.key_split.specs.Words.{behind_key, pair_words, words_of};
ghost use Rattle.key_split.specs.Runs.{requests_of_run};
ghost use Rattle.node_link.specs.Blocks.{IsPlainRequest, spelled_block};
ghost use Rattle.node_link.specs.Bytes.{spelled, spelled_words};
ghost use Rattle.node_link.specs.Spelling.{head, spelled_bulk, spelled_bulks};

use crate::outbox::Outbox;
use itoa::Buffer;
use key_split::{Batch, Mode, Op, Pair, Part, Run, op_name};
use resp_wire::{Bytes, NoMemory};

/// Spells a batch's requests behind what is spelled already.
pub fn push_batch(out: &mut Outbox, batch: &Batch) -> Result<(), NoMemory>
    ensures ok { OnOk result (out.new.draft ≡ out.old.draft ++ spelled (requests_of batch.now)) }
    ensures kept { out.new.unsent ≡ out.old.unsent }
    ensures plain { OnOk result (All IsPlainRequest (requests_of batch.now)) }
{
    if batch.asking {
        push_word(out, b"ASKING")?;
    }
    push_part(out, &batch.part)
}

/// Spells the question for the slots of all nodes behind what is spelled already.
pub fn push_slots(out: &mut Outbox) -> Result<(), NoMemory>
    ensures ok { OnOk result (out.new.draft ≡ out.old.draft ++ spelled_words (codes "CLUSTER" ∷ codes "SLOTS" ∷ [])) }
    ensures kept { out.new.unsent ≡ out.old.unsent }
{
    push_head(out, b'*', 2)?;
    push_bulk(out, b"CLUSTER")?;
    push_bulk(out, b"SLOTS")
}

/// Spells a run's commands as a block behind what is spelled already.
pub fn push_block(out: &mut Outbox, run: &Run) -> Result<(), NoMemory>
    ensures ok { OnOk result (out.new.draft ≡ out.old.draft ++ spelled_block (requests_of_run run.now)) }
    ensures kept { out.new.unsent ≡ out.old.unsent }
    ensures plain { OnOk result (All IsPlainRequest (requests_of_run run.now)) }
{
    push_word(out, b"MULTI")?;
    push_batch(out, run.first())?;
    push_batches(out, run.later())?;
    push_word(out, b"EXEC")
}

fn push_batches(out: &mut Outbox, batches: &[Batch]) -> Result<(), NoMemory>
    ensures ok { OnOk result (out.new.draft ≡ out.old.draft ++ spelled (flat_map requests_of batches.now)) }
    ensures kept { out.new.unsent ≡ out.old.unsent }
    ensures plain { OnOk result (All IsPlainRequest (flat_map requests_of batches.now)) }
{
    let mut rest = batches;
    while let [batch, further @ ..] = rest {
        push_batch(out, batch)?;
        rest = further;
    }
    Ok(())
}

// A request of one word.
fn push_word(out: &mut Outbox, word: &[u8]) -> Result<(), NoMemory>
    ensures ok { OnOk result (out.new.draft ≡ out.old.draft ++ spelled_words (word.now ∷ [])) }
    ensures kept { out.new.unsent ≡ out.old.unsent }
{
    push_head(out, b'*', 1)?;
    push_bulk(out, word)
}

fn push_part(out: &mut Outbox, part: &Part) -> Result<(), NoMemory>
    ensures ok { OnOk result (out.new.draft ≡ out.old.draft ++ spelled_words (words_of part.now)) }
    ensures kept { out.new.unsent ≡ out.old.unsent }
    ensures plain { OnOk result (IsPlain part.now) }
{
    let op = part.op();
    push_head(out, b'*', word_count(part))?;
    push_bulk(out, op_name(op).text())?;
    push_word_bulk(out, part.key())?;
    push_behind(out, op, part.arg())?;
    push_pairs(out, op, part.rest())
}

fn word_count(part: &Part) -> u128
    ensures { result ≡ length (words_of part.now) }
{
    1 + (1 + count_behind(part.op()) as u128) * (1 + part.rest().len() as u128)
}

// How many words stand behind a key.
fn count_behind(op: Op) -> u8
    ensures exact { (v : List ℕ) → result ≡ length (behind_key op v) }
    ensures few { result ≤ 2 }
{
    match op {
        Op::Set(Mode::IfAbsent | Mode::IfPresent) => 2,
        Op::Set(Mode::Always) | Op::SetNx | Op::GetSet | Op::Append | Op::IncrBy(_) | Op::MSet => 1,
        Op::Get | Op::GetDel | Op::StrLen | Op::Incr | Op::Decr | Op::Del | Op::Exists | Op::MGet =>
            0,
    }
}

fn push_pairs(out: &mut Outbox, op: Op, pairs: &[Pair]) -> Result<(), NoMemory>
    ensures ok { OnOk result (out.new.draft ≡ out.old.draft ++ spelled_bulks (flat_map (pair_words op) pairs.now)) }
    ensures kept { out.new.unsent ≡ out.old.unsent }
{
    let mut rest = pairs;
    while let [(key, arg), further @ ..] = rest {
        push_word_bulk(out, key)?;
        push_behind(out, op, arg)?;
        rest = further;
    }
    Ok(())
}

// What stands behind a key.
fn push_behind(out: &mut Outbox, op: Op, arg: &Bytes) -> Result<(), NoMemory>
    ensures ok { OnOk result (out.new.draft ≡ out.old.draft ++ spelled_bulks (behind_key op arg.now)) }
    ensures kept { out.new.unsent ≡ out.old.unsent }
{
    match op {
        Op::Set(mode) => push_mode(out, mode, arg),
        Op::SetNx | Op::GetSet | Op::Append | Op::MSet => push_word_bulk(out, arg),
        Op::IncrBy(amount) => {
            let mut buffer = Buffer::new();
            push_bulk(out, buffer.format(amount).as_bytes())
        }
        Op::Get | Op::GetDel | Op::StrLen | Op::Incr | Op::Decr | Op::Del | Op::Exists | Op::MGet =>
            Ok(()),
    }
}

// The value of SET, and when it writes.
fn push_mode(out: &mut Outbox, mode: Mode, arg: &Bytes) -> Result<(), NoMemory>
    ensures ok { OnOk result (out.new.draft ≡ out.old.draft ++ spelled_bulks (behind_key (Op.Set mode) arg.now)) }
    ensures kept { out.new.unsent ≡ out.old.unsent }
{
    push_word_bulk(out, arg)?;
    match mode {
        Mode::Always => Ok(()),
        Mode::IfAbsent => push_bulk(out, b"NX"),
        Mode::IfPresent => push_bulk(out, b"XX"),
    }
}

fn push_bulk(out: &mut Outbox, word: &[u8]) -> Result<(), NoMemory>
    ensures ok { OnOk result (out.new.draft ≡ out.old.draft ++ spelled_bulk word.now) }
    ensures kept { out.new.unsent ≡ out.old.unsent }
{
    push_head(out, b'$', word.len() as u128)?;
    out.push(word)?;
    out.push(b"\r\n")
}

// A word that may be large.
fn push_word_bulk(out: &mut Outbox, word: &Bytes) -> Result<(), NoMemory>
    ensures ok { OnOk result (out.new.draft ≡ out.old.draft ++ spelled_bulk word.now) }
    ensures kept { out.new.unsent ≡ out.old.unsent }
{
    push_head(out, b'$', word.as_slice().len() as u128)?;
    out.push_line(word)
}

// A line of a kind and a number.
fn push_head(out: &mut Outbox, kind: u8, number: u128) -> Result<(), NoMemory>
    ensures ok { OnOk result (out.new.draft ≡ out.old.draft ++ head kind number) }
    ensures kept { out.new.unsent ≡ out.old.unsent }
{
    if number < 10 {
        return out.push(&[kind, b'0' + number as u8, b'\r', b'\n']);
    }
    let mut buffer = Buffer::new();
    out.push(&[kind])?;
    out.push(buffer.format(number).as_bytes())?;
    out.push(b"\r\n")
}
