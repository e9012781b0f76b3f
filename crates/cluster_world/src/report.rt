//! The text of a world's answers and entries.

ghost use Rattle.std.specs.Prelude.{◌≡◌, ◌++◌, IfOk, OnOk, OnErr, map};
ghost use Rattle.std.specs.Fmt.{decimal};
ghost use Rattle.std.specs.List.{flat_map};
ghost use Rattle.key_split.specs.Words.{words_of};
ghost use Rattle.resp_wire.specs.Data.{items_of};
ghost use Rattle.resp_wire.specs.Seen.{data_of};
ghost use Rattle.cluster_world.specs.Cuts.{Grows};
ghost use Rattle.cluster_world.specs.Report as report;

use crate::fault::WorldFault;
use itoa::Buffer;
use key_split::{Ended, Part, Ticket, words_of};
use resp_wire::{Bytes, NoMemory, Value, Values};
use std::alloc::{AllocError, Global};
use world_laws::{Answer, Entry};

/// Appends the text of a value, as VALUE in the formats. An `Err` leaves what was there.
pub fn write_value_text(out: &mut Vec<u8>, value: &Value) -> Result<(), NoMemory>
    ensures ok { OnOk result (out.new.items ≡ out.old.items ++ report.value_text (data_of value.now)) }
    ensures err { OnErr result (out.new.items ≡ out.old.items) }
{
    let before = out.len();
    match push_value_text(out, value) {
        Ok(()) => Ok(()),
        Err(_) => {
            out.truncate(before);
            Err(NoMemory)
        }
    }
}

/// Two pieces, at the end.
fn push_two(out: &mut Vec<u8>, first: &[u8], second: &[u8]) -> Result<(), AllocError>
    ensures ok { OnOk result (out.new.items ≡ out.old.items ++ (first.now ++ second.now)) }
    ensures grows { Grows out.old.items out.new.items }
{
    out.extend_from_slice(first)?;
    out.extend_from_slice(second)
}

/// The text of a value, at the end. An `Err` may leave a part of it.
#[cycle(text)]
fn push_value_text(out: &mut Vec<u8>, value: &Value) -> Result<(), AllocError>
    ensures ok { OnOk result (out.new.items ≡ out.old.items ++ report.value_text (data_of value.now)) }
    ensures grows { Grows out.old.items out.new.items }
{
    match value {
        Value::Simple(text) => push_two(out, b"simple ", text.bytes()),
        Value::Error(text) => push_two(out, b"error ", text.bytes()),
        Value::Integer(number) => {
            let mut buffer = Buffer::new();
            push_two(out, b"integer ", buffer.format(*number).as_bytes())
        }
        Value::Bulk(bytes) => push_two(out, b"bulk ", bytes.as_slice()),
        Value::NullBulk | Value::NullArray => out.extend_from_slice(b"null"),
        Value::Array(items) => {
            out.extend_from_slice(b"array ")?;
            push_items_text(out, items)
        }
    }
}

/// The texts of items, with ` | ` between each two.
#[cycle(text)]
fn push_items_text(out: &mut Vec<u8>, items: &Values) -> Result<(), AllocError>
    ensures ok { OnOk result (out.new.items ≡ out.old.items ++ report.joined report.bar (report.texts_of (items_of items.now))) }
    ensures grows { Grows out.old.items out.new.items }
{
    match items.as_slice() {
        [] => Ok(()),
        [first, further @ ..] => {
            push_value_text(out, first)?;
            push_further_texts(out, further)
        }
    }
}

/// The texts of further items, with ` | ` before each.
#[cycle(text)]
fn push_further_texts(out: &mut Vec<u8>, items: &[Value]) -> Result<(), AllocError>
    ensures ok { OnOk result (out.new.items ≡ out.old.items ++ flat_map (λ text. report.bar ++ text) (report.texts_of (items_of (map data_of items.now)))) }
    ensures grows { Grows out.old.items out.new.items }
{
    for item in items {
        out.extend_from_slice(b" | ")?;
        push_value_text(out, item)?;
    }
    Ok(())
}

/// A number in decimal, at the end.
fn push_number(out: &mut Vec<u8>, number: u64) -> Result<(), AllocError>
    ensures ok { OnOk result (out.new.items ≡ out.old.items ++ decimal number) }
{
    let mut buffer = Buffer::new();
    out.extend_from_slice(buffer.format(number).as_bytes())
}

/// CLIENT.PART, at the end.
fn push_ticket(out: &mut Vec<u8>, ticket: Ticket) -> Result<(), AllocError>
    ensures ok { OnOk result (out.new.items ≡ out.old.items ++ report.ticket_text ticket) }
{
    push_number(out, u64::from(ticket.client))?;
    out.extend_from_slice(b".")?;
    push_number(out, ticket.part)
}

/// The text of an end, at the end.
fn push_end(out: &mut Vec<u8>, ended: &Ended) -> Result<(), AllocError>
    ensures ok { OnOk result (out.new.items ≡ out.old.items ++ report.end_text ended.now) }
{
    match ended {
        Ended::Answered(value) => push_value_text(out, value),
        Ended::GaveUp => out.extend_from_slice(b"gaveup"),
        Ended::Lost => out.extend_from_slice(b"lost"),
    }
}

/// Words, separated by one space, at the end.
fn push_words(out: &mut Vec<u8>, words: &[Bytes]) -> Result<(), AllocError>
    ensures ok { OnOk result (out.new.items ≡ out.old.items ++ report.joined report.space words.now) }
{
    match words {
        [] => Ok(()),
        [first, further @ ..] => {
            out.extend_from_slice(first.as_slice())?;
            push_further_words(out, further)
        }
    }
}

/// Further words, with a space before each.
fn push_further_words(out: &mut Vec<u8>, words: &[Bytes]) -> Result<(), AllocError>
    ensures ok { OnOk result (out.new.items ≡ out.old.items ++ flat_map (λ word. report.space ++ word) words.now) }
{
    for word in words {
        push_two(out, b" ", word.as_slice())?;
    }
    Ok(())
}

/// A name, a ticket and a space, at the end.
fn push_head(out: &mut Vec<u8>, name: &[u8], ticket: Ticket) -> Result<(), AllocError>
    ensures ok { OnOk result (out.new.items ≡ out.old.items ++ (name.now ++ report.ticket_text ticket ++ report.space)) }
{
    out.extend_from_slice(name)?;
    push_ticket(out, ticket)?;
    out.extend_from_slice(b" ")
}

/// An answer's line, at the end.
#[tactic(auto, unfolding(crate::specs::Report::answer_line))]
fn push_answer(out: &mut Vec<u8>, answer: &Answer) -> Result<(), AllocError>
    ensures ok { OnOk result (out.new.items ≡ out.old.items ++ report.answer_line answer.now) }
{
    push_head(out, b"answer ", answer.ticket)?;
    push_end(out, &answer.ended)?;
    out.extend_from_slice(b"\n")
}

/// An entry's line, at the end.
fn push_entry(alloc: Global, out: &mut Vec<u8>, entry: &Entry) -> Result<(), NoMemory>
    ensures ok { OnOk result (out.new.items ≡ out.old.items ++ report.entry_line entry.now) }
{
    let words = words_of(alloc, &entry.part)?;
    push_entry_of(out, entry, words.as_slice())?;
    Ok(())
}

/// The line of an entry whose part has these words, at the end.
#[tactic(auto, unfolding(crate::specs::Report::entry_line))]
fn push_entry_of(out: &mut Vec<u8>, entry: &Entry, words: &[Bytes]) -> Result<(), AllocError>
    requires { words.now ≡ words_of entry.now.part }
    ensures ok { OnOk result (out.new.items ≡ out.old.items ++ report.entry_line entry.now) }
{
    push_head(out, b"entry ", entry.ticket)?;
    push_words(out, words)?;
    out.extend_from_slice(b" = ")?;
    push_value_text(out, &entry.reply)?;
    out.extend_from_slice(b"\n")
}

/// The lines of answers, at the end.
pub(crate) fn push_answers(out: &mut Vec<u8>, answers: &[Answer]) -> Result<(), NoMemory>
    ensures ok { OnOk result (out.new.items ≡ out.old.items ++ flat_map report.answer_line answers.now) }
{
    for answer in answers {
        push_answer(out, answer)?;
    }
    Ok(())
}

/// The lines of entries, at the end.
pub(crate) fn push_entries(
    alloc: Global,
    out: &mut Vec<u8>,
    entries: &[Entry],
) -> Result<(), NoMemory>
    ensures ok { OnOk result (out.new.items ≡ out.old.items ++ flat_map report.entry_line entries.now) }
{
    for entry in entries {
        push_entry(alloc, out, entry)?;
    }
    Ok(())
}

/// The line of a refused event, at the end.
#[tactic(auto, unfolding(crate::specs::Report::refused_line))]
pub(crate) fn push_refused(
    out: &mut Vec<u8>,
    number: u64,
    why: WorldFault,
) -> Result<(), AllocError>
    ensures ok { OnOk result (out.new.items ≡ out.old.items ++ report.refused_line number why) }
{
    let fault: &[u8] = match why {
        WorldFault::NotNow => b" NotNow\n",
        WorldFault::NoMemory => b" NoMemory\n",
    };
    out.extend_from_slice(b"refused ")?;
    push_number(out, number)?;
    out.extend_from_slice(fault)
}

/// The line that names a bad one.
#[tactic(auto, unfolding(crate::specs::Report::bad_line))]
pub fn bad_line(alloc: Global, number: u64) -> Result<Vec<u8>, NoMemory>
    ensures { IfOk result (λ text. text.items ≡ report.bad_line number) }
{
    let mut out = Vec::new(alloc);
    out.extend_from_slice(b"bad line ")?;
    push_number(&mut out, number)?;
    out.push(b'\n')?;
    Ok(out)
}
