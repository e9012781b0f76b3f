//! The canonical spelling of a value.

ghost use Rattle.std.specs.Prelude.{◌≡◌, ◌++◌, [], OnOk, OnErr, decimal};
ghost use Rattle.resp_wire.specs.Data.{bulk, items_of};
ghost use Rattle.resp_wire.specs.Seen.{data_of};
ghost use Rattle.resp_wire.specs.Gives.{Grows};
ghost use Rattle.resp_wire.specs.Canonical as spec;
ghost use Rattle.resp_wire.specs.Spelling.{dollar};
ghost use Rattle.resp_wire.specs.Canonical.{canonical, canonical_all};

use crate::fault::NoMemory;
use crate::room::make_room;
use crate::value::{Value, Values};
use itoa::Buffer;
use std::alloc::AllocError;

/// Appends the canonical spelling of a value. An `Err` leaves what was there.
pub fn write_value(out: &mut Vec<u8>, value: &Value) -> Result<(), NoMemory>
    ensures ok { OnOk result (out.new.items ≡ out.old.items ++ canonical (data_of value.now)) }
    ensures err { OnErr result (out.new.items ≡ out.old.items) }
{
    let before = out.len();
    match push_value(out, value) {
        Ok(()) => Ok(()),
        Err(_) => {
            out.truncate(before);
            Err(NoMemory)
        }
    }
}

/// Appends what stands before the `len` bytes of a bulk string. An `Err` leaves what was there.
pub fn write_bulk_head(out: &mut Vec<u8>, len: usize) -> Result<(), NoMemory>
    ensures ok { OnOk result (out.new.items ≡ out.old.items ++ spec.line dollar (decimal len) []) }
    ensures err { OnErr result (out.new.items ≡ out.old.items) }
{
    let start = out.len();
    match push_length(out, b'$', len) {
        Ok(()) => Ok(()),
        Err(_) => {
            out.truncate(start);
            Err(NoMemory)
        }
    }
}

/// A line of this kind and text, at the end.
fn push_line(out: &mut Vec<u8>, kind: u8, text: &[u8]) -> Result<(), AllocError>
    ensures ok { OnOk result (out.new.items ≡ out.old.items ++ spec.line kind text.now []) }
    ensures grows { Grows out.old.items out.new.items }
{
    out.push(kind)?;
    out.extend_from_slice(text)?;
    out.extend_from_slice(b"\r\n")
}

/// A line of this kind and length, at the end.
fn push_length(out: &mut Vec<u8>, kind: u8, len: usize) -> Result<(), AllocError>
    ensures ok { OnOk result (out.new.items ≡ out.old.items ++ spec.line kind (decimal len) []) }
    ensures grows { Grows out.old.items out.new.items }
{
    let mut buffer = Buffer::new();
    push_line(out, kind, buffer.format(len).as_bytes())
}

/// A bulk string, at the end.
fn push_bulk(out: &mut Vec<u8>, body: &[u8]) -> Result<(), AllocError>
    ensures ok { OnOk result (out.new.items ≡ out.old.items ++ canonical (bulk body.now)) }
    ensures grows { Grows out.old.items out.new.items }
{
    make_room(out, body.len());
    push_length(out, b'$', body.len())?;
    out.extend_from_slice(body)?;
    out.extend_from_slice(b"\r\n")
}

/// The canonical spelling of a value, at the end. An `Err` may leave a part of it.
#[cycle(write)]
fn push_value(out: &mut Vec<u8>, value: &Value) -> Result<(), AllocError>
    ensures ok { OnOk result (out.new.items ≡ out.old.items ++ canonical (data_of value.now)) }
    ensures grows { Grows out.old.items out.new.items }
{
    match value {
        Value::Simple(line) => push_line(out, b'+', line.bytes()),
        Value::Error(line) => push_line(out, b'-', line.bytes()),
        Value::Integer(number) => {
            let mut buffer = Buffer::new();
            push_line(out, b':', buffer.format(*number).as_bytes())
        }
        Value::Bulk(bytes) => push_bulk(out, bytes.as_slice()),
        Value::NullBulk => push_line(out, b'$', b"-1"),
        Value::Array(items) => {
            push_length(out, b'*', items.as_slice().len())?;
            push_items(out, items)
        }
        Value::NullArray => push_line(out, b'*', b"-1"),
    }
}

#[cycle(write)]
fn push_items(out: &mut Vec<u8>, items: &Values) -> Result<(), AllocError>
    ensures ok { OnOk result (out.new.items ≡ out.old.items ++ canonical_all (items_of items.now)) }
    ensures grows { Grows out.old.items out.new.items }
{
    for item in items.as_slice() {
        push_value(out, item)?;
    }
    Ok(())
}
