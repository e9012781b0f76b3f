//! The text of a run's replies.

ghost use Rattle.std.specs.Prelude.{◌≡◌, ◌++◌, List, ℕ, IfOk, OnOk};
ghost use Rattle.std.specs.Fmt.{decimal};
ghost use Rattle.resp_wire.specs.Data.{Data};
ghost use Rattle.resp_wire.specs.Seen.{data_of};
ghost use Rattle.cluster_world.specs.Report.{space};
ghost use Rattle.script_runs.specs.ReplyText.{reply_line, reply_lines, Holds, RepliesText, Takes};
ghost use Rattle.script_runs.specs.Wanted.{IsOpen};

use crate::reader::reader_of;
use cluster_world::write_value_text;
use itoa::Buffer;
use resp_wire::{Bytes, NoMemory, Reader, Value, WireFault};
use std::alloc::{AllocError, Global};

/// The lines of all clients' replies, client by client.
pub(crate) fn push_replies(
    alloc: Global,
    out: &mut Vec<u8>,
    replies: &[Bytes],
) -> Result<(), NoMemory>
    ensures { OnOk result ((text : List ℕ) × RepliesText 0 replies.now text × (out.new.items ≡ out.old.items ++ text)) }
{
    for client in 0..replies.len() {
        push_client(alloc, out, client as u64, &replies[client])?;
    }
    Ok(())
}

/// The lines of one client's replies.
fn push_client(alloc: Global, out: &mut Vec<u8>, client: u64, bytes: &Bytes) -> Result<(), NoMemory>
    ensures { OnOk result ((values : List Data) × Holds bytes.now values × (out.new.items ≡ out.old.items ++ reply_lines client 0 values)) }
{
    let mut reader = reader_of(alloc, bytes)?;
    let mut number = 0;
    while let Some(value) = next_value(&mut reader)? {
        push_reply(out, client, number, value)?;
        number += 1;
    }
    Ok(())
}

/// Takes the next value, where one is whole.
fn next_value(reader: &mut Reader) -> Result<Option<Value>, NoMemory>
    requires { IsOpen reader.old }
    ensures { IfOk result (λ found. Takes reader.old found reader.new) }
{
    resp_wire::laws::front_is_whole();
    match reader.next() {
        Ok(Some(value)) => Ok(Some(value)),
        Ok(None) => Ok(None),
        Err(fault) => match fault {
            WireFault::NoMemory => Err(NoMemory),
            _ => Ok(None),
        },
    }
}

/// The line of a reply.
fn push_reply(out: &mut Vec<u8>, client: u64, number: u64, value: Value) -> Result<(), NoMemory>
    ensures { OnOk result (out.new.items ≡ out.old.items ++ reply_line client number (data_of value)) }
{
    push_line(out, client, number, &value)
}

#[tactic(auto, unfolding(crate::specs::ReplyText::reply_line))]
fn push_line(out: &mut Vec<u8>, client: u64, number: u64, value: &Value) -> Result<(), NoMemory>
    ensures { OnOk result (out.new.items ≡ out.old.items ++ reply_line client number (data_of value.now)) }
{
    out.extend_from_slice(b"reply ")?;
    push_number(out, client)?;
    push_number(out, number)?;
    write_value_text(out, value)?;
    out.push(b'\n')?;
    Ok(())
}

/// A number in decimal, and a space.
fn push_number(out: &mut Vec<u8>, number: u64) -> Result<(), AllocError>
    ensures { OnOk result (out.new.items ≡ out.old.items ++ decimal number ++ space) }
{
    let mut buffer = Buffer::new();
    out.extend_from_slice(buffer.format(number).as_bytes())?;
    out.extend_from_slice(b" ")
}
