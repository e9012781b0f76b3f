//! What a node writes for what it answers.

ghost use Rattle.std.specs.Prelude.{◌≡◌, ◌<◌, IfOk, IsTrue, length};
ghost use Rattle.resp_wire.specs.Text.{is_one_line};
ghost use Rattle.slot_map.specs.Table.{endpoint_of};
ghost use Rattle.key_split.specs.Told.{redirect, redirect_text, CanBeWritten, IsWritten};

use crate::lines::{error_line, into_error};
use crate::travel::Told;
use itoa::Buffer;
use resp_wire::{NoMemory, Value};
use slot_hash::Slot;
use slot_map::{NodeId, NodeTable};
use std::alloc::Global;

/// What a node writes for what it answers.
pub fn told_value(alloc: Global, told: &Told, table: &NodeTable) -> Result<Value, NoMemory>
    requires { CanBeWritten told.now table.now }
    ensures { IfOk result (λ value. IsWritten told.now table.now value) }
{
    match told {
        Told::Reply(value) => value.copy(alloc),
        Told::Moved(slot, node) => redirect(alloc, b"MOVED ", *slot, *node, table),
        Told::Ask(slot, node) => redirect(alloc, b"ASK ", *slot, *node, table),
        Told::TryAgain => error_line(
            alloc,
            b"TRYAGAIN Multiple keys request during rehashing of slot",
        ),
        Told::ClusterDown => error_line(alloc, b"CLUSTERDOWN Hash slot not served"),
        Told::Unclear | Told::Lost | Told::Unsent => unreachable!(),
    }
}

fn redirect(
    alloc: Global,
    word: &[u8],
    slot: Slot,
    node: NodeId,
    table: &NodeTable,
) -> Result<Value, NoMemory>
    requires known { node < length table.now }
    requires one_line { IsTrue (is_one_line word.now) }
    ensures { IfOk result (λ value. value ≡ redirect word.now slot (endpoint_of table.now node)) }
{
    let (host, port) = table.at(node);
    let text = redirect_text(alloc, word, slot.number(), host, port)?;
    Ok(into_error(text))
}

fn redirect_text(
    alloc: Global,
    word: &[u8],
    slot: u16,
    host: &[u8],
    port: u16,
) -> Result<Vec<u8>, NoMemory>
    ensures { IfOk result (λ text. text.items ≡ redirect_text word.now slot (record { host = host.now; port = port })) }
{
    let mut buffer = Buffer::new();
    let mut text = Vec::from_slice(alloc, word)?;
    text.extend_from_slice(buffer.format(slot).as_bytes())?;
    text.extend_from_slice(b" ")?;
    text.extend_from_slice(host)?;
    text.extend_from_slice(b":")?;
    text.extend_from_slice(buffer.format(port).as_bytes())?;
    Ok(text)
}
