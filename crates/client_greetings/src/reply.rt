//! The replies to greetings.

ghost use Rattle.std.specs.Prelude.{◌≡◌, ◌∷◌, ◌++◌, [], pos, map, IfOk, OnOk, IsTrue};
ghost use Rattle.std.specs.Fmt.{decimal};
ghost use Rattle.resp_wire.specs.Data.{bulk, integer};
ghost use Rattle.resp_wire.specs.Seen.{data_of};
ghost use Rattle.resp_wire.specs.Text.{is_one_line};
ghost use Rattle.client_greetings.specs.Replies.{count_text, hello_back, hello_front, hello_reply, info_text, name_reply, reply_of, text_of};

use crate::greeting::{Greeting, Subcommand};
use itoa::Buffer;
use key_split::{error_line, into_error, simple_line};
use resp_wire::{Bytes, NoMemory, Value, Values};
use std::alloc::Global;

/// The client that greets, and where it does.
#[derive(Clone, Copy)]
pub struct Greeter<'a> {
    /// Its number, which no other client has.
    pub id: u32,
    /// Its name, empty where it has none.
    pub name: &'a [u8],
    /// The port at which it came.
    pub port: u16,
}

/// The reply to a greeting.
pub fn reply_to(alloc: Global, greeting: Greeting, client: Greeter<'_>) -> Result<Value, NoMemory>
    ensures { IfOk result (λ reply. reply ≡ reply_of greeting client.entry.id client.entry.name.now client.entry.port) }
{
    match greeting {
        Greeting::Hello | Greeting::HelloNamed => hello_reply(alloc, client.id),
        Greeting::NoProtocol => error_line(alloc, b"NOPROTO unsupported protocol version"),
        Greeting::NotANumber => error_line(
            alloc,
            b"ERR Protocol version is not an integer or out of range",
        ),
        Greeting::BadOption => error_line(alloc, b"ERR Syntax error in HELLO"),
        Greeting::Named | Greeting::Noted => simple_line(alloc, b"OK"),
        Greeting::BadName => error_line(
            alloc,
            b"ERR Client names cannot contain spaces, newlines or special characters.",
        ),
        Greeting::Name => name_reply(alloc, client.name),
        Greeting::Id => Ok(Value::Integer(i64::from(client.id))),
        Greeting::Syntax => error_line(alloc, b"ERR syntax error"),
        Greeting::Nothing => Ok(Value::Array(Values::new(Vec::new(alloc)))),
        Greeting::Zero => Ok(Value::Integer(0)),
        Greeting::Info => info_reply(alloc, client.port),
        Greeting::WrongCount(subcommand) => wrong_count(alloc, subcommand),
    }
}

fn hello_reply(alloc: Global, id: u32) -> Result<Value, NoMemory>
    ensures { IfOk result (λ reply. reply ≡ hello_reply id) }
{
    let mut items = hello_front(alloc)?;
    items.push(Value::Integer(i64::from(id)))?;
    push_back(alloc, &mut items)?;
    Ok(Value::Array(Values::new(items)))
}

fn hello_front(alloc: Global) -> Result<Vec<Value>, NoMemory>
    ensures { IfOk result (λ items. map data_of items.items ≡ hello_front) }
{
    let mut items = Vec::new(alloc);
    push_text(alloc, &mut items, b"server")?;
    push_text(alloc, &mut items, b"redis")?;
    push_text(alloc, &mut items, b"version")?;
    push_text(alloc, &mut items, b"7.0.15")?;
    push_text(alloc, &mut items, b"proto")?;
    items.push(Value::Integer(2))?;
    push_text(alloc, &mut items, b"id")?;
    Ok(items)
}

fn push_back(alloc: Global, items: &mut Vec<Value>) -> Result<(), NoMemory>
    ensures { OnOk result (map data_of items.new.items ≡ map data_of items.old.items ++ hello_back) }
{
    push_text(alloc, items, b"mode")?;
    push_text(alloc, items, b"standalone")?;
    push_text(alloc, items, b"role")?;
    push_text(alloc, items, b"master")?;
    push_text(alloc, items, b"modules")?;
    items.push(Value::Array(Values::new(Vec::new(alloc))))?;
    Ok(())
}

fn push_text(alloc: Global, items: &mut Vec<Value>, text: &[u8]) -> Result<(), NoMemory>
    ensures { OnOk result (items.new.items ≡ items.old.items ++ Value.Bulk text.now ∷ []) }
{
    let text = Bytes::from_slice(alloc, text)?;
    items.push(Value::Bulk(text))?;
    Ok(())
}

fn name_reply(alloc: Global, name: &[u8]) -> Result<Value, NoMemory>
    ensures { IfOk result (λ reply. reply ≡ name_reply name.now) }
{
    if name.is_empty() {
        return Ok(Value::NullBulk);
    }
    Ok(Value::Bulk(Bytes::from_slice(alloc, name)?))
}

fn info_reply(alloc: Global, port: u16) -> Result<Value, NoMemory>
    ensures { IfOk result (λ reply. reply ≡ Value.Bulk (info_text port)) }
{
    let mut text = Vec::from_slice(
        alloc,
        b"# Server\r\nredis_version:7.0.15\r\nredis_mode:standalone\r\ntcp_port:",
    )?;
    push_number(&mut text, port)?;
    text.extend_from_slice(
        b"\r\n\r\n# Persistence\r\nloading:0\r\n\r\n# Replication\r\nrole:master\r\n",
    )?;
    Ok(Value::Bulk(Bytes::new(text)))
}

fn push_number(text: &mut Vec<u8>, number: u16) -> Result<(), NoMemory>
    ensures { OnOk result (text.new.items ≡ text.old.items ++ decimal number) }
{
    let mut buffer = Buffer::new();
    text.extend_from_slice(buffer.format(number).as_bytes())?;
    Ok(())
}

#[tactic(auto, using(crate::proofs::OneLine::count_is_one_line))]
fn wrong_count(alloc: Global, subcommand: Subcommand) -> Result<Value, NoMemory>
    ensures { IfOk result (λ reply. reply ≡ Value.Error (count_text subcommand)) }
{
    let mut text = Vec::from_slice(alloc, b"ERR wrong number of arguments for '")?;
    text.extend_from_slice(text_of(subcommand))?;
    text.extend_from_slice(b"' command")?;
    Ok(into_error(text))
}

fn text_of(subcommand: Subcommand) -> &'static [u8]
    ensures { result.now ≡ text_of subcommand }
{
    match subcommand {
        Subcommand::SetName => b"client|setname",
        Subcommand::SetInfo => b"client|setinfo",
        Subcommand::GetName => b"client|getname",
        Subcommand::ClientId => b"client|id",
        Subcommand::NoEvict => b"client|no-evict",
        Subcommand::NoTouch => b"client|no-touch",
        Subcommand::CommandCount => b"command|count",
        Subcommand::ConfigGet => b"config|get",
    }
}
