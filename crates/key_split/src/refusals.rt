//! The replies to requests that are refused.

ghost use Rattle.std.specs.Prelude.{◌≡◌, IfOk, IsErr, IsTrue};
ghost use Rattle.resp_wire.specs.Text.{is_one_line};
ghost use Rattle.key_split.specs.Texts.{lower_text_of, refusal_of};

use crate::lines::{error_line, into_error};
use crate::name::Name;
use crate::planned::PlanFault;
use resp_wire::{NoMemory, Value};
use std::alloc::Global;

/// The reply to a request that is refused. A refused growth has none: it is answered NoMemory.
pub fn refusal(alloc: Global, fault: &PlanFault) -> Result<Value, NoMemory>
    ensures value { IfOk result (λ reply. reply ≡ refusal_of fault.now) }
    ensures no_memory { fault.now ≡ PlanFault.NoMemory → IsErr result }
{
    match *fault {
        PlanFault::NoMemory => Err(NoMemory),
        PlanFault::UnknownCommand => error_line(alloc, b"ERR unknown command"),
        PlanFault::WrongCount(name) => wrong_count(alloc, name),
        PlanFault::Syntax => error_line(alloc, b"ERR syntax error"),
        PlanFault::NotANumber => {
            error_line(alloc, b"ERR value is not an integer or out of range")
        }
    }
}

fn wrong_count(alloc: Global, name: Name) -> Result<Value, NoMemory>
    ensures { IfOk result (λ reply. reply ≡ refusal_of (PlanFault.WrongCount name)) }
{
    let mut text = Vec::from_slice(alloc, b"ERR wrong number of arguments for '")?;
    text.extend_from_slice(lower_text(name))?;
    text.extend_from_slice(b"' command")?;
    Ok(into_error(text))
}

/// The name in lower case.
fn lower_text(name: Name) -> &'static [u8]
    ensures value { result.now ≡ lower_text_of name }
    ensures one_line { IsTrue (is_one_line result.now) }
{
    match name {
        Name::Get => b"get",
        Name::Set => b"set",
        Name::SetNx => b"setnx",
        Name::GetSet => b"getset",
        Name::GetDel => b"getdel",
        Name::Append => b"append",
        Name::StrLen => b"strlen",
        Name::Incr => b"incr",
        Name::Decr => b"decr",
        Name::IncrBy => b"incrby",
        Name::Del => b"del",
        Name::Exists => b"exists",
        Name::MGet => b"mget",
        Name::MSet => b"mset",
        Name::Ping => b"ping",
        Name::Echo => b"echo",
        Name::Select => b"select",
        Name::Quit => b"quit",
    }
}
