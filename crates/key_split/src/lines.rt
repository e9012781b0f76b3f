//! Replies of one line.

ghost use Rattle.std.specs.Prelude.{◌≡◌, IfOk, IsTrue};
ghost use Rattle.resp_wire.specs.Text.{is_one_line};

use resp_wire::{Line, NoMemory, Value};
use std::alloc::Global;

/// A simple string of this text.
pub fn simple_line(alloc: Global, text: &[u8]) -> Result<Value, NoMemory>
    requires { IsTrue (is_one_line text.now) }
    ensures { IfOk result (λ reply. reply ≡ Value.Simple text.now) }
{
    Ok(Value::Simple(Line::from_text(alloc, text)?))
}

/// An error of this text.
pub fn error_line(alloc: Global, text: &[u8]) -> Result<Value, NoMemory>
    requires { IsTrue (is_one_line text.now) }
    ensures { IfOk result (λ reply. reply ≡ Value.Error text.now) }
{
    Ok(Value::Error(Line::from_text(alloc, text)?))
}

/// The text as an error, where it stands.
pub fn into_error(text: Vec<u8>) -> Value
    requires { IsTrue (is_one_line text.items) }
    ensures { result ≡ Value.Error text.items }
{
    match Line::new(text) {
        Some(line) => Value::Error(line),
        None => unreachable!(),
    }
}
