//! The lines that a session writes by itself.

ghost use Rattle.std.specs.Prelude.{◌≡◌, IfOk};
ghost use Rattle.session_order.specs.PendingReply.{goodbye, protocol_error};

use key_split::{error_line, simple_line};
use resp_wire::{NoMemory, Value};
use std::alloc::Global;

/// The reply to QUIT.
pub fn goodbye(alloc: Global) -> Result<Value, NoMemory>
    ensures { IfOk result (λ value. value ≡ goodbye) }
{
    simple_line(alloc, b"OK")
}

/// The line after a fault of the client's.
pub fn protocol_error(alloc: Global) -> Result<Value, NoMemory>
    ensures { IfOk result (λ value. value ≡ protocol_error) }
{
    error_line(alloc, b"ERR proxy: protocol error")
}
