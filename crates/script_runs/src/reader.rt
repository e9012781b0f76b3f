//! A reader of bytes that are all there.

ghost use Rattle.std.specs.Prelude.{◌≡◌, ◌<◌, ◌^◌, IfOk, length};
ghost use Rattle.script_runs.specs.Wanted.{IsOpen};

use resp_wire::{Bytes, Limits, NoMemory, Reader};
use std::alloc::Global;

/// A reader to which the bytes were fed.
pub(crate) fn reader_of(alloc: Global, bytes: &Bytes) -> Result<Reader, NoMemory>
    ensures open { IfOk result IsOpen }
    ensures fed { IfOk result (λ reader. reader.unread ≡ bytes.now) }
    ensures bound { IfOk result (λ reader. length reader.unread < 2 ^ 63) }
{
    let mut reader = Reader::new(alloc, Limits::full());
    match reader.feed(bytes.as_slice()) {
        Ok(()) => Ok(reader),
        Err(_) => Err(NoMemory),
    }
}
