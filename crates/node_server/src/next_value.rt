//! The next value of the bytes that came.

ghost use Rattle.std.specs.Prelude.{◌≡◌, OnOk, OnErr};
ghost use Rattle.node_server.specs.NodeConnections.{fed_with, TakesFront};

use resp_wire::{NoMemory, Reader, Value, WireFault};

/// What the next value is.
#[derive(Drop)]
pub(crate) enum NextValue {
    Whole(Value),
    /// No value is whole.
    Partial,
    /// The bytes are no value.
    Garbled,
}

/// Takes the next value off the reader.
pub(crate) fn take_next(reader: &mut Reader) -> Result<NextValue, NoMemory>
    ensures { TakesFront reader.old result reader.new }
{
    match reader.next() {
        Ok(Some(value)) => Ok(NextValue::Whole(value)),
        Ok(None) => Ok(NextValue::Partial),
        Err(WireFault::NoMemory) => Err(NoMemory),
        Err(WireFault::BadType) => Ok(NextValue::Garbled),
        Err(WireFault::BadNumber) => Ok(NextValue::Garbled),
        Err(WireFault::TooLong) => Ok(NextValue::Garbled),
        Err(WireFault::TooMany) => Ok(NextValue::Garbled),
        Err(WireFault::TooDeep) => Ok(NextValue::Garbled),
        Err(WireFault::BadEnd) => Ok(NextValue::Garbled),
    }
}

/// Puts a piece behind the bytes that came, unless a fault was found in them.
pub(crate) fn feed_reader(reader: &mut Reader, piece: &[u8]) -> Result<(), NoMemory>
    ensures ok { OnOk result (reader.new ≡ fed_with reader.old.fault reader.old piece.now) }
    ensures err { OnErr result (reader.new ≡ reader.old) }
{
    match reader.feed(piece) {
        Ok(()) => Ok(()),
        Err(WireFault::NoMemory) => Err(NoMemory),
        Err(WireFault::BadType) => Ok(()),
        Err(WireFault::BadNumber) => Ok(()),
        Err(WireFault::TooLong) => Ok(()),
        Err(WireFault::TooMany) => Ok(()),
        Err(WireFault::TooDeep) => Ok(()),
        Err(WireFault::BadEnd) => Ok(()),
    }
}
