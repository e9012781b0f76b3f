//! What the words of a line are read as.

use crate::notation::fault::CallFault;
use crate::notation::line::Line;
use key_split::read_number;
use resp_wire::{Bytes, Limits, Reader, Value};
use slot_hash::Slot;
use slot_map::NodeId;
use std::alloc::Global;

/// What one word says, or some.
pub trait Word: Sized {
    /// What the next words of the line say. Where they say none, the line has a fault.
    fn next_in(line: &mut Line) -> Option<Self>;
}

impl Word for u64 {
    fn next_in(line: &mut Line) -> Option<u64> {
        let number = line.bytes().and_then(number_in);
        line.found(number, CallFault::BadNumber)
    }
}

impl Word for u32 {
    fn next_in(line: &mut Line) -> Option<u32> {
        narrow_in(line)
    }
}

impl Word for u16 {
    fn next_in(line: &mut Line) -> Option<u16> {
        narrow_in(line)
    }
}

impl Word for u8 {
    fn next_in(line: &mut Line) -> Option<u8> {
        narrow_in(line)
    }
}

impl Word for usize {
    fn next_in(line: &mut Line) -> Option<usize> {
        narrow_in(line)
    }
}

/// The next word as a number of a narrow type.
fn narrow_in<T: TryFrom<u64> + Drop>(line: &mut Line) -> Option<T>
where
    T::Error: Drop,
{
    let number = line.read::<u64>()?;
    line.found(T::try_from(number).ok(), CallFault::BadNumber)
}

impl Word for Slot {
    fn next_in(line: &mut Line) -> Option<Slot> {
        let slot = line.read().and_then(Slot::new);
        line.found(slot, CallFault::BadNumber)
    }
}

impl Word for NodeId {
    fn next_in(line: &mut Line) -> Option<NodeId> {
        let node = line.read().and_then(NodeId::new);
        line.found(node, CallFault::BadNumber)
    }
}

/// Whether ASKING goes before a command.
impl Word for bool {
    fn next_in(line: &mut Line) -> Option<bool> {
        match line.name()? {
            "plain" => Some(false),
            "asking" => Some(true),
            _ => line.found(None, CallFault::UnknownWord),
        }
    }
}

impl Word for Bytes {
    fn next_in(line: &mut Line) -> Option<Bytes> {
        line.take()
    }
}

/// The value that the bytes of a word spell.
impl Word for Value {
    fn next_in(line: &mut Line) -> Option<Value> {
        let bytes = line.read::<Bytes>()?;
        line.made(value_in(line.alloc, bytes.as_slice()))
    }
}

/// One behind the other.
impl<T: Word + Drop, U: Word + Drop> Word for (T, U) {
    fn next_in(line: &mut Line) -> Option<(T, U)> {
        T::next_in(line).zip(U::next_in(line))
    }
}

/// The number that decimal digits write.
pub(crate) fn number_in(word: &[u8]) -> Option<u64> {
    u64::try_from(read_number(word)?).ok()
}

fn value_in(alloc: Global, bytes: &[u8]) -> Result<Value, CallFault> {
    let mut reader = Reader::new(alloc, Limits::full());
    if reader.feed(bytes).is_err() {
        return Err(CallFault::NoMemory);
    }
    match reader.next() {
        Ok(Some(value)) => Ok(value),
        Ok(None) | Err(_) => Err(CallFault::BadValue),
    }
}
