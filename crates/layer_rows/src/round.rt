//! Requests that are read in pieces and written back.

ghost use Rattle.std.specs.Prelude.{◌<◌};

use crate::notation::Line;
use resp_wire::{Limits, Reader, Value, WireFault, write_value};
use std::alloc::Global;

/// A reader, and what came of the values that it gave.
#[derive(Drop)]
struct Round {
    reader: Reader,
    /// The last value, written back.
    out: Vec<u8>,
    /// Values that were read.
    values: u64,
    /// Bytes that they were written back in.
    bytes: u64,
}

/// `COUNT SIZE`: reads COUNT requests in pieces of SIZE bytes, and writes each back. Answers how many values came, and
/// how many bytes were written.
pub fn call(line: &mut Line) {
    if let Some((count, size)) = line.read::<(u64, usize)>() {
        line.show(rounds(line.alloc, count, size.max(1)));
    }
}

fn rounds(alloc: Global, count: u64, size: usize) -> Result<(u64, u64), WireFault>
    requires { 0 < size }
{
    let Some(text) = requests(alloc, count) else {
        return Err(WireFault::NoMemory);
    };
    let mut round = Round::new(alloc);
    round.read_all(&text, size)?;
    Ok((round.values, round.bytes))
}

/// `count` requests for a key of ten bytes.
fn requests(alloc: Global, count: u64) -> Option<Vec<u8>> {
    let mut text = Vec::new(alloc);
    for _ in 0..count {
        text.extend_from_slice(b"*2\r\n$3\r\nGET\r\n$10\r\nkey:001234\r\n")
            .ok()?;
    }
    Some(text)
}

impl Round {
    fn new(alloc: Global) -> Round {
        Round {
            reader: Reader::new(alloc, Limits::full()),
            out: Vec::new(alloc),
            values: 0,
            bytes: 0,
        }
    }

    /// Reads a text in pieces of `size` bytes.
    fn read_all(&mut self, text: &[u8], size: usize) -> Result<(), WireFault>
        requires { 0 < size }
    {
        for piece in text.chunks(size) {
            self.reader.feed(piece)?;
            self.write_back()?;
        }
        Ok(())
    }

    /// Takes the values that are whole, and writes each.
    fn write_back(&mut self) -> Result<(), WireFault> {
        for _ in 0..u64::MAX {
            match self.reader.next()? {
                Some(value) => self.write(value)?,
                None => return Ok(()),
            }
        }
        Ok(())
    }

    fn write(&mut self, value: Value) -> Result<(), WireFault> {
        self.out.clear();
        let written = write_value(&mut self.out, &value);
        drop(value);
        if written.is_err() {
            return Err(WireFault::NoMemory);
        }
        self.values = self.values.saturating_add(1);
        self.bytes = self.bytes.saturating_add(self.out.len() as u64);
        Ok(())
    }
}
