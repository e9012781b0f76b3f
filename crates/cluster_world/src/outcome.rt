//! What a program writes, and the status that it ends with.

ghost use Rattle.std.specs.Prelude.{◌≡◌, true, IfOk, OnErr};
ghost use Rattle.std.specs.Io.KnownBytes.{Appends};

use crate::watched::{WatchedWriter, WriteFailed};
use resp_wire::NoMemory;
use std::alloc::Global;
use std::io::Write;

/// What is written, and the status.
#[derive(Drop)]
pub struct Outcome {
    pub status: u8,
    pub text: Vec<u8>,
}

impl Outcome {
    /// A line alone, with status 1: why there is nothing else to write.
    pub fn failure(alloc: Global, line: &[u8]) -> Result<Outcome, NoMemory>
        ensures { IfOk result (λ outcome. (outcome.status ≡ 1) × (outcome.text.items ≡ line.now)) }
    {
        let text = Vec::from_slice(alloc, line)?;
        Ok(Outcome { status: 1, text })
    }

    /// Writes the text, and gives the status.
    pub fn write_to<W: Write>(&self, writer: &mut WatchedWriter<W>) -> Result<u8, WriteFailed>
        ensures status { IfOk result (λ status. status ≡ self.now.status) }
        ensures appends { IfOk result (λ status. Appends (W.contents writer.old.writer) (W.contents writer.new.writer) self.now.text.items) }
        ensures failed { OnErr result (writer.new.has_failed ≡ true) }
    {
        writer.write(&self.text)?;
        Ok(self.status)
    }
}
