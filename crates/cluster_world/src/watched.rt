//! A reader and a writer that note what became of their calls.

use std::io::{Read, Write};
use std::marker::Model;

/// What the last read of an input gave.
#[derive(Clone, Copy)]
pub enum LastRead {
    /// Some bytes, or there was no read yet.
    Bytes,
    /// The end.
    End,
    /// It failed.
    Failure,
}

/// A reader, with how often it was read and what came last.
#[derive(Drop)]
pub struct WatchedReader<R> {
    reader: R,
    reads: u64,
    last: LastRead,
}

impl<R> Model for WatchedReader<R> {
    ghost use Rattle.cluster_world.specs.Watched.{WatchedReaderModel};

    ghost Value = { WatchedReaderModel R };

    ghost view = { λ watched. record { reader = watched.reader; reads = watched.reads; last = watched.last } };
}

impl<R> WatchedReader<R> {
    ghost use Rattle.std.specs.Prelude.{◌≡◌};
    ghost use Rattle.cluster_world.specs.declared.watched.LastRead.TheVariants as last;

    /// A reader that was not read yet.
    pub fn new(reader: R) -> WatchedReader<R>
        ensures { result ≡ record { reader = reader; reads = 0; last = last.Bytes } }
    {
        WatchedReader {
            reader,
            reads: 0,
            last: LastRead::Bytes,
        }
    }
}

impl<R: Read> WatchedReader<R> {
    ghost use Rattle.std.specs.Prelude.{◌<◌, length};
    ghost use Rattle.cluster_world.specs.Watched.{Reads};

    /// One read into the room. `None` where it failed, or can't be counted.
    pub fn read(&mut self, room: &mut [u8]) -> Option<usize>
        requires { 0 < length room.old }
        ensures { Reads R.remaining self.old room.new result self.new }
    {
        self.last = LastRead::Failure;
        let reads = self.reads.checked_add(1)?;
        self.reads = reads;
        let Ok(count) = self.reader.read(room) else {
            return None;
        };
        self.last = if count == 0 {
            LastRead::End
        } else {
            LastRead::Bytes
        };
        Some(count)
    }
}

/// A write failed; how much went out is not known.
#[derive(Clone, Copy)]
pub struct WriteFailed;

/// A writer, with whether a write failed.
#[derive(Drop)]
pub struct WatchedWriter<W> {
    writer: W,
    has_failed: bool,
}

impl<W> Model for WatchedWriter<W> {
    ghost use Rattle.cluster_world.specs.Watched.{WatchedWriterModel};

    ghost Value = { WatchedWriterModel W };

    ghost view = { λ watched. record { writer = watched.writer; has_failed = watched.has_failed } };
}

impl<W> WatchedWriter<W> {
    ghost use Rattle.std.specs.Prelude.{◌≡◌, false};

    /// A writer to which nothing was written yet.
    pub fn new(writer: W) -> WatchedWriter<W>
        ensures { result ≡ record { writer = writer; has_failed = false } }
    {
        WatchedWriter {
            writer,
            has_failed: false,
        }
    }
}

impl<W: Write> WatchedWriter<W> {
    ghost use Rattle.std.specs.Prelude.{◌≡◌, true, OnOk, OnErr};
    ghost use Rattle.std.specs.Io.KnownBytes.{Appends};

    /// Writes all of the text.
    pub fn write(&mut self, text: &[u8]) -> Result<(), WriteFailed>
        ensures text { OnOk result (Appends (W.contents self.old.writer) (W.contents self.new.writer) text.now) }
        ensures kept { OnOk result (self.new.has_failed ≡ self.old.has_failed) }
        ensures failed { OnErr result (self.new.has_failed ≡ true) }
    {
        if self.writer.write_all(text).is_err() {
            self.has_failed = true;
            return Err(WriteFailed);
        }
        Ok(())
    }
}
