//! A run of scripts, from a reader to a writer.

ghost use Rattle.std.specs.Prelude.{◌≡◌, ◌≢◌, ◌≤◌, ◌<◌, ◌⊎◌, ◌+◌, ℕ, List, Some, true, IfOk, IfErr, OnErr};
ghost use Rattle.std.specs.Io.KnownBytes.{Appends, Keeps};
ghost use Rattle.cluster_world.specs.Watched.{EndsAs};
ghost use Rattle.script_runs.specs.RunText.{WritesFor};

use crate::scripts::fault::ScriptsFault;
use crate::scripts::outcome::outcome_of;
use cluster_world::{INPUT_LIMIT, WatchedReader, WatchedWriter, WriteFailed, read_input};
use proxy_runtime::Host;
use std::io::{Read, Write};

/// Runs the scripts of the reader on a cluster of three nodes, writes each client's replies and whether the run was lawful,
/// and gives the status: 0 where it was, else 1. An input of more than `INPUT_LIMIT` bytes, or of more reads, is too long.
pub fn run_scripts<R: Host, I: Read, W: Write>(
    rt: &R,
    reader: &mut WatchedReader<I>,
    writer: &mut WatchedWriter<W>,
    workers: u16,
) -> u8
    requires { (0 < workers) × (workers ≤ 64) }
    ensures status { result ≤ 1 }
    ensures reads { reader.new.reads ≤ reader.old.reads + INPUT_LIMIT }
    ensures ends { (input : List ℕ) → I.remaining reader.old.reader ≡ Some input
        → EndsAs (WritesFor INPUT_LIMIT workers input reader.old.reads reader.new) result (W.contents writer.old.writer) (W.contents writer.new.writer) writer.new.has_failed }
{
    match play_scripts(rt, reader, writer, workers) {
        Ok(status) => status,
        Err(_) => 1,
    }
}

/// Runs the scripts of the reader as `run_scripts` does. Whatever fault comes but that of the write comes before anything is
/// written.
pub fn play_scripts<R: Host, I: Read, W: Write>(
    rt: &R,
    reader: &mut WatchedReader<I>,
    writer: &mut WatchedWriter<W>,
    workers: u16,
) -> Result<u8, ScriptsFault>
    requires { (0 < workers) × (workers ≤ 64) }
    ensures status { IfOk result (λ status. status ≤ 1) }
    ensures reads { reader.new.reads ≤ reader.old.reads + INPUT_LIMIT }
    ensures exact { IfOk result (λ status. (input : List ℕ) → I.remaining reader.old.reader ≡ Some input
        → (text : List ℕ) × WritesFor INPUT_LIMIT workers input reader.old.reads reader.new status text × Appends (W.contents writer.old.writer) (W.contents writer.new.writer) text) }
    ensures silent { IfErr result (λ fault. fault ≢ ScriptsFault.WriteFailed → Keeps (W.contents writer.old.writer) (W.contents writer.new.writer)) }
    ensures failed { OnErr result (Keeps (W.contents writer.old.writer) (W.contents writer.new.writer) ⊎ (writer.new.has_failed ≡ true)) }
{
    let input = read_input(rt.alloc(), reader)?;
    let outcome = outcome_of(rt, rt.alloc(), input, workers)?;
    match writer.write(&outcome.text) {
        Ok(()) => Ok(outcome.status),
        Err(WriteFailed) => Err(ScriptsFault::WriteFailed),
    }
}
