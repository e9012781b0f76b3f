//! `simulate`: a script's events, one after another, from a new world.

ghost use Rattle.std.specs.Prelude.{◌≡◌, ◌≢◌, ◌≤◌, ◌⊎◌, ◌+◌, ℕ, List, Some, true, IfOk, IfErr, OnErr, length};
ghost use Rattle.std.specs.Io.KnownBytes.{Appends, Keeps};
ghost use Rattle.cluster_world.specs.Outcomes.{Opens, Reports, WritesInput, WritesScript};
ghost use Rattle.cluster_world.specs.Reading.{IsShort};
ghost use Rattle.cluster_world.specs.Simulate.{Writes, WritesFor};
ghost use Rattle.cluster_world.specs.Watched.{EndsAs};

use crate::fault::RunFault;
use crate::header::{Header, read_header};
use crate::input::{INPUT_LIMIT, Input, read_input};
use crate::outcome::Outcome;
use crate::report::{bad_line, push_answers, push_entries, push_refused};
use crate::schedule::read_events;
use crate::script_fault::ScriptFault;
use crate::watched::{WatchedReader, WatchedWriter, WriteFailed};
use crate::world::World;
use node_model::ClusterFault;
use resp_wire::NoMemory;
use std::alloc::Global;
use std::io::{Read, Write};
use thiserror::Error;

/// Why a run of `simulate` says nothing.
#[derive(Clone, Copy, Debug, Drop, Error)]
pub enum SimulateFault {
    /// A growth was refused before or after the events.
    #[error("no memory")]
    NoMemory,
    /// A write failed; how much went out is not known.
    #[error("the text can't be written")]
    WriteFailed,
}

impl From<NoMemory> for SimulateFault {
    fn from(_: NoMemory) -> Self {
        SimulateFault::NoMemory
    }
}

/// Runs the script of the reader in a new world, writes its answers and entries, and gives the status: 0 where every
/// event happened, else 1. An input of more than `INPUT_LIMIT` bytes, or of more reads, is too long.
pub fn run_simulate<R: Read, W: Write>(
    alloc: Global,
    reader: &mut WatchedReader<R>,
    writer: &mut WatchedWriter<W>,
) -> u8
    ensures status { result ≤ 1 }
    ensures reads { reader.new.reads ≤ reader.old.reads + INPUT_LIMIT }
    ensures ends { (input : List ℕ) → R.remaining reader.old.reader ≡ Some input
        → EndsAs (WritesFor INPUT_LIMIT input reader.old.reads reader.new) result (W.contents writer.old.writer) (W.contents writer.new.writer) writer.new.has_failed }
{
    match run_script(alloc, reader, writer) {
        Ok(status) => status,
        Err(_) => 1,
    }
}

/// Runs the script of the reader in a new world, writes its answers and entries, and gives the status. A fault of
/// memory comes before anything is written.
pub fn run_script<R: Read, W: Write>(
    alloc: Global,
    reader: &mut WatchedReader<R>,
    writer: &mut WatchedWriter<W>,
) -> Result<u8, SimulateFault>
    ensures status { IfOk result (λ status. status ≤ 1) }
    ensures reads { reader.new.reads ≤ reader.old.reads + INPUT_LIMIT }
    ensures exact { IfOk result (λ status. (input : List ℕ) → R.remaining reader.old.reader ≡ Some input
        → (text : List ℕ) × WritesFor INPUT_LIMIT input reader.old.reads reader.new status text × Appends (W.contents writer.old.writer) (W.contents writer.new.writer) text) }
    ensures silent { IfErr result (λ fault. fault ≢ SimulateFault.WriteFailed → Keeps (W.contents writer.old.writer) (W.contents writer.new.writer)) }
    ensures failed { OnErr result (Keeps (W.contents writer.old.writer) (W.contents writer.new.writer) ⊎ (writer.new.has_failed ≡ true)) }
{
    let input = read_input(alloc, reader)?;
    let outcome = outcome_of(alloc, input)?;
    match outcome.write_to(writer) {
        Ok(status) => Ok(status),
        Err(WriteFailed) => Err(SimulateFault::WriteFailed),
    }
}

/// What is written for an input.
fn outcome_of(alloc: Global, input: Input) -> Result<Outcome, NoMemory>
    requires { IsShort input }
    ensures status { IfOk result (λ outcome. outcome.status ≤ 1) }
    ensures text { IfOk result (λ outcome. WritesInput input outcome) }
{
    match input {
        Input::Whole(script) => outcome_of_script(alloc, &script),
        Input::TooLong => Outcome::failure(alloc, b"too long\n"),
        Input::Failed => Outcome::failure(alloc, b"read failed\n"),
    }
}

/// What is written for a script.
fn outcome_of_script(alloc: Global, script: &[u8]) -> Result<Outcome, NoMemory>
    requires { length script.now ≤ INPUT_LIMIT }
    ensures status { IfOk result (λ outcome. outcome.status ≤ 1) }
    ensures text { IfOk result (λ outcome. Writes script.now outcome.status outcome.text.items) }
{
    match play(alloc, script) {
        Ok(outcome) => Ok(outcome),
        Err(ScriptFault::BadLine(number)) => {
            let text = bad_line(alloc, number)?;
            Ok(Outcome { status: 1, text })
        }
        Err(ScriptFault::NoMemory) => Err(NoMemory),
    }
}

/// Reads a script, lets its events happen in a new world, and reports.
fn play(alloc: Global, script: &[u8]) -> Result<Outcome, ScriptFault>
    requires { length script.now ≤ INPUT_LIMIT }
    ensures status { IfOk result (λ outcome. outcome.status ≤ 1) }
    ensures text { WritesScript script.now result }
{
    let header = read_header(alloc, script)?;
    let mut world = open(alloc, &header)?;
    let events = read_events(alloc, header.workers, header.count + 1, header.rest)?;
    let ran = world.run(&events);
    Ok(report(alloc, &world, ran)?)
}

/// The world that a header begins with. Owners that no cluster begins with count as a fault of the line behind them.
fn open(alloc: Global, header: &Header) -> Result<World, ScriptFault>
    requires some { 1 ≤ header.now.workers }
    requires few { header.now.workers ≤ 64 }
    requires count { header.now.count ≤ INPUT_LIMIT }
    ensures { Opens header.now result }
{
    match World::new(alloc, header.nodes, header.workers, &header.owners) {
        Ok(world) => Ok(world),
        Err(ClusterFault::BadOwners) => Err(ScriptFault::BadLine(header.count + 1)),
        Err(ClusterFault::NoMemory) => Err(ScriptFault::NoMemory),
    }
}

/// The text of a world, and of the event that it refused.
fn report(alloc: Global, world: &World, ran: Result<(), RunFault>) -> Result<Outcome, NoMemory>
    ensures status { IfOk result (λ outcome. outcome.status ≤ 1) }
    ensures text { IfOk result (λ outcome. Reports world.now ran outcome) }
{
    let mut text = Vec::new(alloc);
    push_answers(&mut text, world.answers())?;
    push_entries(alloc, &mut text, world.history())?;
    match ran {
        Ok(()) => Ok(Outcome { status: 0, text }),
        Err(refused) => {
            push_refused(&mut text, refused.number, refused.why)?;
            Ok(Outcome { status: 1, text })
        }
    }
}
