//! The header of a script.

ghost use Rattle.std.specs.Prelude.{◌≡◌, ◌≤◌, ◌<◌, ◌+◌, ◌++◌, List, IfOk, IfErr, IfSome, length, drop};
ghost use Rattle.slot_map.specs.declared.ops.MapOp.{MapOp};
ghost use Rattle.slot_map.specs.Map.{MapShows};
ghost use Rattle.cluster_world.specs.Cuts.{Shows};
ghost use Rattle.cluster_world.specs.Reading.{ReadsHeader, SaysFirst, SaysNone};
ghost use Rattle.cluster_world.specs.Script.{lines_of};
ghost use Rattle.cluster_world.specs.Schedule as schedule;

use crate::fields::{node_in, number_under, slot_in};
use crate::input::INPUT_LIMIT;
use crate::script::read_line;
use crate::script_fault::ScriptFault;
use resp_wire::{Bytes, NoMemory, Words};
use slot_map::{MapOp, SlotMap};
use std::alloc::Global;

/// How many workers there may be.
const WORKER_LIMIT: u64 = 64;

/// What a script's header says, and what follows it.
#[derive(Drop)]
pub(crate) struct Header<'a> {
    pub(crate) nodes: u8,
    pub(crate) workers: u16,
    pub(crate) owners: SlotMap,
    /// How many lines it has.
    pub(crate) count: u64,
    pub(crate) rest: &'a [u8],
}

/// Owners, and what follows them.
#[derive(Clone, Copy)]
struct Owners<'a> {
    count: u64,
    rest: &'a [u8],
}

/// How many nodes there are, and what follows their line.
#[derive(Clone, Copy)]
struct NodesLine<'a> {
    nodes: u8,
    rest: &'a [u8],
}

/// How many workers there are, and what follows their line.
#[derive(Clone, Copy)]
struct WorkersLine<'a> {
    workers: u16,
    rest: &'a [u8],
}

/// Reads the header of a script.
pub(crate) fn read_header<'a>(alloc: Global, script: &'a [u8]) -> Result<Header<'a>, ScriptFault>
    requires { length script.now ≤ INPUT_LIMIT }
    ensures header { ReadsHeader script.now result }
    ensures workers { IfOk result (λ header. (1 ≤ header.workers) × (header.workers ≤ 64)) }
    ensures within { IfOk result (λ header. header.count + length header.rest.now ≤ INPUT_LIMIT) }
{
    let first = read_nodes(alloc, script)?;
    let second = read_workers(alloc, first.rest)?;
    let mut owners = SlotMap::new(alloc)?;
    let owned = read_owners(alloc, &mut owners, second.rest)?;
    if owned.count == 0 {
        return Err(ScriptFault::BadLine(3));
    }
    Ok(Header {
        nodes: first.nodes,
        workers: second.workers,
        owners,
        count: owned.count + 2,
        rest: owned.rest,
    })
}

/// Reads the line that says how many nodes there are, which is the first.
fn read_nodes<'a>(alloc: Global, lines: &'a [u8]) -> Result<NodesLine<'a>, ScriptFault>
    ensures says { IfOk result (λ read. SaysFirst schedule.nodes_of (lines_of lines.now) read.nodes (lines_of read.rest.now)) }
    ensures bad { IfErr result (SaysNone schedule.nodes_of 1 (lines_of lines.now)) }
    ensures within { IfOk result (λ read. length read.rest.now + 1 ≤ length lines.now) }
{
    let Some(line) = read_line(alloc, lines)? else {
        return Err(ScriptFault::BadLine(1));
    };
    let Some(nodes) = nodes_of(&line.words) else {
        return Err(ScriptFault::BadLine(1));
    };
    Ok(NodesLine {
        nodes,
        rest: line.rest,
    })
}

/// Reads the line that says how many workers there are, which is the second.
fn read_workers<'a>(alloc: Global, lines: &'a [u8]) -> Result<WorkersLine<'a>, ScriptFault>
    ensures says { IfOk result (λ read. SaysFirst schedule.workers_of (lines_of lines.now) read.workers (lines_of read.rest.now)) }
    ensures bad { IfErr result (SaysNone schedule.workers_of 2 (lines_of lines.now)) }
    ensures few { IfOk result (λ read. (1 ≤ read.workers) × (read.workers ≤ 64)) }
    ensures within { IfOk result (λ read. length read.rest.now + 1 ≤ length lines.now) }
{
    let Some(line) = read_line(alloc, lines)? else {
        return Err(ScriptFault::BadLine(2));
    };
    let Some(workers) = workers_of(&line.words) else {
        return Err(ScriptFault::BadLine(2));
    };
    Ok(WorkersLine {
        workers,
        rest: line.rest,
    })
}

/// Reads the lines that say owners, up to the first that says none.
fn read_owners<'a>(
    alloc: Global,
    owners: &mut SlotMap,
    lines: &'a [u8],
) -> Result<Owners<'a>, NoMemory>
    ensures map { IfOk result (λ read. (ops : List MapOp) → MapShows owners.old ops → MapShows owners.new (ops ++ schedule.said_first schedule.owner_of (lines_of lines.now))) }
    ensures count { IfOk result (λ read. read.count ≡ length (schedule.said_first schedule.owner_of (lines_of lines.now))) }
    ensures rest { IfOk result (λ read. lines_of read.rest.now ≡ drop read.count (lines_of lines.now)) }
    ensures within { IfOk result (λ read. read.count + length read.rest.now ≤ length lines.now) }
{
    let mut count = 0;
    let mut rest = lines;
    while let Some(line) = read_line(alloc, rest)? {
        let Some(owner) = owner_of(&line.words) else {
            return Ok(Owners { count, rest });
        };
        owners.apply(owner);
        count += 1;
        rest = line.rest;
    }
    Ok(Owners { count, rest })
}

/// The words behind a line's name, where it has this name and `count` words behind it.
fn args_of<'a>(name: &[u8], count: usize, line: &'a Option<Words>) -> Option<&'a [Bytes]>
    requires { count < 100 }
    ensures args { Shows (schedule.args_of name.now count line.now) result }
    ensures count { IfSome result (λ args. length args.now ≡ count) }
{
    let Some(words) = line else {
        return None;
    };
    let words = words.as_slice();
    if words.len() == count + 1 && words[0].as_slice() == name {
        Some(&words[1..])
    } else {
        None
    }
}

/// `nodes N`
#[tactic(auto, unfolding(crate::specs::Schedule::nodes_of))]
fn nodes_of(line: &Option<Words>) -> Option<u8>
    ensures { result ≡ schedule.nodes_of line.now }
{
    let args = args_of(b"nodes", 1, line)?;
    let nodes = number_under(args[0].as_slice(), 256)?;
    Some(nodes as u8)
}

/// `workers N`: 1 to 64
#[tactic(auto, unfolding(crate::specs::Schedule::workers_of))]
fn workers_of(line: &Option<Words>) -> Option<u16>
    ensures value { result ≡ schedule.workers_of line.now }
    ensures within { IfSome result (λ workers. (1 ≤ workers) × (workers ≤ 64)) }
{
    let args = args_of(b"workers", 1, line)?;
    let workers = number_under(args[0].as_slice(), WORKER_LIMIT + 1)?;
    if workers >= 1 {
        Some(workers as u16)
    } else {
        None
    }
}

/// `owner LO HI NODE`
#[tactic(auto, unfolding(crate::specs::Schedule::owner_of))]
fn owner_of(line: &Option<Words>) -> Option<MapOp>
    ensures { result ≡ schedule.owner_of line.now }
{
    let args = args_of(b"owner", 3, line)?;
    let first = slot_in(args[0].as_slice())?;
    let last = slot_in(args[1].as_slice())?;
    let node = node_in(args[2].as_slice())?;
    Some(MapOp::SetRange(first, last, node))
}
