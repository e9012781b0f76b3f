//! A run over three nodes, and what came of it.

ghost use Rattle.std.specs.Prelude.{◌<◌, ◌≤◌};

use crate::tables::{PORTS, table_at};
use cluster_world::{RunReport, audit};
use key_split::Ended;
use local_cluster::{LocalCluster, LocalState, MoveStep, three_nodes};
use proxy_runtime::Host;
use proxy_turns::Gate;
use resp_wire::{Bytes, write_value};
use script_runs::{run_faulty, run_local};
use slot_hash::Slot;
use slot_map::NodeId;
use std::alloc::Global;
use std::test::Fail;

/// Where a slot goes while clients are served.
#[derive(Clone, Copy)]
pub enum Move {
    /// To a node.
    Moved(u16, u8),
    /// Towards a node, and back.
    Recalled(u16, u8),
}

/// What a lawful report counts.
#[derive(Clone, Copy, PartialEq, Eq)]
pub struct Counts {
    /// Parts that were answered.
    pub answered: usize,
    /// Parts that ended otherwise.
    pub unanswered: usize,
    /// Steps that were skipped.
    pub skipped: u64,
    /// Workers that the gate stopped.
    pub stopped: usize,
}

impl Counts {
    /// All parts, of this number, were answered, with no step skipped and no worker stopped.
    pub fn all_answered(answered: usize) -> Counts {
        Counts {
            answered,
            unanswered: 0,
            skipped: 0,
            stopped: 0,
        }
    }
}

/// How many numbers there are for clients.
const MOST_CLIENTS: usize = 1 << 32;

fn steps_of(alloc: Global, moves: &[Move]) -> Result<Vec<MoveStep>, Fail> {
    let mut steps = Vec::new(alloc);
    for moved in moves {
        push_steps(&mut steps, *moved)?;
    }
    Ok(steps)
}

fn push_steps(steps: &mut Vec<MoveStep>, moved: Move) -> Result<(), Fail> {
    match moved {
        Move::Moved(number, target) => {
            let slot = begin(steps, number, target)?;
            steps.push(MoveStep::MoveRest(slot))?;
            steps.push(MoveStep::Own(slot))?;
            steps.push(MoveStep::Release(slot))?;
        }
        Move::Recalled(number, target) => {
            let slot = begin(steps, number, target)?;
            steps.push(MoveStep::Forget(slot))?;
            steps.push(MoveStep::Stay(slot))?;
        }
    }
    Ok(())
}

fn begin(steps: &mut Vec<MoveStep>, number: u16, target: u8) -> Result<Slot, Fail> {
    let slot = Slot::new(number).ok_or("no slot")?;
    let node = NodeId::new(target).ok_or("no node")?;
    steps.push(MoveStep::Import(slot, node))?;
    steps.push(MoveStep::Migrate(slot))?;
    Ok(slot)
}

/// These scripts.
pub fn scripts_of(alloc: Global, texts: &[&[u8]]) -> Result<Vec<Bytes>, Fail> {
    let mut scripts = Vec::new(alloc);
    for text in texts {
        scripts.push(Bytes::from_slice(alloc, *text)?)?;
    }
    Ok(scripts)
}

/// Runs the scripts, over connections that each pass `calls` calls on, where it is given. None where the run fails.
pub fn ran<R: Host, G: Gate + Sync>(
    rt: &R,
    scripts: &[Bytes],
    moves: &[Move],
    workers: u16,
    gate: &G,
    calls: Option<u64>,
) -> Result<Option<(RunReport, LocalState)>, Fail>
    requires { (0 < workers) × (workers ≤ 64) }
{
    let alloc = rt.alloc();
    if scripts.len() > MOST_CLIENTS {
        return Ok(None);
    }
    let steps = steps_of(alloc, moves)?;
    let cluster = LocalCluster::new(alloc, three_nodes(alloc)?)?;
    let ran = match calls {
        Some(calls) => run_faulty(rt, alloc, cluster, scripts, &steps, workers, gate, calls),
        None => run_local(rt, alloc, cluster, scripts, &steps, workers, gate),
    };
    Ok(ran.ok())
}

/// Runs the scripts as `ran` does, and appends the listing of the slots afterwards. None where the run fails or its report is
/// not lawful.
pub fn run<R: Host, G: Gate + Sync>(
    rt: &R,
    scripts: &[Bytes],
    moves: &[Move],
    workers: u16,
    gate: &G,
    calls: Option<u64>,
    listing: &mut Vec<u8>,
) -> Result<Option<Counts>, Fail>
    requires { (0 < workers) × (workers ≤ 64) }
{
    let Some(ran) = ran(rt, scripts, moves, workers, gate, calls)? else {
        return Ok(None);
    };
    let counts = counts_of(rt.alloc(), &ran, listing);
    drop(ran);
    counts
}

// Lists the slots, and counts what the report says, where it is lawful.
fn counts_of(
    alloc: Global,
    (report, state): &(RunReport, LocalState),
    listing: &mut Vec<u8>,
) -> Result<Option<Counts>, Fail> {
    list_slots(alloc, state, listing)?;
    if !audit(alloc, report)? || report.history.len() != state.history().len() {
        return Ok(None);
    }
    let answered = answered_in(report);
    if answered > report.ends.len() {
        return Ok(None);
    }
    Ok(Some(Counts {
        answered,
        unanswered: report.ends.len() - answered,
        skipped: report.skipped,
        stopped: report.stopped.len(),
    }))
}

fn answered_in(report: &RunReport) -> usize {
    report
        .ends
        .iter()
        .filter(|end| matches!(end.1, Ended::Answered(_)))
        .count()
}

// The bytes of CLUSTER SLOTS at the end.
fn list_slots(alloc: Global, state: &LocalState, listing: &mut Vec<u8>) -> Result<(), Fail> {
    let table = table_at(alloc, &PORTS)?;
    let slots = state.cluster().slots_value(&table)?;
    let written = write_value(listing, &slots);
    drop(slots);
    Ok(written?)
}
