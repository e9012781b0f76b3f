//! A run of scripts over a cluster in one process.

ghost use Rattle.std.specs.Prelude.{◌<◌, ◌≤◌, ◌^◌, length};
ghost use Rattle.script_runs.specs.Judged.{RunOutcome};

use super::assembly::run_all;
use super::fused_dial::FusedDial;
use crate::judge::judge;
use crate::local_fault::LocalFault;
use crate::record::RunRecord;
use cluster_world::RunReport;
use local_cluster::{LocalDial, LocalState, LockedCluster, MoveStep};
use proxy_runtime::{Host, ThreadsFault};
use proxy_turns::Gate;
use resp_wire::Bytes;
use std::alloc::Global;

/// Runs one client for each script, on worker c modulo the workers for client c, while the slots move as the steps say. Each
/// worker and the mover run in threads of their own, all joined when this returns, and the carrier in the caller's. A step
/// that is not allowed is tried 1,000 times and then skipped. The state is the one that the cluster gives up at the end; after
/// a fault it is gone.
pub fn run_local<C, R, G>(
    rt: &R,
    alloc: Global,
    cluster: C,
    scripts: &[Bytes],
    moves: &[MoveStep],
    workers: u16,
    gate: &G,
) -> Result<(RunReport, LocalState), LocalFault>
where
    C: LockedCluster + Drop,
    R: Host,
    G: Gate + Sync,
    requires workers { (0 < workers) × (workers ≤ 64) }
    requires few { length scripts.now ≤ 2 ^ 32 }
    ensures { RunOutcome scripts.now workers (C.gives_up cluster) result }
{
    let dial = LocalDial::new(alloc, rt, cluster.shared());
    let ran = run_all(rt, alloc, &cluster, dial, scripts, moves, workers, gate);
    finish(alloc, cluster, scripts, workers, ran)
}

/// Does what `run_local` does over connections that fail: each passes `calls` calls on, and fails from then on.
pub fn run_faulty<C, R, G>(
    rt: &R,
    alloc: Global,
    cluster: C,
    scripts: &[Bytes],
    moves: &[MoveStep],
    workers: u16,
    gate: &G,
    calls: u64,
) -> Result<(RunReport, LocalState), LocalFault>
where
    C: LockedCluster + Drop,
    R: Host,
    G: Gate + Sync,
    requires workers { (0 < workers) × (workers ≤ 64) }
    requires few { length scripts.now ≤ 2 ^ 32 }
    ensures { RunOutcome scripts.now workers (C.gives_up cluster) result }
{
    let dial = FusedDial::new(LocalDial::new(alloc, rt, cluster.shared()), calls);
    let ran = run_all(rt, alloc, &cluster, dial, scripts, moves, workers, gate);
    finish(alloc, cluster, scripts, workers, ran)
}

// The report of what the threads hand back, with the state that the cluster gives up.
fn finish<C: LockedCluster + Drop>(
    alloc: Global,
    cluster: C,
    scripts: &[Bytes],
    workers: u16,
    ran: Result<RunRecord, ThreadsFault>,
) -> Result<(RunReport, LocalState), LocalFault>
    requires some { 0 < workers }
    requires few { length scripts.now ≤ 2 ^ 32 }
    ensures { RunOutcome scripts.now workers (C.gives_up cluster) result }
{
    match ran {
        Ok(record) => judge(alloc, scripts, workers, record, cluster.into_state()),
        Err(ThreadsFault::NoMemory) => Err(LocalFault::NoMemory),
        Err(ThreadsFault::NoThread(_)) => Err(LocalFault::NoThread),
    }
}
