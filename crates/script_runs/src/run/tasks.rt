//! The threads of a run.

use super::carrier_thread::{Turning, run_carrier};
use super::mover::{MoverFault, make_moves};
use super::stop::StopGate;
use super::worker_thread::{WorkerRunner, WorkerSetup};
use crate::record::RunRecord;
use local_cluster::{LockedCluster, MoveStep};
use proxy_runtime::{Host, ThreadsFault, run_threads};
use proxy_turns::Gate;
use std::alloc::Global;

/// What a thread is to do.
#[derive(Drop)]
pub(crate) enum ThreadTask<W> {
    Work(W),
    Move,
}

/// Runs the workers, the mover and the carrier to their ends, and answers what they hand back. Each part of a worker may go to
/// another thread.
pub(crate) fn run_worker_tasks<N, O, I, V, K, T, C, R, G>(
    rt: &R,
    alloc: Global,
    runner: &K,
    tasks: Vec<ThreadTask<WorkerSetup<N, O, I, V>>>,
    carrier: T,
    cluster: &C,
    moves: &[MoveStep],
    gate: &StopGate<'_, G>,
) -> Result<RunRecord, ThreadsFault>
where
    N: Drop + Send,
    O: Drop + Send,
    I: Drop + Send,
    V: Drop + Send,
    K: WorkerRunner<WorkerSetup<N, O, I, V>> + Sync,
    T: Turning + Drop,
    C: LockedCluster,
    R: Host,
    G: Gate + Sync,
{
    run_tasks(rt, alloc, runner, tasks, carrier, cluster, moves, gate)
}

fn run_tasks<W, K, T, C, R, G>(
    rt: &R,
    alloc: Global,
    runner: &K,
    tasks: Vec<ThreadTask<W>>,
    carrier: T,
    cluster: &C,
    moves: &[MoveStep],
    gate: &StopGate<'_, G>,
) -> Result<RunRecord, ThreadsFault>
where
    W: Drop + Send,
    K: WorkerRunner<W> + Sync,
    T: Turning + Drop,
    C: LockedCluster,
    R: Host,
    G: Gate + Sync,
{
    let records = run_threads(
        rt,
        alloc,
        tasks,
        &|task| -> Result<RunRecord, ThreadsFault> {
            run_task(rt, alloc, runner, task, cluster, moves, gate)
        },
        &|| gate.signals.stop.raise(),
        || -> Result<RunRecord, ThreadsFault> {
            run_carrier(rt, carrier, gate.signals)?;
            Ok(RunRecord::new(alloc))
        },
    )?;
    record_of(alloc, records)
}

fn run_task<W, K, C, R, G>(
    rt: &R,
    alloc: Global,
    runner: &K,
    task: ThreadTask<W>,
    cluster: &C,
    moves: &[MoveStep],
    gate: &StopGate<'_, G>,
) -> Result<RunRecord, ThreadsFault>
where
    W: Drop,
    K: WorkerRunner<W>,
    C: LockedCluster,
    R: Host,
    G: Gate,
{
    match task {
        ThreadTask::Work(setup) => runner.run(rt, alloc, gate, setup),
        ThreadTask::Move => record_of_moves(
            alloc,
            make_moves(rt, cluster.shared(), moves, gate.signals),
        ),
    }
}

fn record_of_moves(
    alloc: Global,
    made: Result<u64, MoverFault>,
) -> Result<RunRecord, ThreadsFault> {
    let Ok(skipped) = made else {
        return Err(ThreadsFault::NoMemory);
    };
    let mut record = RunRecord::new(alloc);
    record.skipped = skipped;
    Ok(record)
}

// What the run says of itself, where no thread met a fault.
fn record_of(
    alloc: Global,
    records: Vec<Result<RunRecord, ThreadsFault>>,
) -> Result<RunRecord, ThreadsFault> {
    let mut whole = RunRecord::new(alloc);
    for record in records {
        whole.add(record?)?;
    }
    Ok(whole)
}
