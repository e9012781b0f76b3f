//! What a run is put together of: its clients in their workers' queues, its lanes and its threads.

ghost use Rattle.std.specs.Prelude.{◌≡◌, ◌<◌, ◌≤◌};
ghost use Rattle.proxy_lanes.specs.Opened.{book_of};

use super::carrier_thread::{ClientCarrier, Turning};
use super::client_queue::ClientQueue;
use super::stop::{Signals, StopGate};
use super::tasks::{ThreadTask, run_worker_tasks};
use super::worker_thread::{ScriptWorker, ScriptWorkers, script_worker};
use crate::record::RunRecord;
use local_cluster::{LockedCluster, MoveStep, node_table};
use node_link::RunPort;
use proxy_lanes::{CarrierEnds, Naming, Opened, Publisher, WorkerEnds, lanes};
use proxy_runtime::{Host, ThreadsFault};
use proxy_turns::{Carrier, Dial, Gate, Newcomer, Script};
use resp_wire::{Bytes, NoMemory};
use slot_map::NodeTable;
use std::alloc::Global;
use std::marker::Brand;
use std::sync::Wait;

/// Runs the scripts to their end over connections of the dial while the slots move, and answers what the threads hand back.
pub(crate) fn run_all<C, D, P, R, G>(
    rt: &R,
    alloc: Global,
    cluster: &C,
    dial: D,
    scripts: &[Bytes],
    moves: &[MoveStep],
    workers: u16,
    gate: &G,
) -> Result<RunRecord, ThreadsFault>
where
    C: LockedCluster,
    D: Dial<Port = P> + Drop,
    P: RunPort + Drop,
    R: Host,
    G: Gate + Sync,
    requires workers { (0 < workers) × (workers ≤ 64) }
{
    let nodes = node_table(alloc)?;
    run_named::<Brand, C, D, P, R, G>(
        rt,
        alloc,
        cluster,
        dial,
        nodes,
        scripts,
        moves,
        workers,
        gate,
        Opened::new(),
    )
}

/// Runs them with lanes of this name, over these nodes.
fn run_named<J, C, D, P, R, G>(
    rt: &R,
    alloc: Global,
    cluster: &C,
    dial: D,
    nodes: NodeTable,
    scripts: &[Bytes],
    moves: &[MoveStep],
    workers: u16,
    gate: &G,
    opened: Opened,
) -> Result<RunRecord, ThreadsFault>
where
    J: Naming + Send + Sync,
    C: LockedCluster,
    D: Dial<Port = P> + Drop,
    P: RunPort + Drop,
    R: Host,
    G: Gate + Sync,
    requires name { book_of opened ≡ J.book }
    requires workers { (0 < workers) × (workers ≤ 64) }
{
    let RunLanes {
        tasks,
        queues,
        ends,
    } = run_lanes::<J, R>(rt, alloc, scripts, workers, opened)?;
    let carrier = ClientCarrier {
        carrier: Carrier::new(alloc, ends, dial, nodes),
        queues,
    };
    run_tasks_beside(rt, alloc, tasks, carrier, cluster, moves, workers, gate)
}

/// Runs the tasks of the workers and of the mover beside the carrier.
fn run_tasks_beside<J, T, C, R, G>(
    rt: &R,
    alloc: Global,
    tasks: Vec<ThreadTask<ScriptWorker<J>>>,
    carrier: T,
    cluster: &C,
    moves: &[MoveStep],
    workers: u16,
    gate: &G,
) -> Result<RunRecord, ThreadsFault>
where
    J: Naming + Send + Sync,
    T: Turning + Drop,
    C: LockedCluster,
    R: Host,
    G: Gate + Sync,
{
    let signals = &Signals::new(u64::from(workers) + 1);
    let gate = &StopGate { gate, signals };
    run_worker_tasks(
        rt,
        alloc,
        &ScriptWorkers,
        tasks,
        carrier,
        cluster,
        moves,
        gate,
    )
}

/// The workers' tasks and last the mover's, and what the carrier is made of: its ends, and the clients for each worker.
struct RunLanes<J: Naming, E> {
    tasks: Vec<ThreadTask<ScriptWorker<J>>>,
    queues: Vec<ClientQueue<Script, J>>,
    ends: E,
}

fn run_lanes<'b, J: Naming, R: Wait>(
    rt: &'b R,
    alloc: Global,
    scripts: &[Bytes],
    workers: u16,
    opened: Opened,
) -> Result<RunLanes<J, CarrierEnds<Newcomer<Script, J>, Publisher<J, &'b R>>>, NoMemory>
    requires name { book_of opened ≡ J.book }
    requires workers { (0 < workers) × (workers ≤ 64) }
{
    let queues = queue_clients(alloc, scripts, workers)?;
    let (worker_ends, ends) = lanes::<Newcomer<Script, J>, J, &R>(alloc, rt, opened, workers)?;
    let tasks = tasks_of(alloc, worker_ends, &queues)?;
    Ok(RunLanes {
        tasks,
        queues,
        ends,
    })
}

// The clients of each worker, client c being on worker c modulo the workers.
fn queue_clients<J: Naming>(
    alloc: Global,
    scripts: &[Bytes],
    workers: u16,
) -> Result<Vec<ClientQueue<Script, J>>, NoMemory>
    requires { (0 < workers) × (workers ≤ 64) }
{
    let mut queues = empty_queues(alloc, workers)?;
    for (client, script) in scripts.iter().enumerate() {
        queue_client(alloc, &mut queues, workers, client, script)?;
    }
    Ok(queues)
}

fn empty_queues<J: Naming>(
    alloc: Global,
    workers: u16,
) -> Result<Vec<ClientQueue<Script, J>>, NoMemory> {
    let mut queues = Vec::with_capacity(alloc, usize::from(workers))?;
    for worker in 0..workers {
        queues.push(ClientQueue::new(alloc, worker))?;
    }
    Ok(queues)
}

fn queue_client<J: Naming>(
    alloc: Global,
    queues: &mut Vec<ClientQueue<Script, J>>,
    workers: u16,
    client: usize,
    script: &Bytes,
) -> Result<(), NoMemory>
    requires { 0 < workers }
{
    let number = u32::try_from(client).ok().ok_or(NoMemory)?;
    let Some(queue) = queues.get_mut(client % usize::from(workers)) else {
        return Ok(());
    };
    queue.add(number, Script::new(alloc, number, script.copy(alloc)?))
}

// Each worker's task with the number of its clients, and last the mover's.
fn tasks_of<J: Naming>(
    alloc: Global,
    ends: Vec<WorkerEnds<Newcomer<Script, J>, J>>,
    queues: &[ClientQueue<Script, J>],
) -> Result<Vec<ThreadTask<ScriptWorker<J>>>, NoMemory> {
    let mut tasks = Vec::new(alloc);
    for ends in ends {
        let clients = clients_of(queues, ends.worker);
        tasks.push(ThreadTask::Work(script_worker(ends, clients)))?;
    }
    tasks.push(ThreadTask::Move)?;
    Ok(tasks)
}

fn clients_of<J: Naming>(queues: &[ClientQueue<Script, J>], worker: u16) -> u32 {
    match queues.get(usize::from(worker)) {
        Some(queue) => queue.count(),
        None => 0,
    }
}
