//! A worker's thread.

use super::stop::StopGate;
use crate::record::{ClientRecord, RunRecord};
use futures::executor::block_on;
use key_split::{Run, Ticket, Told};
use proxy_lanes::{Inlet, MapView, Naming, Newcomers, Outlet, WorkerEnds};
use proxy_runtime::{Host, ThreadsFault};
use proxy_turns::{ClientPort, Gate, Newcomer, Script, Worker, WorkerEnd, WorkerOutcome};
use resp_wire::NoMemory;
use std::alloc::{AllocGlobal, Global};
use std::random::RandomSource;
use std::sync::Wait;

/// Who runs workers that are set up so.
pub(crate) trait WorkerRunner<S> {
    /// Runs a worker to its end, and answers what it hands back. A fault ends all other threads too.
    fn run<R: Host, G: Gate>(
        &self,
        rt: &R,
        alloc: Global,
        gate: &StopGate<'_, G>,
        setup: S,
    ) -> Result<RunRecord, ThreadsFault>;
}

/// A worker's ends, with a type parameter for each (so the checker finds of one after another that it may go to another
/// thread), and how many clients it is to take.
#[derive(Drop)]
pub(crate) struct WorkerSetup<N, O, I, V> {
    worker: u16,
    workers: u16,
    outlet: O,
    inlet: I,
    newcomers: N,
    view: V,
    clients: u32,
}

/// A worker over scripts.
pub(crate) type ScriptWorker<J> = WorkerSetup<
    Newcomers<Newcomer<Script, J>>,
    Outlet<Run>,
    Inlet<(Ticket, Told)>,
    MapView<J>,
>;

/// The worker with these ends, for this number of clients.
pub(crate) fn script_worker<J: Naming>(
    ends: WorkerEnds<Newcomer<Script, J>, J>,
    clients: u32,
) -> ScriptWorker<J> {
    let WorkerEnds {
        worker,
        workers,
        outlet,
        inlet,
        newcomers,
        view,
    } = ends;
    WorkerSetup {
        worker,
        workers,
        outlet,
        inlet,
        newcomers,
        view,
        clients,
    }
}

/// Runs workers over scripts.
pub(crate) struct ScriptWorkers;

impl<J: Naming> WorkerRunner<ScriptWorker<J>> for ScriptWorkers {
    fn run<R: Host, G: Gate>(
        &self,
        rt: &R,
        alloc: Global,
        gate: &StopGate<'_, G>,
        setup: ScriptWorker<J>,
    ) -> Result<RunRecord, ThreadsFault> {
        let WorkerSetup {
            worker,
            workers,
            outlet,
            inlet,
            newcomers,
            view,
            clients,
        } = setup;
        let ends = WorkerEnds {
            worker,
            workers,
            outlet,
            inlet,
            newcomers,
            view,
        };
        let ended = poll_worker(rt, alloc, ends, gate, clients);
        if ended.is_err() {
            gate.signals.stop.raise();
        }
        gate.signals.thread_ended();
        Ok(record_of_end(alloc, ended?)?)
    }
}

fn poll_worker<C, J, R, G>(
    rt: &R,
    alloc: Global,
    ends: WorkerEnds<Newcomer<C, J>, J>,
    gate: &StopGate<'_, G>,
    clients: u32,
) -> Result<WorkerEnd<C>, ThreadsFault>
where
    C: ClientPort + Drop,
    J: Naming,
    R: Wait + RandomSource + AllocGlobal,
    G: Gate,
{
    match block_on(rt, Worker::new(alloc, ends, gate, Some(clients))) {
        Ok(end) => with_memory(end),
        Err(error) => Err(ThreadsFault::NoThread(error)),
    }
}

// The end of a worker that did not want for memory.
fn with_memory<C: Drop>(end: WorkerEnd<C>) -> Result<WorkerEnd<C>, ThreadsFault> {
    match end.outcome {
        WorkerOutcome::NoMemory => Err(ThreadsFault::NoMemory),
        _ => Ok(end),
    }
}

// What a worker hands back.
fn record_of_end(alloc: Global, end: WorkerEnd<Script>) -> Result<RunRecord, NoMemory> {
    let WorkerEnd {
        worker,
        ports,
        outcome,
    } = end;
    let mut record = RunRecord::new(alloc);
    if matches!(outcome, WorkerOutcome::Stopped) {
        record.stopped.push(worker)?;
    }
    for port in ports {
        record.clients.push(client_record(port))?;
    }
    Ok(record)
}

fn client_record(port: Script) -> ClientRecord {
    let (client, replies, ends) = port.into_parts();
    ClientRecord {
        client,
        replies,
        ends,
    }
}
