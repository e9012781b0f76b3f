//! The proxy over sockets, whole.

ghost use Rattle.std.specs.Prelude.{◌<◌, ◌≤◌};

use crate::accept_loop::{Desk, run_desk};
use crate::acceptor::Acceptor;
use crate::client_room::ClientRoom;
use crate::dealer::{Arrival, Dealer};
use crate::page_thread::{PageSetup, page_setups, run_page};
use crate::setup::{ThreadSetups, push, setup_threads};
use crate::shared::Shared;
use crate::upstream::Upstream;
use crate::worker_thread::{SocketTask, WorkerTask, run_worker};
use client_door::ClientPassword;
use event_log::{ErrorStream, Reporter};
use mio::net::TcpListener;
use node_dial::Credentials;
use proxy_lanes::Inlet;
use proxy_runtime::{Peer, Poller, Registration, ThreadsFault, WireRunFault, run_threads};
use resp_wire::NoMemory;
use slot_map::NodeTable;
use std::alloc::{AllocGlobal, Global};
use std::fs::File;
use std::net::{self, Net};
use std::random::RandomSource;
use std::sync::Wait;
use std::thread::Threads;
use std::time::Clock;

/// What a run of the proxy is given.
#[derive(Drop)]
pub struct Proxy<'a> {
    /// Where clients come to.
    pub listener: TcpListener,
    /// The seeds, nodes of the cluster: they are dialled in their order, and the first that answers is asked.
    pub seeds: &'a NodeTable,
    /// How many threads serve clients.
    pub workers: u16,
    /// How many clients come and go before the run ends; `None` without end.
    pub clients: Option<u32>,
    /// How many descriptors the process may have open, of which some are kept for nodes; `None` where that is not known.
    pub descriptors: Option<u64>,
    /// The password at the nodes; `None` where they want none.
    pub credentials: Option<Credentials>,
    /// The password that clients have to say; `None` where they have to say none.
    pub password: Option<ClientPassword>,
    /// Where events are logged.
    pub log: &'a ErrorStream,
}

/// Where the page of figures is asked for.
#[derive(Drop)]
pub struct Admin<'a> {
    pub listener: TcpListener,
    /// What the page names as the version that runs.
    pub version: &'a str,
    /// The file in which the system tells of this process, `/proc/self/status`, where it can be read.
    pub status: Option<File>,
}

/// Serves clients that come to the listener before the cluster that the seeds belong to. Each worker does so in a thread of its
/// own, by a proxy of its own; this thread accepts the clients and writes the log. Where there is an `admin`, one more thread
/// answers for the page, which may ask for the end of the run. After a fault all threads have ended.
pub fn run_wire<R>(
    rt: &R,
    alloc: Global,
    proxy: Proxy<'_>,
    admin: Option<Admin<'_>>,
) -> Result<(), WireRunFault>
where
    R: Threads
        + Wait
        + RandomSource
        + Clock
        + AllocGlobal
        + Net<Listener = net::TcpListener, Stream = net::TcpStream>
        + Copy
        + Send
        + Sync
        + 'static,
    requires workers { (0 < proxy.workers) × (proxy.workers ≤ 64) }
{
    let Proxy {
        listener,
        seeds,
        workers,
        clients,
        descriptors,
        credentials,
        password,
        log,
    } = proxy;
    let pages = page_setups(rt, alloc, admin, descriptors)?;
    let ThreadSetups {
        shared,
        pollers,
        poller,
    } = setup_threads(rt, alloc, workers, password)?;
    let upstream = Upstream::new(alloc, seeds, credentials)?;
    let (dealer, inlets) = Dealer::new(alloc, shared.workers.len())?;
    let tasks = worker_tasks(alloc, pollers, inlets)?;
    let room = ClientRoom::new(descriptors, workers);
    let acceptor = acceptor(listener, &shared, &poller, clients, room)?;
    let reporter = Reporter::new(
        alloc,
        log,
        shared.reports(alloc)?,
        upstream.seed_names(alloc)?,
    )?;
    let desk = Desk::new(acceptor, dealer, reporter);
    run_beside_page(rt, alloc, pages, &shared, || -> Option<WireRunFault> {
        run_workers(
            rt,
            alloc,
            tasks,
            &upstream,
            &shared,
            || -> Option<WireRunFault> {
                run_desk(rt, desk, poller, &shared);
                None
            },
        )
    })
}

/// What accepts clients.
fn acceptor(
    listener: TcpListener,
    shared: &Shared,
    poller: &Poller,
    clients: Option<u32>,
    room: ClientRoom,
) -> Result<Acceptor, WireRunFault> {
    let registration = Registration::new(&shared.acceptor.ready, Peer::Client)?;
    Acceptor::new(listener, registration, poller.registry(), clients, room).map_err(
        WireRunFault::Listen,
    )
}

/// Answers for the page in a thread of its own, where it is wanted, while clients are served in this one.
fn run_beside_page<C, R>(
    rt: &R,
    alloc: Global,
    pages: Vec<PageSetup<'_>>,
    shared: &Shared,
    serve: C,
) -> Result<(), WireRunFault>
where
    C: FnOnce() -> Option<WireRunFault>,
    R: Threads + Wait + RandomSource + Clock + Sync,
    requires serve { C.IsAlwaysCallable serve }
{
    let faults = run_threads(
        rt,
        alloc,
        pages,
        &|setup| -> Option<WireRunFault> { run_page(rt, alloc, setup, shared) },
        &|| shared.stop(),
        serve,
    )?;
    match first_fault(faults) {
        Some(fault) => Err(fault),
        None => Ok(()),
    }
}

fn first_fault(faults: Vec<Option<WireRunFault>>) -> Option<WireRunFault> {
    faults.into_iter().flatten().next()
}

/// The workers run in threads of their own, and `accept` in this one.
fn run_workers<C, R>(
    rt: &R,
    alloc: Global,
    tasks: Vec<SocketTask>,
    upstream: &Upstream<'_>,
    shared: &Shared,
    accept: C,
) -> Option<WireRunFault>
where
    C: FnOnce() -> Option<WireRunFault>,
    R: Threads
        + Wait
        + RandomSource
        + Clock
        + AllocGlobal
        + Net<Listener = net::TcpListener, Stream = net::TcpStream>
        + Copy
        + Send
        + Sync
        + 'static,
    requires accept { C.IsAlwaysCallable accept }
{
    let faults = run_worker_threads(
        rt,
        alloc,
        tasks,
        &|task| -> Option<WireRunFault> { run_worker(rt, alloc, task, upstream, shared) },
        &|| shared.stop(),
        accept,
    );
    match faults {
        Ok(faults) => first_fault(faults),
        Err(fault) => Some(WireRunFault::from(fault)),
    }
}

/// The threads, where each part of a task may go to another thread. It gives each one's fault, this thread's last.
fn run_worker_threads<W, I, F, C, A, R>(
    rt: &R,
    alloc: Global,
    tasks: Vec<WorkerTask<W, I>>,
    work: &F,
    call_off: &A,
    accept: C,
) -> Result<Vec<Option<WireRunFault>>, ThreadsFault>
where
    W: Drop + Send,
    I: Drop + Send,
    F: Fn(WorkerTask<W, I>) -> Option<WireRunFault> + Sync,
    C: FnOnce() -> Option<WireRunFault>,
    A: Fn(),
    R: Threads + Wait,
    requires work { F.IsAlwaysCallable work.now }
    requires call_off { A.IsAlwaysCallable call_off.now }
    requires accept { C.IsAlwaysCallable accept }
{
    run_threads(rt, alloc, tasks, work, call_off, accept)
}

/// What each worker's thread is given.
fn worker_tasks(
    alloc: Global,
    pollers: Vec<Poller>,
    inlets: Vec<Inlet<Arrival>>,
) -> Result<Vec<SocketTask>, NoMemory> {
    let mut tasks = Vec::new(alloc);
    for (poller, inlet) in pollers.into_iter().zip(inlets) {
        let task = WorkerTask {
            worker: tasks.len(),
            poller,
            inlet,
        };
        push(&mut tasks, task)?;
    }
    Ok(tasks)
}
