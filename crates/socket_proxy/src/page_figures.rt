//! The figures of the page, as the threads report them.

use crate::shared::Shared;
use admin_page::{CarrierFigures, NodeFigures, Times, WorkerFigures};
use event_log::{Figure, NodeStanding, ThreadReport, TimeSums};
use resp_wire::NoMemory;
use std::alloc::Global;

/// What the threads report at one moment.
#[derive(Drop)]
pub(crate) struct ThreadFigures {
    pub(crate) carrier: CarrierFigures,
    pub(crate) workers: Vec<WorkerFigures>,
    pub(crate) nodes: Vec<NodeFigures>,
    pub(crate) times: Times,
    pub(crate) has_map: bool,
}

/// What the threads report now. There is a map once each worker has one.
pub(crate) fn thread_figures(alloc: Global, shared: &Shared) -> Result<ThreadFigures, NoMemory> {
    Ok(ThreadFigures {
        carrier: carrier_figures(shared),
        workers: workers_figures(alloc, shared)?,
        nodes: nodes_figures(alloc, shared)?,
        times: times_of(shared),
        has_map: shared
            .workers
            .iter()
            .all(|worker| worker.report().has_map()),
    })
}

/// What the workers counted together of what goes to nodes and comes back.
fn carrier_figures(shared: &Shared) -> CarrierFigures {
    CarrierFigures {
        clients: shared.acceptor.counted(Figure::Clients),
        sent: shared.of_workers(Figure::Sent),
        unsent: shared.of_workers(Figure::Unsent),
        moved: shared.of_workers(Figure::Moved),
        ask: shared.of_workers(Figure::Ask),
        tryagain: shared.of_workers(Figure::TryAgain),
        clusterdown: shared.of_workers(Figure::ClusterDown),
        dials_failed: shared.of_workers(Figure::DialsFailed),
        links: shared.of_workers(Figure::Links),
        links_gone: shared.of_workers(Figure::LinksGone),
        bytes_in: shared.of_workers(Figure::NodeBytesIn),
        bytes_out: shared.of_workers(Figure::NodeBytesOut),
    }
}

fn workers_figures(alloc: Global, shared: &Shared) -> Result<Vec<WorkerFigures>, NoMemory> {
    let mut figures = Vec::new(alloc);
    for worker in &shared.workers {
        let number = u16::try_from(figures.len()).unwrap_or(u16::MAX);
        figures.push(worker_figures(number, worker.report()))?;
    }
    Ok(figures)
}

fn worker_figures(number: u16, report: &ThreadReport) -> WorkerFigures {
    WorkerFigures {
        number,
        clients_gone: report.counted(Figure::ClientsGone),
        requests: report.counted(Figure::Requests),
        parts: report.counted(Figure::Parts),
        gave_up: report.counted(Figure::GaveUp),
        lost: report.counted(Figure::Lost),
        bytes_in: report.counted(Figure::BytesIn),
        bytes_out: report.counted(Figure::BytesOut),
    }
}

/// What the workers know together of each node, by its address.
fn nodes_figures(alloc: Global, shared: &Shared) -> Result<Vec<NodeFigures>, NoMemory> {
    let mut figures = Vec::new(alloc);
    for worker in &shared.workers {
        for standing in worker.report().nodes(alloc)? {
            add_node(&mut figures, standing)?;
        }
    }
    Ok(figures)
}

/// Adds what one more worker knows of a node.
fn add_node(figures: &mut Vec<NodeFigures>, standing: NodeStanding) -> Result<(), NoMemory> {
    let NodeStanding {
        address,
        has_link,
        dial_failed,
        serves_slots,
    } = standing;
    let known = figures.iter().position(|node| node.address == address);
    if let Some(at) = known
        && let Some(node) = figures.get_mut(at)
    {
        node.has_link |= has_link;
        node.dial_failed |= dial_failed;
        node.serves_slots |= serves_slots;
        return Ok(());
    }
    figures.push(NodeFigures {
        address,
        has_link,
        dial_failed,
        serves_slots,
    })?;
    Ok(())
}

fn times_of(shared: &Shared) -> Times {
    let mut sums = TimeSums::none();
    for worker in &shared.workers {
        worker.report().add_times_to(&mut sums);
    }
    Times {
        counts: sums.counts,
        micros: sums.micros,
    }
}
