//! The figures of one moment, as plain numbers.

ghost use Rattle.std.specs.Prelude.{◌≡◌};
ghost use Rattle.admin_page.specs.Page.{count_of};

use crate::times::Times;
use resp_wire::Bytes;

/// What a worker counted since the start of its clients.
#[derive(Clone, Copy)]
pub struct WorkerFigures {
    /// The thread's number.
    pub number: u16,
    pub clients_gone: u64,
    pub requests: u64,
    pub parts: u64,
    pub gave_up: u64,
    pub lost: u64,
    pub bytes_in: u64,
    pub bytes_out: u64,
}

/// Which of a worker's figures is meant.
#[derive(Clone, Copy)]
pub(crate) enum WorkerFigure {
    ClientsGone,
    Requests,
    Parts,
    GaveUp,
    Lost,
    BytesIn,
    BytesOut,
}

impl WorkerFigures {
    pub(crate) fn count(&self, figure: WorkerFigure) -> u64
        ensures { result ≡ count_of figure self.now }
    {
        match figure {
            WorkerFigure::ClientsGone => self.clients_gone,
            WorkerFigure::Requests => self.requests,
            WorkerFigure::Parts => self.parts,
            WorkerFigure::GaveUp => self.gave_up,
            WorkerFigure::Lost => self.lost,
            WorkerFigure::BytesIn => self.bytes_in,
            WorkerFigure::BytesOut => self.bytes_out,
        }
    }
}

/// What was counted since the start of clients that were accepted, and by all workers together of what goes to nodes and comes back.
#[derive(Clone, Copy)]
pub struct CarrierFigures {
    /// Clients that were accepted.
    pub clients: u64,
    pub sent: u64,
    pub unsent: u64,
    pub moved: u64,
    pub ask: u64,
    pub tryagain: u64,
    pub clusterdown: u64,
    pub dials_failed: u64,
    pub links: u64,
    pub links_gone: u64,
    pub bytes_in: u64,
    pub bytes_out: u64,
}

/// What there is at this moment. `None` where the system does not tell.
#[derive(Clone, Copy)]
pub struct ProcessFigures {
    /// Clients that are connected.
    pub clients: u64,
    pub resident_bytes: Option<u64>,
    pub open_descriptors: Option<u64>,
    pub allowed_descriptors: Option<u64>,
}

/// What is known of a node that was dialled.
#[derive(Drop)]
pub struct NodeFigures {
    /// Its host and port.
    pub address: Bytes,
    pub has_link: bool,
    pub dial_failed: bool,
    /// The slot map that was read last has slots of it.
    pub serves_slots: bool,
}

/// All that the page tells.
#[derive(Clone, Copy)]
pub struct Figures<'a> {
    pub version: &'a str,
    pub process: ProcessFigures,
    pub carrier: CarrierFigures,
    pub workers: &'a [WorkerFigures],
    pub nodes: &'a [NodeFigures],
    pub times: &'a Times,
    /// A slot map was read.
    pub has_map: bool,
    /// The run comes to its end: no client is taken any more.
    pub is_draining: bool,
}
