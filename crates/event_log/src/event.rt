//! What the log tells of.

use crate::line::Line;
use resp_wire::NoMemory;
use session_order::SessionFault;
use slot_map::NodeId;
use std::alloc::{AllocError, Global};
use std::fmt::Display;
use std::io;
use std::net::SocketAddr;
use std::sync::Arc;

/// The most bytes of a node's host that are shown.
const HOST_SHOWN: usize = 128;

/// A node, as the log names it.
#[derive(Drop)]
pub struct NodeName {
    number: u8,
    /// Its host and port.
    address: Arc<String, Global>,
}

impl NodeName {
    /// The name of the node of this number, at this address.
    pub fn new(alloc: Global, node: NodeId, host: &[u8], port: u16) -> Result<NodeName, NoMemory> {
        let shown = host.get(..HOST_SHOWN).unwrap_or(host);
        let shown = std::str::from_utf8(shown).unwrap_or("?");
        let address = format!(in alloc; "{shown}:{port}")?;
        Ok(NodeName {
            number: node.number(),
            address: Arc::new(alloc, address)?,
        })
    }

    /// The same name once more.
    pub fn again(&self) -> Result<NodeName, NoMemory> {
        Ok(NodeName {
            number: self.number,
            address: Arc::try_clone(&self.address)?,
        })
    }

    /// The node's number.
    pub(crate) fn number(&self) -> u8 {
        self.number
    }

    /// Its host and port, as the log shows them.
    pub(crate) fn address(&self) -> &[u8] {
        self.address.as_bytes()
    }

    /// Whether it names the node of this number.
    pub fn is_of(&self, node: NodeId) -> bool {
        self.number == node.number()
    }

    /// Whether both name one node.
    pub fn is_same(&self, other: &NodeName) -> bool {
        self.number == other.number
    }

    /// Whether both have one address.
    pub(crate) fn is_at_same(&self, other: &NodeName) -> bool {
        self.address() == other.address()
    }

    /// Whether the node listens at this host and port.
    pub fn is_at(&self, host: &[u8], port: u16) -> bool {
        match self.address.rsplit_once(':') {
            Some((own, digits)) => own.as_bytes() == host && digits.parse::<u16>() == Ok(port),
            None => false,
        }
    }
}

/// Something that an operator may want to know of.
#[derive(Drop)]
pub enum Event {
    LinkOpened(NodeName),
    LinkLost(NodeName, io::Error),
    DialFailed(NodeName, io::Error),
    /// A node told which nodes serve which slots.
    SlotsTold(NodeName, SlotsTold),
    /// A connection was not accepted, or closed at once.
    ClientRefused(io::Error),
    /// As many clients as may be, of this number, are there: others wait until some leave.
    ClientsFull(u64),
    /// A client sent what is no request, for this reason.
    ProtocolError(SocketAddr, SessionFault),
    /// A client was closed whose unfinished request had this number of bytes.
    UnfinishedRequest(SocketAddr, u64),
    /// No client is taken any more, and no further request is read, while so many clients are there. They are cut after this number
    /// of seconds.
    DrainBegun(u64, u64),
    /// All clients are gone, or so many were cut.
    Drained(u64),
    /// The table of the worker of this number has no place for a node that an answer to CLUSTER SLOTS named. So many clients of it are
    /// let go, and cut after this number of seconds.
    TableFull(usize, u64, u64),
    /// The worker of this number began anew, with a table of so many nodes, and cut so many clients.
    TableBegun(usize, usize, u64),
    /// The answer to CLUSTER SLOTS of this node names, with the seeds, more nodes than a table holds.
    TooManyNodes(NodeName),
}

/// What an answer to CLUSTER SLOTS told.
#[derive(Clone, Copy)]
pub struct SlotsTold {
    pub ranges: usize,
    /// How many slots it gave another owner than the answers before, where that is known.
    pub slots_changed: Option<usize>,
    /// The nodes that it gave slots, each a bit by its number.
    pub nodes: u64,
}

/// How many nodes an event may be of: the most that a table holds.
pub(crate) const NODES: usize = 64;
/// How many workers an event may be of: the most that there are.
const WORKERS: usize = 64;
// Where the limits of each kind of event begin. Those of a node's events have one for each node, those of a worker's one for each
// worker.
const CLIENTS_REFUSED: usize = 0;

const PROTOCOL_ERRORS: usize = 1;

const UNFINISHED_REQUESTS: usize = 2;

const CLIENTS_FULL: usize = 3;

const DRAIN_BEGUN: usize = 4;

const DRAINED: usize = 5;

const TABLES_FULL: usize = 6;

const TABLES_BEGUN: usize = TABLES_FULL + WORKERS;

const LINKS_OPENED: usize = TABLES_BEGUN + WORKERS;

const LINKS_LOST: usize = LINKS_OPENED + NODES;

const DIALS_FAILED: usize = LINKS_LOST + NODES;

const SLOTS_TOLD: usize = DIALS_FAILED + NODES;

const TOO_MANY_NODES: usize = SLOTS_TOLD + NODES;
/// How many limits keep events from being written too often.
pub(crate) const EVENT_LIMITS: usize = TOO_MANY_NODES + NODES;

impl Event {
    /// The node that it is of.
    pub(crate) fn node(&self) -> Option<&NodeName> {
        match self {
            Event::LinkOpened(node)
            | Event::LinkLost(node, _)
            | Event::DialFailed(node, _)
            | Event::SlotsTold(node, _)
            | Event::TooManyNodes(node) => Some(node),
            Event::ClientRefused(_)
            | Event::ClientsFull(_)
            | Event::ProtocolError(..)
            | Event::UnfinishedRequest(..)
            | Event::DrainBegun(..)
            | Event::Drained(_)
            | Event::TableFull(..)
            | Event::TableBegun(..) => None,
        }
    }

    /// The place of the limit that counts events of this kind and of the node that has this place.
    pub(crate) fn limit_place(&self, node: usize) -> usize {
        match self {
            Event::ClientRefused(_) => CLIENTS_REFUSED,
            Event::ProtocolError(..) => PROTOCOL_ERRORS,
            Event::UnfinishedRequest(..) => UNFINISHED_REQUESTS,
            Event::ClientsFull(_) => CLIENTS_FULL,
            Event::DrainBegun(..) => DRAIN_BEGUN,
            Event::Drained(_) => DRAINED,
            Event::LinkOpened(_) => LINKS_OPENED.saturating_add(node),
            Event::LinkLost(..) => LINKS_LOST.saturating_add(node),
            Event::DialFailed(..) => DIALS_FAILED.saturating_add(node),
            Event::SlotsTold(..) => SLOTS_TOLD.saturating_add(node),
            Event::TooManyNodes(_) => TOO_MANY_NODES.saturating_add(node),
            Event::TableFull(worker, ..) => TABLES_FULL.saturating_add(*worker),
            Event::TableBegun(worker, ..) => TABLES_BEGUN.saturating_add(*worker),
        }
    }

    /// The name of its kind, where it is of a seed or not.
    fn name(&self, is_of_seed: bool) -> &'static str {
        match self {
            Event::LinkOpened(_) => "link_opened",
            Event::LinkLost(..) => "link_lost",
            Event::DialFailed(..) if is_of_seed => "seed_unreachable",
            Event::DialFailed(..) => "dial_failed",
            Event::SlotsTold(..) => "slot_map_renewed",
            Event::ClientRefused(_) => "client_refused",
            Event::ClientsFull(_) => "clients_full",
            Event::ProtocolError(..) => "protocol_error",
            Event::UnfinishedRequest(..) => "unfinished_request",
            Event::DrainBegun(..) => "drain_begun",
            Event::Drained(_) => "drained",
            Event::TableFull(..) => "table_full",
            Event::TableBegun(..) => "table_begun",
            Event::TooManyNodes(_) => "too_many_nodes",
        }
    }

    fn level(&self) -> &'static str {
        match self {
            Event::LinkOpened(_) | Event::SlotsTold(..) | Event::DrainBegun(..) => "info",
            Event::Drained(0) | Event::TableBegun(_, _, 0) => "info",
            _ => "warn",
        }
    }

    /// The event's line, without the count of those that were left out.
    pub(crate) fn line(
        &self,
        alloc: Global,
        time: &str,
        is_of_seed: bool,
    ) -> Result<Line, AllocError> {
        let line = Line::new(alloc, time.as_bytes(), self.level(), self.name(is_of_seed))?;
        match self {
            Event::LinkOpened(node) => line.pair("node", node.address.as_bytes()),
            Event::LinkLost(node, reason) | Event::DialFailed(node, reason) => {
                let line = line.pair("node", node.address.as_bytes())?;
                pair_shown(alloc, line, "reason", reason)
            }
            Event::SlotsTold(node, told) => {
                let line = line.pair("node", node.address.as_bytes())?;
                pair_slots(alloc, line, told)
            }
            Event::ClientRefused(reason) => pair_shown(alloc, line, "reason", reason),
            Event::ClientsFull(clients) => pair_shown(alloc, line, "clients", clients),
            Event::ProtocolError(client, fault) => {
                let line = pair_shown(alloc, line, "client", client)?;
                pair_fault(alloc, line, fault)
            }
            Event::UnfinishedRequest(client, bytes) => {
                let line = pair_shown(alloc, line, "client", client)?;
                pair_shown(alloc, line, "bytes", bytes)
            }
            Event::DrainBegun(clients, seconds) => {
                let line = pair_shown(alloc, line, "clients", clients)?;
                pair_shown(alloc, line, "seconds", seconds)
            }
            Event::Drained(clients) => pair_shown(alloc, line, "clients_cut", clients),
            Event::TableFull(worker, clients, seconds) => {
                let line = pair_shown(alloc, line, "worker", worker)?;
                let line = pair_shown(alloc, line, "clients", clients)?;
                pair_shown(alloc, line, "seconds", seconds)
            }
            Event::TableBegun(worker, nodes, clients) => {
                let line = pair_shown(alloc, line, "worker", worker)?;
                let line = pair_shown(alloc, line, "nodes", nodes)?;
                pair_shown(alloc, line, "clients_cut", clients)
            }
            Event::TooManyNodes(node) => line.pair("node", node.address.as_bytes()),
        }
    }
}

/// The line with what an answer to CLUSTER SLOTS told.
fn pair_slots(alloc: Global, line: Line, told: &SlotsTold) -> Result<Line, AllocError> {
    let line = pair_shown(alloc, line, "ranges", &told.ranges)?;
    match &told.slots_changed {
        Some(changed) => pair_shown(alloc, line, "slots_changed", changed),
        None => Ok(line),
    }
}

/// The line with a client's fault, where there is one with that of the reader.
fn pair_fault(alloc: Global, line: Line, fault: &SessionFault) -> Result<Line, AllocError> {
    match fault {
        SessionFault::Wire(fault) => pair_shown(alloc, line, "fault", fault),
        _ => pair_shown(alloc, line, "fault", fault),
    }
}

/// The line with a value as it is displayed.
pub(crate) fn pair_shown<D: Display>(
    alloc: Global,
    line: Line,
    key: &str,
    value: &D,
) -> Result<Line, AllocError> {
    let text = format!(in alloc; "{value}")?;
    line.pair(key, text.as_bytes())
}
