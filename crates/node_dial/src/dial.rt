//! How the proxy dials the nodes.

ghost use Rattle.std.specs.Prelude.{◌≡◌, ◌<◌, ◌+◌, ◌-◌, ◌^◌, IfOk};
ghost use Rattle.node_dial.specs.LostNodes.{IsCalm};
ghost use Rattle.node_dial.specs.NewPort.{Dials, IsUnused};

use crate::cluster_notes::{ClusterNotes, SharedNotes, share};
use crate::connector::Connector;
use crate::known_node::{DialOutcome, KnownNode};
use crate::link_watch::LinkWatch;
use crate::lost_nodes::{
    Look, look_at, next_ask, note_asked, note_lost, note_reached, note_unclear,
};
use crate::next_table::{are_too_many, keep, next_table};
use crate::node_stream::NodeStream;
use event_log::{Event, Figure, NodeName};
use key_split::Told;
use node_link::{BlockPort, Dial, DialFault, Failure};
use proxy_runtime::PolledSocket;
use resp_wire::{Limits, NoMemory, Value};
use slot_map::{MapOp, NODE_LIMIT, NodeId, NodeTable};
use std::alloc::Global;
use std::cell::RefCell;
use std::net::{Net, TcpListener, TcpStream};
use std::time::Clock;

/// A port to a node over a socket.
pub type NodeSocket = BlockPort<NodeStream>;

/// Dials nodes. A port is given for a connection that stands, and whose node has accepted AUTH.
pub struct SocketDial<'b, R> {
    connector: Connector<'b, R>,
    alloc: Global,
    /// What is known of each node, by its number.
    nodes: Vec<KnownNode>,
    cluster: SharedNotes,
    seeds: NodeTable,
    /// A table for the nodes of the last answer to CLUSTER SLOTS, where the proxy's had no place for one of them.
    next_table: RefCell<Option<NodeTable>>,
    /// What was seen of the lost nodes when it was last asked whether one seeks.
    look: Look,
    /// How often no port was given.
    failures: u64,
}

// By hand, so that the crates above prove one call.
impl<R> Drop for SocketDial<'_, R> {
    fn drop(self) {
        let SocketDial {
            connector,
            alloc: _,
            nodes,
            cluster,
            seeds,
            next_table,
            look: _,
            failures: _,
        } = self;
        drop(connector);
        drop(nodes);
        drop(cluster);
        drop(seeds);
        drop(next_table);
    }
}

impl<'b, R: Clock + Net<Listener = TcpListener, Stream = TcpStream>> SocketDial<'b, R> {
    /// A dial that has dialled no node yet, of a cluster that has these seeds.
    pub fn new(
        alloc: Global,
        connector: Connector<'b, R>,
        seeds: NodeTable,
    ) -> Result<SocketDial<'b, R>, NoMemory> {
        let nodes = unknown_nodes(alloc)?;
        let cluster = ClusterNotes::new(alloc)?;
        let look = look_at(&cluster.lost, 0);
        Ok(SocketDial {
            connector,
            alloc,
            nodes,
            cluster,
            seeds,
            next_table: RefCell::new(None),
            look,
            failures: 0,
        })
    }

    /// Whether the proxy's table has no place for a node that the last answer to CLUSTER SLOTS named, and another has.
    pub fn wants_table(&self) -> bool {
        match self.next_table.try_borrow() {
            Ok(kept) => kept.is_some(),
            Err(_) => false,
        }
    }

    /// The table that is wanted, of the seeds and the nodes of that answer.
    pub fn take_table(&self) -> Option<NodeTable> {
        self.next_table.try_borrow_mut().ok()?.take()
    }

    /// From now on the end of a connection is not logged.
    pub fn end(&self) {
        self.cluster.end();
    }

    /// Reports that no table has places for the seeds and the nodes that the answer of this node names.
    fn report_too_many(&self, node: NodeId, host: &[u8], port: u16) {
        if let Ok(name) = NodeName::new(self.alloc, node, host, port) {
            self.connector.report().tell(Event::TooManyNodes(name));
        }
    }

    /// The thread is to be awake when a node is to be asked next.
    fn wake_to_seek(&self) {
        if let Some(time) = next_ask(&self.cluster.lost) {
            self.connector.ready().wake_at(time);
        }
    }

    /// A port to the node at this endpoint over a connection that stands.
    fn port_over(
        &self,
        socket: PolledSocket,
        node: NodeId,
        host: &[u8],
        port: u16,
    ) -> Result<NodeSocket, NoMemory>
        ensures unused { IfOk result IsUnused }
    {
        let name = NodeName::new(self.alloc, node, host, port)?;
        note_reached(&self.cluster.lost, node);
        let watch = LinkWatch::new(self.connector.ready())?;
        let cluster = share(&self.cluster)?;
        let stream = NodeStream::new(socket, node, name, cluster, watch);
        let blocks = self.cluster.takes_blocks(node);
        Ok(BlockPort::new(self.alloc, stream, Limits::full(), blocks))
    }
}

impl<'b, R: Clock + Net<Listener = TcpListener, Stream = TcpStream>> Dial for SocketDial<'b, R> {
    type Port = NodeSocket;

    ghost failures = { λ dial. dial.failures };

    // Nothing went over the socket. To which machine it leads no contract says.
    ghost opens = { Dials };

    // No node was lost when it was last looked, or the pause between two requests had not passed.
    ghost is_calm = { λ dial. IsCalm dial.look };

    fn seeks(&mut self) -> bool {
        let time = self.connector.last_time();
        self.look = look_at(&self.cluster.lost, time);
        if !self.look.is_due() {
            self.wake_to_seek();
            return false;
        }
        note_asked(&self.cluster.lost, time);
        self.wake_to_seek();
        true
    }

    fn unsent(&self) {
        self.connector.report().count(Figure::Unsent, 1);
    }

    fn sent(&self, commands: usize) {
        self.connector.report().count(Figure::Sent, commands as u64);
    }

    fn told(&self, told: &Told) {
        if let Some(figure) = refusal(told) {
            self.connector.report().count(figure, 1);
        }
        if matches!(told, Told::Unclear) {
            note_unclear(&self.cluster.lost);
        }
    }

    fn slots_told(&self, node: NodeId, host: &[u8], port: u16, changes: &[MapOp]) {
        drop(self.take_table());
        if let Ok(name) = NodeName::new(self.alloc, node, host, port) {
            self.cluster
                .note_slots(self.connector.report(), name, changes);
        }
    }

    fn slots_unread(&self, node: NodeId, host: &[u8], port: u16, answer: &Value) {
        let read = next_table(self.alloc, &self.seeds, host, port, answer);
        if are_too_many(&read) {
            self.report_too_many(node, host, port);
        }
        if let Ok(mut kept) = self.next_table.try_borrow_mut() {
            keep(&mut kept, read);
        }
    }

    fn broke(&self, node: NodeId, failure: Failure, port: &NodeSocket) {
        if matches!(failure, Failure::BadWire) && port.awaits_block() {
            self.cluster.note_plain(node);
        }
    }

    fn open(&mut self, node: NodeId, host: &[u8], port: u16) -> Result<NodeSocket, DialFault> {
        if self.failures == u64::MAX {
            return Err(DialFault::NoMemory);
        }
        let Some(known) = self.nodes.get_mut(usize::from(node.number())) else {
            return Err(DialFault::NoMemory);
        };
        let noted = match known.dial(&self.connector, host, port) {
            DialOutcome::Open(socket) => match self.port_over(socket, node, host, port) {
                Ok(opened) => return Ok(opened),
                Err(NoMemory) => return Err(DialFault::NoMemory),
            },
            DialOutcome::Pending => {
                note_lost(&self.cluster.lost, node);
                Ok(())
            }
            DialOutcome::Failed(error) => {
                let report = self.connector.report();
                self.cluster
                    .note_failure(self.alloc, report, node, host, port, error)
            }
        };
        if noted.is_err() {
            return Err(DialFault::NoMemory);
        }
        self.failures = one_more(self.failures);
        Err(DialFault::Failed)
    }
}

/// What counts refusals of this kind.
fn refusal(told: &Told) -> Option<Figure> {
    match told {
        Told::Moved(..) => Some(Figure::Moved),
        Told::Ask(..) => Some(Figure::Ask),
        Told::TryAgain => Some(Figure::TryAgain),
        Told::ClusterDown => Some(Figure::ClusterDown),
        Told::Reply(_) | Told::Unclear | Told::Lost | Told::Unsent => None,
    }
}

/// The failures so far, and the one just now.
fn one_more(failures: u64) -> u64
    requires { failures < 2 ^ 64 - 1 }
    ensures { result ≡ failures + 1 }
{
    failures + 1
}

/// Nodes of which nothing is known.
fn unknown_nodes(alloc: Global) -> Result<Vec<KnownNode>, NoMemory> {
    let mut nodes = Vec::with_capacity(alloc, NODE_LIMIT)?;
    for _ in 0..NODE_LIMIT {
        nodes.push(KnownNode::new(alloc))?;
    }
    Ok(nodes)
}
