//! Nodes that are served over sockets, in one thread.

use crate::connection::Connection;
use crate::node_listener::{AcceptOutcome, NodeListener};
use crate::peer::{Peer, TurnOutcome};
use local_cluster::{GhostHistory, LocalState};
use mio::net::{TcpListener, TcpStream};
use mio::{Events, Poll, Token};
use proxy_runtime::{Socket, WireRunFault};
use resp_wire::NoMemory;
use slab::Slab;
use slot_map::{NodeId, NodeTable};
use std::alloc::Global;
use std::collections::VecDeque;
use std::io::ErrorKind;
use std::net::Net;
use std::sync::Wait;
use std::time::Duration;

/// How many events are taken in one wait.
const EVENTS: usize = 256;
/// How many bytes are read in one call.
const READ_BYTES: usize = 16 * 1024;
/// How many connections one listener accepts before the others have their turn.
const ACCEPT_BATCH: usize = 64;
/// How long to wait before the system is asked again, where it refused a connection, in milliseconds.
const RETRY_MILLIS: u64 = 100;

/// Serves each node of a cluster at the listener of its place, with the table that MOVED and CLUSTER SLOTS tell. With
/// `Some(k)` it ends when k connections have come and gone, and with `None` it goes on.
pub fn run_nodes<R: Wait + Net>(
    rt: &R,
    alloc: Global,
    listeners: Vec<TcpListener>,
    state: LocalState<GhostHistory>,
    table: &NodeTable,
    conns: Option<u32>,
) -> Result<(), WireRunFault> {
    let poll = Poll::new(rt).map_err(WireRunFault::Poll)?;
    let mut service = Service::new(alloc, poll, listeners, state, table, conns)?;
    match Events::with_capacity(alloc, EVENTS) {
        Ok(mut events) => serve(rt, &mut service, &mut events),
        Err(_) => Err(WireRunFault::NoMemory),
    }
}

fn serve<R: Wait>(
    rt: &R,
    service: &mut Service<'_>,
    events: &mut Events,
) -> Result<(), WireRunFault> {
    let mut buffer = [0u8; READ_BYTES];
    for _ in rt.forever() {
        if service.is_over() {
            return Ok(());
        }
        service.poll_events(events)?;
        service.serve_events(events, &mut buffer)?;
    }
    unreachable!()
}

/// The nodes, and who is connected to them.
#[derive(Drop)]
struct Service<'a> {
    alloc: Global,
    poll: Poll,
    listeners: Vec<NodeListener>,
    peers: Slab<Peer>,
    /// The peers that may have something to do, each once.
    active: VecDeque<usize>,
    state: LocalState<GhostHistory>,
    table: &'a NodeTable,
    /// How many connections are still to come, if there is an end.
    left: Option<u32>,
    /// The next connection's number, while there is one.
    next: Option<u32>,
    /// The system refused a connection.
    refused: bool,
}

impl<'a> Service<'a> {
    fn new(
        alloc: Global,
        poll: Poll,
        listeners: Vec<TcpListener>,
        state: LocalState<GhostHistory>,
        table: &'a NodeTable,
        conns: Option<u32>,
    ) -> Result<Service<'a>, WireRunFault> {
        let listeners = watch_listeners(alloc, &poll, listeners)?;
        Ok(Service {
            alloc,
            poll,
            listeners,
            peers: Slab::new(alloc),
            active: VecDeque::new(alloc),
            state,
            table,
            left: conns,
            next: Some(0),
            refused: false,
        })
    }

    /// Whether all connections have come and gone.
    fn is_over(&self) -> bool {
        !self.may_accept_more() && self.peers.is_empty()
    }

    /// Whether a further connection is accepted.
    fn may_accept_more(&self) -> bool {
        self.left != Some(0)
    }

    /// Waits until a socket is ready, or not at all where something is to be done.
    fn poll_events(&mut self, events: &mut Events) -> Result<(), WireRunFault> {
        let timeout = self.poll_timeout();
        self.poll.poll(events, timeout).map_err(WireRunFault::Poll)
    }

    /// How long to wait.
    fn poll_timeout(&self) -> Option<Duration> {
        if !self.active.is_empty() {
            return Some(Duration::ZERO);
        }
        if !self.may_accept_more() || !self.listeners.iter().any(|listener| listener.may_accept) {
            return None;
        }
        if self.refused {
            Some(Duration::from_millis(RETRY_MILLIS))
        } else {
            Some(Duration::ZERO)
        }
    }

    /// Does what can be done at once, after these events.
    fn serve_events(&mut self, events: &Events, buffer: &mut [u8]) -> Result<(), NoMemory> {
        self.note_events(events)?;
        self.accept_all()?;
        self.turn_all(buffer)
    }

    /// Notes which sockets are ready.
    fn note_events(&mut self, events: &Events) -> Result<(), NoMemory> {
        for event in events {
            let Token(place) = event.token();
            if let Some(listener) = self.listeners.get_mut(place) {
                listener.may_accept = true;
                continue;
            }
            let key = place.wrapping_sub(self.listeners.len());
            if let Some(peer) = self.peers.get_mut(key) {
                peer.note_event(event);
                self.activate(key)?;
            }
        }
        Ok(())
    }

    /// Gives the peer a turn in this round.
    fn activate(&mut self, key: usize) -> Result<(), NoMemory> {
        let Some(peer) = self.peers.get_mut(key) else {
            return Ok(());
        };
        if peer.active {
            return Ok(());
        }
        self.active.push_back(key)?;
        peer.active = true;
        Ok(())
    }

    /// Accepts the connections that wait.
    fn accept_all(&mut self) -> Result<(), NoMemory> {
        self.refused = false;
        for place in 0..self.listeners.len() {
            self.accept_at(place)?;
        }
        Ok(())
    }

    /// Accepts the connections that wait at a listener.
    fn accept_at(&mut self, place: usize) -> Result<(), NoMemory> {
        for _ in 0..ACCEPT_BATCH {
            if !self.may_accept_more() {
                return Ok(());
            }
            let Some(listener) = self.listeners.get_mut(place) else {
                return Ok(());
            };
            if !listener.may_accept {
                return Ok(());
            }
            let node = listener.node;
            match listener.accept() {
                AcceptOutcome::Accepted(stream) => self.add_peer(stream, node)?,
                AcceptOutcome::NoneWaiting => return Ok(()),
                AcceptOutcome::Refused => {
                    self.refused = true;
                    return Ok(());
                }
            }
        }
        Ok(())
    }

    /// Adds a connection to the peers. It is closed at once where it can't be numbered or watched.
    fn add_peer(&mut self, stream: TcpStream, node: NodeId) -> Result<(), NoMemory> {
        let Some(client) = self.next_client() else {
            return Ok(());
        };
        let Ok(mut socket) = Socket::new(stream) else {
            return Ok(());
        };
        let key = self.peers.vacant_key();
        let token = Token(key.wrapping_add(self.listeners.len()));
        if socket.watch(self.poll.registry(), token).is_err() {
            return Ok(());
        }
        let peer = Peer::new(socket, Connection::new(self.alloc, node, client));
        self.peers.insert(peer)?;
        self.activate(key)
    }

    /// The number of the connection that comes now, while there is one.
    fn next_client(&mut self) -> Option<u32> {
        if let Some(left) = self.left {
            self.left = Some(left.saturating_sub(1));
        }
        let client = self.next?;
        self.next = client.checked_add(1);
        Some(client)
    }

    /// Gives each active peer a turn.
    fn turn_all(&mut self, buffer: &mut [u8]) -> Result<(), NoMemory> {
        for _ in 0..self.active.len() {
            let Some(key) = self.active.pop_front() else {
                return Ok(());
            };
            self.turn(key, buffer)?;
        }
        Ok(())
    }

    /// Gives a peer its turn, and drops it where it has ended.
    fn turn(&mut self, key: usize, buffer: &mut [u8]) -> Result<(), NoMemory> {
        let Some(peer) = self.peers.get_mut(key) else {
            return Ok(());
        };
        match peer.turn(buffer, &mut self.state, self.table)? {
            TurnOutcome::Again => self.active.push_back(key)?,
            TurnOutcome::Waits => peer.active = false,
            TurnOutcome::Over => {
                drop(self.peers.try_remove(key));
            }
        }
        Ok(())
    }
}

/// The listeners, in the order of the nodes, watched by the poll.
fn watch_listeners(
    alloc: Global,
    poll: &Poll,
    listeners: Vec<TcpListener>,
) -> Result<Vec<NodeListener>, WireRunFault> {
    let mut watched: Vec<NodeListener> = Vec::new(alloc);
    for listener in listeners {
        let place = watched.len();
        let Some(node) = node_at(place) else {
            return Err(WireRunFault::Listen(ErrorKind::InvalidInput.into()));
        };
        let listener = NodeListener::new(poll.registry(), listener, Token(place), node).map_err(
            WireRunFault::Listen,
        )?;
        if watched.push(listener).is_err() {
            return Err(WireRunFault::NoMemory);
        }
    }
    Ok(watched)
}

fn node_at(place: usize) -> Option<NodeId> {
    NodeId::new(u8::try_from(place).ok()?)
}
