//! A node's end over a socket.

ghost use Rattle.std.specs.Prelude.{◌≡◌, ◌≤◌};

use crate::cluster_notes::SharedNotes;
use crate::link_watch::LinkWatch;
use crate::lost_nodes::note_lost;
use event_log::{Event, Figure, NodeName};
use node_link::{Flow, Stream};
use proxy_runtime::PolledSocket;
use slot_map::NodeId;
use std::io;
use std::io::ErrorKind;

/// A connection to a node that stands. Its end is reported once.
pub struct NodeStream {
    socket: PolledSocket,
    node: NodeId,
    /// The node's name, until the connection's end is reported.
    name: Option<NodeName>,
    cluster: SharedNotes,
    watch: LinkWatch,
    failures: u64,
}

impl Drop for NodeStream {
    fn drop(self) {
        let NodeStream {
            socket,
            node,
            name,
            cluster,
            watch,
            failures: _,
        } = self;
        if let Some(name) = name {
            note_lost(&cluster.lost, node);
            if cluster.has_ended() {
                socket.count(Figure::LinksGone, 1);
                drop(name);
            } else {
                report_end(&socket, name, reason_of(&socket));
            }
        }
        drop(socket);
        drop(cluster);
        drop(watch);
    }
}

/// Reports the end of a connection to a node, and counts it.
fn report_end(socket: &PolledSocket, name: NodeName, reason: io::Error) {
    socket.count(Figure::LinksGone, 1);
    socket.tell(Event::LinkLost(name, reason));
}

/// Why the connection ended.
fn reason_of(socket: &PolledSocket) -> io::Error {
    if socket.has_failed() {
        return socket.reason();
    }
    io::Error::new(ErrorKind::InvalidData, "the node sent what is no reply")
}

fn silence() -> io::Error {
    io::Error::new(ErrorKind::TimedOut, "no reply for 30 seconds")
}

impl NodeStream {
    /// A connection to this node, which is reported and counted.
    pub(crate) fn new(
        socket: PolledSocket,
        node: NodeId,
        name: NodeName,
        cluster: SharedNotes,
        watch: LinkWatch,
    ) -> NodeStream {
        socket.count(Figure::Links, 1);
        if let Ok(name) = name.again() {
            socket.tell(Event::LinkOpened(name));
        }
        NodeStream {
            socket,
            node,
            name: Some(name),
            cluster,
            watch,
            failures: 0,
        }
    }

    fn reason(&self) -> io::Error {
        reason_of(&self.socket)
    }

    /// Reports the end of the connection. The node is lost.
    fn note_end(&mut self, reason: io::Error)
        ensures { self.new.failures ≡ self.old.failures }
    {
        if let Some(name) = self.name.take() {
            note_lost(&self.cluster.lost, self.node);
            report_end(&self.socket, name, reason);
        }
    }
}

impl NodeStream {
    ghost use Rattle.node_link.specs.Port.{Rose};
    ghost use Rattle.node_link.specs.declared.stream.Flow.TheVariants as flow;

    /// Counts a failure.
    fn fail(&mut self) -> Flow
        ensures gone { result ≡ flow.Gone }
        ensures rose { Rose self.old.failures self.new.failures }
        ensures count { self.old.failures ≤ self.new.failures }
    {
        self.failures = self.failures.saturating_add(1);
        Flow::Gone
    }

    /// Reports the end of the connection, and counts a failure.
    fn end(&mut self, reason: io::Error) -> Flow
        ensures gone { result ≡ flow.Gone }
        ensures rose { Rose self.old.failures self.new.failures }
        ensures count { self.old.failures ≤ self.new.failures }
    {
        self.note_end(reason);
        self.fail()
    }

    /// Reports that the socket failed or ended, and counts a failure.
    fn end_of_socket(&mut self) -> Flow
        ensures gone { result ≡ flow.Gone }
        ensures rose { Rose self.old.failures self.new.failures }
        ensures count { self.old.failures ≤ self.new.failures }
    {
        let reason = self.reason();
        self.end(reason)
    }
}

impl Stream for NodeStream {
    ghost failures = { λ stream. stream.failures };

    ghost moved = { λ _ _ _ _. Unit {0} };

    ghost still = { λ _. tt };

    ghost joined = { λ _ _ _ _ _ _ _ _ _. tt };

    fn owes(&self, replies: bool) {
        self.watch.note_owed(replies);
    }

    fn read(&mut self, buffer: &mut [u8]) -> Flow {
        match self.socket.read(buffer) {
            Flow::Bytes(count) => {
                self.watch.note_read();
                Flow::Bytes(count)
            }
            Flow::Nothing => {
                if self.watch.note_nothing() {
                    return self.end(silence());
                }
                Flow::Nothing
            }
            Flow::Gone => self.end_of_socket(),
        }
    }

    fn write(&mut self, first: &[u8], second: &[u8]) -> Flow {
        let offered = first.len().saturating_add(second.len());
        match self.socket.write(first, second) {
            Flow::Bytes(count) => {
                self.watch.note_written(count, offered);
                Flow::Bytes(count)
            }
            Flow::Nothing => {
                self.watch.note_written(0, offered);
                Flow::Nothing
            }
            Flow::Gone => self.end_of_socket(),
        }
    }
}
