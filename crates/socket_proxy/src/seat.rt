//! What a worker's thread keeps from one proxy to the next.

ghost use Rattle.std.specs.Prelude.{◌≡◌, None, false};

use crate::arrivals::Arrivals;
use crate::client::SocketClient;
use crate::lingering::SharedLingering;
use crate::renewal::{CUT_SECONDS, Renewal, Step};
use crate::shared::ThreadHandle;
use crate::upstream::Upstream;
use event_log::Event;
use node_dial::{SharedLookUps, SocketDial};
use proxy_runtime::{Poller, ReadySet};
use proxy_turns::{ClientPort, WorkerEnd};
use resp_wire::NoMemory;
use slot_map::{NODE_LIMIT, NodeId, NodeTable};
use std::alloc::Global;
use std::net::{Net, TcpListener, TcpStream};
use std::time::Clock;

/// What a worker's thread keeps from one proxy to the next.
#[derive(Drop)]
pub(crate) struct Seat<'a> {
    /// The number of the worker.
    pub(crate) worker: usize,
    pub(crate) handle: &'a ThreadHandle,
    pub(crate) poller: Poller,
    pub(crate) arrivals: Arrivals<'a>,
    pub(crate) lingering: SharedLingering,
    pub(crate) look_ups: SharedLookUps,
    pub(crate) renewal: Renewal,
    /// The table of the next proxy; `None` for the seeds.
    pub(crate) table: Option<NodeTable>,
    /// How many clients of the last proxy were cut.
    pub(crate) cut: u64,
}

impl<'a> Seat<'a> {
    ghost use Rattle.std.specs.Option.{option_or};
    ghost use Rattle.socket_proxy.specs.Seats.{BeginsWith, Renews};

    /// What is ready in the thread, with its time.
    pub(crate) fn ready(&self) -> &'a ReadySet {
        &self.handle.ready
    }

    /// The table that the next proxy begins with.
    pub(crate) fn next_table(
        &mut self,
        alloc: Global,
        upstream: &Upstream<'_>,
    ) -> Result<NodeTable, NoMemory>
        ensures begins { BeginsWith upstream.now.seeds.now self.old.table result }
        ensures taken { self.new.table ≡ None }
    {
        match self.table.take() {
            Some(table) => Ok(table),
            None => upstream.seed_table(alloc),
        }
    }

    /// A proxy begins, with a table of so many nodes. Where it is not the first one of the thread, that is reported.
    pub(crate) fn begin(&mut self, nodes: usize)
        ensures { self.new.renewal ≡ record self.old.renewal { is_under_way = false } }
    {
        if !self.renewal.end() {
            return;
        }
        self.lingering.end();
        self.handle.set_closed(false);
        self.handle
            .report()
            .tell(Event::TableBegun(self.worker, nodes, self.cut));
    }

    /// Has the clients let go, where the proxy's table has no place for a node, and that is due. True where the proxy has come to
    /// its end.
    pub(crate) fn renew<R: Clock + Net<Listener = TcpListener, Stream = TcpStream>>(
        &mut self,
        dial: &SocketDial<'_, R>,
        served: bool,
    ) -> bool {
        let now = self.ready().time();
        self.renew_at(dial, dial.wants_table(), served, now)
    }

    /// The same at this time, in milliseconds, where another table is wanted or not.
    fn renew_at<R: Clock + Net<Listener = TcpListener, Stream = TcpStream>>(
        &mut self,
        dial: &SocketDial<'_, R>,
        wanted: bool,
        served: bool,
        now: u64,
    ) -> bool
        ensures { Renews self.old.renewal wanted served now result self.new.renewal }
    {
        match self.renewal.step(wanted, served, now) {
            Step::Rest => {
                self.ready()
                    .wake_at(self.renewal.next_due(wanted).unwrap_or(u64::MAX));
                false
            }
            Step::LetGo => {
                self.keep_table(dial.take_table());
                self.let_go(now);
                false
            }
            Step::Begin => {
                self.keep_table(dial.take_table());
                dial.end();
                true
            }
        }
    }

    /// Keeps the table for the next proxy, where there is one.
    fn keep_table(&mut self, table: Option<NodeTable>)
        ensures kept { self.new.table ≡ option_or table self.old.table }
        ensures renewal { self.new.renewal ≡ self.old.renewal }
    {
        match table {
            Some(table) => self.table = Some(table),
            None => {}
        }
    }

    /// No client is dealt to the thread any more, and those that it has are let go from the next turn on.
    fn let_go(&self, now: u64) {
        self.handle.set_closed(true);
        self.handle.report().tell(Event::TableFull(
            self.worker,
            self.arrivals.clients(),
            CUT_SECONDS,
        ));
        self.ready().wake_at(now);
    }

    /// Closes the connections of the clients that are left.
    pub(crate) fn cut(&mut self, end: WorkerEnd<SocketClient>) {
        let WorkerEnd {
            worker: _,
            ports,
            outcome: _,
        } = end;
        self.cut = 0;
        for port in ports {
            if close(port) {
                self.cut = self.cut.saturating_add(1);
            }
        }
    }
}

/// Closes the client's connection. True where it was open.
fn close(mut port: SocketClient) -> bool {
    let is_there = port.is_there();
    port.close();
    is_there
}

/// How many nodes the table has.
pub(crate) fn count_nodes(nodes: &NodeTable) -> usize {
    let mut count: usize = 0;
    for number in 0..NODE_LIMIT {
        if has_node(nodes, number) {
            count = count.saturating_add(1);
        }
    }
    count
}

fn has_node(nodes: &NodeTable, number: usize) -> bool {
    let Ok(number) = u8::try_from(number) else {
        return false;
    };
    match NodeId::new(number) {
        Some(node) => nodes.endpoint(node).is_some(),
        None => false,
    }
}
