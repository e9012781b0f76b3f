//! `nodes`: the example cluster, served on this machine.

use local_cluster::{LocalState, three_nodes};
use mio::net::TcpListener;
use node_server::run_nodes;
use program_words::Ports;
use proxy_runtime::WireRunFault;
use slot_map::NodeTable;
use std::alloc::Global;
use std::io;
use std::net::{Net, SocketAddr};
use std::sync::Wait;
use thiserror::Error;

/// Why the nodes are not served.
#[derive(Debug, Drop, Error)]
pub enum NodesFault {
    #[error("out of memory")]
    NoMemory,
    #[error("cannot listen on 127.0.0.1:{0}: {1}")]
    Port(u16, io::Error),
    #[error("cannot serve the nodes: {0}")]
    Run(WireRunFault),
}

/// Serves the example cluster at these ports of 127.0.0.1, without end.
pub fn serve_nodes<R: Wait + Net>(rt: &R, alloc: Global, ports: Ports) -> Result<(), NodesFault> {
    let mut listeners = Vec::new(alloc);
    let mut table = NodeTable::new(alloc);
    for port in ports {
        let listener = listen(rt, port)?;
        if listeners.push(listener).is_err() || table.intern(b"127.0.0.1", port).is_err() {
            return Err(NodesFault::NoMemory);
        }
    }
    serve_example(rt, alloc, listeners, &table)
}

fn serve_example<R: Wait + Net>(
    rt: &R,
    alloc: Global,
    listeners: Vec<TcpListener>,
    table: &NodeTable,
) -> Result<(), NodesFault> {
    let Ok(cluster) = three_nodes(alloc) else {
        return Err(NodesFault::NoMemory);
    };
    let state = LocalState::new(alloc, cluster);
    match run_nodes(rt, alloc, listeners, state, table, None) {
        Ok(()) => Ok(()),
        Err(fault) => Err(NodesFault::Run(fault)),
    }
}

fn listen<R: Net>(rt: &R, port: u16) -> Result<TcpListener, NodesFault> {
    let at = SocketAddr::from(([127, 0, 0, 1], port));
    TcpListener::bind(rt, at).map_err(|error| NodesFault::Port(port, error))
}
