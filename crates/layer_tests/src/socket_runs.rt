//! Runs that end once a number of clients have come and gone. The clients connect before the run begins.
//!
//! In one of them the nodes run in a thread of their own, and the proxy before them in that of the test.

ghost use Rattle.std.specs.Prelude.{◌≡◌};

use crate::tables::table_at;
use event_log::ErrorStream;
use local_cluster::{LocalState, three_nodes};
use mio::net;
use node_server::run_nodes;
use slot_map::NodeTable;
use socket_proxy::{Proxy, listen, run_wire};
use std::alloc::{AllocGlobal, Global};
use std::io::{Read, Write};
use std::net::{Net, SocketAddr, TcpListener, TcpStream};
use std::sync::Wait;
use std::test::Fail;
use std::thread::{self, JoinHandle, Threads};

/// SET a 1, and GET without its key.
const CUT: &[u8] = b"*3\r\n$3\r\nSET\r\n$1\r\na\r\n$1\r\n1\r\n*2\r\n$3\r\nGET\r\n";

/// GET a, QUIT.
const GET: &[u8] = b"*2\r\n$3\r\nGET\r\n$1\r\na\r\n*1\r\n$4\r\nQUIT\r\n";

/// A port of this machine.
fn loopback(port: u16) -> SocketAddr {
    SocketAddr::from(([127, 0, 0, 1], port))
}

/// A client that has sent these bytes.
fn client<R: Net<Listener = TcpListener, Stream = TcpStream>>(
    rt: &R,
    port: u16,
    sent: &[u8],
) -> Option<TcpStream> {
    let mut stream = TcpStream::connect(rt, loopback(port)).ok()?;
    stream.write_all(sent).ok()?;
    Some(stream)
}

/// Whether a client hears these bytes up to the end of the connection.
fn hears(alloc: Global, stream: &mut TcpStream, wanted: &[u8]) -> bool {
    let mut heard = Vec::new(alloc);
    stream.read_to_end(&mut heard).is_ok() && heard.as_slice() == wanted
}

/// A proxy with so many workers that ends once `clients` clients have come and gone.
fn proxy<'a>(
    listener: net::TcpListener,
    seeds: &'a NodeTable,
    workers: u16,
    clients: u32,
    log: &'a ErrorStream,
) -> Proxy<'a>
    ensures { result.workers ≡ workers }
{
    Proxy {
        listener,
        seeds,
        workers,
        clients: Some(clients),
        descriptors: None,
        credentials: None,
        password: None,
        log,
    }
}

#[test]
fn a_run_for_no_client_ends_at_once(rt: HostRuntime) -> Result<(), Fail> {
    let listener = listen(&rt, "127.0.0.1", 0)?;
    let seeds = table_at(rt.alloc(), &[1])?;
    run_wire(
        &rt,
        rt.alloc(),
        proxy(listener, &seeds, 2, 0, &ErrorStream::new(None)),
        None,
    )?;
    Ok(())
}

/// A port at which nobody listens.
fn free_port<R: Net>(rt: &R) -> Result<u16, Fail> {
    let listener = listen(rt, "127.0.0.1", 0)?;
    Ok(listener.local_addr()?.port())
}

// Two of three clients leave in the middle of a request.
#[test]
fn clients_that_leave_early_are_counted(rt: HostRuntime) -> Result<(), Fail> {
    let listener = listen(&rt, "127.0.0.1", 0)?;
    let port = listener.local_addr()?.port();
    let seed = free_port(&rt)?;
    drop(client(&rt, port, CUT).ok_or("a client")?);
    let mut staying = client(&rt, port, GET).ok_or("a client")?;
    drop(client(&rt, port, CUT).ok_or("a client")?);
    let seeds = table_at(rt.alloc(), &[seed])?;
    run_wire(
        &rt,
        rt.alloc(),
        proxy(listener, &seeds, 4, 3, &ErrorStream::new(None)),
        None,
    )?;
    let wanted = b"-ERR proxy: gave up, not executed\r\n+OK\r\n";
    assert!(rt; hears(rt.alloc(), &mut staying, wanted));
    Ok(())
}

/// What the first node answers.
const MOVED: &[u8] = b"-MOVED 15495 127.0.0.1:7003\r\n+OK\r\n";

/// Runs the nodes until one connection to the first has come and gone.
fn run_for_one<R: Wait + Net>(
    rt: &R,
    alloc: Global,
    listener: net::TcpListener,
    port: u16,
) -> Result<(), Fail> {
    let table = table_at(alloc, &[port, 7002, 7003])?;
    let mut listeners = Vec::new(alloc);
    listeners.push(listener)?;
    let state = LocalState::new(alloc, three_nodes(alloc)?);
    run_nodes(rt, alloc, listeners, state, &table, Some(1))?;
    Ok(())
}

// The nodes end once their one connection has come and gone.
#[test]
fn nodes_end_behind_their_connections(rt: HostRuntime) -> Result<(), Fail> {
    let listener = net::TcpListener::bind(&rt, loopback(0))?;
    let port = listener.local_addr()?.port();
    let mut staying = client(&rt, port, GET).ok_or("a client")?;
    run_for_one(&rt, rt.alloc(), listener, port)?;
    assert!(rt; hears(rt.alloc(), &mut staying, MOVED));
    Ok(())
}

/// SET a 1, GET a, QUIT.
const SET_GET: &[u8] =
    b"*3\r\n$3\r\nSET\r\n$1\r\na\r\n$1\r\n1\r\n*2\r\n$3\r\nGET\r\n$1\r\na\r\n*1\r\n$4\r\nQUIT\r\n";

/// Three listeners, each at a port of its own, and these ports.
fn three_listeners<R: Net>(
    rt: &R,
    alloc: Global,
) -> Result<(Vec<net::TcpListener>, [u16; 3]), Fail> {
    let first = listen(rt, "127.0.0.1", 0)?;
    let second = listen(rt, "127.0.0.1", 0)?;
    let third = listen(rt, "127.0.0.1", 0)?;
    let ports = [
        first.local_addr()?.port(),
        second.local_addr()?.port(),
        third.local_addr()?.port(),
    ];
    let mut listeners = Vec::new(alloc);
    listeners.push(first)?;
    listeners.push(second)?;
    listeners.push(third)?;
    Ok((listeners, ports))
}

/// Nodes that listen so, in a thread of their own. They end once two connections have come and gone, and then it tells whether
/// they served them.
fn start_nodes<R>(
    rt: &R,
    listeners: Vec<net::TcpListener>,
    ports: [u16; 3],
) -> Result<JoinHandle<bool>, Fail>
where
    R: Threads
        + Wait
        + AllocGlobal
        + Net<Listener = TcpListener, Stream = TcpStream>
        + Copy
        + Drop
        + Send
        + 'static,
{
    let own = *rt;
    match thread::spawn(rt, move || serve_two(own, listeners, &ports)) {
        Ok(nodes) => Ok(nodes),
        Err(_) => Err(Fail::new("a thread")),
    }
}

fn serve_two<R: Wait + Net + AllocGlobal + Drop>(
    rt: R,
    listeners: Vec<net::TcpListener>,
    ports: &[u16],
) -> bool {
    let alloc = rt.alloc();
    let Ok(table) = table_at(alloc, ports) else {
        return false;
    };
    let Ok(cluster) = three_nodes(alloc) else {
        return false;
    };
    let state = LocalState::new(alloc, cluster);
    run_nodes(&rt, alloc, listeners, state, &table, Some(2)).is_ok()
}

// The nodes and the proxy in one process: the proxy asks the first node, its seed, and follows MOVED to the last.
#[test]
fn nodes_and_a_proxy_in_one_process(rt: HostRuntime) -> Result<(), Fail> {
    let (listeners, ports) = three_listeners(&rt, rt.alloc())?;
    let [seed, ..] = ports;
    let nodes = start_nodes(&rt, listeners, ports)?;
    let listener = listen(&rt, "127.0.0.1", 0)?;
    let mut asking = client(&rt, listener.local_addr()?.port(), SET_GET).ok_or("a client")?;
    let seeds = table_at(rt.alloc(), &[seed])?;
    run_wire(
        &rt,
        rt.alloc(),
        proxy(listener, &seeds, 1, 1, &ErrorStream::new(None)),
        None,
    )?;
    assert!(rt; nodes.join(&rt));
    assert!(rt; hears(rt.alloc(), &mut asking, b"+OK\r\n$1\r\n1\r\n+OK\r\n"));
    Ok(())
}
