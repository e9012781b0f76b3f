//! The look-up of a host's name, in a thread of its own.

use mio::{Registry, Token, Waker};
use std::alloc::Global;
use std::io;
use std::net::{Net, SocketAddr, TcpListener, TcpStream, ToSocketAddrs};
use std::sync::Arc;
use std::sync::atomic::{AtomicBool, Ordering};
use std::thread::{self, JoinHandle, Threads};

/// How many addresses of a name are kept.
const ADDRESSES: usize = 4;
/// The token of the wakers, which no socket has.
const WAKER: Token = Token(usize::MAX);

/// A look-up that is under way. Where it is let go its thread runs on, and nobody waits for it.
#[derive(Drop)]
pub(crate) struct LookUp {
    thread: JoinHandle<io::Result<Vec<SocketAddr>>>,
    signal: Arc<Signal, Global>,
}

/// Whether the thread has what it looked for, and how it wakes the one that waits for that.
#[derive(Drop)]
struct Signal {
    ended: AtomicBool,
    waker: Waker,
}

impl Signal {
    /// The end has not come. The thread that polls by this registry is woken then.
    fn new(alloc: Global, registry: &Registry) -> io::Result<Arc<Signal, Global>> {
        let waker = Waker::new(registry, WAKER)?;
        let signal = Signal {
            ended: AtomicBool::new(false),
            waker,
        };
        Ok(Arc::new(alloc, signal)?)
    }

    fn set(&self) {
        self.ended.store(true, Ordering::SeqCst);
        let _ = self.waker.wake();
    }
}

impl LookUp {
    /// Starts to look the host up. The thread that polls by this registry is woken at the end.
    pub(crate) fn start<R>(
        rt: &R,
        alloc: Global,
        registry: &Registry,
        host: &str,
        port: u16,
    ) -> io::Result<LookUp>
    where
        R: Threads + Net<Listener = TcpListener, Stream = TcpStream> + Copy + Send + 'static,
    {
        let signal = Signal::new(alloc, registry)?;
        let set_at_end = Arc::try_clone(&signal)?;
        let name = String::from_str(alloc, host)?;
        let runtime = *rt;
        let thread = thread::spawn(rt, move || -> io::Result<Vec<SocketAddr>> {
            let found = addresses_of(&runtime, alloc, name.as_str(), port);
            set_at_end.set();
            found
        })?;
        Ok(LookUp { thread, signal })
    }

    /// Whether the end has come.
    pub(crate) fn has_ended(&self) -> bool {
        self.signal.ended.load(Ordering::SeqCst)
    }

    /// What was found, after the end.
    pub(crate) fn take<R: Threads>(self, rt: &R) -> io::Result<Vec<SocketAddr>> {
        let LookUp { thread, signal } = self;
        drop(signal);
        thread.join(rt)
    }
}

/// The first addresses of the host. An address in digits is not looked up.
pub(crate) fn addresses_of<R: Net>(
    rt: &R,
    alloc: Global,
    host: &str,
    port: u16,
) -> io::Result<Vec<SocketAddr>> {
    let addresses = (host, port).to_socket_addrs(rt)?;
    Ok(addresses.take(ADDRESSES).collect(alloc)?)
}
