//! `serve`: the proxy before a cluster.

use crate::descriptors::descriptor_limit;
use crate::environment::Passwords;
use crate::log_lines::{log_end, log_start};
use event_log::ErrorStream;
use program_words::{Address, Serving, VERSION, seed_table};
use proxy_runtime::WireRunFault;
use socket_proxy::{Admin, Proxy, listen, run_wire};
use std::alloc::AllocGlobal;
use std::fs::File;
use std::net::{Net, TcpListener, TcpStream};
use std::random::RandomSource;
use std::rt::Files;
use std::sync::Wait;
use std::thread::Threads;
use std::time::Clock;
use std::{fs, io};
use thiserror::Error;

/// In which the system tells of this process.
const STATUS: &str = "/proc/self/status";

/// Why clients are not served.
#[derive(Debug, Drop, Error)]
pub enum ServeFault<'a> {
    #[error("cannot listen on {0}: {1}")]
    Listen(Address<'a>, io::Error),
    #[error("cannot listen on {0} (admin): {1}")]
    ListenAdmin(Address<'a>, io::Error),
    #[error("cannot serve clients: {0}")]
    Run(WireRunFault),
}

/// Runs the proxy until it is drained, with these passwords, and logs to this stream.
pub fn serve_clients<'a, R>(
    rt: &R,
    serving: Serving<'a>,
    passwords: Passwords,
    log: &ErrorStream,
) -> Result<(), ServeFault<'a>>
where
    R: Threads
        + Wait
        + RandomSource
        + Clock
        + Files<File = File>
        + AllocGlobal
        + Net<Listener = TcpListener, Stream = TcpStream>
        + Copy
        + Send
        + Sync
        + 'static,
{
    let at = serving.listen;
    let listener = match listen(rt, at.host, at.port) {
        Ok(listener) => listener,
        Err(error) => return Err(ServeFault::Listen(at, error)),
    };
    let admin = listen_admin(rt, serving.admin)?;
    let Ok(seeds) = seed_table(rt.alloc(), serving.seeds.as_slice()) else {
        return Err(ServeFault::Run(WireRunFault::NoMemory));
    };
    log_start(rt, rt.alloc(), &serving, log);
    let Passwords { nodes, clients } = passwords;
    let proxy = Proxy {
        listener,
        seeds: &seeds,
        workers: serving.workers,
        clients: None,
        descriptors: descriptor_limit(),
        credentials: nodes,
        password: clients,
        log,
    };
    let ended = run_wire(rt, rt.alloc(), proxy, admin);
    log_end(rt, rt.alloc(), &ended, log);
    match ended {
        Ok(()) => Ok(()),
        Err(fault) => Err(ServeFault::Run(fault)),
    }
}

/// Where the page is asked for, at this address, where there is one.
fn listen_admin<'a, R: Net + Files<File = File>>(
    rt: &R,
    at: Option<Address<'a>>,
) -> Result<Option<Admin<'static>>, ServeFault<'a>> {
    let Some(at) = at else {
        return Ok(None);
    };
    match listen(rt, at.host, at.port) {
        Ok(listener) => Ok(Some(Admin {
            listener,
            version: VERSION,
            status: fs::open(rt, STATUS).ok(),
        })),
        Err(error) => Err(ServeFault::ListenAdmin(at, error)),
    }
}
