//! What the thread of the page does.

use crate::page_client::PageClient;
use crate::page_figures::thread_figures;
use crate::process_figures::process_figures;
use crate::run::Admin;
use crate::setup::{push, shared_ready_set};
use crate::shared::Shared;
use admin_page::{Figures, MOST_CONNECTIONS, PageConnection};
use mio::net::{TcpListener, TcpStream};
use mio::{Interest, Registry};
use proxy_runtime::{Peer, PolledSocket, Poller, ReadySet, Registration, WireRunFault};
use resp_wire::NoMemory;
use std::alloc::Global;
use std::fs::File;
use std::hash::RandomState;
use std::io;
use std::io::ErrorKind;
use std::net::Net;
use std::random::RandomSource;
use std::sync::{Arc, Wait};
use std::time::Clock;

/// How long the thread sleeps at most, in milliseconds: connections end after a time, and no poll reports that all threads stop.
const SLEEP_MILLIS: u64 = 250;

/// What the thread of the page is given.
#[derive(Drop)]
pub(crate) struct PageSetup<'a> {
    listener: TcpListener,
    registration: Registration,
    ready: Arc<ReadySet, Global>,
    poller: Poller,
    version: &'a str,
    status: Option<File>,
    descriptors: Option<u64>,
}

/// What it is given, where a page is wanted, in a process that may have `descriptors` descriptors.
pub(crate) fn page_setups<'a, R: Net>(
    rt: &R,
    alloc: Global,
    admin: Option<Admin<'a>>,
    descriptors: Option<u64>,
) -> Result<Vec<PageSetup<'a>>, WireRunFault> {
    let mut setups = Vec::new(alloc);
    if let Some(admin) = admin {
        push(&mut setups, page_setup(rt, alloc, admin, descriptors)?)?;
    }
    Ok(setups)
}

fn page_setup<'a, R: Net>(
    rt: &R,
    alloc: Global,
    admin: Admin<'a>,
    descriptors: Option<u64>,
) -> Result<PageSetup<'a>, WireRunFault> {
    let Admin {
        mut listener,
        version,
        status,
    } = admin;
    let (poller, waker) = Poller::new(rt, alloc)?;
    drop(waker);
    let ready = shared_ready_set(alloc)?;
    let registration = Registration::new(&ready, Peer::Client)?;
    let watched = poller
        .registry()
        .register(&mut listener, registration.token(), Interest::READABLE);
    match watched {
        Ok(()) => Ok(PageSetup {
            listener,
            registration,
            ready,
            poller,
            version,
            status,
            descriptors,
        }),
        Err(error) => Err(WireRunFault::Listen(error)),
    }
}

/// Answers for the page until all threads are told to stop. What befalls one connection ends that one alone. Where there is no
/// memory to begin with, they are told.
pub(crate) fn run_page<R: Wait + Clock + RandomSource>(
    rt: &R,
    alloc: Global,
    setup: PageSetup<'_>,
    shared: &Shared,
) -> Option<WireRunFault> {
    match answer_all(rt, alloc, setup, shared) {
        Ok(()) => None,
        Err(NoMemory) => {
            shared.stop();
            Some(WireRunFault::NoMemory)
        }
    }
}

fn answer_all<R: Wait + Clock + RandomSource>(
    rt: &R,
    alloc: Global,
    setup: PageSetup<'_>,
    shared: &Shared,
) -> Result<(), NoMemory> {
    let PageSetup {
        listener,
        registration,
        ready,
        mut poller,
        version,
        status,
        descriptors,
    } = setup;
    let mut page = Page {
        door: Door {
            listener,
            registration,
        },
        ready,
        clients: no_clients(alloc)?,
        version,
        status,
        descriptors,
    };
    for _ in rt.forever() {
        page.ready.update_time(rt);
        if shared.is_stopped() {
            return Ok(());
        }
        page.accept_clients(rt, alloc, poller.registry());
        if page.serve_clients(alloc, shared) {
            poller.poll_now(&page.ready);
        } else {
            poller.sleep(&page.ready, SLEEP_MILLIS);
        }
    }
    unreachable!()
}

/// Places for as many connections as there may be.
fn no_clients(alloc: Global) -> Result<Vec<Option<PageClient>>, NoMemory> {
    let mut clients = Vec::with_capacity(alloc, MOST_CONNECTIONS)?;
    for _ in 0..MOST_CONNECTIONS {
        clients.push(None)?;
    }
    Ok(clients)
}

/// Where connections come in.
#[derive(Drop)]
struct Door {
    listener: TcpListener,
    registration: Registration,
}

impl Door {
    /// The next connection, where one waits.
    fn accept(&self) -> Option<TcpStream> {
        if !self.registration.may_read() {
            return None;
        }
        match self.listener.accept() {
            Ok((stream, _)) => Some(stream),
            Err(error) => {
                if error.kind() == ErrorKind::WouldBlock {
                    self.registration.clear_readable();
                }
                None
            }
        }
    }
}

/// The connections for the page.
#[derive(Drop)]
struct Page<'a> {
    door: Door,
    ready: Arc<ReadySet, Global>,
    /// A place is empty where no connection has it.
    clients: Vec<Option<PageClient>>,
    version: &'a str,
    status: Option<File>,
    descriptors: Option<u64>,
}

impl Page<'_> {
    /// Takes a connection into each empty place, as long as some wait.
    fn accept_clients<R: RandomSource>(&mut self, rt: &R, alloc: Global, registry: &Registry) {
        let now = self.ready.time();
        for place in self.clients.iter_mut() {
            if place.is_none() {
                let Some(stream) = self.door.accept() else {
                    return;
                };
                if let Ok(client) = page_client(rt, alloc, stream, &self.ready, registry, now) {
                    *place = Some(client);
                }
            }
        }
    }

    /// Serves each connection that has work, and closes those that are over. False where nothing moved.
    fn serve_clients(&mut self, alloc: Global, shared: &Shared) -> bool {
        let now = self.ready.time();
        let moved = self.has_work() && self.answer_clients(alloc, shared, now);
        for place in self.clients.iter_mut() {
            close_over(place, now);
        }
        moved
    }

    fn has_work(&self) -> bool {
        let mut has_work = false;
        for place in &self.clients {
            if let Some(client) = place {
                has_work = has_work | client.has_work();
            }
        }
        has_work
    }

    /// Answers with the figures of this moment. Without memory for them nothing moves.
    fn answer_clients(&mut self, alloc: Global, shared: &Shared, now: u64) -> bool {
        let Ok(threads) = thread_figures(alloc, shared) else {
            return false;
        };
        let figures = Figures {
            version: self.version,
            process: process_figures(&mut self.status, shared.clients(), self.descriptors),
            carrier: threads.carrier,
            workers: threads.workers.as_slice(),
            nodes: threads.nodes.as_slice(),
            times: &threads.times,
            has_map: threads.has_map,
            is_draining: shared.is_draining(),
        };
        let mut moved = false;
        for place in self.clients.iter_mut() {
            moved = step(place, alloc, &figures, shared, now) | moved;
        }
        moved
    }
}

/// A step of the connection in this place. It is closed where that fails.
fn step(
    place: &mut Option<PageClient>,
    alloc: Global,
    figures: &Figures<'_>,
    shared: &Shared,
    now: u64,
) -> bool {
    let Some(client) = place else {
        return false;
    };
    match client.step(alloc, figures, shared, now) {
        Ok(moved) => moved,
        Err(NoMemory) => {
            drop(place.take());
            true
        }
    }
}

/// Closes the connection of this place, where it is over.
fn close_over(place: &mut Option<PageClient>, now: u64) {
    if ends(place, now) {
        drop(place.take());
    }
}

/// Whether the connection of this place is over. Nothing more is read of it then.
fn ends(place: &mut Option<PageClient>, now: u64) -> bool {
    let Some(client) = place else {
        return false;
    };
    let is_over = client.is_over(now);
    if is_over {
        client.discard();
    }
    is_over
}

/// A connection that came at this time, watched by the poll of this registry.
fn page_client<R: RandomSource>(
    rt: &R,
    alloc: Global,
    stream: TcpStream,
    ready: &Arc<ReadySet, Global>,
    registry: &Registry,
    now: u64,
) -> io::Result<PageClient> {
    let Ok(registration) = Registration::new(ready, Peer::Client) else {
        return Err(ErrorKind::OutOfMemory.into());
    };
    let keys = RandomState::new(rt)?;
    let socket = PolledSocket::new(stream, registration, registry)?;
    Ok(PageClient::new(socket, PageConnection::new(alloc, keys, now)))
}
