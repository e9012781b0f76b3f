//! What each thread is given before it starts.

use crate::shared::{Shared, ThreadHandle};
use client_door::ClientPassword;
use event_log::ThreadReport;
use mio::Registry;
use proxy_runtime::{Poller, ReadySet, WireRunFault};
use resp_wire::NoMemory;
use std::alloc::Global;
use std::net::Net;
use std::sync::Arc;

/// What all threads share, and what each polls.
#[derive(Drop)]
pub(crate) struct ThreadSetups {
    pub(crate) shared: Shared,
    /// Those of the workers.
    pub(crate) pollers: Vec<Poller>,
    /// The acceptor's.
    pub(crate) poller: Poller,
}

/// Handles and pollers for the workers, whose clients have to say this password, and for the acceptor.
pub(crate) fn setup_threads<R: Net>(
    rt: &R,
    alloc: Global,
    workers: u16,
    password: Option<ClientPassword>,
) -> Result<ThreadSetups, WireRunFault> {
    let mut handles = Vec::new(alloc);
    let mut pollers = Vec::new(alloc);
    for _ in 0..workers {
        setup_worker(rt, alloc, &mut handles, &mut pollers)?;
    }
    let (acceptor, poller) = setup_thread(rt, alloc)?;
    let password = share_password(alloc, password)?;
    Ok(ThreadSetups {
        shared: Shared::new(handles, acceptor, password),
        pollers,
        poller,
    })
}

fn share_password(
    alloc: Global,
    password: Option<ClientPassword>,
) -> Result<Option<Arc<ClientPassword, Global>>, NoMemory> {
    match password {
        Some(password) => Ok(Some(Arc::new(alloc, password)?)),
        None => Ok(None),
    }
}

/// A handle and a poller for one more worker's thread.
fn setup_worker<R: Net>(
    rt: &R,
    alloc: Global,
    handles: &mut Vec<ThreadHandle>,
    pollers: &mut Vec<Poller>,
) -> Result<(), WireRunFault> {
    let (handle, poller) = setup_thread(rt, alloc)?;
    push(handles, handle)?;
    push(pollers, poller)?;
    Ok(())
}

/// A thread's handle and poller.
fn setup_thread<R: Net>(rt: &R, alloc: Global) -> Result<(ThreadHandle, Poller), WireRunFault> {
    let ready = shared_ready_set(alloc)?;
    let (poller, waker) = Poller::new(rt, alloc)?;
    Ok((ThreadHandle::new(ready, waker), poller))
}

/// A set whose sockets are counted alone.
pub(crate) fn shared_ready_set(alloc: Global) -> Result<Arc<ReadySet, Global>, NoMemory> {
    let ready = ReadySet::new(alloc, ThreadReport::new(alloc)?)?;
    Ok(Arc::new(alloc, ready)?)
}

pub(crate) fn clone_registry(poller: &Poller) -> Result<Registry, WireRunFault> {
    poller.registry().try_clone().map_err(WireRunFault::Poll)
}

pub(crate) fn push<T: Drop>(list: &mut Vec<T>, item: T) -> Result<(), NoMemory> {
    list.push(item)?;
    Ok(())
}
