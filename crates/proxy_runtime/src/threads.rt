//! The threads of a run.

use resp_wire::NoMemory;
use std::alloc::{AllocError, AllocFailed, Global};
use std::io;
use std::sync::Wait;
use std::thread::{self, Builder, JoinHandle, Threads};

/// Why the threads of a run were ended.
#[derive(Clone, Copy)]
pub enum ThreadsFault {
    /// A growth was refused.
    NoMemory,
    /// A thread, or what it runs on, did not start, for the system's reason.
    NoThread(io::Error),
}

impl From<NoMemory> for ThreadsFault {
    fn from(_: NoMemory) -> ThreadsFault {
        ThreadsFault::NoMemory
    }
}

impl From<AllocError> for ThreadsFault {
    fn from(_: AllocError) -> ThreadsFault {
        ThreadsFault::NoMemory
    }
}

impl<T: Drop> From<AllocFailed<T>> for ThreadsFault {
    fn from(_: AllocFailed<T>) -> ThreadsFault {
        ThreadsFault::NoMemory
    }
}

/// Does each task in a thread of its own by `work`, calls `carry` in this one, and joins all threads. The answer has what
/// the tasks gave, in their order, and last what `carry` gave. Where a thread can't be started, `call_off` tells those
/// that were to end; `carry` is called all the same.
pub fn run_threads<A, T, R, F, O, C>(
    rt: &R,
    alloc: Global,
    tasks: Vec<A>,
    work: &F,
    call_off: &O,
    carry: C,
) -> Result<Vec<T>, ThreadsFault>
where
    A: Drop + Send,
    T: Drop + Send,
    R: Threads + Wait,
    F: Fn(A) -> T + Sync,
    O: Fn(),
    C: FnOnce() -> T,
    requires work { F.IsAlwaysCallable work.now }
    requires call_off { O.IsAlwaysCallable call_off.now }
    requires carry { C.IsAlwaysCallable carry }
{
    thread::scope(
        thread::scope_env(),
        rt,
        |scope| -> Result<Vec<T>, ThreadsFault> {
            let mut working = Vec::new(alloc);
            let started = start_all(tasks, &mut working, |task| -> io::Result<JoinHandle<T>> {
                Builder::new().spawn_scoped(scope, move || work(task))
            });
            if started.is_err() {
                call_off();
            }
            let carried = carry();
            let mut done = join_all(rt, alloc, working)?;
            started?;
            done.push(carried)?;
            Ok(done)
        },
    )
}

/// Starts a thread for each task, until one can't be started.
fn start_all<A, T, S>(
    tasks: Vec<A>,
    working: &mut Vec<JoinHandle<T>>,
    start: S,
) -> Result<(), ThreadsFault>
where
    A: Drop,
    T: Drop,
    S: Fn(A) -> io::Result<JoinHandle<T>>,
    requires { S.IsAlwaysCallable start }
{
    for task in tasks {
        let handle = start(task).map_err(ThreadsFault::NoThread)?;
        working.push(handle)?;
    }
    Ok(())
}

/// Waits for all threads, and answers what they hand back.
fn join_all<T, R>(
    rt: &R,
    alloc: Global,
    working: Vec<JoinHandle<T>>,
) -> Result<Vec<T>, ThreadsFault>
where
    T: Drop,
    R: Threads + Wait,
{
    let mut done = Vec::with_capacity(alloc, working.len())?;
    for handle in working {
        done.push(handle.join(rt))?;
    }
    Ok(done)
}
