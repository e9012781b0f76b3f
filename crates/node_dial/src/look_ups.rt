//! The look-ups that the dials of the nodes ask for.

use crate::look_up::LookUp;
use crate::place::put;
use mio::Registry;
use resp_wire::NoMemory;
use std::alloc::Global;
use std::cell::RefCell;
use std::io;
use std::net::{Net, SocketAddr, TcpListener, TcpStream};
use std::rc::Rc;
use std::thread::Threads;

/// What was found of a name.
pub(crate) type Found = io::Result<Vec<SocketAddr>>;

/// The names that are to be looked up, with what was found, until that is taken.
pub struct LookUps {
    alloc: Global,
    /// What the thread polls that is woken when something was found.
    registry: Registry,
    names: Vec<Name>,
}

// By hand, so that the crates above prove one call.
impl Drop for LookUps {
    fn drop(self) {
        let LookUps {
            alloc: _,
            registry,
            names,
        } = self;
        drop(registry);
        drop(names);
    }
}

/// The same, for all that belongs to the carrier.
pub type SharedLookUps = Rc<RefCell<LookUps>>;

/// A name that is to be looked up.
#[derive(Drop)]
struct Name {
    host: String,
    port: u16,
    stage: Stage,
}

/// How far the look-up of a name has come.
#[derive(Drop)]
enum Stage {
    Wanted,
    UnderWay(LookUp),
    Ended(Found),
}

impl Stage {
    /// Whether a look-up is to be started, or has ended.
    fn may_advance(&self) -> bool {
        match self {
            Stage::Wanted => true,
            Stage::UnderWay(look_up) => look_up.has_ended(),
            Stage::Ended(_) => false,
        }
    }

    fn found(self) -> Option<Found> {
        match self {
            Stage::Wanted => None,
            Stage::UnderWay(_under_way) => None,
            Stage::Ended(found) => Some(found),
        }
    }
}

impl Name {
    fn has_ended(&self) -> bool {
        matches!(self.stage, Stage::Ended(_))
    }

    fn is(&self, host: &str, port: u16) -> bool {
        self.port == port && self.host.as_str() == host
    }

    /// Goes on with the look-up, where there is more to do. True where there was.
    fn advance<R>(&mut self, rt: &R, alloc: Global, registry: &Registry) -> bool
    where
        R: Threads + Net<Listener = TcpListener, Stream = TcpStream> + Copy + Send + 'static,
    {
        if !self.stage.may_advance() {
            return false;
        }
        let next = match std::mem::replace(&mut self.stage, Stage::Wanted) {
            Stage::Wanted => self.start(rt, alloc, registry),
            Stage::UnderWay(look_up) => Stage::Ended(look_up.take(rt)),
            Stage::Ended(found) => Stage::Ended(found),
        };
        put(&mut self.stage, next);
        true
    }

    fn start<R>(&self, rt: &R, alloc: Global, registry: &Registry) -> Stage
    where
        R: Threads + Net<Listener = TcpListener, Stream = TcpStream> + Copy + Send + 'static,
    {
        match LookUp::start(rt, alloc, registry, self.host.as_str(), self.port) {
            Ok(look_up) => Stage::UnderWay(look_up),
            Err(error) => Stage::Ended(Err(error)),
        }
    }
}

impl LookUps {
    /// No name is to be looked up.
    pub fn new(alloc: Global, registry: Registry) -> Result<SharedLookUps, NoMemory> {
        let look_ups = LookUps {
            alloc,
            registry,
            names: Vec::new(alloc),
        };
        Ok(Rc::new(alloc, RefCell::new(look_ups))?)
    }

    /// What was found of this name, which is looked up from now on where that was not asked for yet.
    fn take(&mut self, host: &str, port: u16) -> Option<Found> {
        match self.names.iter().position(|name| name.is(host, port)) {
            Some(at) => self.take_at(at),
            None => self
                .ask(host, port)
                .err()
                .map(|error| -> Found { Err(error) }),
        }
    }

    fn take_at(&mut self, at: usize) -> Option<Found> {
        if at >= self.names.len() || !self.names.get(at)?.has_ended() {
            return None;
        }
        let Name {
            host,
            port: _,
            stage,
        } = self.names.swap_remove(at);
        drop(host);
        stage.found()
    }

    fn ask(&mut self, host: &str, port: u16) -> io::Result<()> {
        let host = String::from_str(self.alloc, host)?;
        let stage = Stage::Wanted;
        self.names.push(Name { host, port, stage })?;
        Ok(())
    }

    /// Starts what was asked for, and takes what has ended. True where there was any of it.
    fn advance<R>(&mut self, rt: &R) -> bool
    where
        R: Threads + Net<Listener = TcpListener, Stream = TcpStream> + Copy + Send + 'static,
    {
        let mut moved = false;
        for name in &mut self.names {
            moved |= name.advance(rt, self.alloc, &self.registry);
        }
        moved
    }
}

/// What was found of this name, which is looked up from now on where that was not asked for yet.
pub(crate) fn take_found(look_ups: &SharedLookUps, host: &str, port: u16) -> Option<Found> {
    look_ups.try_borrow_mut().ok()?.take(host, port)
}

/// Starts what was asked for, and takes what has ended. True where there was any of it.
pub fn advance_look_ups<R>(rt: &R, look_ups: &SharedLookUps) -> bool
where
    R: Threads + Net<Listener = TcpListener, Stream = TcpStream> + Copy + Send + 'static,
{
    match look_ups.try_borrow_mut() {
        Ok(mut look_ups) => look_ups.advance(rt),
        Err(_) => false,
    }
}
