//! A client in memory, which lines still see while a proxy serves it.

use crate::gates::WATCHED;
use key_split::{Ended, Ticket};
use node_link::Flow;
use proxy_turns::{ClientPort, Script};
use resp_wire::{Bytes, NoMemory};
use std::alloc::{AllocError, Global};
use std::cell::RefCell;
use std::rc::Rc;

/// A script that two hold: the proxy and the row.
#[derive(Drop)]
pub struct SharedClient {
    number: u32,
    script: Rc<RefCell<Script>>,
    /// How many ends were noted.
    noted: Rc<RefCell<u64>>,
}

/// A value that several hold.
pub fn shared<T: Drop>(alloc: Global, value: T) -> Result<Rc<RefCell<T>>, NoMemory> {
    match Rc::new(alloc, RefCell::new(value)) {
        Ok(shared) => Ok(shared),
        Err(_) => Err(NoMemory),
    }
}

impl SharedClient {
    /// A client that sends these bytes.
    pub fn new(alloc: Global, number: u32, bytes: Bytes) -> Result<SharedClient, NoMemory> {
        let script = shared(alloc, Script::new(alloc, number, bytes))?;
        let noted = shared(alloc, 0)?;
        Ok(SharedClient {
            number,
            script,
            noted,
        })
    }

    /// The same client.
    pub fn again(&self) -> Result<SharedClient, AllocError> {
        let script = self.script.clone()?;
        let noted = self.noted.clone()?;
        Ok(SharedClient {
            number: self.number,
            script,
            noted,
        })
    }

    /// The client holds these bytes, as if they had been replied.
    pub fn hears(&self, bytes: &[u8]) -> bool {
        match self.script.try_borrow_mut() {
            Ok(mut script) => script.push(bytes, &[]).is_ok(),
            Err(_) => false,
        }
    }

    /// How many ends were noted so far.
    pub fn noted(&self) -> Option<u64> {
        let noted = self.noted.try_borrow().ok()?;
        Some(*noted)
    }

    fn count_end(&self) {
        if let Ok(mut noted) = self.noted.try_borrow_mut() {
            *noted = noted.wrapping_add(1);
        }
    }

    /// Takes away what the client holds, and how many ends were noted.
    pub fn take_held(&self, alloc: Global) -> Option<(Bytes, usize)> {
        let empty = Script::new(alloc, 0, Bytes::new(Vec::new(alloc)));
        let script = self.script.try_replace(empty).ok()?;
        let (_, replies, ends) = script.into_parts();
        Some((replies, ends.len()))
    }
}

impl ClientPort for SharedClient {
    // It promises nothing: the rows look at what it holds.
    ghost moves = { record { between = λ old pulled pushed noted new. Unit {0}; gone = λ port. Unit {0} } };

    fn is_watched(&self) -> bool {
        self.number < WATCHED
    }

    fn pull(&mut self, buffer: &mut [u8]) -> Result<Flow, NoMemory> {
        let Ok(mut script) = self.script.try_borrow_mut() else {
            return Err(NoMemory);
        };
        match script.pull(buffer)? {
            Flow::Bytes(count) => Ok(Flow::Bytes(count)),
            Flow::Nothing => Ok(Flow::Nothing),
            Flow::Gone => Ok(Flow::Gone),
        }
    }

    fn push(&mut self, first: &[u8], second: &[u8]) -> Result<Flow, NoMemory> {
        let Ok(mut script) = self.script.try_borrow_mut() else {
            return Err(NoMemory);
        };
        match script.push(first, second)? {
            Flow::Bytes(count) => Ok(Flow::Bytes(count)),
            Flow::Nothing => Ok(Flow::Nothing),
            Flow::Gone => Ok(Flow::Gone),
        }
    }

    fn note(&mut self, ticket: Ticket, end: &Ended) -> Result<(), NoMemory> {
        let Ok(mut script) = self.script.try_borrow_mut() else {
            return Err(NoMemory);
        };
        match script.note(ticket, end) {
            Ok(()) => {
                self.count_end();
                Ok(())
            }
            Err(NoMemory) => Err(NoMemory),
        }
    }

    fn close(&mut self) {}
}
