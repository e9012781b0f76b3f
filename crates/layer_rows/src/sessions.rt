//! A client's session.

use crate::held::put;
use crate::notation::{CallFault, Line, Object};
use key_split::{Ended, Ticket};
use resp_wire::{Bytes, Limits};
use session_order::{Session, SessionFault};
use std::alloc::Global;

impl Object for Session {
    fn call(&mut self, line: &mut Line) {
        match line.call() {
            "new" => {
                if let Some((worker, client)) = line.read::<(u16, u16)>() {
                    let new = Session::new(line.alloc, worker, u32::from(client), Limits::full());
                    put(self, new, line);
                }
            }
            "feed" => {
                if let Some(bytes) = line.read::<Bytes>() {
                    line.show(feed(line.alloc, self, bytes.as_slice()));
                }
            }
            "read" => line.show(self.read()),
            "readall" => read_all(self, line),
            "ready" => line.show(self.ready()),
            "finished" => line.show(self.finished()),
            "drain" => line.show(drained(line.alloc, self)),
            _ => call_of_ticket(self, line),
        }
    }
}

/// Feeds a buffer of these bytes.
fn feed(alloc: Global, session: &mut Session, bytes: &[u8]) -> Result<usize, SessionFault> {
    let mut buffer = Vec::new(alloc);
    if buffer.extend_from_slice(bytes).is_err() {
        return Err(SessionFault::NoMemory);
    }
    let count = buffer.len();
    session.feed(&mut buffer, count)
}

/// Reads requests until none can be read now. Answers `no`, or the fault.
fn read_all(session: &mut Session, line: &mut Line) {
    for _ in 0..u64::MAX {
        let read = session.read();
        if !matches!(read, Ok(true)) {
            return line.show(read);
        }
    }
}

fn call_of_ticket(session: &mut Session, line: &mut Line) {
    let Some(ticket) = line.read() else {
        return;
    };
    match line.call() {
        "awaits" => line.show(session.awaits(ticket)),
        "follow" => {
            if session.awaits(ticket) {
                line.show(session.follower(ticket));
            } else {
                line.say("none");
            }
        }
        "ended" => end(session, ticket, line),
        _ => line.refuse(CallFault::NoSuchCall),
    }
}

/// Tells an end, where it is awaited.
fn end(session: &mut Session, ticket: Ticket, line: &mut Line) {
    let Some(end) = line.read::<Ended>() else {
        return;
    };
    if session.awaits(ticket) {
        session.ended(ticket, end);
        line.done();
    } else {
        drop(end);
        line.say("none");
    }
}

fn drained(alloc: Global, session: &mut Session) -> Result<Bytes, CallFault> {
    let mut out = Vec::new(alloc);
    let drained = session.drain(&mut out, usize::MAX)?;
    if let Some(tail) = drained.tail {
        out.extend_from_slice(tail.as_slice())?;
    }
    Ok(Bytes::new(out))
}
