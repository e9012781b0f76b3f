//! Links and ports over a stream in memory.

use crate::held::{Held, put, put_read};
use crate::notation::{CallFault, Line, Object};
use crate::stream::MemoryStream;
use key_split::Batch;
use node_link::{BlockPort, FLUSH_AFTER_READS, Got, Link, LinkFault, NodePort, PortFault};
use resp_wire::{Limits, Value};
use slot_map::NodeTable;
use std::alloc::Global;

type Port = BlockPort<MemoryStream>;

#[derive(Drop)]
pub struct LinkObjects {
    /// The stream of the link or port that is made next.
    pub stream: MemoryStream,
    port: Held<Port>,
    link: Held<Link<Port>>,
}

impl LinkObjects {
    pub fn new(alloc: Global) -> LinkObjects {
        LinkObjects {
            stream: MemoryStream::new(alloc, Vec::new(alloc)),
            port: Held::none(),
            link: Held::none(),
        }
    }

    pub fn port(&mut self, line: &mut Line) {
        match line.call() {
            "new" => {
                self.port.put(next_port(&mut self.stream, line.alloc));
                line.done();
            }
            _ => self.port.call(line),
        }
    }

    pub fn link(&mut self, table: &mut NodeTable, value: &mut Held<Value>, line: &mut Line) {
        match line.call() {
            "new" => {
                if let Some(node) = line.read() {
                    let port = next_port(&mut self.stream, line.alloc);
                    self.link.put(Link::new(line.alloc, port, node));
                    line.done();
                }
            }
            "patience" => line.show(FLUSH_AFTER_READS),
            "receive" => self.receive(table, 1, value, line),
            "wait" => {
                if let Some(calls) = line.read() {
                    self.receive(table, calls, value, line);
                }
            }
            _ => self.link.call(line),
        }
    }

    /// Receives until something comes, at most `calls` times.
    fn receive(
        &mut self,
        table: &mut NodeTable,
        calls: u64,
        value: &mut Held<Value>,
        line: &mut Line,
    ) {
        let Some(link) = &mut self.link.value else {
            return line.refuse(CallFault::NotMade);
        };
        if let Some(received) = line.found(receive(link, table, calls), CallFault::NotNow) {
            show_received(received, value, line);
        }
    }
}

/// A port over the stream that was described.
fn next_port(stream: &mut MemoryStream, alloc: Global) -> Port {
    let next = MemoryStream::new(alloc, Vec::new(alloc));
    BlockPort::new(alloc, std::mem::replace(stream, next), Limits::full(), true)
}

/// How the next stream is: `slow` moves one byte at once, and before each such call stands one that would have to wait; `room` fails
/// behind so many bytes; `moves` moves at most so many at once.
impl Object for MemoryStream {
    fn call(&mut self, line: &mut Line) {
        match line.call() {
            "gives" => give(self, line),
            "slow" => {
                self.at_once = 1;
                self.waits = true;
                line.done();
            }
            "room" => put_read(&mut self.room, line),
            "moves" => put_read(&mut self.at_once, line),
            _ => line.refuse(CallFault::NoSuchCall),
        }
    }
}

/// The next stream gives these bytes.
fn give(stream: &mut MemoryStream, line: &mut Line) {
    let alloc = line.alloc;
    let Some(bytes) = line.bytes() else {
        return;
    };
    let coming = Vec::from_slice(alloc, bytes);
    if let Some(coming) = line.made(coming) {
        put(stream, MemoryStream::new(alloc, coming), line);
    }
}

impl Object for Port {
    fn call(&mut self, line: &mut Line) {
        match line.call() {
            "send" => {
                if let Some(batch) = line.read::<Batch>() {
                    line.show(self.send(&batch));
                }
            }
            "slots" => line.show(self.ask_slots()),
            "next" => line.show(self.next()),
            "wait" => {
                if let Some(calls) = line.read() {
                    line.show(next_within(self, calls));
                }
            }
            _ => show_moved(self.stream(), line),
        }
    }
}

/// The next value, of `calls` calls at most.
fn next_within(port: &mut Port, calls: u64) -> Result<Option<Value>, PortFault> {
    for _ in 0..calls {
        if let Some(next) = come(port.next()) {
            return next;
        }
    }
    Ok(None)
}

/// What a call answered, or None where nothing has come.
fn come<T: Drop, F: Drop>(answer: Result<Option<T>, F>) -> Option<Result<Option<T>, F>> {
    match answer {
        Ok(None) => None,
        answer => Some(answer),
    }
}

/// Shows what a port's stream moved.
fn show_moved(stream: &MemoryStream, line: &mut Line) {
    match line.call() {
        "written" => line.answer.bytes(stream.taken.as_slice()),
        "reads" => line.show(stream.reads),
        "writes" => line.show(stream.writes),
        _ => line.refuse(CallFault::NoSuchCall),
    }
}

/// A call that receives nothing. `lose` gives the oldest ticket of a link that has failed.
impl Object for Link<Port> {
    fn call(&mut self, line: &mut Line) {
        match line.call() {
            "send" => {
                if let Some(batch) = line.read::<Batch>() {
                    line.show(self.send(&batch));
                }
            }
            "slots" => line.show(self.ask_slots()),
            "lose" => {
                if self.failed() {
                    line.show(self.lose());
                } else {
                    line.refuse(CallFault::NotNow);
                }
            }
            "failed" => line.show(self.failed()),
            _ => show_moved(self.port().stream(), line),
        }
    }
}

/// What is received of `calls` calls at most, or None where the link's node is not in the table.
fn receive(
    link: &mut Link<Port>,
    table: &mut NodeTable,
    calls: u64,
) -> Option<Result<Option<Got>, LinkFault>> {
    for _ in 0..calls {
        table.endpoint(link.node())?;
        if let Some(received) = come(link.receive(table)) {
            return Some(received);
        }
    }
    Some(Ok(None))
}

/// Shows what was received. The answer to CLUSTER SLOTS is then the value that is held.
fn show_received(
    received: Result<Option<Got>, LinkFault>,
    held: &mut Held<Value>,
    line: &mut Line,
) {
    match received {
        Ok(Some(got)) => show_got(got, held, line),
        Ok(None) => line.say("none"),
        Err(fault) => line.answer.debug(&fault),
    }
}

fn show_got(got: Got, held: &mut Held<Value>, line: &mut Line) {
    match got {
        Got::Ticket(ticket, told) => line.show((ticket, told)),
        Got::Slots(value) => {
            line.say("slots");
            line.show(&value);
            held.put(value);
        }
    }
}
