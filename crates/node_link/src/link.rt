//! A connection to a node, on which many commands are under way.

ghost use Rattle.std.specs.Prelude.{◌≡◌, ◌<◌, ◌≤◌, ◌+◌, ◌*◌, ◌++◌, ◌∷◌, [], IsTrue, ◌↔◌, IsSome, None, Some, MatchOption, length, map};
ghost use Rattle.std.specs.VecDeque.{deque_len, deque_capacity};
ghost use Rattle.std.specs.List.{flat_map};
ghost use Rattle.key_split.specs.Requests.{Slots, requests_of};
ghost use Rattle.key_split.specs.Runs.{count_in, requests_of_run};
ghost use Rattle.slot_map.specs.Table.{Grows};
ghost use Rattle.node_link.specs.declared.link.Failure.TheVariants as failure;
ghost use Rattle.node_link.specs.declared.link.LinkFault.TheVariants as linkfault;
ghost use Rattle.node_link.specs.LinkCalls.{due_of, tickets_of, fault_of, Sends, LinkGives, Receives};
ghost use Rattle.node_link.specs.Waiting.{ReceivesNone};

use crate::port::{NodePort, PortFault};
use crate::run_port::RunPort;
use crate::told::told_of;
use key_split::{Batch, Run, Ticket, Told};
use resp_wire::Value;
use slot_map::{NodeId, NodeTable};
use std::alloc::Global;
use std::collections::VecDeque;
use std::marker::Model;
use std::mem;
use thiserror::Error;

/// Why a link refused. After each but NoMemory the link has failed, and refuses for the same reason from then on.
#[derive(Clone, Copy, Debug, Drop, Error)]
pub enum LinkFault {
    /// Nothing was sent, and a value that came is kept for the next call.
    #[error("out of memory")]
    NoMemory,
    #[error("the connection failed or ended")]
    PortFailed,
    #[error("the node sent a value that nothing waits for")]
    Stray,
    #[error("the node sent bytes that are no value")]
    BadWire,
}

/// What a link received.
#[derive(Drop)]
pub enum Got {
    /// What a ticket's command is told.
    Ticket(Ticket, Told),
    /// The answer to CLUSTER SLOTS.
    Slots(Value),
}

/// What the sender of a request waits for.
#[derive(Clone, Copy)]
pub enum Due {
    /// The reply to ASKING, which says nothing.
    Asking,
    /// The reply to a ticket's command.
    Command(Ticket),
    /// The answer to CLUSTER SLOTS.
    Slots,
}

/// Why nothing more goes over a link.
#[derive(Clone, Copy)]
pub enum Failure {
    PortFailed,
    Stray,
    BadWire,
}

impl Failure {
    fn fault(self) -> LinkFault
        ensures { result ≡ fault_of self }
    {
        match self {
            Failure::PortFailed => LinkFault::PortFailed,
            Failure::Stray => LinkFault::Stray,
            Failure::BadWire => LinkFault::BadWire,
        }
    }
}

/// A pipelined connection to one node.
#[derive(Drop)]
pub struct Link<P> {
    port: P,
    node: NodeId,
    due: VecDeque<Due>,
    kept: Option<Value>,
    failure: Option<Failure>,
}

impl<P> Model for Link<P> {
    ghost use Rattle.node_link.specs.LinkModel.{LinkModel};
    ghost use Rattle.std.specs.Coded.{codes};
    ghost use Rattle.resp_wire.specs.Stored.{coded_data};

    ghost Value = { LinkModel P };

    ghost coded = { Prim.hlevel (codes, coded_data) };

    ghost view = { λ a. record { port = a.port; node = a.node; due = a.due.items; kept = a.kept; failure = a.failure } };
}

impl<P: NodePort> Link<P> {
    /// A link to the node over the port, on which nothing was sent.
    pub fn new(alloc: Global, port: P, node: NodeId) -> Self
        ensures { result ≡ record { port = port; node = node; due = []; kept = None; failure = None } }
    {
        Link {
            port,
            node,
            due: VecDeque::new(alloc),
            kept: None,
            failure: None,
        }
    }

    /// The node at the other end.
    pub fn node(&self) -> NodeId
        ensures { result ≡ self.now.node }
    {
        self.node
    }

    pub fn port(&self) -> &P
        ensures { result.now ≡ self.now.port }
    {
        &self.port
    }

    /// Why the link has failed; `None` where it has not.
    pub fn failure(&self) -> Option<Failure>
        ensures { result ≡ self.now.failure }
    {
        self.failure
    }

    /// Whether the link has failed.
    pub fn failed(&self) -> bool
        ensures { IsTrue result ↔ IsSome self.now.failure }
    {
        self.failure.is_some()
    }

    /// Sends a batch, whose ticket waits from then on.
    pub fn send(&mut self, batch: &Batch) -> Result<(), LinkFault>
        ensures { Sends P.calls self.old (requests_of batch.now) result self.new }
    {
        if let Some(failure) = self.failure {
            return Err(failure.fault());
        }
        if self.due.reserve(2).is_err() {
            return Err(LinkFault::NoMemory);
        }
        match self.port.send(batch) {
            Err(PortFault::NoMemory) => Err(LinkFault::NoMemory),
            Ok(()) => {
                owe_batch(&mut self.due, batch);
                Ok(())
            }
            Err(PortFault::Failed) => {
                owe_batch(&mut self.due, batch); // it may have been sent
                Err(self.fail(Failure::PortFailed))
            }
            Err(PortFault::BadWire) => {
                owe_batch(&mut self.due, batch);
                Err(self.fail(Failure::BadWire))
            }
        }
    }

    /// Asks which nodes serve which slots.
    pub fn ask_slots(&mut self) -> Result<(), LinkFault>
        ensures { Sends P.calls self.old (Slots ∷ []) result self.new }
    {
        if let Some(failure) = self.failure {
            return Err(failure.fault());
        }
        if self.due.reserve(1).is_err() {
            return Err(LinkFault::NoMemory);
        }
        match self.port.ask_slots() {
            Err(PortFault::NoMemory) => Err(LinkFault::NoMemory),
            Ok(()) => {
                owe(&mut self.due, Due::Slots);
                Ok(())
            }
            Err(PortFault::Failed) => {
                owe(&mut self.due, Due::Slots);
                Err(self.fail(Failure::PortFailed))
            }
            Err(PortFault::BadWire) => {
                owe(&mut self.due, Due::Slots);
                Err(self.fail(Failure::BadWire))
            }
        }
    }

    /// Takes the next value, and gives it to the request that it belongs to. None means that no whole value has
    /// come, or that it was the reply to ASKING.
    pub fn receive(&mut self, table: &mut NodeTable) -> Result<Option<Got>, LinkFault>
        requires { self.old.node < length table.old }
        ensures does { Receives P.calls self.old table.old result self.new table.new }
        ensures none { ReceivesNone P.calls.gives_none self.old result self.new }
        ensures grown { Grows table.old table.new }
    {
        self.receive_next(table)
    }

    fn receive_next(&mut self, table: &mut NodeTable) -> Result<Option<Got>, LinkFault>
        requires { self.old.node < length table.old }
        ensures does { Receives P.calls self.old table.old result self.new table.new }
        ensures none { ReceivesNone P.calls.gives_none self.old result self.new }
    {
        if let Some(failure) = self.failure {
            return Err(failure.fault());
        }
        if let Some(value) = self.kept.take() {
            return self.give(value, table);
        }
        self.port.owes(!self.due.is_empty());
        match self.port.next() {
            Ok(Some(value)) => self.give(value, table),
            Ok(None) => Ok(None),
            Err(PortFault::NoMemory) => Err(LinkFault::NoMemory),
            Err(PortFault::Failed) => Err(self.fail(Failure::PortFailed)),
            Err(PortFault::BadWire) => Err(self.fail(Failure::BadWire)),
        }
    }

    // Gives a value to the request that it belongs to.
    fn give(&mut self, value: Value, table: &mut NodeTable) -> Result<Option<Got>, LinkFault>
        requires { self.old.node < length table.old }
        ensures { LinkGives value self.old table.old result self.new table.new }
    {
        match self.due.pop_front() {
            None => Err(self.fail_at_stray(value)),
            Some(Due::Asking) => {
                drop(value);
                Ok(None)
            }
            Some(Due::Slots) => Ok(Some(Got::Slots(value))),
            Some(Due::Command(ticket)) => match told_of(value, self.node, table) {
                Ok(told) => Ok(Some(Got::Ticket(ticket, told))),
                Err(value) => {
                    self.due.push_front_reserved(Due::Command(ticket));
                    Err(self.keep(value))
                }
            },
        }
    }

    // A value came that nothing waits for.
    fn fail_at_stray(&mut self, value: Value) -> LinkFault
        ensures fault { result ≡ linkfault.Stray }
        ensures link { self.new ≡ record self.old { failure = Some failure.Stray } }
    {
        drop(value);
        self.fail(Failure::Stray)
    }

    // Keeps a value for which memory is wanting.
    fn keep(&mut self, value: Value) -> LinkFault
        ensures fault { result ≡ linkfault.NoMemory }
        ensures link { self.new ≡ record self.old { kept = Some value } }
    {
        drop(self.kept.replace(value));
        LinkFault::NoMemory
    }

    // From now on nothing goes over the link.
    fn fail(&mut self, failure: Failure) -> LinkFault
        ensures fault { result ≡ fault_of failure }
        ensures link { self.new ≡ record self.old { failure = Some failure } }
    {
        self.failure = Some(failure);
        failure.fault()
    }

    /// Puts another port in place of the link's, and gives that one back.
    pub fn swap_port(&mut self, port: P) -> P
        ensures taken { result ≡ self.old.port }
        ensures link { self.new ≡ record self.old { port = port } }
    {
        mem::replace(&mut self.port, port)
    }

    /// Takes off the oldest waiting ticket of a link that has failed.
    pub fn lose(&mut self) -> Option<Ticket>
        requires { IsSome self.old.failure }
        ensures next { MatchOption result ((tickets_of self.old.due ≡ []) × (self.new.due ≡ []))
            (λ ticket. tickets_of self.old.due ≡ ticket ∷ tickets_of self.new.due) }
        ensures same { self.new ≡ record self.old { due = self.new.due } }
    {
        first_ticket(&mut self.due)
    }
}

impl<P: RunPort> Link<P> {
    /// How many commands a run may have.
    pub fn longest_run(&self) -> usize
        ensures exact { result ≡ P.longest self.now.port }
        ensures some { 1 ≤ result }
    {
        self.port.longest_run()
    }

    /// Sends a run, whose tickets wait from then on.
    pub fn send_run(&mut self, run: &Run) -> Result<(), LinkFault>
        requires { count_in run.now ≤ P.longest self.old.port }
        ensures { Sends P.calls self.old (requests_of_run run.now) result self.new }
    {
        if let Some(failure) = self.failure {
            return Err(failure.fault());
        }
        if !has_room(&mut self.due, run) {
            return Err(LinkFault::NoMemory);
        }
        match self.port.send_run(run) {
            Err(PortFault::NoMemory) => Err(LinkFault::NoMemory),
            Ok(()) => {
                owe_run(&mut self.due, run);
                Ok(())
            }
            Err(PortFault::Failed) => {
                owe_run(&mut self.due, run); // it may have been sent
                Err(self.fail(Failure::PortFailed))
            }
            Err(PortFault::BadWire) => {
                owe_run(&mut self.due, run);
                Err(self.fail(Failure::BadWire))
            }
        }
    }
}

// Makes room for what the sender of a run waits for: each command has two requests at most.
fn has_room(due: &mut VecDeque<Due>, run: &Run) -> bool
    ensures items { due.new.items ≡ due.old.items }
    ensures room { IsTrue result → deque_len due.new + 2 * count_in run.now ≤ deque_capacity due.new }
{
    let Some(room) = run.len().checked_mul(2) else {
        return false;
    };
    due.reserve(room).is_ok()
}

// Puts what the sender of a request waits for behind the others.
fn owe(due: &mut VecDeque<Due>, last: Due)
    requires { deque_len due.old < deque_capacity due.old }
    ensures items { due.new.items ≡ due.old.items ++ last ∷ [] }
    ensures len { deque_len due.new ≡ deque_len due.old + 1 }
    ensures room { deque_capacity due.old ≤ deque_capacity due.new }
{
    due.push_back_reserved(last);
}

fn owe_batch(due: &mut VecDeque<Due>, batch: &Batch)
    requires { deque_len due.old + 2 ≤ deque_capacity due.old }
    ensures items { due.new.items ≡ due.old.items ++ map due_of (requests_of batch.now) }
    ensures len { deque_len due.new ≤ deque_len due.old + 2 }
    ensures room { deque_capacity due.old ≤ deque_capacity due.new }
{
    if batch.asking {
        owe(due, Due::Asking);
    }
    owe(due, Due::Command(batch.ticket));
}

fn owe_run(due: &mut VecDeque<Due>, run: &Run)
    requires { deque_len due.old + 2 * count_in run.now ≤ deque_capacity due.old }
    ensures { due.new.items ≡ due.old.items ++ map due_of (requests_of_run run.now) }
{
    owe_batch(due, run.first());
    owe_batches(due, run.later());
}

fn owe_batches(due: &mut VecDeque<Due>, batches: &[Batch])
    requires { deque_len due.old + 2 * length batches.now ≤ deque_capacity due.old }
    ensures { due.new.items ≡ due.old.items ++ map due_of (flat_map requests_of batches.now) }
{
    let mut rest = batches;
    while let [batch, further @ ..] = rest {
        owe_batch(due, batch);
        rest = further;
    }
}

// Takes all off up to the first ticket.
fn first_ticket(due: &mut VecDeque<Due>) -> Option<Ticket>
    ensures { MatchOption result ((tickets_of due.old.items ≡ []) × (due.new.items ≡ []))
        (λ ticket. tickets_of due.old.items ≡ ticket ∷ tickets_of due.new.items) }
{
    while let Some(first) = due.pop_front() {
        if let Due::Command(ticket) = first {
            return Some(ticket);
        }
    }
    None
}
