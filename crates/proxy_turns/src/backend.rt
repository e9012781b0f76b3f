//! A backend: what the carrier keeps for one node.

ghost use Rattle.std.specs.Prelude.{◌≡◌, ◌<◌, ◌↔◌, List, Bool, IsTrue, IsSome, IsSomeAnd, None, Ok, Err, OnOk, OnErr, ◌≢◌, length};
ghost use Rattle.slot_map.specs.Table.{Endpoint};
ghost use Rattle.node_link.specs.declared.link.LinkFault.TheVariants as link_fault;
ghost use Rattle.slot_map.specs.declared.fault.MapFault.TheVariants as map_fault;
ghost use Rattle.proxy_lanes.specs.Carrier.{lanes_of};
ghost use Rattle.proxy_lanes.specs.Publishing.{IsPublished};
ghost use Rattle.proxy_turns.specs.Backend.{change_in, has_map_work, has_open_link, is_unanswered, is_unpublished};
ghost use Rattle.proxy_turns.specs.declared.backend.MapTask.TheVariants as map_task;
ghost use Rattle.proxy_turns.specs.PendingRun.{GiveOutcome};
ghost use Rattle.slot_map.specs.declared.ops.MapOp.{MapOp};

use crate::backend_step::BackendStep;
use crate::pending_run::deliver;
use crate::place::put;
use key_split::{Run, Ticket, Told};
use node_link::{Dial, DialFault, Got, Link, LinkFault, NodePort, RunPort};
use proxy_lanes::{CarrierEnds, Naming, Publisher};
use resp_wire::{NoMemory, Value};
use slot_map::{MapFault, MapOp, MapOps, NodeId, NodeTable, ops_of};
use std::alloc::Global;
use std::sync::Wait;

/// What a ticket's command is to be told, and was not given to its worker yet.
#[derive(Drop)]
pub struct PendingTold {
    pub(crate) ticket: Ticket,
    pub(crate) told: Told,
    /// What it says of the slot map, which was not published yet.
    pub(crate) change: Option<MapOp>,
}

impl PendingTold {
    ghost use Rattle.proxy_turns.specs.Backend.{new_pending_told};

    fn new(ticket: Ticket, told: Told) -> PendingTold
        ensures { result ≡ new_pending_told ticket told }
    {
        let change = change_in(&told);
        PendingTold {
            ticket,
            told,
            change,
        }
    }
}

// What a MOVED says of the slot map.
fn change_in(told: &Told) -> Option<MapOp>
    ensures { result ≡ change_in told.now }
{
    match told {
        Told::Moved(slot, node) => Some(MapOp::SetSlot(*slot, *node)),
        Told::Reply(_)
        | Told::Ask(..)
        | Told::TryAgain
        | Told::ClusterDown
        | Told::Unclear
        | Told::Lost
        | Told::Unsent => None,
    }
}

fn publish_change<J: Naming, R: Wait + Drop>(
    map: &mut Publisher<J, R>,
    change: MapOp,
) -> Result<(), NoMemory>
    ensures ok { OnOk result (IsPublished map.old change map.new) }
    ensures err { OnErr result (map.new ≡ map.old) }
{
    match change {
        MapOp::SetSlot(slot, node) => map.publish_slot(slot, node),
        MapOp::SetRange(..) => map.publish(&[change]),
    }
}

// Whether the table has the node.
fn is_known(nodes: &NodeTable, node: NodeId) -> bool
    ensures { IsTrue result ↔ (node < length nodes.now) }
{
    nodes.endpoint(node).is_some()
}

// Whether a call found no memory, and sent nothing.
fn is_starved(sent: &Result<(), LinkFault>) -> bool
    ensures { IsTrue result ↔ (sent.now ≡ Err link_fault.NoMemory) }
{
    matches!(sent, Err(LinkFault::NoMemory))
}

fn lacks_memory(fault: LinkFault) -> bool
    ensures { IsTrue result ↔ (fault ≡ link_fault.NoMemory) }
{
    matches!(fault, LinkFault::NoMemory)
}

// Whether an answer to CLUSTER SLOTS cannot be read.
fn is_unread(fault: MapFault) -> bool
    ensures { IsTrue result ↔ (fault ≢ map_fault.NoMemory) }
{
    !matches!(fault, MapFault::NoMemory)
}

/// What came of a dial.
#[derive(Clone, Copy)]
pub(crate) enum Dialled {
    /// There is a link already.
    Present,
    Opened,
    /// The dial failed, or there is no such node.
    Unreached,
}

/// What came of a run that was to be sent.
#[derive(Clone, Copy)]
pub(crate) enum RunStep {
    /// It was sent, or the link broke at it.
    Sent,
    /// It is longer than the link's port takes.
    TooLong,
    /// There is no link that has not failed.
    NoLink,
}

/// What the carrier does at a backend for the slot map, one thing at a time.
#[derive(Clone, Copy)]
pub(crate) enum MapTask {
    /// Publish the slot of a MOVED.
    Publish,
    /// Ask for CLUSTER SLOTS.
    Ask,
    /// Read the answer to CLUSTER SLOTS.
    Read,
    /// Publish what CLUSTER SLOTS said.
    Renew,
}

/// What the carrier keeps for one node: the link to it, and what came over it and was not passed on.
#[derive(Drop)]
pub struct Backend<P> {
    pub(crate) link: Option<Link<P>>,
    pub(crate) pending_told: Option<PendingTold>,
    /// An answer to CLUSTER SLOTS that was not read yet.
    pub(crate) answer: Option<Value>,
    /// What CLUSTER SLOTS said, which was not published yet.
    pub(crate) changes: Option<MapOps>,
    /// The node is to be asked for CLUSTER SLOTS.
    pub(crate) to_ask: bool,
    /// CLUSTER SLOTS was asked for over the link, and the answer did not come yet.
    pub(crate) asked: bool,
}

impl<P: NodePort + Drop> Backend<P> {
    ghost use Rattle.proxy_turns.specs.Backend.{new_backend, BackendFetches, BackendRenews, HoldOutcome};
    ghost use Rattle.proxy_turns.specs.Sending.{DialOutcome};
    ghost use Rattle.proxy_turns.specs.Swapping.{PortSwap};

    pub(crate) fn new() -> Self
        ensures { result ≡ new_backend }
    {
        Backend {
            link: None,
            pending_told: None,
            answer: None,
            changes: None,
            to_ask: false,
            asked: false,
        }
    }

    /// Opens a link, where there is none.
    pub(crate) fn open<D: Dial<Port = P>>(
        &mut self,
        alloc: Global,
        node: NodeId,
        dial: &mut D,
        nodes: &NodeTable,
    ) -> Result<Dialled, NoMemory>
        ensures { DialOutcome D.opens node nodes.now self.old (D.failures dial.old) result self.new (D.failures dial.new) }
    {
        if self.link.is_some() {
            return Ok(Dialled::Present);
        }
        let Some((host, port)) = nodes.endpoint(node) else {
            return Ok(Dialled::Unreached);
        };
        match dial.open(node, host, port) {
            Ok(port) => {
                put(&mut self.link, Some(Link::new(alloc, port, node)));
                self.asked = false;
                Ok(Dialled::Opened)
            }
            Err(DialFault::NoMemory) => Err(NoMemory),
            Err(DialFault::Failed) => Ok(Dialled::Unreached),
        }
    }

    /// Puts another port in place of that of an open link, and gives that one back.
    pub(crate) fn swap_port(&mut self, port: P) -> Result<P, P>
        ensures { PortSwap self.old port result self.new }
    {
        let Some(link) = &mut self.link else {
            return Err(port);
        };
        if link.failed() {
            return Err(port);
        }
        Ok(link.swap_port(port))
    }

    /// Tells the dial what the reply tells that came just now.
    pub(crate) fn note_told<D: Dial<Port = P>>(&self, dial: &D) {
        if let Some(pending_told) = &self.pending_told {
            dial.told(&pending_told.told);
        }
    }

    /// Tells the dial what the answer to CLUSTER SLOTS says that was read just now.
    pub(crate) fn note_slots<D: Dial<Port = P>>(&self, dial: &D, nodes: &NodeTable) {
        let (Some(link), Some(changes)) = (&self.link, &self.changes) else {
            return;
        };
        if let Some((host, port)) = nodes.endpoint(link.node()) {
            dial.slots_told(link.node(), host, port, changes.as_slice());
        }
    }

    // Tells the dial of an answer to CLUSTER SLOTS that is thrown away, since it can't be read into the table.
    fn note_unread<D: Dial<Port = P>>(&self, dial: &D, nodes: &NodeTable) {
        let (Some(link), Some(answer)) = (&self.link, &self.answer) else {
            return;
        };
        if let Some((host, port)) = nodes.endpoint(link.node()) {
            dial.slots_unread(link.node(), host, port, answer);
        }
    }

    /// Tells the dial why the link failed just now.
    pub(crate) fn note_failure<D: Dial<Port = P>>(&self, dial: &D) {
        if let Some(link) = &self.link {
            if let Some(failure) = link.failure() {
                dial.broke(link.node(), failure, link.port());
            }
        }
    }

    /// Takes one reply, or one ticket that is lost, off the link, where the carrier holds none of it.
    pub(crate) fn fetch(&mut self, nodes: &mut NodeTable) -> Result<BackendStep, NoMemory>
        ensures { (unanswered : Bool) (published : List MapOp) → BackendFetches P.calls unanswered
            (record { backend = self.old; nodes = nodes.old; published = published }) result
            (record { backend = self.new; nodes = nodes.new; published = published }) }
    {
        if self.pending_told.is_some() || self.answer.is_some() {
            return Ok(BackendStep::Idle);
        }
        let Some(link) = &mut self.link else {
            return Ok(BackendStep::Idle);
        };
        if link.failed() {
            return Ok(self.give_up());
        }
        if !is_known(nodes, link.node()) {
            return Ok(BackendStep::Idle);
        }
        match link.receive(nodes) {
            Ok(Some(got)) => Ok(self.hold(got)),
            Ok(None) => Ok(BackendStep::Waited),
            Err(fault) => {
                if lacks_memory(fault) {
                    return Err(NoMemory);
                }
                Ok(BackendStep::Broke)
            }
        }
    }

    // Holds what came over the link.
    fn hold(&mut self, got: Got) -> BackendStep
        ensures { HoldOutcome self.old got result self.new }
    {
        match got {
            Got::Ticket(ticket, told) => {
                self.hold_told(ticket, told);
                BackendStep::Fetched
            }
            Got::Slots(value) => {
                put(&mut self.answer, Some(value));
                self.asked = false;
                BackendStep::Answered
            }
        }
    }

    // Takes a lost ticket off a link that has failed, or the link where none waits.
    fn give_up(&mut self) -> BackendStep
        requires owes_nothing { self.old.pending_told ≡ None }
        requires failed { IsSomeAnd self.old.link (λ link. IsSome link.failure) }
        ensures { (unanswered : Bool) (nodes : List Endpoint) (published : List MapOp) → BackendFetches P.calls unanswered
            (record { backend = self.old; nodes = nodes; published = published }) (Ok result)
            (record { backend = self.new; nodes = nodes; published = published }) }
    {
        let Some(link) = &mut self.link else {
            return BackendStep::Idle;
        };
        let Some(ticket) = link.lose() else {
            put(&mut self.link, None);
            self.asked = false;
            return BackendStep::Closed;
        };
        self.hold_told(ticket, Told::Lost);
        BackendStep::GaveUp
    }

    /// Publishes the slot of a MOVED, unless that is what was published last: the commands of a refused run are all told the same. Its
    /// node is then to be asked for CLUSTER SLOTS.
    pub(crate) fn publish<J: Naming, R: Wait + Drop>(
        &mut self,
        map: &mut Publisher<J, R>,
    ) -> Result<BackendStep, NoMemory>
        ensures { (unanswered : Bool) (nodes : List Endpoint) → BackendRenews P.calls map_task.Publish unanswered
            (record { backend = self.old; nodes = nodes; published = map.old }) result
            (record { backend = self.new; nodes = nodes; published = map.new }) }
    {
        let Some(pending_told) = &mut self.pending_told else {
            return Ok(BackendStep::Idle);
        };
        let Some(change) = pending_told.change else {
            return Ok(BackendStep::Idle);
        };
        publish_change(map, change)?;
        pending_told.change = None;
        self.to_ask = true;
        Ok(BackendStep::Published)
    }

    /// Asks the node for CLUSTER SLOTS, where it is to be asked, and no such request is unanswered.
    pub(crate) fn ask(&mut self, unanswered: bool) -> Result<BackendStep, NoMemory>
        ensures { (nodes : List Endpoint) (published : List MapOp) → BackendRenews P.calls map_task.Ask unanswered
            (record { backend = self.old; nodes = nodes; published = published }) result
            (record { backend = self.new; nodes = nodes; published = published }) }
    {
        if !self.to_ask {
            return Ok(BackendStep::Idle);
        }
        if unanswered {
            self.to_ask = false;
            return Ok(BackendStep::Spared);
        }
        let Some(link) = &mut self.link else {
            self.to_ask = false;
            return Ok(BackendStep::Spared);
        };
        if link.failed() {
            self.to_ask = false;
            return Ok(BackendStep::Spared);
        }
        let sent = link.ask_slots();
        if is_starved(&sent) {
            return Err(NoMemory);
        }
        self.to_ask = false;
        self.asked = true;
        Ok(BackendStep::Asked)
    }

    /// Reads the answer to CLUSTER SLOTS. One that cannot be read is thrown away, and the dial is told of it.
    pub(crate) fn read<D: Dial<Port = P>>(
        &mut self,
        nodes: &mut NodeTable,
        dial: &D,
    ) -> Result<BackendStep, NoMemory>
        ensures { (unanswered : Bool) (published : List MapOp) → BackendRenews P.calls map_task.Read unanswered
            (record { backend = self.old; nodes = nodes.old; published = published }) result
            (record { backend = self.new; nodes = nodes.new; published = published }) }
    {
        if self.changes.is_some() {
            return Ok(BackendStep::Idle);
        }
        let Some(value) = &self.answer else {
            return Ok(BackendStep::Idle);
        };
        let Some(link) = &self.link else {
            put(&mut self.answer, None);
            return Ok(BackendStep::Unread);
        };
        if !is_known(nodes, link.node()) {
            put(&mut self.answer, None);
            return Ok(BackendStep::Unread);
        }
        match ops_of(value, link.node(), nodes) {
            Ok(changes) => {
                put(&mut self.answer, None);
                put(&mut self.changes, Some(changes));
                Ok(BackendStep::Read)
            }
            Err(fault) => {
                if is_unread(fault) {
                    self.note_unread(dial, nodes);
                    put(&mut self.answer, None);
                    return Ok(BackendStep::Unread);
                }
                Err(NoMemory)
            }
        }
    }

    /// Publishes what CLUSTER SLOTS said.
    pub(crate) fn renew<J: Naming, R: Wait + Drop>(
        &mut self,
        map: &mut Publisher<J, R>,
    ) -> Result<BackendStep, NoMemory>
        ensures { (unanswered : Bool) (nodes : List Endpoint) → BackendRenews P.calls map_task.Renew unanswered
            (record { backend = self.old; nodes = nodes; published = map.old }) result
            (record { backend = self.new; nodes = nodes; published = map.new }) }
    {
        let Some(changes) = &self.changes else {
            return Ok(BackendStep::Idle);
        };
        map.publish(changes.as_slice())?;
        put(&mut self.changes, None);
        Ok(BackendStep::Renewed)
    }

    /// Whether it holds anything of the slot map that is to go on.
    pub(crate) fn has_map_work(&self) -> bool
        ensures { result ≡ has_map_work self.now }
    {
        self.is_unpublished() || self.answer.is_some() || self.changes.is_some() || self.to_ask
    }

    // Whether the slot of a MOVED is still to be published.
    fn is_unpublished(&self) -> bool
        ensures { result ≡ is_unpublished self.now.pending_told }
    {
        match &self.pending_told {
            Some(pending_told) => pending_told.change.is_some(),
            None => false,
        }
    }

    /// Whether CLUSTER SLOTS was asked for over an open link, and the answer did not come yet.
    pub(crate) fn is_unanswered(&self) -> bool
        ensures { result ≡ is_unanswered self.now }
    {
        match &self.link {
            Some(link) => self.asked && !link.failed(),
            None => false,
        }
    }

    /// Whether it has a link that has not failed.
    pub(crate) fn is_open(&self) -> bool
        ensures { result ≡ has_open_link self.now }
    {
        match &self.link {
            Some(link) => !link.failed(),
            None => false,
        }
    }

    /// Gives its worker what is pending, where nothing of it is still to be published. What is for a worker that does not
    /// exist is dropped. True where nothing is pending any more.
    pub(crate) fn give<H: Drop, M: Drop>(&mut self, ends: &mut CarrierEnds<H, M>) -> bool
        ensures gives { GiveOutcome self.old (lanes_of ends.old) result self.new (lanes_of ends.new) }
        ensures map { ends.new.map ≡ ends.old.map }
    {
        if self.is_unpublished() {
            return false;
        }
        let Some(pending_told) = self.pending_told.take() else {
            return false;
        };
        match deliver(ends, pending_told.ticket, pending_told.told) {
            Ok(()) => true,
            Err((ticket, told)) => {
                let pending_told = PendingTold {
                    ticket,
                    told,
                    change: None,
                };
                put(&mut self.pending_told, Some(pending_told));
                false
            }
        }
    }

    /// Does one of the tasks.
    pub(crate) fn run_task<J: Naming, R: Wait + Drop, D: Dial<Port = P>>(
        &mut self,
        task: MapTask,
        unanswered: bool,
        nodes: &mut NodeTable,
        map: &mut Publisher<J, R>,
        dial: &D,
    ) -> Result<BackendStep, NoMemory>
        ensures { BackendRenews P.calls task unanswered
            (record { backend = self.old; nodes = nodes.old; published = map.old }) result
            (record { backend = self.new; nodes = nodes.new; published = map.new }) }
    {
        match task {
            MapTask::Publish => self.publish(map),
            MapTask::Ask => self.ask(unanswered),
            MapTask::Read => self.read(nodes, dial),
            MapTask::Renew => self.renew(map),
        }
    }
}

impl<P: NodePort + Drop> Backend<P> {
    ghost use Rattle.std.specs.Prelude.{Some};
    ghost use Rattle.proxy_turns.specs.Backend.{new_pending_told};

    // Holds what the ticket is told, for its worker.
    fn hold_told(&mut self, ticket: Ticket, told: Told)
        ensures { self.new ≡ record self.old { pending_told = Some (new_pending_told ticket told) } }
    {
        put(&mut self.pending_told, Some(PendingTold::new(ticket, told)));
    }
}

impl<P: RunPort + Drop> Backend<P> {
    ghost use Rattle.proxy_turns.specs.Sending.{SendOutcome};

    /// Sends a run over the link, where there is one that has not failed, and the run is not too long for it.
    pub(crate) fn send(&mut self, run: &Run) -> Result<RunStep, NoMemory>
        ensures { SendOutcome P.calls P.longest self.old run.now result self.new }
    {
        let Some(link) = &mut self.link else {
            return Ok(RunStep::NoLink);
        };
        if link.failed() {
            return Ok(RunStep::NoLink);
        }
        if run.len() > link.longest_run() {
            return Ok(RunStep::TooLong);
        }
        let sent = link.send_run(run);
        if is_starved(&sent) {
            return Err(NoMemory);
        }
        // where the link broke the run may have been sent, so its tickets wait
        Ok(RunStep::Sent)
    }
}
