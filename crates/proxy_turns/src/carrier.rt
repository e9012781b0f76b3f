//! The carrier: one turn after another.

ghost use Rattle.std.specs.Prelude.{◌≡◌, ◌<◌, false};
ghost use Rattle.std.specs.List.{list_any};
ghost use Rattle.proxy_turns.specs.Backend.{has_open_link};

use crate::all_backends::{add_backends, any_unanswered, first_open};
use crate::backend::{Backend, Dialled, MapTask, RunStep};
use crate::backend_step::BackendStep;
use crate::pending_run::{PendingRun, add_places};
use crate::place::put;
use crate::seed::seed;
use node_link::{Dial, RunPort};
use proxy_lanes::{CarrierEnds, Naming, Publisher};
use resp_wire::NoMemory;
use slot_map::{NodeId, NodeTable};
use std::alloc::Global;
use std::sync::Wait;

/// The most replies of a link that are taken in one turn.
const REPLIES_PER_TURN: u32 = 64;
/// The most runs of a worker that are carried in one turn.
const RUNS_PER_TURN: u32 = 16;

/// Carries runs from the workers' lanes to the nodes, and what the nodes reply back, and renews the slot map.
pub struct Carrier<H: Drop, M: Drop, D: Drop, P: Drop> {
    alloc: Global,
    ends: CarrierEnds<H, M>,
    dial: D,
    nodes: NodeTable,
    pending_runs: Vec<PendingRun>,
    backends: Vec<Backend<P>>,
    /// The seed is still to be dialled.
    seed_to_dial: bool,
    /// The node that is dialled next after a loss where no link is open.
    next_dialled: u8,
}

// By hand, so that the crates above prove one call.
impl<H: Drop, M: Drop, D: Drop, P: Drop> Drop for Carrier<H, M, D, P> {
    fn drop(self) {
        let Carrier {
            alloc: _,
            ends,
            dial,
            nodes,
            pending_runs,
            backends,
            seed_to_dial: _,
            next_dialled: _,
        } = self;
        drop(ends);
        drop(dial);
        drop(nodes);
        drop(pending_runs);
        drop(backends);
    }
}

// The node that is to be dialled next: each of the table, one after the other.
fn next_node(next_dialled: &mut u8, nodes: &NodeTable) -> NodeId {
    let node = NodeId::new(*next_dialled).unwrap_or(seed());
    *next_dialled = if nodes.endpoint(node).is_some() {
        node.number() + 1
    } else {
        0
    };
    node
}

// The place of a node's backend.
fn place_of(node: NodeId) -> usize
    ensures value { result ≡ node }
    ensures in_range { result < 64 }
{
    node.number() as usize
}

impl<H: Drop, M: Drop, D: Drop, P: Drop> Carrier<H, M, D, P> {
    ghost use Rattle.std.specs.Borrow.{Lends, sem};
    ghost use Rattle.proxy_lanes.specs.contracts.ends.CarrierEnds.{the_row as ends_row};
    ghost use Rattle.proxy_turns.specs.contracts.carrier.Carrier.{the_row as carrier_row};
    ghost use Rattle.proxy_turns.specs.CarrierModel.{dial_of, ends_of, with_ends};

    /// The carrier's ends of the lanes, by which new clients are handed over.
    pub fn ends(&mut self) -> &mut CarrierEnds<H, M>
        ensures value { result.now ≡ ends_of self.old }
        ensures* writes_back { sem 𝓛 (Lends (carrier_row H.row M.row D.row P.row) (ends_row H.row M.row) self.entry result (with_ends self.old)) }
    {
        &mut self.ends
    }

    /// What dials the nodes.
    pub fn dial(&self) -> &D
        ensures { result.now ≡ dial_of self.now }
    {
        &self.dial
    }
}

impl<H: Drop, J, R, P, D> Carrier<H, Publisher<J, R>, D, P>
where
    J: Naming,
    R: Wait + Drop,
    P: RunPort + Drop,
    D: Dial<Port = P> + Drop,
{
    ghost use Rattle.proxy_turns.specs.CarrierModel.{CarrierTurns, Connects, ConnectsSeed, DoesMapTask, FetchesReply, GivesReply, IsSought, RenewsMap, RestsAfter, SendsRun, ServesBackend, ServesBackends, SeekOutcome, SeeksByDial, ServesLane, ServesLanes, TakesRun, TakesTurn, TellsUnsent, carrier_model, new_carrier};
    ghost use Rattle.proxy_lanes.specs.Carrier.{lanes_of};
    ghost use Rattle.proxy_turns.specs.Backend.{GaveNone};
    ghost use Rattle.proxy_turns.specs.Swapping.{SwapOutcome};

    /// A carrier between these lanes and the nodes of this table, of which the first is the seed. No link is open.
    pub fn new(
        alloc: Global,
        ends: CarrierEnds<H, Publisher<J, R>>,
        dial: D,
        nodes: NodeTable,
    ) -> Self
        ensures { carrier_model D.failures result ≡ new_carrier (lanes_of ends) nodes ends.map (D.failures dial) }
    {
        Carrier {
            alloc,
            ends,
            dial,
            nodes,
            pending_runs: Vec::new(alloc),
            backends: Vec::new(alloc),
            seed_to_dial: true,
            next_dialled: 0,
        }
    }

    /// Puts another port in place of that of the open link to a node, and gives that one back. Where no link to it is open, the
    /// port that was given comes back.
    pub fn swap_port(&mut self, node: NodeId, port: P) -> Result<P, P>
        ensures { SwapOutcome node (carrier_model D.failures self.old) port result (carrier_model D.failures self.new) }
    {
        let at = place_of(node);
        if at >= self.backends.len() {
            return Err(port);
        }
        self.backends[at].swap_port(port)
    }

    // Does one task at a backend.
    fn run_map_task(&mut self, at: usize, task: MapTask) -> Result<bool, NoMemory>
        ensures { DoesMapTask P.calls D.opens P.longest task at (carrier_model D.failures self.old) result (carrier_model D.failures self.new) }
    {
        if at >= self.backends.len() {
            return Ok(false);
        }
        let unanswered = any_unanswered(&self.backends);
        let map = &mut self.ends.map;
        let step = self.backends[at].run_task(task, unanswered, &mut self.nodes, map, &self.dial)?;
        self.note_step(at, step);
        Ok(step.is_move())
    }

    // Takes what a backend replied.
    fn fetch_from(&mut self, at: usize) -> Result<bool, NoMemory>
        ensures { FetchesReply P.calls D.opens P.longest at (carrier_model D.failures self.old) result (carrier_model D.failures self.new) }
    {
        if at >= self.backends.len() {
            return Ok(false);
        }
        let step = self.backends[at].fetch(&mut self.nodes)?;
        self.note_step(at, step);
        Ok(step.is_move())
    }

    // Tells the dial what a step at a backend came to.
    fn note_step(&self, at: usize, step: BackendStep) {
        let Some(backend) = self.backends.get(at) else {
            return;
        };
        match step {
            BackendStep::Fetched => backend.note_told(&self.dial),
            BackendStep::Read => backend.note_slots(&self.dial, &self.nodes),
            BackendStep::Broke => backend.note_failure(&self.dial),
            _ => {}
        }
    }

    // Gives a worker what a backend has for it.
    fn give_from(&mut self, at: usize) -> bool
        ensures { GivesReply P.calls D.opens P.longest at (carrier_model D.failures self.old) result (carrier_model D.failures self.new) }
    {
        if at >= self.backends.len() {
            return false;
        }
        self.backends[at].give(&mut self.ends)
    }

    // Takes the next run of a worker's lane.
    fn take_from(&mut self, at: usize) -> bool
        ensures { TakesRun P.calls D.opens P.longest at (carrier_model D.failures self.old) result (carrier_model D.failures self.new) }
    {
        if at >= self.pending_runs.len() {
            return false;
        }
        if at >= self.ends.workers() {
            return false;
        }
        if at > 65_535 {
            return false;
        }
        self.pending_runs[at].take(at as u16, &mut self.ends)
    }

    // Tells a worker that a command of a refused run is unsent.
    fn tell_unsent_of(&mut self, at: usize) -> bool
        ensures { TellsUnsent P.calls D.opens P.longest at (carrier_model D.failures self.old) result (carrier_model D.failures self.new) }
    {
        if at >= self.pending_runs.len() {
            return false;
        }
        self.pending_runs[at].tell_unsent(&mut self.ends)
    }

    // Sends a pending run. One that is too long for its link is refused.
    fn send_for(&mut self, worker: usize) -> Result<bool, NoMemory>
        ensures { SendsRun P.calls D.opens P.longest worker (carrier_model D.failures self.old) result (carrier_model D.failures self.new) }
    {
        if worker >= self.pending_runs.len() {
            return Ok(false);
        }
        let pending_run = &mut self.pending_runs[worker];
        if pending_run.is_refused() {
            return Ok(false);
        }
        let Some(run) = &pending_run.run else {
            return Ok(false);
        };
        let at = place_of(run.first().node);
        if at >= self.backends.len() {
            return Ok(false);
        }
        match self.backends[at].send(run)? {
            RunStep::Sent => {
                self.dial.sent(run.len());
                put(&mut pending_run.run, None);
                Ok(true)
            }
            RunStep::TooLong => {
                pending_run.refuse();
                Ok(true)
            }
            RunStep::NoLink => Ok(false),
        }
    }

    // Publishes what a backend says of the slot map, where it says anything: each task in order.
    fn renew_map(&mut self, at: usize) -> Result<bool, NoMemory>
        ensures { RenewsMap P.calls D.opens P.longest at (carrier_model D.failures self.old) result (carrier_model D.failures self.new) }
    {
        if at >= self.backends.len() {
            return Ok(false);
        }
        if !self.backends[at].has_map_work() {
            return Ok(false);
        }
        let published = self.run_map_task(at, MapTask::Publish)?;
        let asked = self.run_map_task(at, MapTask::Ask)?;
        let read = self.run_map_task(at, MapTask::Read)?;
        let renewed = self.run_map_task(at, MapTask::Renew)?;
        Ok(published | asked | read | renewed)
    }

    // A backend's turn: several replies are taken and given, as long as something moves.
    fn serve_backend(&mut self, at: usize) -> Result<bool, NoMemory>
        ensures { ServesBackend P.calls D.opens P.longest at (carrier_model D.failures self.old) result (carrier_model D.failures self.new) }
    {
        for passed in 0..REPLIES_PER_TURN {
            let moved = self.pass_reply(at)?;
            if !moved {
                return Ok(passed > 0);
            }
        }
        Ok(true)
    }

    // What a backend says of the slot map goes on, then one reply is taken, and given where nothing of it is to be published
    // first.
    fn pass_reply(&mut self, at: usize) -> Result<bool, NoMemory>
        ensures { ServesBackend P.calls D.opens P.longest at (carrier_model D.failures self.old) result (carrier_model D.failures self.new) }
    {
        let renewed = self.renew_map(at)?;
        let fetched = self.fetch_from(at)?;
        let gave = self.give_from(at);
        Ok(renewed | fetched | gave)
    }

    fn serve_backends(&mut self) -> Result<bool, NoMemory>
        ensures { ServesBackends P.calls D.opens P.longest (carrier_model D.failures self.old) result (carrier_model D.failures self.new) }
    {
        let mut moved = false;
        for at in 0..self.backends.len() {
            moved |= self.serve_backend(at)?;
        }
        Ok(moved)
    }

    // Dials the node of a run that is still pending, where there is no link to it.
    fn connect(&mut self, worker: usize) -> Result<bool, NoMemory>
        ensures { Connects P.calls D.opens P.longest worker (carrier_model D.failures self.old) result (carrier_model D.failures self.new) }
    {
        if worker >= self.pending_runs.len() {
            return Ok(false);
        }
        let Some(node) = self.pending_runs[worker].target() else {
            return Ok(false);
        };
        let at = place_of(node);
        add_backends(&mut self.backends, at + 1)?;
        match self.backends[at].open(self.alloc, node, &mut self.dial, &self.nodes)? {
            Dialled::Present => Ok(false),
            Dialled::Opened => Ok(true),
            Dialled::Unreached => {
                self.dial.unsent();
                self.pending_runs[worker].refuse();
                Ok(true)
            }
        }
    }

    // The turn of a worker's lanes: several runs are carried, as long as something moves.
    fn serve_lane(&mut self, worker: usize) -> Result<bool, NoMemory>
        ensures { ServesLane P.calls D.opens P.longest worker (carrier_model D.failures self.old) result (carrier_model D.failures self.new) }
    {
        for carried in 0..RUNS_PER_TURN {
            let moved = self.carry_run(worker)?;
            if !moved {
                return Ok(carried > 0);
            }
        }
        Ok(true)
    }

    // Carries one run of a worker, or tells it that one was refused.
    fn carry_run(&mut self, worker: usize) -> Result<bool, NoMemory>
        ensures { ServesLane P.calls D.opens P.longest worker (carrier_model D.failures self.old) result (carrier_model D.failures self.new) }
    {
        let told = self.tell_unsent_of(worker);
        let took = self.take_from(worker);
        let opened = self.connect(worker)?;
        let sent = self.send_for(worker)?;
        Ok(told | took | opened | sent)
    }

    fn serve_lanes(&mut self) -> Result<bool, NoMemory>
        ensures { ServesLanes P.calls D.opens P.longest (carrier_model D.failures self.old) result (carrier_model D.failures self.new) }
    {
        let mut moved = false;
        for worker in 0..self.pending_runs.len() {
            moved |= self.serve_lane(worker)?;
        }
        Ok(moved)
    }

    /// Takes up to 64 replies off each link, then carries up to 16 runs of each worker. True exactly where something moved.
    /// After NoMemory what was done stands, and the item at which memory ran out stays where it was.
    pub fn turn(&mut self) -> Result<bool, NoMemory>
        ensures turns { CarrierTurns P.calls D.opens P.longest (carrier_model D.failures self.old) result (carrier_model D.failures self.new) }
        ensures rests { RestsAfter (GaveNone P.calls) result (carrier_model D.failures self.new) }
        ensures sought { IsSought (D.is_calm self.new.dial) result (carrier_model D.failures self.new) }
    {
        let moved = self.take_turn()?;
        let sought = self.seek()?;
        Ok(moved | sought)
    }

    fn take_turn(&mut self) -> Result<bool, NoMemory>
        ensures { TakesTurn P.calls D.opens P.longest (carrier_model D.failures self.old) result (carrier_model D.failures self.new) }
    {
        add_places(&mut self.pending_runs, self.ends.workers())?;
        let connected = self.connect_seed()?;
        let fetched = self.serve_backends()?;
        let carried = self.serve_lanes()?;
        Ok(connected | fetched | carried)
    }

    // Has a node asked for CLUSTER SLOTS, where one was lost: one that has an open link, else the next of the table.
    fn seek(&mut self) -> Result<bool, NoMemory>
        ensures { SeekOutcome P.calls D.opens P.longest (D.is_calm self.new.dial) (carrier_model D.failures self.old) result (carrier_model D.failures self.new) }
    {
        if any_unanswered(&self.backends) {
            return Ok(false);
        }
        if !self.dial.seeks() {
            return Ok(false);
        }
        match first_open(&self.backends) {
            Some(at) => {
                self.backends[at].to_ask = true;
                Ok(true)
            }
            None => self.dial_next(),
        }
    }

    // Dials the next node of the table, which is then to be asked.
    fn dial_next(&mut self) -> Result<bool, NoMemory>
        requires closed { list_any has_open_link self.old.backends.items ≡ false }
        ensures { SeeksByDial P.calls D.opens P.longest (carrier_model D.failures self.old) result (carrier_model D.failures self.new) }
    {
        let node = next_node(&mut self.next_dialled, &self.nodes);
        let at = place_of(node);
        add_backends(&mut self.backends, at + 1)?;
        let backend = &mut self.backends[at];
        match backend.open(self.alloc, node, &mut self.dial, &self.nodes)? {
            Dialled::Opened => {
                backend.to_ask = true;
                Ok(true)
            }
            Dialled::Present => Ok(true),
            Dialled::Unreached => Ok(true),
        }
    }

    // Dials the seed, which is then to be asked for CLUSTER SLOTS.
    fn connect_seed(&mut self) -> Result<bool, NoMemory>
        ensures { ConnectsSeed P.calls D.opens P.longest (carrier_model D.failures self.old) result (carrier_model D.failures self.new) }
    {
        if !self.seed_to_dial {
            return Ok(false);
        }
        let seed = seed();
        let at = place_of(seed);
        add_backends(&mut self.backends, at + 1)?;
        let backend = &mut self.backends[at];
        match backend.open(self.alloc, seed, &mut self.dial, &self.nodes)? {
            Dialled::Opened => Ok(true),
            Dialled::Present => {
                backend.to_ask = true;
                self.seed_to_dial = false;
                Ok(true)
            }
            Dialled::Unreached => {
                self.seed_to_dial = false;
                Ok(true)
            }
        }
    }
}
