//! A worker and its carrier, with lanes of their own between them.

ghost use Rattle.std.specs.Prelude.{◌≡◌};
ghost use Rattle.proxy_lanes.specs.Carrier.{lanes_of};
ghost use Rattle.proxy_turns.specs.CarrierModel.{ends_of};
ghost use Rattle.proxy_turns.specs.Worker.{worker_model};
ghost use Rattle.proxy_engine.specs.Together.{AreTogether};

use crate::turned::{EngineFault, Turned};
use node_link::{Dial, RunPort};
use proxy_lanes::{Naming, Opened, Publisher, lanes};
use proxy_turns::{Carrier, ClientPort, Gate, Newcomer, Worker, WorkerEnd, WorkerOutcome};
use resp_wire::NoMemory;
use slot_map::{NodeId, NodeTable};
use std::alloc::Global;
use std::sync::Wait;

/// A worker and its carrier.
pub struct Engine<'g, C: ClientPort + Drop, J: Naming, R: Wait + Drop, D: Drop, P: Drop, G: Gate> {
    worker: Worker<'g, C, J, G>,
    carrier: Carrier<Newcomer<C, J>, Publisher<J, R>, D, P>,
    ghost together: { AreTogether (worker_model worker) (lanes_of (ends_of carrier)) },
}

// By hand, so that the crates above prove one call.
impl<'g, C: ClientPort + Drop, J: Naming, R: Wait + Drop, D: Drop, P: Drop, G: Gate> Drop
    for Engine<'g, C, J, R, D, P, G> {
    fn drop(self) {
        let Engine { worker, carrier } = self;
        drop(worker);
        drop(carrier);
    }
}

impl<'g, C, J, R, D, P, G> Engine<'g, C, J, R, D, P, G>
where
    C: ClientPort + Drop,
    J: Naming,
    R: Wait + Drop,
    D: Dial<Port = P> + Drop,
    P: RunPort + Drop,
    G: Gate,
{
    ghost use Rattle.std.specs.Prelude.{◌↔◌, IfOk, IsTrue, MatchBool, false};
    ghost use mathlib.Core.List.{IsPrefix};
    ghost use Rattle.proxy_lanes.specs.Opened.{book_of};
    ghost use Rattle.proxy_turns.specs.Backend.{GaveNone};
    ghost use Rattle.proxy_turns.specs.CarrierModel.{CarrierGoes};
    ghost use Rattle.proxy_turns.specs.Swapping.{SwapOutcome};
    ghost use Rattle.proxy_turns.specs.Waiting.{AreAllLater, IsFirstDue};
    ghost use Rattle.proxy_turns.specs.Worker.{HandsBack};
    ghost use Rattle.proxy_turns.specs.WorkerDrain.{Drains};
    ghost use Rattle.proxy_turns.specs.WorkerModel.{AreAllServed};
    ghost use Rattle.proxy_engine.specs.Engine.{dial_in, engine_model, waiting_in};
    ghost use Rattle.proxy_engine.specs.EngineModel.{CarrierPart, CarrierRests, EngineRests, EngineTurns, HandsClient, IsDrainedOf, IsInOrder, IsNewEngine, LookAfter, Looks, PartEnds, PartRests, SeesMore, WorkerPart, WorkerRests};

    /// A worker that is to take `clients` clients, or clients without end, and a carrier with these seeds, of which the first is
    /// dialled at its first turn. NoMemory also where a lane or a place of the slot map was not made for another cause.
    pub fn new(
        alloc: Global,
        rt: R,
        opened: Opened,
        gate: &'g G,
        dial: D,
        seeds: NodeTable,
        clients: Option<u32>,
    ) -> Result<Self, NoMemory>
        requires { book_of opened ≡ J.book }
        ensures begins { IfOk result (λ engine. IsNewEngine clients seeds (D.failures dial) (engine_model D.failures engine)) }
        ensures in_order { IfOk result (λ engine. IsInOrder (engine_model D.failures engine)) }
    {
        let (mut ends, carrier_ends) = lanes(alloc, rt, opened, 1)?;
        let Some(own) = ends.pop() else {
            return Err(NoMemory);
        };
        let carrier = Carrier::new(alloc, carrier_ends, dial, seeds);
        let worker = Worker::new(alloc, own, gate, clients);
        Ok(Engine { worker, carrier })
    }

    /// Hands a new client to the worker, which takes it in a turn. It comes back where its lane has no place that is known to be free.
    pub fn hand(&mut self, client: Newcomer<C, J>) -> Result<(), Newcomer<C, J>>
        ensures hands { HandsClient (engine_model D.failures self.old) client result (engine_model D.failures self.new) }
        ensures in_order { IsInOrder (engine_model D.failures self.old) → IsInOrder (engine_model D.failures self.new) }
        ensures waiting { waiting_in self.new ≡ waiting_in self.old }
    {
        self.carrier.ends().hand(0, client)
    }

    /// The worker's turn and then the carrier's. Whatever it answers but OutOfOrder, what was done stands, and the lanes and the
    /// slot map are in order between their two ends, behind each of the two. One that moved nothing has left nothing to do.
    pub fn turn(&mut self) -> Result<Turned, EngineFault>
        ensures turns { EngineTurns C.moves (CarrierGoes P.calls D.opens P.longest) (engine_model D.failures self.old) result (engine_model D.failures self.new) }
        ensures rests { EngineRests C.gives_none C.takes_none (GaveNone P.calls) result (engine_model D.failures self.new) }
        ensures served { IfOk result (λ turned. IsTrue turned.served ↔ AreAllServed (engine_model D.failures self.new).worker) }
        ensures due { IfOk result (λ turned. IsFirstDue (waiting_in self.new) turned.next_due) }
        ensures later { IfOk result (λ turned. turned.moved ≡ false → AreAllLater (G.tells self.old.worker.gate.now) (waiting_in self.new)) }
    {
        let worked = self.turn_worker()?;
        let carried = self.turn_carrier()?;
        Ok(Turned {
            moved: worked | carried,
            next_due: self.worker.next_due(),
            served: self.worker.is_served(),
        })
    }

    /// Takes no further client, and reads no further request of those that it has. What was read is answered, and a turn says that all
    /// clients were served once each of them is gone.
    pub fn drain(&mut self)
        ensures worker { Drains (engine_model D.failures self.old).worker (engine_model D.failures self.new).worker }
        ensures carrier { (engine_model D.failures self.new).carrier ≡ (engine_model D.failures self.old).carrier }
        ensures in_order { IsInOrder (engine_model D.failures self.old) → IsInOrder (engine_model D.failures self.new) }
        ensures waiting { waiting_in self.new ≡ waiting_in self.old }
    {
        self.worker.drain();
    }

    /// Puts another port in place of that of the open link to a node, and gives that one back. Where no link to it is open, the
    /// port that was given comes back.
    pub fn swap_port(&mut self, node: NodeId, port: P) -> Result<P, P>
        ensures swaps { SwapOutcome node (engine_model D.failures self.old).carrier port result (engine_model D.failures self.new).carrier }
        ensures worker { (engine_model D.failures self.new).worker ≡ (engine_model D.failures self.old).worker }
    {
        self.carrier.swap_port(node, port)
    }

    /// What dials the nodes.
    pub fn dial(&self) -> &D
        ensures { result.now ≡ dial_in self.now }
    {
        self.carrier.dial()
    }

    /// Gives back the port of each client that the worker still has.
    pub fn end(self, outcome: WorkerOutcome) -> WorkerEnd<C>
        ensures outcome { result.outcome ≡ outcome }
        ensures back { HandsBack (engine_model D.failures self.entry).worker result }
    {
        let Engine { worker, carrier } = self;
        drop(carrier);
        let mut worker = worker;
        worker.end(outcome)
    }

    fn turn_worker(&mut self) -> Result<bool, EngineFault>
        ensures ends { PartEnds (WorkerPart C.moves) (engine_model D.failures self.old) result (engine_model D.failures self.new) }
        ensures rests { PartRests (WorkerRests C.gives_none C.takes_none) result (engine_model D.failures self.new) }
        ensures later { IfOk result (λ moved. moved ≡ false → AreAllLater (G.tells self.old.worker.gate.now) (waiting_in self.new)) }
    {
        let worked = self.worker.turn();
        self.look_after(worked)
    }

    fn turn_carrier(&mut self) -> Result<bool, EngineFault>
        ensures ends { PartEnds (CarrierPart (CarrierGoes P.calls D.opens P.longest)) (engine_model D.failures self.old) result (engine_model D.failures self.new) }
        ensures rests { PartRests (λ left. CarrierRests (GaveNone P.calls) left × IsDrainedOf left) result (engine_model D.failures self.new) }
        ensures waiting { waiting_in self.new ≡ waiting_in self.old }
    {
        let carried = self.carrier.turn();
        self.look_after(carried)
    }

    // A look after one of the two had its turn. Whether it moved something, or something is left to do.
    fn look_after(&mut self, went: Result<bool, NoMemory>) -> Result<bool, EngineFault>
        ensures looks { LookAfter (engine_model D.failures self.old) went result (engine_model D.failures self.new) }
        ensures waiting { waiting_in self.new ≡ waiting_in self.old }
    {
        let left = self.look();
        if !self.sees_front() {
            return Err(EngineFault::OutOfOrder);
        }
        let moved = went?;
        Ok(moved | left)
    }

    // The ends of the lanes look at each other. Whether something is left to do for one of them.
    fn look(&mut self) -> bool
        ensures looks { Looks (engine_model D.failures self.old) result (engine_model D.failures self.new) }
        ensures waiting { waiting_in self.new ≡ waiting_in self.old }
    {
        self.worker.look_beside(self.carrier.ends())
    }

    // Whether what the worker sees of the slot map is a front of what was published. If not, it sees more than that.
    fn sees_front(&mut self) -> bool
        ensures same { engine_model D.failures self.new ≡ engine_model D.failures self.old }
        ensures waiting { waiting_in self.new ≡ waiting_in self.old }
        ensures front { MatchBool result (IsPrefix (engine_model D.failures self.new).worker.view.known (engine_model D.failures self.new).carrier.published) (SeesMore (engine_model D.failures self.new)) }
    {
        match self.carrier.ends().map.tell() {
            Some(front) => self.worker.is_known_in(&front),
            None => false,
        }
    }
}
