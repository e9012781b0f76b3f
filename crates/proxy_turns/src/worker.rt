//! A worker, as a future: each poll is one pass of its gate and one turn.

ghost use Rattle.std.specs.Prelude.{◌≡◌, ◌≢◌, ◌↔◌, ℕ, List, IsTrue, MatchBool, OnOk, false, length, true, ⊤};
ghost use Rattle.std.specs.BinaryHeap.{heap_items};
ghost use Rattle.futures.specs.Task.{Covers, Keeps};
ghost use Rattle.futures.specs.Poll.{IfReady, OnPending};
ghost use mathlib.Core.List.{IsPrefix};
ghost use Rattle.proxy_lanes.specs.Carrier.{lanes_of};
ghost use Rattle.proxy_turns.specs.Beside.{HasLanes, LookOutcome};
ghost use Rattle.proxy_turns.specs.Waiting.{AreAllLater, IsFirstDue};
ghost use Rattle.proxy_turns.specs.WorkerModel.{AreAllServed, WorkerTurns};
ghost use Rattle.proxy_turns.specs.ClientRest.{IfStill};
ghost use Rattle.proxy_turns.specs.WorkerRest.{IsWorkerAtRest};
ghost use Rattle.proxy_turns.specs.WorkerDrain.{Drains};
ghost use Rattle.proxy_turns.specs.Worker.{Gives, HandsBack, IsRunning, PollOutcome, StepOutcome, TellsDue, new_worker, paused_in, worker_model};

use crate::gate::Gate;
use crate::newcomer::Newcomer;
use crate::port::ClientPort;
use crate::worker_end::{WorkerEnd, WorkerOutcome};
use crate::worker_state::WorkerState;
use futures::Future;
use futures::task::{Context, Poll};
use proxy_lanes::{CarrierEnds, Front, Naming, WorkerEnds};
use resp_wire::NoMemory;
use std::alloc::Global;

/// A worker over its ends of the lanes, which is to take a number of new clients.
pub struct Worker<'g, C: ClientPort + Drop, J: Naming, G: Gate> {
    gate: &'g G,
    state: WorkerState<C, J>,
    over: bool,
}

// By hand, so that the crates above prove one call.
impl<'g, C: ClientPort + Drop, J: Naming, G: Gate> Drop for Worker<'g, C, J, G> {
    fn drop(self) {
        let Worker {
            gate: _,
            state,
            over: _,
        } = self;
        drop(state);
    }
}

impl<'g, C: ClientPort + Drop, J: Naming, G: Gate> Worker<'g, C, J, G> {
    /// A worker with no client yet. It is to take `clients` new clients, or clients without end; then it keeps no port of a
    /// client that it has let go.
    pub fn new(
        alloc: Global,
        ends: WorkerEnds<Newcomer<C, J>, J>,
        gate: &'g G,
        clients: Option<u32>,
    ) -> Worker<'g, C, J, G>
        ensures model { worker_model result ≡ new_worker ends clients }
        ensures gate { result.gate.now ≡ gate.now }
        ensures can_poll { ⟦<Worker<'g, C, J, G> as Future>⟧.can_poll result }
    {
        Worker {
            gate,
            state: WorkerState::new(alloc, ends, clients),
            over: false,
        }
    }

    /// One turn: takes new clients, tells the commands what came, and serves each client. True where something moved.
    pub fn turn(&mut self) -> Result<bool, NoMemory>
        ensures turns { WorkerTurns C.moves (worker_model self.old) result (worker_model self.new) }
        ensures rests { IfStill result (IsWorkerAtRest C.gives_none C.takes_none (worker_model self.new)) }
        ensures runs { IsRunning self.old → IsRunning self.new }
        ensures pauses { IfStill result (AreAllLater (G.tells self.old.gate.now) (paused_in self.new)) }
        ensures asked { OnOk result ((numbers : List ℕ) × G.names self.old.gate.now numbers) }
    {
        self.state.turn(self.gate)
    }

    /// Takes no further client, and reads no further request of those that it has. What was read is answered, and the worker is
    /// served once each client is gone.
    pub fn drain(&mut self)
        ensures drains { Drains (worker_model self.old) (worker_model self.new) }
        ensures paused { paused_in self.new ≡ paused_in self.old }
        ensures runs { IsRunning self.old → IsRunning self.new }
    {
        self.state.drain();
    }

    /// When the first of the commands that wait is to be posted again, by the gate's time.
    pub fn next_due(&self) -> Option<u64>
        ensures { IsFirstDue (paused_in self.now) result }
    {
        self.state.next_due()
    }

    /// Whether all clients that were to come came, and none is left.
    pub fn is_served(&self) -> bool
        ensures { IsTrue result ↔ AreAllServed (worker_model self.now) }
    {
        self.state.is_served()
    }

    /// Gives all ports back.
    pub fn end(&mut self, outcome: WorkerOutcome) -> WorkerEnd<C>
        ensures outcome { result.outcome ≡ outcome }
        ensures back { HandsBack (worker_model self.old) result }
    {
        self.over = true;
        self.state.end(outcome)
    }

    /// Looks at the carrier's ends of its lanes, where both are in one thread. Whether something is left there that one of them
    /// is to take, or no place was known to be free.
    pub fn look_beside<M: Drop>(&mut self, ends: &mut CarrierEnds<Newcomer<C, J>, M>) -> bool
        requires { HasLanes (worker_model self.old) (lanes_of ends.old) }
        ensures looks { LookOutcome (worker_model self.old) (lanes_of ends.old) result (worker_model self.new) (lanes_of ends.new) }
        ensures map { ends.new.map ≡ ends.old.map }
        ensures paused { paused_in self.new ≡ paused_in self.old }
    {
        self.state.look_beside(ends)
    }

    /// Whether the front has all that the worker's view of the map knows. If not, the view knows more than it.
    pub fn is_known_in(&self, front: &Front<J>) -> bool
        ensures { MatchBool result (IsPrefix (worker_model self.now).view.known front.now)
            (IsPrefix front.now (worker_model self.now).view.known × (length (worker_model self.now).view.known ≢ length front.now)) }
    {
        self.state.is_known_in(front)
    }

    // One pass of the gate, and one turn where it lets the worker go on. What ends the worker, where something does.
    fn step(&mut self) -> Option<WorkerOutcome>
        ensures does { StepOutcome C.moves C.gives_none C.takes_none (G.says self.old.gate.now) (G.rests self.old.gate.now) (worker_model self.old) result (worker_model self.new) }
        ensures due { TellsDue C.moves (G.tells self.old.gate.now) (G.waits self.old.gate.now) (worker_model self.old) result (worker_model self.new) (heap_items self.new.state.due.paused) }
        ensures runs { IsRunning self.old → IsRunning self.new }
    {
        if !self.pass() {
            return Some(WorkerOutcome::Stopped);
        }
        let moved = match self.state.turn(self.gate) {
            Ok(moved) => moved,
            Err(NoMemory) => {
                self.pass();
                return Some(WorkerOutcome::NoMemory);
            }
        };
        if self.state.is_served() {
            self.pass();
            return Some(WorkerOutcome::Served);
        }
        self.gate.posted(self.state.posted());
        if !moved {
            self.gate.next_due(self.state.next_due());
            self.gate.idle();
        }
        None
    }

    fn pass(&self) -> bool
        ensures { G.says self.now.gate.now self.now.state.worker self.now.state.answered result }
    {
        self.gate.pass(self.state.worker, self.state.answered)
    }
}

impl<'g, C: ClientPort + Drop, J: Naming, G: Gate> Future for Worker<'g, C, J, G> {
    type Output = WorkerEnd<C>;

    ghost can_poll = { IsRunning };

    // No source wakes it: each pending poll asks for the next.
    ghost needs = { λ _ _. ⊤ };

    ghost gives = { λ worker end. Gives C.moves (worker_model worker) end };

    fn poll(&mut self, cx: &mut Context<'_>) -> Poll<WorkerEnd<C>>
        requires { IsRunning self.old }
        ensures value { IfReady result (Gives C.moves (worker_model self.old)) }
        ensures again { OnPending result (IsRunning self.new) }
        ensures same { OnPending result ((end : _) → Gives C.moves (worker_model self.new) end → Gives C.moves (worker_model self.old) end) }
        ensures registered { OnPending result (Covers cx.new (λ _. ⊤)) }
        ensures kept { Keeps cx.old cx.new }

        // Beside what a future owes: what one poll did, and a pending one has asked for the next.
        ensures polled { PollOutcome C.moves C.gives_none C.takes_none (G.says self.old.gate.now) (G.rests self.old.gate.now) (worker_model self.old) result (worker_model self.new) }
        ensures woken { OnPending result (cx.new.is_woken ≡ true) }
    {
        match self.step() {
            Some(outcome) => {
                self.over = true;
                Poll::Ready(self.state.end(outcome))
            }
            None => cx.yield_now(),
        }
    }
}
