//! A port that fails after a number of calls.

ghost use Rattle.std.specs.Prelude.{◌≡◌, ◌≤◌, [], ◌∷◌};
ghost use Rattle.key_split.specs.Requests.{Slots, requests_of};
ghost use Rattle.key_split.specs.Runs.{count_in, requests_of_run};
ghost use Rattle.node_link.specs.Port.{SendOutcome, NextOutcome};
ghost use Rattle.node_link.specs.Waiting.{GaveNone};

use crate::port::{NodePort, PortFault};
use crate::run_port::RunPort;
use key_split::{Batch, Run};
use resp_wire::Value;
use std::marker::Model;

/// Passes a number of calls on to its port. From then on each call answers that the port failed, and does not reach it.
#[derive(Drop)]
pub struct Fuse<P> {
    port: P,
    calls: u64,
    blown: u64,
}

impl<P> Model for Fuse<P> {
    ghost use Rattle.node_link.specs.FuseModel.{FuseModel};

    ghost Value = { FuseModel P };

    ghost view = { λ a. record { port = a.port; left = a.calls; blown = a.blown } };
}

impl<P> Fuse<P> {
    pub fn new(port: P, calls: u64) -> Self
        ensures { result ≡ record { port = port; left = calls; blown = 0 } }
    {
        Fuse {
            port,
            calls,
            blown: 0,
        }
    }
}

impl<P> Fuse<P> {
    ghost use Rattle.node_link.specs.FuseModel.{PassOutcome};

    // Whether the next call goes on to the port.
    fn passes(&mut self) -> bool
        ensures { PassOutcome self.old result self.new }
    {
        if self.calls == 0 {
            self.blown = self.blown.saturating_add(1);
            return false;
        }
        self.calls -= 1;
        true
    }
}

impl<P: NodePort> NodePort for Fuse<P> {
    ghost use Rattle.node_link.specs.FuseModel.{FuseOutcome, calls_inside};

    ghost calls = { calls_inside P.calls };

    ghost still = { λ f. P.still f.port };

    fn send(&mut self, batch: &Batch) -> Result<(), PortFault>
        ensures does { SendOutcome (calls_inside P.calls) self.old (requests_of batch.now) result self.new }
        ensures count { (calls_inside P.calls).failures self.old ≤ (calls_inside P.calls).failures self.new }
        ensures fuse { FuseOutcome (λ old given new. SendOutcome P.calls old (requests_of batch.now) given new) self.old result self.new }
    {
        if !self.passes() {
            return Err(PortFault::Failed);
        }
        self.port.send(batch)
    }

    fn ask_slots(&mut self) -> Result<(), PortFault>
        ensures does { SendOutcome (calls_inside P.calls) self.old (Slots ∷ []) result self.new }
        ensures count { (calls_inside P.calls).failures self.old ≤ (calls_inside P.calls).failures self.new }
        ensures fuse { FuseOutcome (λ old given new. SendOutcome P.calls old (Slots ∷ []) given new) self.old result self.new }
    {
        if !self.passes() {
            return Err(PortFault::Failed);
        }
        self.port.ask_slots()
    }

    fn owes(&self, replies: bool) {
        self.port.owes(replies);
    }

    fn next(&mut self) -> Result<Option<Value>, PortFault>
        ensures does { NextOutcome (calls_inside P.calls) self.old result self.new }
        ensures count { (calls_inside P.calls).failures self.old ≤ (calls_inside P.calls).failures self.new }
        ensures fuse { FuseOutcome (NextOutcome P.calls) self.old result self.new }
        ensures none { GaveNone result → (calls_inside P.calls).gives_none self.new }
    {
        if !self.passes() {
            return Err(PortFault::Failed);
        }
        self.port.next()
    }
}

impl<P: RunPort> RunPort for Fuse<P> {
    ghost use Rattle.node_link.specs.FuseModel.{FuseOutcome, calls_inside};

    ghost longest = { λ f. P.longest f.port };

    fn longest_run(&self) -> usize {
        self.port.longest_run()
    }

    fn send_run(&mut self, run: &Run) -> Result<(), PortFault>
        requires { count_in run.now ≤ P.longest self.old.port }
        ensures does { SendOutcome (calls_inside P.calls) self.old (requests_of_run run.now) result self.new }
        ensures count { (calls_inside P.calls).failures self.old ≤ (calls_inside P.calls).failures self.new }
        ensures fuse { FuseOutcome (λ old given new. SendOutcome P.calls old (requests_of_run run.now) given new) self.old result self.new }
    {
        if !self.passes() {
            return Err(PortFault::Failed);
        }
        self.port.send_run(run)
    }
}
