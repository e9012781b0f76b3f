//! The state behind the lock of a cluster in one process.

ghost use Rattle.std.specs.Prelude.{◌≡◌, ◌↔◌, IfOk, IsTrue, [], length};
ghost use Rattle.node_model.specs.Runs.{HaveOneSlot};
ghost use Rattle.world_laws.specs.Headline.{IsNew};
ghost use Rattle.local_cluster.specs.Local.{AsksAllow, IsSound, NoneAsked, ServesLocally, Steps};
ghost use Rattle.local_cluster.specs.LocalRuns.{ServesRunLocally};

use crate::asked::Asked;
use crate::histories::{GhostHistory, History};
use crate::moves::make_step;
use crate::notes::{counts_as_asking, note};
use crate::room::make_room;
use crate::step::MoveStep;
use key_split::{Batch, Part, Ticket, Told};
use node_model::{Cluster, MoveFault, ServeFault, Verdict};
use slot_hash::Slot;
use slot_map::NodeId;
use std::alloc::Global;
use std::marker::Model;
use world_laws::Entry;

/// The nodes, what they executed, and the ASKs that no request has followed.
pub struct LocalState<H: History = Vec<Entry>> {
    alloc: Global,
    cluster: Cluster,
    history: H,
    asks: Vec<Asked>,
}

// By hand, so that the crates above prove one call.
impl<H: History> Drop for LocalState<H> {
    fn drop(self) {
        let LocalState {
            alloc: _,
            cluster,
            history,
            asks,
        } = self;
        drop(cluster);
        drop(history);
        drop(asks);
    }
}

impl<H: History> Model for LocalState<H> {
    ghost use Rattle.node_model.specs.Nodes.{nodes_code};
    ghost use Rattle.resp_wire.specs.Stored.{coded_data};
    ghost use Rattle.std.specs.Coded.{codes};
    ghost use Rattle.local_cluster.specs.Local.{LocalStateModel};
    ghost use Rattle.local_cluster.specs.Kept.{IsKept};

    ghost Value = { LocalStateModel };

    ghost coded = { Prim.hlevel (codes, coded_data, nodes_code) };

    ghost view = { λ s. record { nodes = s.cluster; history = H.entries s.history; asks = s.asks.items } };

    ghost invariant = { λ s. IsKept (record { nodes = s.cluster; history = H.entries s.history; asks = s.asks.items }) };
}

impl<H: History> LocalState<H> {
    /// The state of a new cluster: its slots are settled, and it holds no key.
    pub fn new(alloc: Global, cluster: Cluster) -> LocalState<H>
        requires { IsNew cluster }
        ensures { result ≡ record { nodes = cluster; history = []; asks = [] } }
    {
        crate::laws::is_sound();
        LocalState {
            alloc,
            cluster,
            history: H::new(alloc),
            asks: Vec::new(alloc),
        }
    }

    pub fn cluster(&self) -> &Cluster
        ensures value { result.now ≡ self.now.nodes }
        ensures sound { IsSound self.now }
    {
        &self.cluster
    }

    /// Serves a request at its node, and notes what it was told.
    pub fn serve(&mut self, batch: &Batch) -> Result<Told, ServeFault>
        ensures { ServesLocally self.old batch.now result self.new }
    {
        let _slot = batch.part.slot();
        drop(
            self.cluster
                .serve(batch.node, false, &batch.part, Verdict::TryAgain)?,
        );
        make_room(&mut self.asks)?;
        let part = batch.part.copy(self.alloc)?;
        let asking = counts_as_asking(&self.asks, batch);
        let told = self
            .history
            .serve(self.alloc, &mut self.cluster, batch, asking)?;
        note(&mut self.asks, batch, part, &told);
        Ok(told)
    }

    /// Makes a step of a slot's move.
    pub fn step(&mut self, step: &MoveStep) -> Result<(), MoveFault>
        ensures { Steps self.old step.now result self.new }
    {
        if !asks_allow(&self.asks, step) {
            return Err(MoveFault::NotNow);
        }
        make_step(self.alloc, &mut self.cluster, step)
    }
}

impl LocalState {
    /// What the nodes executed, in order; an entry's moment is its place, from 1.
    pub fn history(&self) -> &[Entry]
        ensures value { result.now ≡ self.now.history }
        ensures sound { IsSound self.now }
    {
        self.history.as_slice()
    }
}

impl LocalState<GhostHistory> {
    /// Serves commands of one slot at a node: it executes all of them, in order and at once, or none, and each is told
    /// something. What was executed is noted as the ticket's.
    pub fn serve_run(
        &mut self,
        ticket: Ticket,
        node: NodeId,
        parts: &[Part],
    ) -> Result<Vec<Told>, ServeFault>
        requires { HaveOneSlot parts.now }
        ensures served { ServesRunLocally self.old ticket node parts.now result self.new }
        ensures count { IfOk result (λ tolds. length tolds.items ≡ length parts.now) }
    {
        let tolds = self.cluster.serve_run(node, false, parts, Verdict::Plain)?;
        self.history.note_run(ticket, parts, tolds.as_slice());
        Ok(tolds)
    }
}

/// Whether the ASKs that may still be followed allow the step.
fn asks_allow(asks: &[Asked], step: &MoveStep) -> bool
    ensures { IsTrue result ↔ AsksAllow asks.now step.now }
{
    match step {
        MoveStep::Import(slot, target) => none_asked(asks, *slot, *target),
        MoveStep::Migrate(_)
        | MoveStep::MoveKey(_, _)
        | MoveStep::MoveRest(_)
        | MoveStep::Own(_)
        | MoveStep::Release(_)
        | MoveStep::Forget(_)
        | MoveStep::Stay(_) => true,
    }
}

/// Whether no ASK for the slot to the node is still to be followed.
fn none_asked(asks: &[Asked], slot: Slot, node: NodeId) -> bool
    ensures { IsTrue result ↔ NoneAsked asks.now slot node }
{
    asks.iter()
        .all(|asked| asked.part.slot() != slot || asked.node != node)
}
