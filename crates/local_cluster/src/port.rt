//! A connection to a node of a cluster in one process.

use crate::answer::{LocalRequest, answer, keep};
use crate::cluster::LocalCluster;
use key_split::{Batch, Run, Told};
use node_link::{NodePort, PortFault, RunPort};
use resp_wire::{NoMemory, Value};
use slot_map::NodeId;
use std::alloc::Global;
use std::collections::VecDeque;
use std::marker::Model;
use std::sync::Wait;

/// A connection to a node of a cluster in one process. What is sent waits; each `next` serves the oldest request, in one hold of
/// the lock, so that moves come in between sending and serving. It never fails.
#[derive(Drop)]
pub struct LocalPort<'c, R> {
    alloc: Global,
    rt: R,
    cluster: &'c LocalCluster,
    node: NodeId,
    asking: bool,
    waiting: VecDeque<LocalRequest>,
    // What the oldest request was told, where that is not written yet.
    told: Option<Told>,
}

impl<'c, R> Model for LocalPort<'c, R> {
    ghost use Rattle.std.specs.Prelude.{map};
    ghost use Rattle.local_cluster.specs.Conversation.{LocalPortModel, OldestWasTold};
    ghost use Rattle.local_cluster.specs.Waiting.{request_of};

    ghost Value = { LocalPortModel };

    ghost view = { λ p. record { node = p.node; asking = p.asking; waiting = map request_of p.waiting.items } };

    ghost invariant = { λ p. OldestWasTold p.node p.asking (map request_of p.waiting.items) p.told };
}

impl<'c, R> LocalPort<'c, R> {
    ghost use Rattle.std.specs.Prelude.{◌≡◌, ◌∷◌, []};
    ghost use Rattle.key_split.specs.Requests.{requests_of, Slots};
    ghost use Rattle.local_cluster.specs.Conversation.{KeepOutcome, fresh_with};

    /// A connection over which nothing was sent.
    pub(crate) fn new(
        alloc: Global,
        rt: R,
        cluster: &'c LocalCluster,
        node: NodeId,
    ) -> LocalPort<'c, R>
        ensures { result ≡ fresh_with node }
    {
        LocalPort {
            alloc,
            rt,
            cluster,
            node,
            asking: false,
            waiting: VecDeque::new(alloc),
            told: None,
        }
    }

    // Lets a batch wait.
    fn keep(&mut self, batch: &Batch) -> Result<(), NoMemory>
        ensures { KeepOutcome self.old (requests_of batch.now) result self.new }
    {
        keep(self.alloc, &mut self.waiting, batch)
    }

    // Lets CLUSTER SLOTS wait.
    fn keep_slots(&mut self) -> Result<(), NoMemory>
        ensures { KeepOutcome self.old (Slots ∷ []) result self.new }
    {
        self.waiting.reserve(1)?;
        self.waiting.push_back_reserved(LocalRequest::Slots);
        Ok(())
    }
}

impl<'c, R: Wait> LocalPort<'c, R> {
    ghost use Rattle.local_cluster.specs.Conversation.{AnswerOutcome};

    // Answers the oldest request, where one waits.
    fn answer_oldest(&mut self) -> Result<Option<Value>, NoMemory>
        ensures { AnswerOutcome self.old result self.new }
    {
        let Some(request) = self.waiting.front() else {
            return Ok(None);
        };
        let value = answer(
            self.alloc,
            &self.rt,
            self.cluster,
            self.node,
            self.asking,
            request,
            &mut self.told,
        )?;
        self.asking = request.asks_next();
        drop(self.waiting.pop_front());
        Ok(Some(value))
    }
}

impl<'c, R: Wait> NodePort for LocalPort<'c, R> {
    ghost use Rattle.std.specs.Prelude.{◌≡◌, [], refl};
    ghost use Rattle.std.proofs.lemmas.List.{append-nil};
    ghost use Rattle.local_cluster.specs.Conversation.{Converses};

    // It never fails, and gives none where no request waits.
    ghost calls = { record { failures = λ _. 0; is_garbled = λ _. ⊥; exchange = Converses; gives_none = λ p. p.waiting ≡ [] } };

    ghost still = { λ p. ([], append-nil p.waiting, refl, refl) };

    fn send(&mut self, batch: &Batch) -> Result<(), PortFault> {
        match self.keep(batch) {
            Ok(()) => Ok(()),
            Err(NoMemory) => Err(PortFault::NoMemory),
        }
    }

    fn ask_slots(&mut self) -> Result<(), PortFault> {
        match self.keep_slots() {
            Ok(()) => Ok(()),
            Err(NoMemory) => Err(PortFault::NoMemory),
        }
    }

    fn next(&mut self) -> Result<Option<Value>, PortFault> {
        match self.answer_oldest() {
            Ok(value) => Ok(value),
            Err(NoMemory) => Err(PortFault::NoMemory),
        }
    }
}

/// Runs of one command: what is sent is served request by request.
impl<'c, R: Wait> RunPort for LocalPort<'c, R> {
    ghost longest = { λ _. 1 };

    fn longest_run(&self) -> usize {
        1
    }

    fn send_run(&mut self, run: &Run) -> Result<(), PortFault> {
        self.send(run.first())
    }
}
