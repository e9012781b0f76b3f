//! Commands that travel together.

ghost use Rattle.std.specs.Prelude.{◌≡◌, ◌↔◌, ◌∷◌, ◌++◌, [], IsTrue, All, OnOk, OnErr, Err};
ghost use Rattle.key_split.specs.Runs.{GoTogether, IsTogether, count_in};

use crate::travel::Batch;
use std::alloc::Global;
use std::marker::Model;

/// One client's commands for one slot, which travel to a node together. Where there are several, none of them asks.
pub struct Run {
    first: Batch,
    later: Vec<Batch>,
}

// By hand, so that the crates above prove one call.
impl Drop for Run {
    fn drop(self) {
        let Run { first, later } = self;
        drop(first);
        drop(later);
    }
}

impl Model for Run {
    ghost use Rattle.key_split.specs.Runs.{GoTogether, RunModel};
    ghost use Rattle.std.specs.Prelude.{All};

    ghost Value = { RunModel };

    ghost view = { λ run. record { first = run.first; later = run.later.items } };

    ghost invariant = { λ run. All (GoTogether run.first) run.later.items };
}

impl Run {
    /// A run of one command. Takes no memory: `alloc` is for further ones.
    pub fn one(alloc: Global, batch: Batch) -> Run
        ensures { result ≡ record { first = batch; later = [] } }
    {
        Run {
            first: batch,
            later: Vec::new(alloc),
        }
    }

    /// Whether a command may go behind the others.
    pub fn takes(&self, batch: &Batch) -> bool
        ensures { IsTrue result ↔ GoTogether self.now.first batch.now }
    {
        go_together(&self.first, batch)
    }

    /// Puts a command behind the others. It comes back where memory is wanting.
    pub fn push(&mut self, batch: Batch) -> Result<(), Batch>
        requires { GoTogether self.old.first batch }
        ensures ok { OnOk result (self.new ≡ record self.old { later = self.old.later ++ batch ∷ [] }) }
        ensures err { OnErr result ((self.new ≡ self.old) × (result ≡ Err batch)) }
    {
        if self.later.reserve(1).is_err() {
            return Err(batch);
        }
        self.later.push_reserved(batch);
        Ok(())
    }

    /// How many commands there are.
    pub fn len(&self) -> usize
        ensures { result ≡ count_in self.now }
    {
        self.later.len() + 1
    }

    pub fn first(&self) -> &Batch
        ensures { result.now ≡ self.now.first }
    {
        &self.first
    }

    /// Those behind the first.
    pub fn later(&self) -> &[Batch]
        ensures value { result.now ≡ self.now.later }
        ensures together { IsTogether self.now }
    {
        self.later.as_slice()
    }

    /// The first, and those behind it.
    pub fn into_batches(self) -> (Batch, Vec<Batch>)
        ensures first { result.0 ≡ self.first }
        ensures later { result.1.items ≡ self.later }
    {
        let Run { first, later } = self;
        (first, later)
    }
}

fn go_together(first: &Batch, next: &Batch) -> bool
    ensures { IsTrue result ↔ GoTogether first.now next.now }
{
    next.ticket.worker == first.ticket.worker
        && next.ticket.client == first.ticket.client
        && next.node == first.node
        && next.part.slot() == first.part.slot()
        && !first.asking
        && !next.asking
}
