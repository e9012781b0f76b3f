//! What the nodes executed, kept by the code or by proofs alone.

ghost use Rattle.std.specs.Prelude.{◌≡◌, ◌<◌, List, [], length, vec_capacity, vec_len, zip};
ghost use Rattle.node_model.specs.History.{EntryModel};
ghost use Rattle.local_cluster.specs.Foresight.{IsCopy};
ghost use Rattle.local_cluster.specs.Local.{history_after, ServesNoted};
ghost use Rattle.local_cluster.specs.LocalRuns.{history_after_run};

use crate::foresight::serve_twice;
use crate::room::make_room;
use http_server::Log;
use key_split::{Batch, Part, Ticket, Told};
use node_model::{Cluster, ServeFault, Verdict};
use resp_wire::Value;
use std::alloc::Global;
use world_laws::Entry;

/// What the nodes executed, in order.
pub trait History: Drop {
    /// Its entries; an entry's moment is its place, from 1.
    ghost entries: { Self → List EntryModel };

    /// Nothing was executed.
    fn new(alloc: Global) -> Self
        ensures { entries result ≡ [] };

    /// Serves a request at its node, and adds the entry of one that is told a reply.
    fn serve(
        &mut self,
        alloc: Global,
        cluster: &mut Cluster,
        batch: &Batch,
        asking: bool,
    ) -> Result<Told, ServeFault>
        requires { batch.now.node < length cluster.old.stores }
        ensures { ServesNoted cluster.old (entries self.old) batch.now asking result cluster.new (entries self.new) };
}

impl History for Vec<Entry> {
    ghost entries = { λ history. history.items };

    fn new(alloc: Global) -> Vec<Entry> {
        Vec::new(alloc)
    }

    fn serve(
        &mut self,
        alloc: Global,
        cluster: &mut Cluster,
        batch: &Batch,
        asking: bool,
    ) -> Result<Told, ServeFault> {
        make_room(self)?;
        let part = batch.part.copy(alloc)?;
        let (told, copy) = serve_twice(alloc, cluster, batch, asking)?;
        keep(self, batch, part, &told, copy);
        Ok(told)
    }
}

/// A history that proofs alone read: it takes no memory.
#[derive(Drop)]
pub struct GhostHistory {
    /// The commands that were served for a ticket, with what each was told.
    told: Log<Ticket, Log<Part, Told>>,
}

impl History for GhostHistory {
    ghost use Rattle.std.specs.Prelude.{fold};
    ghost use Rattle.local_cluster.specs.LocalRuns.{history_after_run};

    ghost entries = { λ history. fold (λ so_far each. history_after_run so_far each.0 (each.1).items) [] history.told.items };

    fn new(_: Global) -> GhostHistory {
        GhostHistory { told: Log::new() }
    }

    fn serve(
        &mut self,
        _: Global,
        cluster: &mut Cluster,
        batch: &Batch,
        asking: bool,
    ) -> Result<Told, ServeFault> {
        let told = cluster.serve(batch.node, asking, &batch.part, Verdict::Plain)?;
        self.note(batch, &told);
        Ok(told)
    }
}

impl GhostHistory {
    /// Notes what a command was told.
    fn note(&mut self, batch: &Batch, told: &Told)
        ensures { ⟦<GhostHistory as History>⟧.entries self.new ≡ history_after (⟦<GhostHistory as History>⟧.entries self.old) batch.now told.now }
    {
        let command = Log::new().and(&batch.part, told);
        self.told = self.told.and(&batch.ticket, &command);
    }

    /// Notes what the commands of a run were told.
    pub(crate) fn note_run(&mut self, ticket: Ticket, parts: &[Part], tolds: &[Told])
        ensures { ⟦<GhostHistory as History>⟧.entries self.new ≡ history_after_run (⟦<GhostHistory as History>⟧.entries self.old) ticket (zip parts.now tolds.now) }
    {
        let run = told_each(parts, tolds);
        self.told = self.told.and(&ticket, &run);
    }
}

/// The commands, in order, with what each was told.
fn told_each(parts: &[Part], tolds: &[Told]) -> Log<Part, Told>
    ensures { result.items ≡ zip parts.now tolds.now }
{
    let mut log = Log::new();
    let mut commands = parts;
    let mut said = tolds;
    while let [part, further @ ..] = commands {
        let [told, later @ ..] = said else {
            return log;
        };
        log = log.and(part, told);
        commands = further;
        said = later;
    }
    log
}

/// Adds the entry of a request that was told a reply. There is room for it; `part` and `copy` are those to keep.
fn keep(history: &mut Vec<Entry>, batch: &Batch, part: Part, told: &Told, copy: Option<Value>)
    requires room { vec_len history.old < vec_capacity history.old }
    requires same_part { part ≡ batch.now.part }
    requires same_reply { IsCopy told.now copy }
    ensures { history.new.items ≡ history_after history.old.items batch.now told.now }
{
    match told {
        Told::Reply(_) => {
            if let Some(reply) = copy {
                let moment = history.len() as u64 + 1;
                history.push_reserved(Entry {
                    ticket: batch.ticket,
                    part,
                    reply,
                    moment,
                });
            }
        }
        Told::Moved(_, _)
        | Told::Ask(_, _)
        | Told::TryAgain
        | Told::ClusterDown
        | Told::Unclear
        | Told::Lost
        | Told::Unsent => {}
    }
}
