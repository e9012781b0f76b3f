//! Judges what the threads of a run hand back, by the scripts that they were given.

ghost use Rattle.std.specs.Prelude.{◌≡◌, ◌↔◌, ◌<◌, ◌≤◌, ◌^◌, List, IfOk, IsTrue, length};
ghost use Rattle.local_cluster.specs.Local.{LocalStateModel};
ghost use Rattle.script_runs.specs.Judged.{Judges, Reports};
ghost use Rattle.script_runs.specs.Requests.{Requested};
ghost use Rattle.script_runs.specs.Run.{parts_from, AreAnswered, AskFor};

use crate::clients::{gather, replay_all};
use crate::local_fault::LocalFault;
use crate::record::RunRecord;
use cluster_world::{Entry, RunReport, audit};
use local_cluster::LocalState;
use resp_wire::{Bytes, NoMemory};
use std::alloc::Global;

/// The report of a run, with its state, where it is lawful and of these scripts.
pub(crate) fn judge(
    alloc: Global,
    scripts: &[Bytes],
    workers: u16,
    run: RunRecord,
    state: LocalState,
) -> Result<(RunReport, LocalState), LocalFault>
    requires some { 0 < workers }
    requires few { length scripts.now ≤ 2 ^ 32 }
    ensures { Judges scripts.now workers run state result }
{
    let (report, are_answered) = report_of_run(alloc, scripts, workers, run, state.history())?;
    if !are_answered {
        return Err(LocalFault::Audit(report));
    }
    if !audit(alloc, &report)? {
        return Err(LocalFault::Audit(report));
    }
    Ok((report, state))
}

/// The report of a run with this history, and whether each client was answered as its script and the ends say.
fn report_of_run(
    alloc: Global,
    scripts: &[Bytes],
    workers: u16,
    run: RunRecord,
    history: &[Entry],
) -> Result<(RunReport, bool), NoMemory>
    requires some { 0 < workers }
    requires few { length scripts.now ≤ 2 ^ 32 }
    ensures reports { IfOk result (λ made. (state : LocalStateModel) → history.now ≡ state.history → Reports (length scripts.now) run state made.0) }
    ensures found { IfOk result (λ made. (asked : List Requested) × AskFor scripts.now asked × (made.0.parts.items ≡ parts_from workers 0 asked)
        × (IsTrue made.1 ↔ AreAnswered workers made.0.stopped.items made.0.ends.items 0 asked made.0.replies.items)) }
{
    let RunRecord {
        clients,
        skipped,
        stopped,
    } = run;
    let (replies, ends) = gather(alloc, scripts.len(), clients)?;
    let history = copy_of(alloc, history)?;
    let (parts, are_answered) = replay_all(alloc, scripts, workers, &stopped, &ends, &replies)?;
    let report = RunReport {
        parts,
        ends,
        history,
        replies,
        skipped,
        stopped,
    };
    Ok((report, are_answered))
}

/// A history in memory of its own.
fn copy_of(alloc: Global, history: &[Entry]) -> Result<Vec<Entry>, NoMemory>
    ensures { IfOk result (λ copy. copy.items ≡ history.now) }
{
    let mut copy = Vec::with_capacity(alloc, history.len())?;
    for entry in history {
        copy.push_reserved(copy_entry(alloc, entry)?);
    }
    Ok(copy)
}

fn copy_entry(alloc: Global, entry: &Entry) -> Result<Entry, NoMemory>
    ensures { IfOk result (λ copy. copy ≡ entry.now) }
{
    Ok(Entry {
        ticket: entry.ticket,
        part: entry.part.copy(alloc)?,
        reply: entry.reply.copy(alloc)?,
        moment: entry.moment,
    })
}
