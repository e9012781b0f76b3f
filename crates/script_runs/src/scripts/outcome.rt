//! What a run of scripts writes, and its status.

ghost use Rattle.std.specs.Prelude.{◌≡◌, ◌≤◌, ◌<◌, IfOk, length};
ghost use Rattle.cluster_world.specs.Reading.{IsShort};
ghost use Rattle.script_runs.specs.RunText.{Writes, WritesRead, WritesReplies, WritesReport, WritesVerdict};

use crate::local_fault::LocalFault;
use crate::run::run_local;
use crate::scripts::fault::{ReadFault, ScriptsFault};
use crate::scripts::line::Scripts;
use crate::scripts::reading::read_scripts;
use crate::scripts::text::push_replies;
use cluster_world::{INPUT_LIMIT, Input, Outcome, RunReport, bad_line};
use local_cluster::{LocalCluster, LocalState, three_nodes};
use proxy_runtime::Host;
use proxy_turns::Gate;
use resp_wire::NoMemory;
use std::alloc::Global;
use std::thread;

/// A gate that stops no worker.
struct Open;

impl Gate for Open {
    fn pass(&self, _worker: u16, _answered: u64) -> bool {
        true
    }

    fn take_news(&self, news: &mut Vec<u32>) -> Result<(), NoMemory> {
        news.clear();
        Ok(())
    }

    fn time(&self) -> Option<u64> {
        None
    }

    fn next_due(&self, _: Option<u64>) {}

    fn idle(&self) {
        thread::yield_now();
    }
}

/// What is written for an input.
pub(crate) fn outcome_of<R: Host>(
    rt: &R,
    alloc: Global,
    input: Input,
    workers: u16,
) -> Result<Outcome, ScriptsFault>
    requires workers { (0 < workers) × (workers ≤ 64) }
    requires short { IsShort input }
    ensures status { IfOk result (λ outcome. outcome.status ≤ 1) }
    ensures text { IfOk result (λ outcome. WritesRead workers input outcome.status outcome.text.items) }
{
    match input {
        Input::Whole(input) => outcome_of_lines(rt, alloc, &input, workers),
        Input::TooLong => Ok(Outcome::failure(alloc, b"too long\n")?),
        Input::Failed => Ok(Outcome::failure(alloc, b"read failed\n")?),
    }
}

/// What is written for an input that was read whole.
fn outcome_of_lines<R: Host>(
    rt: &R,
    alloc: Global,
    input: &[u8],
    workers: u16,
) -> Result<Outcome, ScriptsFault>
    requires workers { (0 < workers) × (workers ≤ 64) }
    requires short { length input.now ≤ INPUT_LIMIT }
    ensures status { IfOk result (λ outcome. outcome.status ≤ 1) }
    ensures text { IfOk result (λ outcome. Writes workers input.now outcome.status outcome.text.items) }
{
    match read_scripts(alloc, input) {
        Ok(scripts) => play(rt, alloc, &scripts, workers),
        Err(ReadFault::BadLine(number)) => {
            let text = bad_line(alloc, number)?;
            Ok(Outcome { status: 1, text })
        }
        Err(ReadFault::NoMemory) => Err(ScriptsFault::NoMemory),
    }
}

/// Runs the scripts, and reports.
fn play<R: Host>(
    rt: &R,
    alloc: Global,
    scripts: &Scripts,
    workers: u16,
) -> Result<Outcome, ScriptsFault>
    requires workers { (0 < workers) × (workers ≤ 64) }
    requires few { length scripts.now.clients.items ≤ INPUT_LIMIT }
    ensures status { IfOk result (λ outcome. outcome.status ≤ 1) }
    ensures text { IfOk result (λ outcome. WritesReport scripts.now.clients.items workers outcome.status outcome.text.items) }
{
    let Ok(nodes) = three_nodes(alloc) else {
        return Err(ScriptsFault::NoMemory);
    };
    let cluster = LocalCluster::new(alloc, nodes)?;
    let made = run_local(
        rt,
        alloc,
        cluster,
        &scripts.clients,
        &scripts.moves,
        workers,
        &Open,
    );
    verdict_of(alloc, made)
}

/// What is written of a run that was made.
fn verdict_of(
    alloc: Global,
    made: Result<(RunReport, LocalState), LocalFault>,
) -> Result<Outcome, ScriptsFault>
    ensures status { IfOk result (λ outcome. outcome.status ≤ 1) }
    ensures text { IfOk result (λ outcome. WritesVerdict made outcome.status outcome.text.items) }
{
    match made {
        Ok((report, _state)) => report_of(alloc, report, b"audit ok\n", 0),
        Err(LocalFault::Audit(report)) => report_of(alloc, report, b"audit failed\n", 1),
        Err(LocalFault::NoMemory) => Err(ScriptsFault::NoMemory),
        Err(LocalFault::NoThread) => Err(ScriptsFault::NoThread),
    }
}

/// The lines of the replies, and then what the audit says.
fn report_of(
    alloc: Global,
    report: RunReport,
    audit: &[u8],
    status: u8,
) -> Result<Outcome, ScriptsFault>
    ensures { IfOk result (λ outcome. (outcome.status ≡ status) × WritesReplies report audit.now outcome.text.items) }
{
    let text = report_text(alloc, &report, audit)?;
    Ok(Outcome { status, text })
}

fn report_text(alloc: Global, report: &RunReport, audit: &[u8]) -> Result<Vec<u8>, NoMemory>
    ensures { IfOk result (λ text. WritesReplies report.now audit.now text.items) }
{
    let mut text = Vec::new(alloc);
    push_replies(alloc, &mut text, &report.replies)?;
    text.extend_from_slice(audit)?;
    Ok(text)
}
