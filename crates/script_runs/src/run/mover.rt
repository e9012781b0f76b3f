//! The mover's thread: slots move while clients are served.

ghost use Rattle.std.specs.Prelude.{◌≡◌, ◌≤◌, IfOk, OnOk, false};
ghost use Rattle.script_runs.specs.Mover.{AllEnd, Ends, WasMade, skips};

use super::stop::{Flag, Signals};
use local_cluster::{LocalCluster, MoveStep};
use node_model::MoveFault;
use std::sync::Wait;
use std::thread;

/// How often a step that is not allowed is tried before it is skipped.
const TRIES: u32 = 1_000;

/// Why the steps did not come to their end.
#[derive(Clone, Copy)]
pub(crate) enum MoverFault {
    NoMemory,
    /// Another thread ended the run.
    Stopped,
}

/// Makes all steps in order, and answers how many were skipped. Want of memory ends all other threads too.
pub(crate) fn make_moves<R: Wait>(
    rt: &R,
    cluster: &LocalCluster,
    moves: &[MoveStep],
    signals: &Signals,
) -> Result<u64, MoverFault>
    ensures { IfOk result (AllEnd moves.now) }
{
    let made = make_all(rt, cluster, moves, &signals.stop);
    if made.is_err() {
        signals.stop.raise();
    }
    signals.thread_ended();
    made
}

fn make_all<R: Wait>(
    rt: &R,
    cluster: &LocalCluster,
    moves: &[MoveStep],
    stop: &Flag,
) -> Result<u64, MoverFault>
    ensures { IfOk result (AllEnd moves.now) }
{
    let mut skipped: u64 = 0;
    for step in moves {
        let made = finish_step(rt, cluster, step, stop)?;
        skipped += count_skipped(made);
    }
    Ok(skipped)
}

fn count_skipped(made: bool) -> u64
    ensures value { result ≡ skips made }
    ensures one { result ≤ 1 }
{
    if made { 0 } else { 1 }
}

/// Brings a step to its end. False where it is skipped.
fn finish_step<R: Wait>(
    rt: &R,
    cluster: &LocalCluster,
    step: &MoveStep,
    stop: &Flag,
) -> Result<bool, MoverFault>
    ensures { IfOk result (Ends step.now) }
{
    match step {
        MoveStep::MoveRest(_) => {
            move_keys(rt, cluster, step, stop)?;
            Ok(true)
        }
        _ => try_often(rt, cluster, step, stop),
    }
}

/// Moves one key in each hold of the lock, until none is left.
fn move_keys<R: Wait>(
    rt: &R,
    cluster: &LocalCluster,
    step: &MoveStep,
    stop: &Flag,
) -> Result<(), MoverFault>
    ensures { OnOk result (WasMade step.now false) }
{
    for _ in rt.forever() {
        if !try_again(rt, cluster, step, stop)? {
            return Ok(());
        }
        thread::yield_now();
    }
    unreachable!()
}

/// Tries a step until it is made, and waits longer after each try. False where the last try was not allowed either.
fn try_often<R: Wait>(
    rt: &R,
    cluster: &LocalCluster,
    step: &MoveStep,
    stop: &Flag,
) -> Result<bool, MoverFault>
    ensures { IfOk result (WasMade step.now) }
{
    for tries in 1..TRIES {
        if try_again(rt, cluster, step, stop)? {
            return Ok(true);
        }
        yield_often(tries);
    }
    try_once(rt, cluster, step)
}

/// Lets other threads run, so often.
fn yield_often(turns: u32) {
    for _ in 0..turns {
        thread::yield_now();
    }
}

/// Tries a step, unless another thread ended the run. False where it is not allowed now.
fn try_again<R: Wait>(
    rt: &R,
    cluster: &LocalCluster,
    step: &MoveStep,
    stop: &Flag,
) -> Result<bool, MoverFault>
    ensures { IfOk result (WasMade step.now) }
{
    if stop.is_raised() {
        return Err(MoverFault::Stopped);
    }
    try_once(rt, cluster, step)
}

/// Tries a step in one hold of the lock. False where it is not allowed now.
fn try_once<R: Wait>(rt: &R, cluster: &LocalCluster, step: &MoveStep) -> Result<bool, MoverFault>
    ensures { IfOk result (WasMade step.now) }
{
    match cluster.try_step(rt, step) {
        Ok(()) => Ok(true),
        Err(MoveFault::NotNow) => Ok(false),
        Err(MoveFault::NoMemory) => Err(MoverFault::NoMemory),
    }
}
