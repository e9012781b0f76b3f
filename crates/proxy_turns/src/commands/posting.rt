//! How commands are posted: those that were not posted yet together, and a posted one alone.

ghost use Rattle.std.specs.Prelude.{◌≡◌, ◌≢◌, ◌<◌, ◌≤◌, ◌++◌, [], ◌∷◌, ℕ, Option, Result, All, IfOk, IfSome, MatchOption, OnErr, OnOk, false, length, ⊤};
ghost use Rattle.std.specs.HashMap.{spare};
ghost use Rattle.slot_hash.specs.Slot.{slot_of};
ghost use Rattle.key_split.specs.Runs.{GoTogether};
ghost use Rattle.command_future.specs.CommandModel.{IsFresh, MayPostTo, WantsPost};
ghost use Rattle.proxy_lanes.specs.declared.map_view.NotEntered.{NotEntered};
ghost use Rattle.proxy_turns.specs.ClientRest.{HasNoPlace, IfStill};
ghost use Rattle.proxy_turns.specs.Commands.{AreOneRun, GoesTo, GoesWith, Looks, PostOutcome, PostsAtResult, PostsFreshResult, PostsRun, WantsPostAt, in_table, node_looked_up, run_of, with_posted};

use super::Commands;
use crate::client_limits::KEPT_COMMANDS;
use crate::seed::seed;
use crate::uplink::Uplink;
use command_future::{Command, Want};
use key_split::{Batch, Run};
use proxy_lanes::{MapView, Naming, Outlet};
use resp_wire::NoMemory;
use slot_hash::Slot;
use slot_map::NodeId;
use std::alloc::{AllocFailed, Global};
use std::collections::HashMap;

impl Commands {
    /// Posts the commands that were not posted yet, together, and puts them among the others. True where they were posted.
    pub(crate) fn post_fresh<J: Naming>(&mut self, uplink: &mut Uplink<J>) -> Result<bool, NoMemory>
        requires { AreOneRun self.old.fresh }
        ensures posts { PostsFreshResult self.old uplink.old.outlet uplink.old.view result self.new uplink.new.outlet uplink.new.view }
        ensures full { IfStill result (self.old.fresh ≢ [] → HasNoPlace uplink.new.outlet) }
    {
        self.posted.reserve(self.fresh.len())?;
        let [first, later @ ..] = self.fresh.as_slice() else {
            return Ok(false);
        };
        let Some(node) = aim(first, &mut uplink.view) else {
            return Ok(false);
        };
        let run = run_of(self.alloc, first, later, node)?;
        if !post_run(&mut uplink.outlet, run) {
            return Ok(false);
        }
        keep_posted(&mut self.fresh, &mut self.posted, node);
        free_large(&mut self.fresh);
        Ok(true)
    }

    /// Posts the command for the part of this number again, alone, where it wants that. True where it was posted.
    pub(crate) fn post_again<J: Naming>(
        &mut self,
        number: u64,
        uplink: &mut Uplink<J>,
    ) -> Result<bool, NoMemory>
        ensures posts { PostsAtResult self.old number uplink.old.outlet uplink.old.view result self.new uplink.new.outlet uplink.new.view }
        ensures full { IfStill result (WantsPostAt self.old number → HasNoPlace uplink.new.outlet) }
    {
        let Some(command) = self.posted.get_mut(&number) else {
            return Ok(false);
        };
        post_command(self.alloc, command, uplink)
    }
}

// Frees the room of an empty list where it is for many commands.
fn free_large(commands: &mut Vec<Command>)
    ensures { commands.new.items ≡ commands.old.items }
{
    if commands.is_empty() && commands.capacity() > KEPT_COMMANDS {
        commands.shrink_to_fit();
    }
}

// The commands, on their way to this node together.
fn run_of(alloc: Global, first: &Command, later: &[Command], node: NodeId) -> Result<Run, NoMemory>
    requires first { IsFresh first.now }
    requires later { All (GoesWith first.now) later.now }
    ensures { IfOk result (λ run. run ≡ run_of first.now later.now node) }
{
    let mut run = Run::one(alloc, first.batch(alloc, node)?);
    let mut rest = later;
    while let [next, more @ ..] = rest {
        let batch = next.batch(alloc, node)?;
        push_to(&mut run, batch)?;
        rest = more;
    }
    Ok(run)
}

fn push_to(run: &mut Run, batch: Batch) -> Result<(), NoMemory>
    requires { GoTogether run.old.first batch }
    ensures { OnOk result (run.new ≡ record run.old { later = run.old.later ++ batch ∷ [] }) }
{
    match run.push(batch) {
        Ok(()) => Ok(()),
        Err(_) => Err(NoMemory),
    }
}

// Puts the commands, which were posted at this node, among the others. There is room for them. Their list is used again.
fn keep_posted(commands: &mut Vec<Command>, posted: &mut HashMap<u64, Command>, node: NodeId)
    requires room { length commands.old.items ≤ spare posted.old }
    requires may { All (λ c. MayPostTo c.stage node) commands.old.items }
    ensures none { commands.new.items ≡ [] }
    ensures posted { in_table posted.new.entries ≡ with_posted (in_table posted.old.entries) commands.old.items }
{
    for command in commands.drain(..) {
        keep_one(command, posted, node);
    }
}

// The same for one of them.
fn keep_one(command: Command, posted: &mut HashMap<u64, Command>, node: NodeId)
    requires room { 0 < spare posted.old }
    requires may { MayPostTo command.stage node }
    ensures put { in_table posted.new.entries ≡ with_posted (in_table posted.old.entries) (command ∷ []) }
    ensures room { (n : ℕ) → n < spare posted.old → n ≤ spare posted.new }
{
    let mut command = command;
    command.posted(node);
    let number = command.ticket().part;
    let put: Result<Option<Command>, AllocFailed<(u64, Command)>> = posted.insert(number, command);
    drop(put.unwrap());
}

// Posts the command alone, where it wants that. True where it was posted.
fn post_command<J: Naming>(
    alloc: Global,
    command: &mut Command,
    uplink: &mut Uplink<J>,
) -> Result<bool, NoMemory>
    ensures ok { IfOk result (λ moved. PostOutcome command.old uplink.old.outlet uplink.old.view moved command.new uplink.new.outlet uplink.new.view) }
    ensures err { OnErr result (PostOutcome command.old uplink.old.outlet uplink.old.view false command.new uplink.new.outlet uplink.new.view) }
    ensures full { IfStill result (WantsPost command.old.stage → HasNoPlace uplink.new.outlet) }
{
    let Some(node) = aim(command, &mut uplink.view) else {
        return Ok(false);
    };
    let batch = command.batch(alloc, node)?;
    if !post_run(&mut uplink.outlet, Run::one(alloc, batch)) {
        return Ok(false);
    }
    command.posted(node);
    Ok(true)
}

// The node at which the command wants to be posted.
fn aim<J: Naming>(command: &Command, view: &mut MapView<J>) -> Option<NodeId>
    ensures aims { MatchOption result (view.new ≡ view.old) (λ node. GoesTo command.now.stage (slot_of command.now.part.key) view.old node view.new) }
    ensures may { IfSome result (λ node. MayPostTo command.now.stage node) }
    ensures none { MatchOption result (WantsPost command.now.stage → ⊥) (λ _. ⊤) }
{
    match command.want() {
        Want::Post(_, Some(node)) => Some(node),
        Want::Post(_, None) => Some(node_by_map(view, command.slot())),
        Want::Await => None,
        Want::Finished => None,
    }
}

// Posts the run. False where it came back.
fn post_run(outlet: &mut Outlet<Run>, run: Run) -> bool
    ensures { PostsRun outlet.old run result outlet.new }
{
    match outlet.post(run) {
        Ok(()) => true,
        Err(_) => false,
    }
}

// The node of the slot by the map, or the seed.
fn node_by_map<J: Naming>(view: &mut MapView<J>, slot: Slot) -> NodeId
    ensures { (answer : Result (Option ℕ) NotEntered) × Looks view.old slot answer view.new × (result ≡ node_looked_up answer) }
{
    match view.node_of(slot) {
        Ok(Some(node)) => node,
        Ok(None) => seed(),
        Err(_) => seed(),
    }
}
