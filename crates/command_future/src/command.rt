//! One command as a machine, which is stepped by hand.

ghost use Rattle.std.specs.Prelude.{◌≡◌, ◌≤◌, ◌↔◌, List, [], ◌∷◌, ◌++◌, IfOk, MatchOption, MatchResult};
ghost use Rattle.slot_hash.specs.Slot.{slot_of};
ghost use Rattle.command_future.specs.CommandModel.{refused_at};

use crate::stage::{Stage, Want};
use key_split::{Batch, Ended, Part, Ticket, Told};
use resp_wire::NoMemory;
use slot_hash::Slot;
use slot_map::NodeId;
use std::alloc::Global;
use std::marker::Model;

/// How many refusals of one command are followed.
const FOLLOWED: u8 = 16;

/// Whether a command goes on after it was told something.
#[derive(Clone, Copy)]
pub enum Step {
    Again,
    Done,
}

/// A command on its way: it is posted, told something, and posted again after a refusal.
#[derive(Drop)]
pub struct Command {
    ticket: Ticket,
    part: Part,
    followed: u8,
    stage: Stage,
}

impl Model for Command {
    ghost use Rattle.std.specs.Prelude.{◌≤◌};
    ghost use Rattle.command_future.specs.CommandModel.{CommandModel};
    ghost use Rattle.resp_wire.specs.contracts.value.Value as value;
    ghost use Rattle.std.specs.Coded.{codes};

    ghost Value = { CommandModel };

    ghost coded = { Prim.hlevel (codes, value.the_row.coded) };

    ghost view = { λ c. record { ticket = c.ticket; part = c.part; followed = c.followed; stage = c.stage } };

    ghost invariant = { λ c. c.followed ≤ 16 };
}

impl Command {
    ghost use Rattle.command_future.specs.Life.{CommandEvent, IsWanted, IsWantedBatch, IsOpen, HasEnd, told_in};
    ghost use Rattle.command_future.specs.Life.CommandEvent.{Posted, Heard};
    ghost use Rattle.command_future.specs.CommandModel.{fresh, want_at, MayPostTo, batch_of, progress_told, IsOver, HasLived};
    ghost use Rattle.command_future.specs.declared.stage.Stage.TheVariants.{Awaits, Over};

    /// A command that was neither posted nor told anything.
    pub fn new(ticket: Ticket, part: Part) -> Command
        ensures progress { result ≡ fresh ticket part }
        ensures life { HasLived result [] }
    {
        Command {
            ticket,
            part,
            followed: 0,
            stage: Stage::Wants(None),
        }
    }

    pub fn want(&self) -> Want
        ensures progress { result ≡ want_at self.now.stage }
        ensures life { (events : List CommandEvent) → HasLived self.now events → IsWanted events result }
    {
        self.stage.want()
    }

    /// The batch that posts it at this node, with a copy of its part.
    pub fn batch(&self, alloc: Global, node: NodeId) -> Result<Batch, NoMemory>
        requires { MayPostTo self.now.stage node }
        ensures progress { IfOk result (λ batch. batch ≡ batch_of self.now node) }
        ensures life { (events : List CommandEvent) → HasLived self.now events
            → IfOk result (IsWantedBatch self.now.ticket self.now.part events) }
    {
        Ok(Batch {
            ticket: self.ticket,
            node,
            asking: self.stage.asks(),
            part: self.part.copy(alloc)?,
        })
    }

    /// The command was posted at this node.
    pub fn posted(&mut self, node: NodeId)
        requires { MayPostTo self.old.stage node }
        ensures progress { self.new ≡ record self.old { stage = Awaits } }
        ensures life { (events : List CommandEvent) → HasLived self.old events
            → HasLived self.new (events ++ Posted (batch_of self.old node) ∷ []) }
    {
        self.stage = Stage::Awaits;
    }

    /// The command was told this.
    pub fn told(&mut self, told: Told) -> Step
        requires { self.old.stage ≡ Awaits }
        ensures progress { self.new ≡ progress_told self.old told }
        ensures step { (result ≡ Step.Done) ↔ IsOver self.new.stage }
        ensures life { (events : List CommandEvent) → HasLived self.old events
            → HasLived self.new (events ++ Heard told ∷ []) }
    {
        let next = match told {
            Told::Reply(value) => Stage::Over(Ended::Answered(value)),
            Told::Lost => Stage::Over(Ended::Lost),
            Told::Moved(_, node) => { after_refusal(&mut self.followed, Stage::Wants(Some(node))) }
            Told::Ask(_, node) => after_refusal(&mut self.followed, Stage::WantsAsking(node)),
            Told::TryAgain | Told::ClusterDown | Told::Unclear | Told::Unsent => {
                after_refusal(&mut self.followed, Stage::Wants(None))
            }
        };
        let step = match &next {
            Stage::Over(_) => Step::Done,
            _ => Step::Again,
        };
        self.stage = next;
        step
    }

    /// Its ticket and its end, or the command back where it has not ended.
    pub fn finish(self) -> Result<(Ticket, Ended), Command>
        ensures progress { MatchResult result (λ (ticket, end). (ticket ≡ self.ticket) × (self.stage ≡ Over end))
            (λ back. (back ≡ self) × ¬ IsOver self.stage) }
        ensures life { (events : List CommandEvent) → HasLived self events
            → MatchResult result (λ (ticket, end). HasEnd (told_in events) end) (λ back. IsOpen (told_in events)) }
    {
        let Command {
            ticket,
            part,
            followed,
            stage,
        } = self;
        match stage {
            Stage::Over(end) => Ok((ticket, end)),
            stage => Err(Command {
                ticket,
                part,
                followed,
                stage,
            }),
        }
    }

    /// How many refusals it was told and followed.
    pub fn followed(&self) -> u8
        ensures { result ≡ self.now.followed }
    {
        self.followed
    }

    pub fn ticket(&self) -> Ticket
        ensures { result ≡ self.now.ticket }
    {
        self.ticket
    }

    pub fn part(&self) -> &Part
        ensures { result.now ≡ self.now.part }
    {
        &self.part
    }

    /// The slot of its part's keys.
    pub fn slot(&self) -> Slot
        ensures { result ≡ slot_of self.now.part.key }
    {
        self.part.slot()
    }

    /// Its end, where it has one.
    pub fn end(&self) -> Option<&Ended>
        ensures progress { MatchOption result (¬ IsOver self.now.stage) (λ end. self.now.stage ≡ Over end.now) }
        ensures life { (events : List CommandEvent) → HasLived self.now events
            → MatchOption result (IsOpen (told_in events)) (λ end. HasEnd (told_in events) end.now) }
    {
        match &self.stage {
            Stage::Over(end) => Some(end),
            _ => None,
        }
    }
}

/// Where one more refusal leads: on to `next`, or to the end where it is one too many.
fn after_refusal(followed: &mut u8, next: Stage) -> Stage
    requires { followed.old ≤ 16 }
    ensures counted { followed.new ≡ (refused_at followed.old next).0 }
    ensures stage { result ≡ (refused_at followed.old next).1 }
    ensures few { followed.new ≤ 16 }
{
    if *followed == FOLLOWED {
        return Stage::Over(Ended::GaveUp);
    }
    *followed += 1;
    next
}
