ghost use Rattle.std.specs.Prelude.{MatchOption};
ghost use Rattle.key_split.specs.declared.travel.Batch.{Batch};
ghost use Rattle.key_split.specs.declared.travel.Ticket.{Ticket};
ghost use Rattle.key_split.specs.declared.travel.Told.{Told};
ghost use Rattle.command_future.specs.CommandModel.{WantsPost};
ghost use Rattle.command_future.specs.Carried.{Posts};

use crate::command::Command;
use key_split::{Ticket, Told};
use slot_map::NodeId;

/// What became of a command that wants to be posted.
#[derive(Clone, Copy, Drop)]
pub enum Posting {
    /// It was posted at this node.
    Sent(NodeId),
    /// Nothing was posted.
    Later,
}

/// Carries commands to nodes, and brings back what is told of them.
pub trait Courier {
    // From the first state to the second this batch was posted, and nothing else.
    ghost posts: { Self → Batch → Self → Type 0 };

    // From the first state to the second this was told for the ticket, and nothing was posted.
    ghost tells: { Self → Ticket → Told → Self → Type 0 };

    // From the first state to the second nothing was posted or told.
    ghost rests: { Self → Self → Type 0 };

    fn post(&mut self, command: &Command) -> Posting
        requires { WantsPost command.now.stage }
        ensures { Posts posts tells rests self.old command.now result self.new };

    fn told(&mut self, ticket: Ticket) -> Option<Told>
        ensures { MatchOption result (rests self.old self.new) (λ told. tells self.old ticket told self.new) };
}
