//! What becomes of a client's posted commands: they end, or are posted again in their turn.

ghost use Rattle.std.specs.Prelude.{◌≡◌, ◌↔◌, IsTrue, Some, false};
ghost use Rattle.std.specs.FinMap as map;

use super::ClientParts;
use crate::port::ClientPort;
use crate::turned::{Finish, NextStep, Settled};
use crate::uplink::Uplink;
use key_split::Ticket;
use proxy_lanes::Naming;
use resp_wire::NoMemory;

impl<C: ClientPort + Drop> ClientParts<C> {
    ghost use Rattle.std.specs.FinMap as map;
    ghost use Rattle.command_future.specs.CommandModel.{CommandModel, WantsPost};
    ghost use Rattle.session_order.specs.Steps.{IsOut};
    ghost use Rattle.proxy_turns.specs.Commands.{PostsAtResult};
    ghost use Rattle.proxy_turns.specs.ClientRest.{HasNoPlace, IfStill};
    ghost use Rattle.proxy_turns.specs.DueCommands.{IsSettled, IsToSettle, NextStepOf};
    ghost use Rattle.proxy_turns.specs.ClientTurn.{at, FinishOutcome, PostsCommands, SettleOutcome};

    /// Notes the end of the command for the part of this number, where it has one, and tells the session.
    pub(crate) fn finish(&mut self, number: u64) -> Result<Finish, NoMemory>
        ensures { FinishOutcome C.moves self.old number result self.new }
    {
        let Some((ticket, end)) = self.commands.end_of(number) else {
            return Ok(Finish::Open);
        };
        self.port.note(ticket, end)?;
        let (ticket, end) = self.commands.finish(number);
        let next = self.session.next_in_turn(ticket);
        self.replies.end(&end);
        self.session.ended(ticket, end);
        Ok(Finish::Ended(next))
    }

    /// Posts the command for the part of this number again, where it wants that and its turn has come.
    pub(crate) fn repost<J: Naming>(
        &mut self,
        number: u64,
        uplink: &mut Uplink<J>,
    ) -> Result<Settled, NoMemory>
        ensures settles { SettleOutcome C.moves (at self.old uplink.old) result (at self.new uplink.new) }
        ensures settled { IsSettled result (IsToSettle self.new number) uplink.new.outlet }
    {
        if !self.may_repost(number) {
            return Ok(Settled::Nothing);
        }
        if self.post_again(number, uplink)? {
            return Ok(Settled::Posted);
        }
        Ok(Settled::Held)
    }

    /// What the command for the part of this number has to do.
    pub(crate) fn next_step(&self, number: u64) -> NextStep
        ensures { (c : CommandModel) → IsToSettle self.now number c → NextStepOf result c }
    {
        match self.commands.next_step(number) {
            NextStep::Rest => NextStep::Rest,
            NextStep::End => NextStep::End,
            NextStep::Post(pause) => {
                if !self.may_repost(number) {
                    return NextStep::Rest;
                }
                NextStep::Post(pause)
            }
        }
    }

    // Whether the command for the part of this number wants to be posted again, and its turn has come.
    fn may_repost(&self, number: u64) -> bool
        ensures may { IsTrue result ↔ (c : CommandModel) × (map.get self.now.commands.posted number ≡ Some c) × WantsPost c.stage × IsOut self.now.session c.ticket }
        ensures none { result ≡ false → (c : CommandModel) → IsToSettle self.now number c → WantsPost c.stage → ⊥ }
    {
        match self.commands.wants_post(number) {
            Some(ticket) => self.session.is_next(ticket),
            None => false,
        }
    }

    fn post_again<J: Naming>(
        &mut self,
        number: u64,
        uplink: &mut Uplink<J>,
    ) -> Result<bool, NoMemory>
        requires { (c : CommandModel) × (map.get self.old.commands.posted number ≡ Some c) × WantsPost c.stage × IsOut self.old.session c.ticket }
        ensures posts { PostsCommands C.moves (at self.old uplink.old) result (at self.new uplink.new) }
        ensures commands { PostsAtResult self.old.commands number uplink.old.outlet uplink.old.view result self.new.commands uplink.new.outlet uplink.new.view }
        ensures full { IfStill result (HasNoPlace uplink.new.outlet) }
    {
        self.commands.post_again(number, uplink)
    }
}
