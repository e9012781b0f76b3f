ghost use Rattle.std.specs.Prelude.{◌≡◌, ⊤, true, IsSome, IsSomeAnd};
ghost use Rattle.futures.specs.Task.{Covers, Keeps};
ghost use Rattle.futures.specs.Poll.{IfReady, OnPending};
ghost use Rattle.key_split.specs.declared.travel.Ticket.{Ticket};
ghost use Rattle.key_split.specs.declared.travel.Ended.{Ended};
ghost use Rattle.command_future.specs.CommandModel.{IsFresh};
ghost use Rattle.command_future.specs.Carried.{Advances, Carries, Fulfils, Gives};

use crate::command::Command;
use crate::courier::{Courier, Posting};
use crate::stage::Want;
use futures::Future;
use futures::task::{Context, Poll};
use key_split::{Ended, Ticket};

/// One command as a future, carried by a courier to its end.
#[derive(Drop)]
pub struct OneCommand<'a, P> {
    // `None` once it has ended.
    command: Option<Command>,
    courier: &'a mut P,
}

impl<'a, P: Courier> OneCommand<'a, P> {
    /// Carries a command that was neither posted nor told anything.
    pub fn new(command: Command, courier: &'a mut P) -> OneCommand<'a, P>
        requires { IsFresh command }
        ensures can_poll { ⟦<OneCommand<'a, P> as Future>⟧.can_poll result }
        ensures gives { (out : Ticket × Ended) → ⟦<OneCommand<'a, P> as Future>⟧.gives result out
            → Fulfils P.posts P.tells P.rests command.ticket command.part courier.old out }
    {
        OneCommand {
            command: Some(command),
            courier,
        }
    }
}

impl<P: Courier> Future for OneCommand<'_, P> {
    type Output = (Ticket, Ended);

    ghost can_poll = { λ m. IsSome m.command };

    // No source wakes it: each pending poll asks for the next.
    ghost needs = { λ _ _. ⊤ };

    ghost gives = { λ m out. IsSomeAnd m.command (λ c. Gives P.posts P.tells P.rests c m.courier.now out) };

    fn poll(&mut self, cx: &mut Context<'_>) -> Poll<(Ticket, Ended)>
        requires { IsSome self.old.command }
        ensures value { IfReady result (λ out. IsSomeAnd self.old.command
            (λ c. Gives P.posts P.tells P.rests c self.old.courier.now out)) }
        ensures again { OnPending result (IsSome self.new.command) }
        ensures same { OnPending result ((out : _)
            → IsSomeAnd self.new.command (λ c. Gives P.posts P.tells P.rests c self.new.courier.now out)
            → IsSomeAnd self.old.command (λ c. Gives P.posts P.tells P.rests c self.old.courier.now out)) }
        ensures registered { OnPending result (Covers cx.new (λ _. ⊤)) }
        ensures kept { Keeps cx.old cx.new }

        // Beside what a future owes: each poll posts only as the command wants, and a pending one has asked for the next.
        ensures carried { IsSomeAnd self.old.command
            (λ c. Carries P.posts P.tells P.rests c self.old.courier.now self.new.courier.now) }
        ensures woken { OnPending result (cx.new.is_woken ≡ true) }
    {
        let mut command = self.command.take().unwrap();
        advance(&mut command, self.courier);
        match command.finish() {
            Ok(end) => Poll::Ready(end),
            Err(command) => {
                self.command = Some(command);
                cx.yield_now()
            }
        }
    }
}

// One call of the courier: a post where the command wants one, and what there is to tell where it awaits that.
fn advance<P: Courier>(command: &mut Command, courier: &mut P)
    ensures { Advances P.posts P.tells P.rests command.old courier.old command.new courier.new }
{
    match command.want() {
        Want::Post(_, _) => match courier.post(command) {
            Posting::Sent(node) => command.posted(node),
            Posting::Later => {}
        },
        Want::Await => match courier.told(command.ticket()) {
            Some(told) => {
                command.told(told);
            }
            None => {}
        },
        Want::Finished => {}
    }
}
